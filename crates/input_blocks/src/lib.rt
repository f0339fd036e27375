//! Inputs of lines that are read a block at a time, each by a reader of lines: what was read is given back, but for
//! the beginning of a line.
#![tactic(auto)]

mod begun_line;
mod block;
mod block_source;
mod companion;
mod entries;
mod line_blocks;
mod line_reader;
mod passing;
mod reading;
mod to_end;
mod trace;

pub use block_source::BlockSource;
pub use line_blocks::LineBlocks;
pub use line_reader::LineReader;
pub use passing::Passing;
pub use to_end::read_to_end;
pub use trace::read_lines;
