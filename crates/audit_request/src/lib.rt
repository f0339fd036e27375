//! What is asked of an audit: a command line's words, as clap reads them.
#![tactic(auto)]

mod color;
mod command_words;
mod request;

pub use color::Color;
pub use command_words::command_line;
pub use request::Request;
