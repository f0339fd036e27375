//! Judges a recorded schedule: a trace and its companion in, a verdict and its report out.
#![tactic(auto)]

mod asked;
mod blocks;
mod counts;
mod headline;
mod hearing;
mod judging;
mod waits;

pub use asked::{block_sizes, run_request};
pub use audit_crew::{Gate, OpenGate};
pub use audit_input::{Cause, Failed, Fault, Feed, FeedOf, Refused, Source};
pub use audit_report::{
    Counted, Finding, Judgement, Outcome, Sink, SinkOf, Status, Streamed, WithWaits, least_report,
    report, write_in_pieces, write_report,
};
pub use audit_request::{Color, Request, command_line};
pub use blocks::{judge_in_blocks, run_counted_in_blocks, run_in_blocks, run_least_in_blocks};
pub use counts::run_counted;
pub use headline::{audit_texts, least_texts, run, run_least};
pub use hearing::{Heard, Hearing, Kept};
pub use judging::{judge, run_judged};
pub use least_places::{LeastFigures, Place, Places};
pub use stream_audit::Sizes;
pub use ticket_book::{Summary, Verdict};
pub use waits::{run_counted_waits, run_least_waits, run_waits};
