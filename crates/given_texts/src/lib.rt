//! The text that a user names, and what is given in place of a trace or a companion: the name of standard input, texts
//! of another shape, and recordings of another scheduler.
#![tactic(auto)]

mod header;
mod input;
mod kernel_hint;
mod reading;
mod shapes;
mod standard_input;

pub use header::is_overwritten;
pub use input::{Input, is_output, is_standard, open_input};
pub use kernel_hint::KernelHint;
pub use reading::read_input;
pub use shapes::{companion_hint, has_event, trace_hint};
pub use standard_input::StandardInput;
