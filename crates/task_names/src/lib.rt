//! What a trace's lines call a task.
#![tactic(auto)]

mod calling;
mod head;
mod naming;
mod trace_text;

pub use calling::name_on;
pub use naming::task_name;
pub use trace_text::TraceText;
