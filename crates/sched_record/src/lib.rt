//! Traces: their events, and the record of a trace joined with its companion.
#![tactic(auto)]

mod cause;
mod dealing;
mod ending;
mod entry;
mod indices;
mod joining;
mod laws;
mod lists;
mod on_line;
mod policies;
mod reading;
mod reading_wide;
mod record;
mod sayings;
mod trace;
mod trace_reader;
mod window;
mod windowing;

pub use cause::{TraceCause, TraceFault};
pub use dealing::{deal_start, step_at};
pub use entry::{careful_entry, next_entry, usual_entry};
pub use joining::{JoinCause, JoinFault, join, outside_line};
pub use laws::{one_record_answer, one_trace_answer};
pub use lists::Events;
pub use processor_stream::Stream;
pub use reading::read_trace;
pub use reading_wide::read_trace_wide;
pub use record::Record;
pub use replay_model::{Deed, Step};
pub use trace::Trace;
pub use trace_reader::TraceReader;
pub use window::{Saying, Window};
