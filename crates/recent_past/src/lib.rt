//! What is still known of a record's last events, and of how processors stood before them: enough to say how a fault
//! came about, where the record itself isn't kept.
#![tactic(auto)]

mod moment;
mod of_record;
mod pending;
mod placing;
mod processor_state;
mod recent_past;
mod segment;
mod standing;

pub use moment::Moment;
pub use placing::{Beside, Placing};
pub use processor_state::ProcessorState;
pub use recent_past::RecentPast;
