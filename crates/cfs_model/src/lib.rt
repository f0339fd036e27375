//! What a run of the scheduler is, and the words that it is said in: nice values and weights, charges, the settings of
//! the profile, events, claims and tasks, the kinds of fault.
#![tactic(auto)]

mod act;
mod amounts;
mod charge_line;
mod claim;
mod examples;
mod idle_line;
mod kind;
mod knobs;
mod laws;
mod limits;
mod memory;
mod nice;
mod nice_line;
mod policy;
mod setting;
mod task;
mod told_laws;
mod weights;

pub use act::{Act, Entry, Way};
pub use amounts::Amounts;
pub use charge_line::ChargeLine;
pub use claim::{Claim, ClaimSort};
pub use examples::{
    birth_example, idle_example, migration_example, nice_example, pick_example, policy_example,
    put_back_example, told_example, wake_example,
};
pub use idle_line::IdleLine;
pub use kind::Kind;
pub use knobs::Knobs;
pub use laws::{floors_rise, least_settings, marks_move, one_list, places, policies, prefixes};
pub use limits::{
    GREATEST_LINE, GREATEST_PID, GREATEST_PROCESSOR, GREATEST_RUNTIME, GREATEST_SECONDS,
    GREATEST_SETTING, IDLE_PID, MOST_PROCESSORS, NANOSECONDS_PER_SECOND, NO_LINE,
};
pub use memory::Memory;
pub use nice::{Nice, PrioFault};
pub use nice_line::NiceLine;
pub use policy::Policy;
pub use setting::Setting;
pub use task::{Place, Task};
pub use told_laws::{drifts, no_drift, untold};
pub use weights::{charge, weight, weight_of};
