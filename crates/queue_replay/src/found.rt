use crate::lists::{LifeEvents, Tallies, Tickets};
use replay_model::StepFault;

/// What the steps of a replay left behind.
#[derive(Debug, Drop)]
pub(crate) struct Found {
    /// The line of the last step that passed, 0 if none did.
    pub line: u32,
    pub fault: Option<StepFault>,
    /// The tickets of the tasks that left, and of those that came.
    pub left: Tickets,
    pub came: Tickets,
    pub births: LifeEvents,
    pub deaths: LifeEvents,
    pub tallies: Tallies,
}
