use replay_model::Ticket;

/// What is kept of a deed that passed its tests.
#[derive(Clone, Copy)]
pub(crate) struct MadeDeed {
    /// The ticket of a task that leaves or comes.
    pub ticket: Option<Ticket>,
    /// What it needs of the setting that it asks for, in virtual nanoseconds.
    pub need: u64,
}
