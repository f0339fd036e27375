use least_places::Finding;
use sched_record::JoinFault;

/// What a trace and a companion that both can be read come to.
#[derive(Debug, Drop)]
pub enum Ending {
    /// What is found of their record.
    Judged(Finding),
    /// They don't go together.
    Apart(JoinFault),
}
