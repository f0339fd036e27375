use crate::Summary;
use replay_model::FirstFault;

/// What the audit of a record comes to.
#[derive(Debug, PartialEq, Eq, Drop)]
pub enum Verdict {
    /// The events are a run.
    Run(Summary),
    /// They are none from this line on.
    Fault(FirstFault),
}
