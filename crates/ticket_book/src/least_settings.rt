use cfs_model::Knobs;
use replay_model::FirstFault;

/// The least settings of a record.
#[derive(Debug, PartialEq, Eq, Drop)]
pub enum LeastSettings {
    /// The events are a run just at the settings that are at least these.
    Found(Knobs),
    /// They are a run at no settings in range from this line on.
    Fault(FirstFault),
}
