use crate::Places;
use cfs_model::Knobs;
use replay_model::FirstFault;

/// The least settings of a record, with their places.
#[derive(Debug, PartialEq, Eq, Drop)]
pub enum LeastFigures {
    /// The events are a run just at the settings that are at least these.
    Found { knobs: Knobs, places: Places },
    /// They are a run at no settings in range from this line on.
    Fault(FirstFault),
}
