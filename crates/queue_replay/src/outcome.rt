use crate::made_deed::MadeDeed;
use replay_model::StepFault;

/// What becomes of a step's deed.
#[derive(Clone, Copy)]
pub(crate) enum Outcome {
    /// It passed its tests, and is made.
    Made(MadeDeed),
    /// The fault of the first test that it fails.
    Failed(StepFault),
}
