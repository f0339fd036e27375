use crate::cut_cause::CutCause;
use crate::cut_task::CutTask;
use cfs_model::Knobs;
use replay_model::FirstFault;

/// A part of a recording: lines that stand there one behind the other.
#[derive(Debug, Drop)]
pub struct Part<'a> {
    /// The number of its first line, from 1, comments counted.
    pub first: u64,
    /// The number of its last line.
    pub last: u64,
    pub text: &'a [u8],
    pub told: Told,
}

/// What is told of a part.
#[derive(Debug, Drop)]
pub enum Told {
    /// It was judged.
    Stretch(Stretch),
    /// It can't be, or isn't to be.
    Cut(Cut),
    /// No event stands there.
    Quiet,
}

/// A part that was judged by a companion that was made for it.
#[derive(Debug, Drop)]
pub struct Stretch {
    pub companion: Vec<u8>,
    pub events: u64,
    /// The time of the first event, in nanoseconds.
    pub begins: u64,
    /// The time of the last event, in nanoseconds.
    pub ends: u64,
    /// The least settings at which it is a run.
    pub least: Knobs,
    /// Whether the companion tells charges, so that the drift is told too.
    pub tells_charges: bool,
    /// What is wrong first at the limits, where it needs more; its line is that in the stretch.
    pub over: Option<FirstFault>,
}

/// A part that stands in no stretch.
#[derive(Debug, Drop)]
pub struct Cut {
    pub cause: CutCause,
    pub events: u64,
    /// The real-time or deadline task that its first line names, where the cut was made for that.
    pub task: Option<CutTask>,
}
