use cfs_model::Place;

/// Where a task is at a processor.
#[derive(Clone, Copy, Debug)]
pub(crate) struct TaskAt {
    pub place: Place,
    /// In virtual nanoseconds.
    pub v: i64,
}

impl TaskAt {
    /// The virtual runtime that is the task's own, where it rests.
    pub(crate) fn own(self) -> Option<i64> {
        (self.place == Place::Rest).then_some(self.v)
    }
}
