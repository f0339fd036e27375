/// Where a task was placed.
#[derive(Clone, Copy, Debug, PartialEq, Eq, PartialOrd, Ord)]
pub(crate) enum Placing {
    /// It stood there at the start; its pid.
    AtStart(u32),
    /// By the event at an index.
    ByEvent(usize),
}
