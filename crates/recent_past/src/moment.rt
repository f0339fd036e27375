/// When an event happened.
#[derive(Clone, Copy, Debug)]
pub struct Moment {
    /// The line in the trace, from 1, comments counted.
    pub line: u32,
    /// In nanoseconds.
    pub time: u64,
}
