/// Where a figure of the least settings is needed first.
#[derive(Clone, Copy, Debug, PartialEq, Eq)]
pub struct Place {
    /// The line in the trace, from 1, comments counted.
    pub line: u32,
    /// In nanoseconds.
    pub time: u64,
    pub cpu: u32,
    /// The task that is picked, woken, born or charged there, 0 where the processor idles.
    pub pid: u32,
    /// At a pick the least of those whom it left waiting there, of equal ones the one of the least pid.
    pub over: Option<u32>,
}
