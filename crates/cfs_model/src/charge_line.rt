/// What the companion says of a charge: at this line of the trace the running task is charged up to this virtual
/// runtime.
#[derive(Clone, Copy, Debug, PartialEq, Eq)]
pub struct ChargeLine {
    /// The line in the trace, from 1, comments counted.
    pub line: u32,
    pub pid: u32,
    /// The virtual runtime after the charge, in virtual nanoseconds, signed.
    pub v: i64,
}
