use cfs_model::{ChargeLine, Claim, IdleLine, NiceLine, Task};
use plain_list::PlainList;

/// Claims of virtual runtimes at lines of the trace.
pub type Claims = PlainList<Claim>;

/// Changes of nice values at lines of the trace.
pub type Nices = PlainList<NiceLine>;

/// Charges that are told at lines of the trace.
pub type Charges = PlainList<ChargeLine>;

/// Who is of the idle policy, from which line of the trace on.
pub type Idles = PlainList<IdleLine>;

/// The tasks of a start state.
pub type Tasks = PlainList<Task>;

/// The floor of each processor, from processor 0 on, in virtual nanoseconds, signed.
pub type Floors = PlainList<i64>;
