use cfs_model::{ClaimSort, Place};
use text_parts::time::Time;

/// What a line says, its numbers within their limits or not. A number far out of its limits is read as another one.
#[derive(Clone, Copy)]
pub(crate) enum Statement {
    Version,
    Cpus(u64),
    Start(Time),
    Floor {
        cpu: u64,
        floor: i64,
    },
    Task {
        pid: u64,
        nice: i64,
        cpu: u64,
        place: Place,
        v: i64,
    },
    Claim {
        line: u64,
        pid: u64,
        v: i64,
        sort: ClaimSort,
    },
    Nice {
        line: u64,
        pid: u64,
        nice: i64,
    },
    Idle {
        line: u64,
        pid: u64,
    },
    Charge {
        line: u64,
        pid: u64,
        v: i64,
    },
}
