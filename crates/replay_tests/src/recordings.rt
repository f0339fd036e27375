//! Recordings of one processor, each with the first fault of its replay.

use cfs_model::Kind;
use replay_model::StepFault;
use std::test::Fail;

/// A recording of one processor, and the first fault of its replay.
pub(crate) struct Recording {
    pub name: &'static str,
    pub trace: &'static [u8],
    pub companion: &'static [u8],
    pub fault: Option<StepFault>,
}

/// The recordings, in the order of the table.
pub(crate) fn recordings() -> &'static [Recording] {
    &RECORDINGS
}

/// The recording at a place in the table.
pub(crate) fn recording_at(place: usize) -> Result<&'static Recording, Fail> {
    Ok(recordings().get(place).ok_or("a place in the table")?)
}

static RECORDINGS: [Recording; 3] = [
    Recording {
        name: "idle at slack",
        trace: b"            t102-102     [000] d..2.   100.001000: sched_wakeup: comm=t102 pid=102 prio=120 target_cpu=000\n          <idle>-0       [000] d..2.   100.001100: sched_switch: prev_comm=swapper/0 prev_pid=0 prev_prio=120 prev_state=R ==> next_comm=t102 next_pid=102 next_prio=120\n",
        companion: b"cfs-companion 1\ncpus 1\nstart 100.000000\nfloor 0 0\ntask 102 0 0 rest 0\nat 1 102 0\n",
        fault: None,
    },
    Recording {
        name: "idle above slack",
        trace: b"            t102-102     [000] d..2.   100.001000: sched_wakeup: comm=t102 pid=102 prio=120 target_cpu=000\n          <idle>-0       [000] d..2.   100.001101: sched_switch: prev_comm=swapper/0 prev_pid=0 prev_prio=120 prev_state=R ==> next_comm=t102 next_pid=102 next_prio=120\n",
        companion: b"cfs-companion 1\ncpus 1\nstart 100.000000\nfloor 0 0\ntask 102 0 0 rest 0\nat 1 102 0\n",
        fault: Some(StepFault {
            line: 2,
            kind: Kind::IdleTooLong,
            pid: 0,
            deadline: Some(100_001_100_000),
        }),
    },
    Recording {
        name: "birth at upper bound",
        trace: b"            t101-101     [000] d..2.   100.000000: sched_wakeup_new: comm=t101 pid=101 prio=120 target_cpu=000\n",
        companion: b"cfs-companion 1\ncpus 1\nstart 100.000000\nfloor 0 0\nat 1 101 3000000\n",
        fault: None,
    },
];
