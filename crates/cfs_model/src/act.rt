ghost use Rattle.std.specs.Prelude.{◌≡◌, ℕ, ◌<◌, ◌≤◌, ◌==◌, ◌||◌, All, Any};
ghost use Rattle.std.specs.Bool.{OnFalse, OnTrue};
ghost use Rattle.std.specs.List.{list_any};
ghost use Rattle.cfs_model.specs.Lives.{begun_by, ended_by, subject_of};
ghost use Rattle.cfs_model.specs.Reniced.{home_of};
ghost use Rattle.cfs_model.specs.Touch.{touched};

use crate::limits::IDLE_PID;
use crate::nice::Nice;

/// How the previous task leaves a processor at a switch.
#[derive(Clone, Copy, Debug, PartialEq, Eq)]
pub enum Way {
    /// It is put back into the runqueue.
    Stays,
    /// It goes to sleep.
    Sleeps,
    /// It is gone.
    Ends,
}

/// What an event does. Processors and pids are numbers as printed; pid 0 is a processor's idle task.
#[derive(Clone, Copy, Debug, PartialEq, Eq)]
pub enum Act {
    /// `sched_switch`: the processor goes from one task to another. The nice value of pid 0 is 0, and the way
    /// of a `prev` of 0 is `Stays`.
    Switch {
        cpu: u32,
        prev: u32,
        prev_nice: Nice,
        way: Way,
        next: u32,
        next_nice: Nice,
    },
    /// `sched_wakeup`, at the target processor.
    Wake {
        cpu: u32,
        pid: u32,
        nice: Nice,
    },
    /// `sched_wakeup_new`, at the target processor.
    Born {
        cpu: u32,
        pid: u32,
        nice: Nice,
    },
    /// `sched_migrate_task`, from `orig` to `dest`.
    Shift {
        orig: u32,
        dest: u32,
        pid: u32,
        nice: Nice,
    },
}

impl Act {
    /// The processor at which it happens; of a migration its origin.
    pub fn home(self) -> u32
        ensures { result ≡ home_of self }
    {
        match self {
            Act::Switch { cpu, .. } => cpu,
            Act::Wake { cpu, .. } => cpu,
            Act::Born { cpu, .. } => cpu,
            Act::Shift { orig, .. } => orig,
        }
    }

    /// The processors that it touches, those of a migration from its origin to its destination; twice the same where it
    /// is one.
    pub fn ends(self) -> (u32, u32)
        ensures home { result.0 ≡ home_of self }
        ensures touched { (cpu : ℕ) → list_any (λ other. other == cpu) (touched self)
            ≡ (result.0 == cpu || result.1 == cpu) }
    {
        match self {
            Act::Switch { cpu, .. } => (cpu, cpu),
            Act::Wake { cpu, .. } => (cpu, cpu),
            Act::Born { cpu, .. } => (cpu, cpu),
            Act::Shift { orig, dest, .. } => (orig, dest),
        }
    }

    /// Whether it touches only processors below this number.
    pub fn is_within(self, cpus: u32) -> bool
        ensures within { OnTrue result (All (λ cpu. cpu < cpus) (touched self)) }
        ensures beyond { OnFalse result (Any (λ cpu. cpus ≤ cpu) (touched self)) }
    {
        match self {
            Act::Switch { cpu, .. } | Act::Wake { cpu, .. } | Act::Born { cpu, .. } => cpu < cpus,
            Act::Shift { orig, dest, .. } => orig < cpus && dest < cpus,
        }
    }

    /// The pid of the task that it wakes, bears or moves, and of a switch that of the previous task.
    pub fn subject(self) -> u32
        ensures { result ≡ subject_of self }
    {
        match self {
            Act::Switch { prev, .. } => prev,
            Act::Wake { pid, .. } => pid,
            Act::Born { pid, .. } => pid,
            Act::Shift { pid, .. } => pid,
        }
    }

    /// The pid of the task that begins with it.
    pub fn begun(self) -> Option<u32>
        ensures { result ≡ begun_by self }
    {
        match self {
            Act::Born { pid, .. } => Some(pid),
            Act::Switch { .. } | Act::Wake { .. } | Act::Shift { .. } => None,
        }
    }

    /// The pid of the task that ends with it.
    pub fn ended(self) -> Option<u32>
        ensures { result ≡ ended_by self }
    {
        match self {
            Act::Switch {
                prev,
                way: Way::Ends,
                ..
            } if prev != IDLE_PID => Some(prev),
            _ => None,
        }
    }
}

/// One event of a trace.
#[derive(Clone, Copy, Debug, PartialEq, Eq)]
pub struct Entry {
    /// The line in the trace, from 1, comments counted.
    pub line: u32,
    /// In nanoseconds.
    pub time: u64,
    pub act: Act,
}
