use crate::duration::Nanoseconds;
use cfs_model::{Act, Claim, Knobs};
use recent_past::{Beside, Moment, Placing, RecentPast};
use std::fmt;

/// How a task came to where it runs or waits.
#[derive(Clone, Copy)]
pub(crate) enum Coming {
    /// It stands there at the start.
    Started,
    /// It was picked at this line.
    Picked { line: u32 },
    /// It was put back at this line.
    PutBack { line: u32 },
    /// It woke from rest.
    Woken(Spot),
    /// It was born.
    Born(Spot),
    /// It was moved there from another processor at this line.
    Moved { line: u32, orig: u32 },
}

/// Where a task was placed that woke or was born.
#[derive(Clone, Copy)]
pub(crate) struct Spot {
    pub line: u32,
    /// In virtual nanoseconds, signed.
    pub v: i64,
    /// How far from the floor it may be at most: below it of a task that woke, above it of one that was born.
    pub most: u64,
    pub beside: Option<Beside>,
}

/// How a task came to where it runs or waits, and since when it does.
#[derive(Clone, Copy)]
pub(crate) struct Origin {
    pub pid: u32,
    pub coming: Coming,
    /// In nanoseconds.
    since: u64,
}

impl Origin {
    /// That of a task that stands there at the start.
    pub(crate) fn at_start(past: &RecentPast, pid: u32) -> Origin {
        Origin {
            pid,
            coming: Coming::Started,
            since: past.start(),
        }
    }

    /// That of who runs at a processor before a line: the last switch there picked it.
    pub(crate) fn of_runner(past: &RecentPast, cpu: u32, line: u32, pid: u32) -> Origin {
        match past.switch_before(cpu, line) {
            Some(Moment { line, time }) => Origin {
                pid,
                coming: Coming::Picked { line },
                since: time,
            },
            None => Origin::at_start(past, pid),
        }
    }

    /// That of a task which waits since it was placed so.
    pub(crate) fn placed(past: &RecentPast, placing: &Placing) -> Origin {
        Origin {
            pid: placing.claim.pid,
            coming: coming_by(placing, past.knobs()),
            since: placing.time,
        }
    }

    /// The line since which the task is there; none where it stands there at the start.
    pub(crate) fn line(&self) -> Option<u32> {
        match self.coming {
            Coming::Started => None,
            Coming::Picked { line } | Coming::PutBack { line } | Coming::Moved { line, .. } => {
                Some(line)
            }
            Coming::Woken(spot) | Coming::Born(spot) => Some(spot.line),
        }
    }

    /// How it is told of up to a time in nanoseconds.
    pub(crate) fn until(&self, time: u64) -> Since {
        Since {
            coming: self.coming,
            lasted: time.saturating_sub(self.since),
        }
    }
}

/// How a task came that was placed so.
fn coming_by(placing: &Placing, knobs: Knobs) -> Coming {
    let Claim { line, v, .. } = placing.claim;
    let beside = placing.beside;
    let spot = |most| Spot {
        line,
        v,
        most,
        beside,
    };
    match placing.act {
        Act::Switch { .. } => Coming::PutBack { line },
        Act::Shift { orig, .. } => Coming::Moved { line, orig },
        Act::Wake { .. } => Coming::Woken(spot(knobs.credit())),
        Act::Born { .. } => Coming::Born(spot(knobs.debit())),
    }
}

/// The words on an origin, and on how long that was ago.
#[derive(Clone, Copy)]
pub(crate) struct Since {
    coming: Coming,
    /// In nanoseconds.
    lasted: u64,
}

impl fmt::Display for Since {
    fn fmt<W: fmt::Write>(&self, f: &mut fmt::Formatter<W>) -> fmt::Result {
        let lasted = Nanoseconds(self.lasted);
        write!(f, "for {lasted}: ")?;
        match self.coming {
            Coming::Started => write!(f, "stands there at the start"),
            Coming::Picked { line } => write!(f, "picked at line {line}"),
            Coming::PutBack { line } => write!(f, "put back at line {line}"),
            Coming::Moved { line, orig } => write!(f, "arrived from cpu {orig} at line {line}"),
            Coming::Woken(spot) => write_woken(f, spot),
            Coming::Born(spot) => write_born(f, spot),
        }
    }
}

fn write_woken<W: fmt::Write>(f: &mut fmt::Formatter<W>, spot: Spot) -> fmt::Result {
    let Spot {
        line,
        v,
        most,
        beside,
    } = spot;
    write!(f, "woken at line {line}")?;
    match beside {
        Some(Beside { own, .. }) if own == Some(v) => write!(f, " where it was"),
        Some(Beside { floor, .. }) => write_woken_at(f, floor.abs_diff(v), most),
        None => Ok(()),
    }
}

/// How far below the floor a task woke.
fn write_woken_at<W: fmt::Write>(
    f: &mut fmt::Formatter<W>,
    apart: u64,
    credit: u64,
) -> fmt::Result {
    if apart == 0 {
        write!(f, " at the floor")
    } else if apart == credit {
        write!(f, " at the floor less the credit")
    } else {
        write!(f, " at {apart} below the floor")
    }
}

fn write_born<W: fmt::Write>(f: &mut fmt::Formatter<W>, spot: Spot) -> fmt::Result {
    let Spot {
        line,
        v,
        most,
        beside,
    } = spot;
    write!(f, "born at line {line}")?;
    match beside {
        Some(Beside { floor, .. }) => write_born_at(f, floor.abs_diff(v), most),
        None => Ok(()),
    }
}

/// How far above the floor a task was born.
fn write_born_at<W: fmt::Write>(f: &mut fmt::Formatter<W>, apart: u64, debit: u64) -> fmt::Result {
    if apart == 0 {
        write!(f, " at the floor")
    } else if apart == debit {
        write!(f, " at the floor and the debit")
    } else {
        write!(f, " at {apart} above the floor")
    }
}
