ghost use Rattle.replay_model.specs.Needs.{IsExcess};

use crate::sight::Sight;
use crate::stretch::Stretch;
use cfs_model::{IDLE_PID, Setting};
use replay_model::Deed;

/// What an event asks of each setting. None where it asks nothing of its kind.
#[derive(Clone, Copy, Debug, PartialEq, Eq)]
pub struct Measures {
    /// How far the picked task was above the least that waited, in virtual nanoseconds.
    pub lead: Option<u64>,
    /// How far below the floor a woken task is placed, in virtual nanoseconds.
    pub under: Option<u64>,
    /// How far above the floor a new task is placed, in virtual nanoseconds.
    pub over: Option<u64>,
    /// For how long nothing had run beside a waiting task, in nanoseconds.
    pub idled: Option<u64>,
    /// How far told charges leave who ran from exact ones, in virtual nanoseconds.
    pub drift: Option<u64>,
}

impl Measures {
    /// Those of an event.
    pub fn of(sight: &Sight) -> Measures {
        Measures {
            lead: lead(sight),
            under: under(sight),
            over: over(sight),
            idled: idled(sight),
            drift: drift(sight),
        }
    }

    /// What is asked of a setting, if something is.
    pub fn needed(&self, setting: Setting) -> Option<u64> {
        match setting {
            Setting::Granularity => self.lead,
            Setting::Credit => self.under,
            Setting::Debit => self.over,
            Setting::Slack => self.idled,
            Setting::Drift => self.drift,
        }
    }
}

/// How far who is picked was above the least of the others: those who are left waiting. Who is the least itself leads
/// by nothing.
fn lead(sight: &Sight) -> Option<u64> {
    match sight.step.deed {
        Deed::Switch { next, .. } if next != IDLE_PID => {
            let picked = sight.after.runner?;
            let least = sight.after.least.unwrap_or(picked.v);
            Some(excess(picked.v, least))
        }
        _ => None,
    }
}

/// How far below the floor a task is placed that wakes from rest, which is claimed.
fn under(sight: &Sight) -> Option<u64> {
    match sight.step.deed {
        Deed::Wake { .. } => {
            let claim = sight.step.claim?;
            Some(excess(sight.after.floor, claim.v))
        }
        _ => None,
    }
}

/// How far above the floor a new task is placed.
fn over(sight: &Sight) -> Option<u64> {
    match sight.step.deed {
        Deed::Born { .. } => {
            let claim = sight.step.claim?;
            Some(excess(claim.v, sight.after.floor))
        }
        _ => None,
    }
}

/// For how long the processor had idled beside a waiting task, in nanoseconds.
fn idled(sight: &Sight) -> Option<u64> {
    let since = sight.before.since?;
    Some(sight.step.time.saturating_sub(since))
}

/// How far the told charges of who ran stray from exact ones in sum, up or down, in virtual nanoseconds; also of a task
/// that ends with the event, and stands nowhere behind it.
fn drift(sight: &Sight) -> Option<u64> {
    sight.step.charge?;
    Some(Stretch::of(sight)?.drift(&sight.after).unsigned_abs())
}

/// How far a virtual runtime is above another, in virtual nanoseconds; 0 where it isn't.
pub(crate) fn excess(v: i64, from: i64) -> u64
    ensures { IsExcess v from result }
{
    if v > from { v.abs_diff(from) } else { 0 }
}
