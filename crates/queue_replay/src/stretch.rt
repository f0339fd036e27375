ghost use Rattle.std.specs.Prelude.{◌≡◌, ◌≤◌, ◌^◌, IfSome};
ghost use Rattle.queue_replay.specs.Stretches.{stretch_between};

use runqueue::SchedEntity;

/// A stretch of running: whose, for how long, in nanoseconds, and what it was charged, in virtual nanoseconds.
#[derive(Clone, Copy, Debug, PartialEq, Eq)]
pub struct Stretch {
    pub pid: u32,
    pub time: u64,
    pub cost: u64,
}

/// The stretch of who runs, as it stood before its charge and after it; none where nobody runs.
pub(crate) fn stretch_between(
    before: Option<SchedEntity>,
    after: Option<SchedEntity>,
    time: u64,
) -> Option<Stretch>
    ensures same { result ≡ stretch_between before after time }
    ensures bounds { IfSome result (λ stretch. (stretch.time ≤ 2 ^ 64) × (stretch.cost ≤ 2 ^ 64)) }
{
    let before = before?;
    let after = after?;
    Some(Stretch {
        pid: before.pid,
        time,
        cost: after.v.abs_diff(before.v),
    })
}
