ghost use Rattle.std.specs.Prelude.{◌≡◌, ℕ, ◌+◌, ◌^◌, ◌<◌};
ghost use Rattle.replay_model.specs.Noted.{new_tally};

use crate::stretch::Stretch;
use replay_model::Tally;

/// Adds the stretch to the tally, which is its task's.
#[inline(always)]
pub(crate) fn add_run(tally: &mut Tally, stretch: Stretch)
    requires time { tally.old.ran + stretch.time < 2 ^ 128 }
    requires cost { tally.old.charged + stretch.cost < 2 ^ 128 }
    ensures { tally.new ≡ record tally.old {
      ran = tally.old.ran + stretch.time;
      charged = tally.old.charged + stretch.cost;
    } }
{
    tally.ran += u128::from(stretch.time);
    tally.charged += u128::from(stretch.cost);
}

/// Adds a switch to the tally, which is that of its next task.
#[inline(always)]
pub(crate) fn pick(tally: &mut Tally)
    requires { tally.old.picks + 1 < 2 ^ 64 }
    ensures { tally.new ≡ record tally.old { picks = tally.old.picks + 1 } }
{
    tally.picks += 1;
}

/// The tally of one who has done nothing yet.
pub(crate) fn new_tally(pid: u32) -> Tally
    ensures { result ≡ new_tally pid }
{
    Tally {
        pid,
        ran: 0,
        charged: 0,
        picks: 0,
    }
}
