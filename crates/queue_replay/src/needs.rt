//! What steps need of each setting: the least settings under which they pass.

ghost use Rattle.std.specs.Prelude.{◌≡◌};
ghost use Rattle.cfs_model.specs.Knobs.{only};
ghost use Rattle.cfs_model.specs.Least.{larger};
ghost use Rattle.replay_model.specs.Needs.{only_slack};
ghost use Rattle.queue_replay.specs.Needing.{step_needs};

use cfs_model::{Amounts, Setting};
use replay_model::Deed;

/// Raises needs to what a step needs: its deed of the setting that it asks for, of the slack the time for which the
/// processor had idled, and of the drift how far a told charge leaves its task's from none.
#[inline(always)]
pub(crate) fn raise(needs: &mut Amounts, deed: Deed, need: u64, idled: u64, drift: u64)
    ensures { needs.new ≡ larger needs.old (step_needs deed need idled drift) }
{
    match deed {
        Deed::Switch { .. } => raise_to(needs, Setting::Granularity, need),
        Deed::Wake { .. } => needs.raise(Setting::Credit, need),
        Deed::Born { .. } => needs.raise(Setting::Debit, need),
        Deed::Leave { .. } | Deed::Arrive { .. } => {}
    }
    raise_to(needs, Setting::Drift, drift);
    raise_slack(needs, idled);
}

/// Raises the slack that is needed to the time for which the processor had idled.
pub(crate) fn raise_slack(needs: &mut Amounts, idled: u64)
    ensures { needs.new ≡ larger needs.old (only_slack idled) }
{
    raise_to(needs, Setting::Slack, idled);
}

/// Raises the need of a setting to an amount, which mostly is 0: that is asked first.
#[inline(always)]
fn raise_to(needs: &mut Amounts, setting: Setting, amount: u64)
    ensures { needs.new ≡ larger needs.old (only setting amount) }
{
    if amount > 0 {
        needs.raise(setting, amount);
    }
}
