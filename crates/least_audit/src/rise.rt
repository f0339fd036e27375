ghost use Rattle.std.specs.Prelude.{◌≡◌, ◌<◌, None, Some, if◌then◌else◌, nat_lt};
ghost use Rattle.cfs_model.specs.Knobs.{value_at};
ghost use Rattle.cfs_model.specs.declared.setting.Setting.{Setting as SettingOf};
ghost use Rattle.least_audit.specs.Rises.{rise_at};

use cfs_model::{Amounts, Setting};
use replay_model::Step;

/// A step at which what a replay needs of a setting rose.
#[derive(Clone, Copy, Debug)]
pub(crate) struct Rise {
    pub step: Step,
    /// Since when the processor had idled beside a waiting task then, if it had, in nanoseconds.
    pub since: Option<u64>,
    /// The least of those who wait behind the step, if anybody does.
    pub over: Option<u32>,
}

/// Of each setting the step at which what a replay needs of it rose last.
#[derive(Clone, Copy, Debug)]
pub(crate) struct Rises {
    pub granularity: Option<Rise>,
    pub credit: Option<Rise>,
    pub debit: Option<Rise>,
    pub slack: Option<Rise>,
    pub drift: Option<Rise>,
}

impl Rises {
    /// None yet.
    pub fn none() -> Rises
        ensures { (which : SettingOf) → rise_at result which ≡ None }
    {
        Rises {
            granularity: None,
            credit: None,
            debit: None,
            slack: None,
            drift: None,
        }
    }

    /// That of a setting.
    pub fn get(self, setting: Setting) -> Option<Rise>
        ensures { result ≡ rise_at self setting }
    {
        match setting {
            Setting::Granularity => self.granularity,
            Setting::Credit => self.credit,
            Setting::Debit => self.debit,
            Setting::Slack => self.slack,
            Setting::Drift => self.drift,
        }
    }

    /// With a step by which what is needed rose from one amount to another.
    pub fn with(&self, before: Amounts, after: Amounts, rise: &Rise) -> Rises
        ensures { (which : SettingOf) → rise_at result which
            ≡ (if nat_lt (value_at before which) (value_at after which) then Some rise.now
            else rise_at self.now which) }
    {
        Rises {
            granularity: later(
                before.get(Setting::Granularity),
                after.get(Setting::Granularity),
                rise,
                &self.granularity,
            ),
            credit: later(
                before.get(Setting::Credit),
                after.get(Setting::Credit),
                rise,
                &self.credit,
            ),
            debit: later(
                before.get(Setting::Debit),
                after.get(Setting::Debit),
                rise,
                &self.debit,
            ),
            slack: later(
                before.get(Setting::Slack),
                after.get(Setting::Slack),
                rise,
                &self.slack,
            ),
            drift: later(
                before.get(Setting::Drift),
                after.get(Setting::Drift),
                rise,
                &self.drift,
            ),
        }
    }
}

/// The later one of two, where an amount rose by it.
fn later(before: u64, after: u64, rise: &Rise, earlier: &Option<Rise>) -> Option<Rise>
    ensures { result ≡ (if nat_lt before after then Some rise.now else earlier.now) }
{
    if before < after {
        Some(*rise)
    } else {
        *earlier
    }
}
