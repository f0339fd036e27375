ghost use Rattle.std.specs.Prelude.{◌≡◌, ◌≤◌, ◌↔◌, IsSome, IfSome};
ghost use Rattle.cfs_model.specs.Least.{greatest_settings};
ghost use Rattle.cfs_model.specs.Limits.{greatest_setting};
ghost use Rattle.cfs_model.specs.Knobs.{AreInRange, KnobsView, settings_by, value_at, with_value};
ghost use Rattle.cfs_model.specs.Options.{standard_value};

use crate::amounts::Amounts;
use crate::limits::GREATEST_SETTING;
use crate::setting::Setting;
use std::marker::Model;

/// A value of each setting of the profile, in nanoseconds and at most `GREATEST_SETTING`.
#[derive(Clone, Copy, Debug, PartialEq, Eq)]
pub struct Knobs {
    amounts: Amounts,
}

impl Model for Knobs {
    ghost use Rattle.cfs_model.specs.Knobs.{KnobsView, AreInRange};

    ghost Value = { KnobsView };

    ghost view = { λ k. k.amounts };

    ghost invariant = { λ k. AreInRange k.amounts };

    ghost inverse = { λ s. record { amounts = s } };
}

impl Knobs {
    /// None where one of them is above `GREATEST_SETTING`.
    pub fn new(granularity: u64, credit: u64, debit: u64, slack: u64, drift: u64) -> Option<Knobs>
        ensures in_range { IsSome result ↔ AreInRange
            (record { granularity = granularity; credit = credit; debit = debit; slack = slack; drift = drift }) }
        ensures same { IfSome result (λ knobs. knobs
            ≡ record { granularity = granularity; credit = credit; debit = debit; slack = slack; drift = drift }) }
    {
        Knobs::of(Amounts::new(granularity, credit, debit, slack, drift))
    }

    /// None where one of them is above `GREATEST_SETTING`.
    pub fn of(amounts: Amounts) -> Option<Knobs>
        ensures in_range { IsSome result ↔ AreInRange amounts }
        ensures same { IfSome result (λ knobs. knobs ≡ amounts) }
    {
        if amounts.are_in_range() {
            Some(Knobs { amounts })
        } else {
            None
        }
    }

    /// The same but for one setting. None where that is above `GREATEST_SETTING`.
    pub fn with(self, setting: Setting, value: u64) -> Option<Knobs>
        ensures in_range { IsSome result ↔ AreInRange (with_value self setting value) }
        ensures same { IfSome result (λ knobs. knobs ≡ with_value self setting value) }
    {
        Knobs::of(self.amounts.with(setting, value))
    }

    /// The defaults.
    pub fn standard() -> Knobs
        ensures { result ≡ settings_by standard_value }
    {
        let amounts = Amounts::new(
            Setting::Granularity.standard(),
            Setting::Credit.standard(),
            Setting::Debit.standard(),
            Setting::Slack.standard(),
            Setting::Drift.standard(),
        );
        Knobs { amounts }
    }

    /// Each as large as it may be.
    pub fn greatest() -> Knobs
        ensures { result ≡ greatest_settings }
    {
        Knobs {
            amounts: Amounts::all(GREATEST_SETTING),
        }
    }

    /// The value of a setting.
    pub fn get(self, setting: Setting) -> u64
        ensures same { result ≡ value_at self setting }
        ensures in_range { result ≤ greatest_setting }
    {
        self.amounts.get(setting)
    }

    /// How far above the least virtual runtime a picked task may be.
    pub fn granularity(self) -> u64
        ensures same { result ≡ self.granularity }
        ensures in_range { result ≤ greatest_setting }
    {
        self.get(Setting::Granularity)
    }

    /// How far below the floor a woken task may be placed.
    pub fn credit(self) -> u64
        ensures same { result ≡ self.credit }
        ensures in_range { result ≤ greatest_setting }
    {
        self.get(Setting::Credit)
    }

    /// How far above the floor a new task may be placed.
    pub fn debit(self) -> u64
        ensures same { result ≡ self.debit }
        ensures in_range { result ≤ greatest_setting }
    {
        self.get(Setting::Debit)
    }

    /// How long a processor may idle beside a waiting task.
    pub fn slack(self) -> u64
        ensures same { result ≡ self.slack }
        ensures in_range { result ≤ greatest_setting }
    {
        self.get(Setting::Slack)
    }

    /// How far a task's told charges may stray in sum from the exact ones, since it came to its processor.
    pub fn drift(self) -> u64
        ensures same { result ≡ self.drift }
        ensures in_range { result ≤ greatest_setting }
    {
        self.get(Setting::Drift)
    }
}
