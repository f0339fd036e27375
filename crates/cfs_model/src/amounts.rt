ghost use Rattle.std.specs.Prelude.{◌≡◌, ◌≤◌, ◌↔◌, IsTrue};
ghost use Rattle.std.specs.List.{AllByRecursion};
ghost use Rattle.cfs_model.specs.Least.{larger};
ghost use Rattle.cfs_model.specs.Limits.{greatest_setting};
ghost use Rattle.cfs_model.specs.Knobs.{AreInRange, KnobsView, nothing, only, settings_by, value_at, with_value};

use crate::limits::GREATEST_SETTING;
use crate::setting::Setting;
use std::marker::Model;

/// An amount of each setting, of whatever size: what steps need of it, or a value that is to be tested. In nanoseconds,
/// those of virtual runtimes virtual ones.
#[derive(Clone, Copy, Debug, PartialEq, Eq)]
pub struct Amounts {
    granularity: u64,
    credit: u64,
    debit: u64,
    slack: u64,
    drift: u64,
}

impl Model for Amounts {
    ghost Value = { KnobsView };

    ghost view = { λ a. record {
      granularity = a.granularity;
      credit = a.credit;
      debit = a.debit;
      slack = a.slack;
      drift = a.drift;
    } };

    ghost inverse = { λ s. record {
      granularity = s.granularity;
      credit = s.credit;
      debit = s.debit;
      slack = s.slack;
      drift = s.drift;
    } };
}

impl Amounts {
    pub fn new(granularity: u64, credit: u64, debit: u64, slack: u64, drift: u64) -> Amounts
        ensures { result ≡ record {
          granularity = granularity;
          credit = credit;
          debit = debit;
          slack = slack;
          drift =
              drift;
        } }
    {
        Amounts {
            granularity,
            credit,
            debit,
            slack,
            drift,
        }
    }

    /// One amount for each setting.
    pub fn all(amount: u64) -> Amounts
        ensures { result ≡ settings_by (λ which. amount) }
    {
        Amounts {
            granularity: amount,
            credit: amount,
            debit: amount,
            slack: amount,
            drift: amount,
        }
    }

    /// Nothing of any.
    pub fn none() -> Amounts
        ensures { result ≡ nothing }
    {
        Amounts::all(0)
    }

    /// The amount of a setting.
    pub fn get(self, setting: Setting) -> u64
        ensures { result ≡ value_at self setting }
    {
        match setting {
            Setting::Granularity => self.granularity,
            Setting::Credit => self.credit,
            Setting::Debit => self.debit,
            Setting::Slack => self.slack,
            Setting::Drift => self.drift,
        }
    }

    /// The same but for one setting.
    pub fn with(self, setting: Setting, amount: u64) -> Amounts
        ensures { result ≡ with_value self setting amount }
    {
        match setting {
            Setting::Granularity => Amounts {
                granularity: amount,
                ..self
            },
            Setting::Credit => Amounts {
                credit: amount,
                ..self
            },
            Setting::Debit => Amounts {
                debit: amount,
                ..self
            },
            Setting::Slack => Amounts {
                slack: amount,
                ..self
            },
            Setting::Drift => Amounts {
                drift: amount,
                ..self
            },
        }
    }

    /// Of each setting the larger amount.
    pub fn larger(self, other: Amounts) -> Amounts
        ensures { result ≡ larger self other }
    {
        Amounts {
            granularity: self.granularity.max(other.granularity),
            credit: self.credit.max(other.credit),
            debit: self.debit.max(other.debit),
            slack: self.slack.max(other.slack),
            drift: self.drift.max(other.drift),
        }
    }

    /// Raises the amount of a setting to this.
    pub fn raise(&mut self, setting: Setting, amount: u64)
        ensures { self.new ≡ larger self.old (only setting amount) }
    {
        *self = self.larger(Amounts::none().with(setting, amount));
    }

    /// None is above the greatest value of a setting.
    pub(crate) fn are_in_range(self) -> bool
        ensures { IsTrue result ↔ AreInRange self }
    {
        are_in_range(self, &Setting::ALL)
    }
}

/// Of none of these settings the amount is above the greatest value.
fn are_in_range(amounts: Amounts, settings: &[Setting]) -> bool
    ensures { IsTrue result ↔ AllByRecursion (λ which. value_at amounts which ≤ greatest_setting) settings.now }
{
    for setting in settings {
        if amounts.get(*setting) > GREATEST_SETTING {
            return false;
        }
    }
    true
}
