ghost use Rattle.std.specs.Prelude.{◌≡◌};
ghost use Rattle.stream_audit.specs.Aim.{AimView, audited_at};

use cfs_model::Knobs;
use std::marker::Model;

/// What is asked of a recording: whether it is a run at some settings, or the least settings at which it is one.
#[derive(Clone, Copy, Debug, PartialEq, Eq)]
pub struct Aim {
    knobs: Knobs,
    least: bool,
}

impl Model for Aim {
    ghost Value = { AimView };

    ghost view = { λ a. record { knobs = a.knobs; least = a.least } };

    ghost inverse = { λ s. record { knobs = s.knobs; least = s.least } };
}

impl Aim {
    /// Whether it is a run at these settings, or the least ones.
    pub fn new(knobs: Knobs, least: bool) -> Aim
        ensures { result ≡ record { knobs = knobs; least = least } }
    {
        Aim { knobs, least }
    }

    /// Whether the least settings are asked for.
    pub fn is_least(self) -> bool
        ensures { result ≡ self.least }
    {
        self.least
    }

    /// The settings at which it is audited: for the least ones the greatest.
    pub fn knobs(self) -> Knobs
        ensures { result ≡ audited_at self }
    {
        if self.least {
            Knobs::greatest()
        } else {
            self.knobs
        }
    }
}
