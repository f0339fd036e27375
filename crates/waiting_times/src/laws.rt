//! The law of waits, the contract of a function that does nothing of its own.
ghost use Rattle.waiting_times.specs.Laws.{OneWaiting};

use cfs_model::least_settings;

/// A law: the waits of a record's run are told in one way, whatever the settings at which it is one.
pub fn one_waiting()
    ensures { OneWaiting }
{
    least_settings();
}
