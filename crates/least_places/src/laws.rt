//! The laws of least settings and their places. Each is the contract of a function that does nothing of its own.
ghost use Rattle.least_places.specs.OneLeastAnswer.{FrontsNeedLess, OneLeastAnswer};

use cfs_model::prefixes;
use replay_laws::first_faults;
use ticket_book::one_least_answer;

/// A law: a record has one answer of its least settings and their places.
pub fn one_least_figures()
    ensures { OneLeastAnswer }
{
    one_least_answer();
    first_faults();
    prefixes();
}

/// A law: the least settings of the events before a figure's place have less of its setting, and those of the events up
/// to it and including it have as much.
pub fn fronts_need_less()
    ensures { FrontsNeedLess }
{
    prefixes();
}
