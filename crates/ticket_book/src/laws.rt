//! The laws of verdicts and of books. Each is the contract of a function that does nothing of its own.
ghost use Rattle.ticket_book.specs.Left.{WholePagesAreLeft};
ghost use Rattle.ticket_book.specs.OneVerdict.{OneLeastAnswer, OneVerdict};

use cfs_model::{least_settings, one_list, prefixes};
use replay_laws::first_faults;

/// A law: a record has one verdict. Two verdicts on it, by the same settings, tell the same, the summary included.
pub fn one_verdict()
    ensures { OneVerdict }
{
    one_list();
    first_faults();
}

/// A law: a record has one answer of its least settings.
pub fn one_least_answer()
    ensures { OneLeastAnswer }
{
    least_settings();
    prefixes();
    first_faults();
}

/// A law: whole pages of all of a record's processors, in whatever order they were posted, are among the pages that
/// auditors leave, of which none is made again.
pub fn whole_pages_left()
    ensures { WholePagesAreLeft }
{}
