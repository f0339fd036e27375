//! The laws of outcomes and of a yes, each the contract of a function that does nothing of its own.
#![tactic(auto)]

ghost use Rattle.audit_laws.specs.LawsOfAYes.{TextsStartOrderly, YesIsLawful};
ghost use Rattle.audit_laws.specs.OneOutcome.{OneLeastOutcome, OneLeastRun, OneOutcome, OneRun};

use cfs_model::places;
use companion_file::one_companion_answer;
use least_places::one_least_figures;
use sched_record::{one_record_answer, one_trace_answer};
use ticket_book::one_verdict;

/// A law: two outcomes of the same two texts, by the same settings, tell the same, and so have the same report and the
/// same status.
pub fn one_outcome()
    ensures { OneOutcome }
{
    one_trace_answer();
    one_companion_answer();
    one_record_answer();
    one_verdict();
}

/// A law: so do two outcomes of the least settings.
pub fn one_least_outcome()
    ensures { OneLeastOutcome }
{
    one_trace_answer();
    one_companion_answer();
    one_record_answer();
    one_least_figures();
}

/// A law: the bytes that `run` reads fix the bytes that it writes and its status, wherever it answers one; and so they
/// do of `run_least`.
pub fn one_run()
    ensures verdict { OneRun }
    ensures least { OneLeastRun }
{
    one_outcome();
    one_least_outcome();
}

/// A law: the record of two texts starts so, and each step of its run leads on so, that no task runs on two processors
/// or waits in two queues, and no two run on one; each charge is the quotient of the time by the weight, rounded down,
/// and each pick is within the granularity.
pub fn laws_of_a_yes()
    ensures start { TextsStartOrderly }
    ensures steps { YesIsLawful }
{
    places();
}
