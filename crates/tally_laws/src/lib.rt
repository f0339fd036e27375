//! The law of the tallies on the pages of all processors, the contract of a function that does nothing. It names the
//! files of `proofs` that carry it, the topmost first.
#![tactic(auto)]

ghost use Rattle.tally_laws.specs.Tallying.{PagesAddUp, PagesTellSummary, TalliesBounded, TalliesOfTasks, TalliesOnce};

/// Of a record's pages that suffice and say nothing against any event: their tallies add up, task by task, to what each
/// task did in the run that the events are, so that the summary by them is the run's; and each of them is of a task of
/// the run. A page has at most one tally of a pid, and no task of a run did more than its events allow.
///
/// Carried by TalliesAddedUp, TallyAddends, TalliesInRun, TalliesInMachine, TalliesOfDeeds, TalliesCharged,
/// TalliesSaid (*totals*, *summary*); TalliesOfTasks, Among (*tasks*); TalliesKept, TalliesAtStart (*once*);
/// TallyBounds (*bounded*). Below them stands the law `closing` of `replay_laws`.
pub fn tallying()
    ensures totals { PagesAddUp }
    ensures summary { PagesTellSummary }
    ensures tasks { TalliesOfTasks }
    ensures once { TalliesOnce }
    ensures bounded { TalliesBounded }
{}
