//! The laws of steps and runs. Each is the contract of a function that does nothing.
ghost use Rattle.cfs_model.specs.Laws.{OneNext, OneList, RunPrefix, StepKeepsOrder, RunKeepsOrder, StartInOrder};
ghost use Rattle.cfs_model.specs.Laws.{FloorsRise, MarksMove, MoreKeepsRun, LesserKeepsRun, SameStates, OneLeast};
ghost use Rattle.cfs_model.specs.Laws.{RunFromLeast, LeastOfPrefix, GreatestTellBadAtAll, PoliciesAreTold};
ghost use Rattle.cfs_model.specs.Laws.{MoverKeepsPolicy};

/// From a machine an event leads to at most one machine, and events lead through at most one list of states.
pub fn one_list()
    ensures next { OneNext }
    ensures list { OneList }
{}

/// Every prefix of a run is a run.
pub fn prefixes()
    ensures { RunPrefix }
{}

/// A step keeps the order of a machine, so each state that a run reaches has it where the first has it, and the
/// start that a companion names has it: each pid stands once, at most one runs at a processor, just those that
/// stand have values, and every value is in range.
pub fn places()
    ensures step { StepKeepsOrder }
    ensures run { RunKeepsOrder }
    ensures start { StartInOrder }
{}

/// The floor of a runqueue is never lowered.
pub fn floors_rise()
    ensures { FloorsRise }
{}

/// A step charges at the processors that its event touches, up to its time.
pub fn marks_move()
    ensures { MarksMove }
{}

/// The events before a line lead to a machine in which each task has the policy that the companion tells at the start
/// and at the births before the line. So the policy told of a task that moves is its own, and what a migration asks of
/// it holds of every record.
pub fn policies()
    ensures told { PoliciesAreTold }
    ensures moved { MoverKeepsPolicy }
{}

/// More generous settings keep a run and its states, and so does the lesser of two settings that make one. So there are
/// at most one least settings, the events are a run just at the settings that are at least these, and a prefix's are at
/// most the whole's; and the first bad line at the greatest settings is one that no settings in range help.
pub fn least_settings()
    ensures more { MoreKeepsRun }
    ensures lesser { LesserKeepsRun }
    ensures states { SameStates }
    ensures one { OneLeast }
    ensures exact { RunFromLeast }
    ensures prefix { LeastOfPrefix }
    ensures bad_at_all { GreatestTellBadAtAll }
{}
