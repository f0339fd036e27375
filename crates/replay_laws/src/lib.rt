//! The laws of the replay of one processor, and of what the pages of all processors tell, each the contract of a
//! function that does nothing. Each names the files of `proofs` that carry it, the topmost first.
#![tactic(auto)]

ghost use Rattle.replay_laws.specs.Closing.{PagesTellFault, PagesTellRun, SilentPagesAreDone};
ghost use Rattle.replay_laws.specs.Composition.{PagesCompose, CutsCompose};
ghost use Rattle.replay_laws.specs.Endings.{BirthEndsRun, IdlingEndsRun, TicketsEndRun};
ghost use Rattle.replay_laws.specs.FaultsEndRuns.{FaultEndsRun};
ghost use Rattle.replay_laws.specs.FirstFaults.{FaultIsFirstBad, OneFirstFault, RunHasNoFault};
ghost use Rattle.replay_laws.specs.LeastSettings.{PagesTellLeast, PassesFromNeeds};
ghost use Rattle.replay_laws.specs.Replays.{ReplayFollows, SlackFollows};

/// While the events are a run, the replay of each processor's cut of them has no fault and keeps up with its part,
/// and it tells where the slack fails with one more event.
///
/// Carried by `following`: FollowLaws, Followed, Follow, PartIdling, StartPart; then Touching of `part_laws`.
pub fn replays()
    ensures part { ReplayFollows }
    ensures slack { SlackFollows }
{}

/// Where a step of a processor's replay fails, the events up to its own are no run.
///
/// Carried by `ending`: RunEnds; then the law `replays`, and Touching of `part_laws`.
pub fn faults_end_runs()
    ensures { FaultEndsRun }
{}

/// What ends a run beside a step that fails: a processor that idles for too long, a birth of a pid that is alive, a
/// migration whose tickets differ.
///
/// Carried by `ending`: RunEndings, RunEnds; then Roll of `following`, and the laws `replays`, `part_steps` and
/// `migrations`.
pub fn endings()
    ensures idling { IdlingEndsRun }
    ensures birth { BirthEndsRun }
    ensures tickets { TicketsEndRun }
{}

/// Where the replays of all processors pass, the tickets of each migration agree and each birth is of a pid that isn't
/// alive, the events are a run: of any events, and of a whole record by its pages.
///
/// Carried by `composing`: PagesCompose, ComposeAll, StepExists, ShiftTickets, StepLines, Bounded, CutReplays; then
/// Followed, Follow and Roll of `following`, and the laws `part_steps` and `migrations`.
pub fn composition()
    ensures cuts { CutsCompose }
    ensures pages { PagesCompose }
{}

/// Of a record's pages, each of which suffices among them: where they say nothing against any event, they are by all
/// steps and without a fault, and the events are a run; and the first thing that they say against one is what is wrong
/// with it, and it is the first event up to which the events are no run.
///
/// Carried by `telling`: of a run FrontRun, Fronts, IdleFaults, FrontReplay, Deadlines, WholeReplay, then the law
/// `composition`; of a fault PagesSuffice, Stops, FrontFaults, PagesTell, PageCauses, BornHere over these, then the
/// laws `replays`, `faults_end_runs` and `endings`.
pub fn closing()
    ensures done { SilentPagesAreDone }
    ensures run { PagesTellRun }
    ensures fault { PagesTellFault }
{}

/// A first fault is at the first bad line, a run has none, and there is at most one, with one cause.
///
/// Carried by `one_cause`: FirstFaults, OneCause; then the law `endings`, and OnePid and OneLift of `part_laws`.
pub fn first_faults()
    ensures first_bad { FaultIsFirstBad }
    ensures run { RunHasNoFault }
    ensures one { OneFirstFault }
{}

/// A step that passes under some settings passes under others just where these are at least what it needs. So where the
/// replays of all processors pass, the tickets of each migration agree and each birth is of a pid that isn't alive, the
/// largest needs over the processors are the least settings at which the events are a run.
///
/// Carried by `needing`: PageNeeds, StepNeeds; then the laws `composition` and `replays`.
pub fn needs()
    ensures step { PassesFromNeeds }
    ensures pages { PagesTellLeast }
{}
