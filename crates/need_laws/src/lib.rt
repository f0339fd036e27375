//! The laws of what settings are short of: where a step needs more of one setting than there is, and no more of any
//! other, this is what is wrong with it. So the places of least settings are found in a record that comes in windows.
//! Each law is the contract of a function that does nothing. It names the files of `proofs` that carry it, the topmost
//! first.
#![tactic(auto)]

ghost use Rattle.need_laws.specs.LeastSoFar.{NeedsGoOn, NeedsTellLeast, NoneFails};
ghost use Rattle.need_laws.specs.Places.{PlaceStays, WindowHasIdling, WindowHasPlace};
ghost use Rattle.need_laws.specs.Reaching.{IdlingIsFault, ReachedIsFault};
ghost use Rattle.need_laws.specs.RiseEvents.{EventStays, RiseHasEvent};
ghost use Rattle.need_laws.specs.Rising.{RisesByNext, StaysByNext};
ghost use Rattle.need_laws.specs.Short.{ShortSlackIsFault, ShortStepIsFault};
ghost use Rattle.need_laws.specs.Within.{FrontWithinIsRun};

/// Where the events before one are a run, and that one needs more of a setting than there is, and no more of any other,
/// the first fault is at it, and is that of the setting.
///
/// Carried by ShortFaults, ShortTests; then the laws `replays`, `faults_end_runs` and `endings` of `replay_laws`.
pub fn shortfalls()
    ensures step { ShortStepIsFault }
    ensures slack { ShortSlackIsFault }
{}

/// Where some events are a run so far, and at each processor the front of them needs no more than other settings, that
/// front is a run at those.
///
/// Carried by WithinRuns; then the laws `composition` of `replay_laws` and `pages` of `part_laws`.
pub fn fronts()
    ensures { FrontWithinIsRun }
{}

/// The first step of a window, at any processor, that needs more of a setting than there is, is where the first fault
/// is.
///
/// Carried by ReachFaults, FirstReach; then WithinRuns and ShortFaults.
pub fn reached()
    ensures { ReachedIsFault }
{}

/// The first event of a window by whose time a processor has idled for longer than the slack is where the first fault
/// is.
///
/// Carried by IdleFaults, IdleFronts; then FirstReach, WithinRuns and ShortFaults.
pub fn idling()
    ensures { IdlingIsFault }
{}

/// By one step more what a replay needs of a setting rises, and then last by that step, or it stays as it was.
///
/// Carried by RoseLast.
pub fn rises()
    ensures rises { RisesByNext }
    ensures stays { StaysByNext }
{}

/// Where what is needed of a setting rises in a window, its place is the first step of all processors that needs so
/// much, or of the slack the first event by whose time one has idled for so long; and it stays with more events.
///
/// Carried by PlacesSoFar; then ReachFaults and IdleFaults.
pub fn places()
    ensures stays { PlaceStays }
    ensures place { WindowHasPlace }
    ensures idling { WindowHasIdling }
{}

/// Where some events are a run so far, the largest needs of the replays in windows are their least settings; and a
/// window's steps add to what is known of these.
///
/// Carried by LeastOfWindows; then the laws `needs` of `replay_laws` and `pages` of `part_laws`.
pub fn least_so_far()
    ensures least { NeedsTellLeast }
    ensures more { NeedsGoOn }
    ensures none { NoneFails }
{}

/// A step by which needs rose in a window has its event there, and the machine behind that has the replay's part.
///
/// Carried by EventOfRise; then the law `replays` of `replay_laws`.
pub fn rise_events()
    ensures event { RiseHasEvent }
    ensures stays { EventStays }
{}
