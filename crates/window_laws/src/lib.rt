//! The laws of windows: what is said of a record whose events come in stretches, each replayed from what was kept of
//! those before it. Each law is the contract of a function that does nothing. It names the files of `proofs` that carry
//! it, the topmost first.
#![tactic(auto)]

ghost use Rattle.window_laws.specs.AnyLists.{ReplayBehind, ReplayFromKept};
ghost use Rattle.window_laws.specs.Beginnings.{NoEventsSoFar};
ghost use Rattle.window_laws.specs.ClaimedParts.{ClaimedInParts};
ghost use Rattle.window_laws.specs.NeedsOfParts.{NeedsInParts};
ghost use Rattle.window_laws.specs.WindowEnds.{SoFarIsRun, SoFarTellsSummary};
ghost use Rattle.window_laws.specs.Windows.{FaultStays, WindowPasses, WindowTellsFault};

/// What a page's lists hold already changes no step that follows, so the pages of a window begin with empty ones.
///
/// Carried by Behind.
pub fn any_lists()
    ensures behind { ReplayBehind }
    ensures kept { ReplayFromKept }
{}

/// Where the replays of all processors stand before their first step, no events are a run so far.
///
/// Carried by Begun.
pub fn beginnings()
    ensures { NoEventsSoFar }
{}

/// Of a window's pages, each of which suffices among them: where they say nothing against any of its events, the events
/// with it are a run so far; and the first thing that they say against one is what is wrong with it, and it is the
/// first event up to which the events are no run, whatever comes behind it.
///
/// Carried by InPrefix, NotDue, LineTickets, Appended, Behind (*passes*, *fault*), then the law `closing` of
/// `replay_laws`; and by Stays (*stays*).
pub fn windows()
    ensures passes { WindowPasses }
    ensures fault { WindowTellsFault }
    ensures stays { FaultStays }
{}

/// Behind the last window the events are a run, and the tallies kept add up to its summary.
///
/// Carried by Ended; then the laws `composition` of `replay_laws` and `tallying` of `tally_laws`.
pub fn window_ends()
    ensures run { SoFarIsRun }
    ensures summary { SoFarTellsSummary }
{}

/// The events of two parts of a trace, with what the companion says on their lines, are those of each with its own, and
/// the policies go over the edge.
///
/// Carried by ClaimsApart.
pub fn claimed_parts()
    ensures { ClaimedInParts }
{}

/// What the steps of two windows need is the larger of what each needs.
///
/// Carried by NeedsAppended, Behind.
pub fn needs_of_parts()
    ensures { NeedsInParts }
{}
