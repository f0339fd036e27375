//! The pursuers of all processors, in the order of their numbers.
ghost use Rattle.std.specs.Prelude.{◌≡◌, ℕ, ◌+◌, ◌^◌, ◌<◌, [], All, IfOk, OnOk, length};
ghost use Rattle.cfs_model.specs.Least.{greatest_settings, larger};
ghost use Rattle.companion_file.specs.Seen.{companion_view};
ghost use Rattle.queue_replay.specs.Windowed.{windowed_view};
ghost use Rattle.replay_model.specs.Cut.{cut, steps_at};
ghost use Rattle.replay_model.specs.Needs.{idle_need, largest, only_slack};
ghost use Rattle.replay_model.specs.Page.{IsStartOf};
ghost use Rattle.sched_record.specs.Window.{window_view};
ghost use Rattle.window_audit.specs.States.{IsOwn};
ghost use Rattle.least_audit.specs.Candidates.{begin_of, idlings_of, line_of, rises_to};
ghost use Rattle.least_audit.specs.FirstOf.{IsFirstOf, goes_first};
ghost use Rattle.least_audit.specs.Pursuers.{AllPursuedOn, view_at};

use crate::pursuer::{Idling, Pursuer, RiseAt};
use crate::rise::Rises;
use cfs_model::{Amounts, Knobs, Memory, Setting};
use companion_file::Companion;
use queue_replay::WindowedReplay;
use replay_model::Step;
use sched_record::{Window, deal_start};
use std::alloc::Global;

/// One for each processor of a start state, before the first window.
pub(crate) fn pursuers_of(alloc: Global, companion: &Companion) -> Result<Vec<Pursuer>, Memory>
    ensures count { IfOk result (λ pursuers. length pursuers.items ≡ (companion_view companion.now).cpus) }
    ensures own { IfOk result (λ pursuers. (cpu : ℕ) → cpu < length pursuers.items
        → IsOwn greatest_settings cpu 0 (view_at pursuers.items cpu)) }
    ensures start { let of = companion_view companion.now in
        IfOk result (λ pursuers. (cpu : ℕ) → cpu < length pursuers.items
        → IsStartOf (cut of.start of.floors of.tasks [] cpu) (view_at pursuers.items cpu).state) }
    ensures needs { IfOk result (λ pursuers. (cpu : ℕ) → cpu < length pursuers.items
        → (view_at pursuers.items cpu).needs ≡ only_slack 0) }
{
    let mut pursuers = Vec::new(alloc);
    for cpu in 0..companion.cpus() {
        pursuers.push(pursuer_of(alloc, companion, cpu)?)?;
    }
    Ok(pursuers)
}

/// That of one processor.
fn pursuer_of(alloc: Global, companion: &Companion, cpu: u32) -> Result<Pursuer, Memory>
    requires { cpu < (companion_view companion.now).cpus }
    ensures own { IfOk result (λ pursuer. IsOwn greatest_settings cpu 0 (windowed_view pursuer.replay)) }
    ensures start { let of = companion_view companion.now in
        IfOk result (λ pursuer. IsStartOf (cut of.start of.floors of.tasks [] cpu)
        (windowed_view pursuer.replay).state) }
    ensures needs { IfOk result (λ pursuer. (windowed_view pursuer.replay).needs ≡ only_slack 0) }
{
    let stream = deal_start(alloc, companion, cpu)?;
    Ok(Pursuer {
        replay: WindowedReplay::new(alloc, &stream, Knobs::greatest())?,
        rises: Rises::none(),
    })
}

/// Lets each go through a window. The list is for its steps.
pub(crate) fn pursue_all(
    pursuers: &mut [Pursuer],
    window: &Window,
    steps: &mut Vec<Step>,
) -> Result<(), Memory>
    requires few { All (λ pursuer. (windowed_view pursuer.replay).made
        + length (steps_at (windowed_view pursuer.replay).cpu (window_view window.now)) < 2 ^ 64) pursuers.old }
    ensures { OnOk result (AllPursuedOn (window_view window.now) pursuers.old pursuers.new) }
{
    for pursuer in pursuers.iter_mut() {
        pursuer.go_through(window, steps)?;
    }
    Ok(())
}

/// What is needed of each setting behind a window whose last event is at this time, in nanoseconds: the most that a
/// processor needs.
pub(crate) fn needs_at(pursuers: &[Pursuer], time: u64) -> Amounts
    ensures { result ≡ largest (λ cpu. larger (view_at pursuers.now cpu).needs
        (only_slack (idle_need (view_at pursuers.now cpu).state.since time))) (length pursuers.now) }
{
    let mut largest = Amounts::none();
    for pursuer in pursuers {
        largest = largest.larger(pursuer.needs_at(time));
    }
    largest
}

/// The first step, by its line, at which the needs of a processor rose that needs so much of a setting.
pub(crate) fn first_rise(pursuers: &[Pursuer], setting: Setting, value: u64) -> Option<RiseAt>
    ensures { IsFirstOf line_of (rises_to setting value pursuers.now) (length pursuers.now) result }
{
    let mut first = None;
    for pursuer in pursuers {
        let next = pursuer.rise_to(setting, value);
        if rises_first(&next, &first) {
            first = next;
        }
    }
    first
}

/// Whether it is on a lesser line than the first so far, or there was none.
fn rises_first(next: &Option<RiseAt>, first: &Option<RiseAt>) -> bool
    ensures { result ≡ goes_first line_of next.now first.now }
{
    match (next, first) {
        (_, None) => true,
        (None, Some(_)) => false,
        (Some(next), Some(first)) => next.rise.step.line < first.rise.step.line,
    }
}

/// Which processor idled since the least time, of those that need more of the slack than a bound or still idle.
pub(crate) fn first_idling(pursuers: &[Pursuer], bound: u64) -> Option<Idling>
    ensures { IsFirstOf begin_of (idlings_of bound pursuers.now) (length pursuers.now) result }
{
    let mut first = None;
    for pursuer in pursuers {
        let next = pursuer.idling(bound);
        if idles_first(&next, &first) {
            first = next;
        }
    }
    first
}

/// Whether it began at a lesser time than the first so far, or there was none.
fn idles_first(next: &Option<Idling>, first: &Option<Idling>) -> bool
    ensures { result ≡ goes_first begin_of next.now first.now }
{
    match (next, first) {
        (_, None) => true,
        (None, Some(_)) => false,
        (Some(next), Some(first)) => next.since < first.since,
    }
}
