ghost use Rattle.std.specs.Prelude.{◌≡◌, ◌+◌, ◌^◌, ◌<◌, ◌≤◌, [], true, false, None, IsSome, ◌⊎◌, length, OnOk, OnErr};
ghost use Rattle.std.specs.Prelude.{IfOk};
ghost use Rattle.cfs_model.specs.Limits.{no_line};
ghost use Rattle.replay_model.specs.Cut.{StreamView};
ghost use Rattle.queue_replay.specs.Windowed.{GoesThrough, StopsWithin, windowed_by};
ghost use Rattle.cfs_model.specs.Least.{larger};
ghost use Rattle.replay_model.specs.Needs.{idle_need, only_slack};
ghost use Rattle.replay_model.specs.Page.{IsStartOf, end_page};
ghost use Rattle.queue_replay.specs.Counting.{page_draft_view};
ghost use Rattle.queue_replay.specs.ReplayState.{IsGoing, replay_state_view};
ghost use Rattle.queue_replay.specs.Made.{IsAt, IsCut, GoesOn};
ghost use Rattle.runqueue.specs.Queue.{runqueue_view};
ghost use Rattle.processor_stream.specs.Stream.{stream_view};

use crate::needs::raise_slack;
use crate::page_draft::PageDraft;
use crate::replay_state::{ReplayState, idle_deadline, idled_time, since_after};
use crate::row_tallies::RowTallies;
use cfs_model::{Amounts, IDLE_PID, Kind, Knobs, Memory, NO_LINE};
use processor_stream::Stream;
use replay_model::{Step, StepFault};
use runqueue::Runqueue;
use std::alloc::Global;

/// Makes so many steps at most.
pub(crate) fn make_steps(
    stream: &Stream,
    knobs: Knobs,
    state: &mut ReplayState,
    steps: u64,
) -> Result<(), Memory>
    requires { IsAt (stream_view stream.now) knobs state.old }
    ensures at { IsAt (stream_view stream.now) knobs state.new }
    ensures made { OnOk result (GoesOn (stream_view stream.now) knobs state.old.made
        (page_draft_view state.old.draft) steps state.new.made (page_draft_view state.new.draft)) }
    ensures memory { OnErr result (IsCut (stream_view stream.now) knobs state.old.made steps state.new.made
        (page_draft_view state.new.draft)) }
{
    let mut left = steps;
    while left > 0 {
        if !is_going(stream, state) {
            return Ok(());
        }
        advance(stream, knobs, state)?;
        left -= 1;
    }
    Ok(())
}

/// Steps are left, and none has failed.
fn is_going(stream: &Stream, state: &ReplayState) -> bool
    ensures going { result ≡ true → (state.now.draft.fault ≡ None)
        × (state.now.made < length (stream_view stream.now).steps) }
    ensures over { result ≡ false → IsSome state.now.draft.fault
        ⊎ (length (stream_view stream.now).steps ≤ state.now.made) }
{
    state.draft.fault.is_none() && state.made < stream.steps().len()
}

/// Makes the next step, and the end test where none is then left.
fn advance(stream: &Stream, knobs: Knobs, state: &mut ReplayState) -> Result<(), Memory>
    requires at { IsAt (stream_view stream.now) knobs state.old }
    requires fault { state.old.draft.fault ≡ None }
    requires left { state.old.made < length (stream_view stream.now).steps }
    ensures at { IsAt (stream_view stream.now) knobs state.new }
    ensures made { OnOk result (state.new.made ≡ state.old.made + 1) }
    ensures memory { OnErr result ((state.new.made ≡ state.old.made)
        × (page_draft_view state.new.draft ≡ page_draft_view state.old.draft)) }
{
    let step = &stream.steps()[state.made];
    state.step(stream.cpu(), step, &knobs)?;
    if state.made == stream.steps().len() {
        end_test(stream, knobs, state);
    }
    Ok(())
}

/// A processor that idles beside a waiting task at the record's end needs the slack for it, and may have idled for too
/// long.
fn end_test(stream: &Stream, knobs: Knobs, state: &mut ReplayState)
    ensures made { state.new.made ≡ state.old.made }
    ensures needs { state.old.draft.fault ≡ None
        → state.new.needs ≡ larger state.old.needs
        (only_slack (idle_need state.old.since (stream_view stream.now).last_time)) }
    ensures part { runqueue_view state.new.queue ≡ runqueue_view state.old.queue }
    ensures since { state.new.since ≡ state.old.since }
    ensures page { page_draft_view state.new.draft ≡ end_page knobs.slack
        (stream_view stream.now) state.old.since state.old.draft.fault (page_draft_view state.old.draft) }
{
    if state.draft.fault.is_some() {
        return;
    }
    let idled = idled_time(state.since, stream.last_time());
    raise_slack(&mut state.needs, idled);
    end_window(state, stream.last_time(), stream.last_line(), knobs);
}

/// A processor that idles beside a waiting task at this time may have idled for too long; the fault is on this line.
pub(crate) fn end_window(state: &mut ReplayState, last_time: u64, last_line: u32, knobs: Knobs)
    ensures made { state.new.made ≡ state.old.made }
    ensures needs { state.new.needs ≡ state.old.needs }
    ensures part { runqueue_view state.new.queue ≡ runqueue_view state.old.queue }
    ensures since { state.new.since ≡ state.old.since }
    ensures page { (stream : StreamView) → stream.last_time ≡ last_time → stream.last_line ≡ last_line
        → page_draft_view state.new.draft ≡ end_page knobs.slack stream state.old.since state.old.draft.fault
        (page_draft_view state.old.draft) }
    ensures going { (state.old.draft.fault ≡ None → IsGoing state.old) → state.new.draft.fault ≡ None
        → IsGoing state.new }
{
    if state.draft.fault.is_some() {
        return;
    }
    if let Some(deadline) = idle_deadline(state.since, last_time, knobs.slack()) {
        state.draft.fault = Some(StepFault {
            line: last_line,
            kind: Kind::IdleTooLong,
            pid: IDLE_PID,
            deadline: Some(deadline),
        });
    }
}

/// Makes these steps, up to the first that fails.
#[inline(always)]
pub(crate) fn go_through(
    state: &mut ReplayState,
    cpu: u32,
    steps: &[Step],
    knobs: &Knobs,
) -> Result<(), Memory>
    requires few { state.old.made + length steps.now < 2 ^ 64 }
    requires going { state.old.draft.fault ≡ None → IsGoing state.old }
    ensures going { state.new.draft.fault ≡ None → IsGoing state.new }
    ensures through { OnOk result (GoesThrough (windowed_by cpu knobs.now state.old) steps.now
        (windowed_by cpu knobs.now state.new)) }
    ensures memory { OnErr result (StopsWithin (windowed_by cpu knobs.now state.old) steps.now
        (windowed_by cpu knobs.now state.new)) }
{
    for step in steps {
        if state.draft.fault.is_some() {
            return Ok(());
        }
        state.step(cpu, step, knobs)?;
    }
    Ok(())
}

/// The state before the first step; on a stream without steps, after the end test.
pub(crate) fn start(alloc: Global, stream: &Stream, knobs: Knobs) -> Result<ReplayState, Memory>
    ensures at { IfOk result (λ state. IsAt (stream_view stream.now) knobs state) }
    ensures made { IfOk result (λ state. state.made ≡ 0) }
{
    let mut state = before_steps(alloc, stream)?;
    if stream.steps().is_empty() {
        end_test(stream, knobs, &mut state);
    }
    Ok(state)
}

/// The state before the first step.
pub(crate) fn before_steps(alloc: Global, stream: &Stream) -> Result<ReplayState, Memory>
    ensures made { IfOk result (λ state. state.made ≡ 0) }
    ensures start { IfOk result (λ state. IsStartOf (stream_view stream.now) (replay_state_view state)) }
    ensures going { IfOk result IsGoing }
    ensures needs { IfOk result (λ state. state.needs ≡ only_slack 0) }
{
    let queue = Runqueue::of_tasks(alloc, stream.tasks(), stream.floor(), stream.start())?;
    let since = since_after(None, stream.start(), &queue);
    let tallies = RowTallies::of_pids(alloc, queue.pids())?;
    Ok(state_before(alloc, queue, since, tallies))
}

/// The state before any step, of who stands at the processor, since when it has idled beside a waiting task, in
/// nanoseconds, and what the tasks did by then.
pub(crate) fn state_before(
    alloc: Global,
    queue: Runqueue,
    since: Option<u64>,
    tallies: RowTallies,
) -> ReplayState
    ensures made { result.made ≡ 0 }
    ensures part { runqueue_view result.queue ≡ runqueue_view queue }
    ensures pids { result.queue.tasks.pids ≡ queue.tasks.pids }
    ensures since { result.since ≡ since }
    ensures needs { result.needs ≡ only_slack 0 }
    ensures fault { result.draft.fault ≡ None }
    ensures line { result.draft.line ≡ no_line }
    ensures lists { (result.draft.left.items ≡ []) × (result.draft.came.items ≡ []) × (result.draft.births.items ≡ [])
        × (result.draft.deaths.items ≡ []) }
    ensures tallies { result.draft.tallies ≡ tallies }
{
    ReplayState {
        made: 0,
        queue,
        since,
        needs: Amounts::none(),
        draft: PageDraft {
            line: NO_LINE,
            fault: None,
            left: Vec::new(alloc),
            came: Vec::new(alloc),
            births: Vec::new(alloc),
            deaths: Vec::new(alloc),
            tallies,
        },
    }
}
