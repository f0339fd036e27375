//! The members of an audit in windows, one for each processor.
ghost use Rattle.std.specs.Thread.{IsSync};
ghost use Rattle.std.specs.Prelude.{◌≡◌, ℕ, ◌+◌, ◌^◌, ◌<◌, ◌≤◌, [], false, All, IfOk, length, slice_index_or};
ghost use Rattle.companion_file.specs.Seen.{companion_view};
ghost use Rattle.replay_model.specs.Cut.{cut, steps_at};
ghost use Rattle.replay_model.specs.Page.{IsStartOf};
ghost use Rattle.sched_record.specs.Window.{window_view};
ghost use Rattle.window_audit.specs.Member.{replay_of};
ghost use Rattle.window_audit.specs.States.{AllWentThrough, AreOwn, WentThrough, forgotten};
ghost use Rattle.window_audit.specs.declared.member.Member.{Member as MemberOf};

use crate::member::Member;
use crate::starting::first_of_threads;
use cfs_model::{Knobs, Memory};
use companion_file::Companion;
use queue_replay::WindowedReplay;
use sched_record::{Window, deal_start};
use std::alloc::Global;
use std::thread;
use std::thread::{Threads, join_mut};

/// How many events are worth a thread of their own.
const EVENTS_A_THREAD: usize = 2 * 1024;

/// How many threads are started for a window, at most: reading the texts goes on by one thread, and more of these would
/// wait for it.
const MOST_THREADS: usize = 8;

/// A member for each processor of a start state, before the first window.
pub(crate) fn members_of(
    alloc: Global,
    companion: &Companion,
    knobs: Knobs,
) -> Result<Vec<Member>, Memory>
    ensures count { IfOk result (λ members. length members.items ≡ (companion_view companion.now).cpus) }
    ensures own { IfOk result (λ members. AreOwn knobs 0 members.items) }
    ensures start { let of = companion_view companion.now in
        IfOk result (λ members. (cpu : ℕ) (d : MemberOf) → cpu < of.cpus
        → IsStartOf (cut of.start of.floors of.tasks [] cpu) (replay_of (slice_index_or members.items cpu d)).state) }
{
    let mut members = Vec::new(alloc);
    for cpu in 0..companion.cpus() {
        members.push(member_of(alloc, companion, cpu, knobs)?)?;
    }
    Ok(members)
}

/// The member of one processor.
fn member_of(alloc: Global, companion: &Companion, cpu: u32, knobs: Knobs) -> Result<Member, Memory>
    requires { cpu < (companion_view companion.now).cpus }
    ensures cpu { IfOk result (λ member. (replay_of member).cpu ≡ cpu) }
    ensures knobs { IfOk result (λ member. (replay_of member).knobs ≡ knobs) }
    ensures made { IfOk result (λ member. (replay_of member).made ≡ 0) }
    ensures start { let of = companion_view companion.now in
        IfOk result (λ member. IsStartOf (cut of.start of.floors of.tasks [] cpu) (replay_of member).state) }
{
    let stream = deal_start(alloc, companion, cpu)?;
    let replay = WindowedReplay::new(alloc, &stream, knobs)?;
    Ok(Member::new(alloc, replay))
}

/// Lets each go through a window up to the time and line of its last event, several at once where its events are many.
pub(crate) fn go_through_all<R: Threads + Sync>(
    rt: &R,
    members: &mut [Member],
    window: &Window,
    last_time: u64,
    last_line: u32,
)
    requires some { 0 < length members.old }
    requires few { All (λ member. (replay_of member).made
        + length (steps_at (replay_of member).cpu (window_view window.now)) < 2 ^ 64) members.old }
    ensures { AllWentThrough (window_view window.now) last_time last_line members.old members.new }
{
    let threads = threads_for(members.len(), window.events().len());
    if threads == 1 {
        go_in_turn(rt, window, last_time, last_line, members);
        return;
    }
    let first = first_of_threads(rt);
    let portion = members.len().div_ceil(threads);
    go_beside(rt, portion, window, last_time, last_line, members);
    if let Some(first) = first {
        first.join(rt);
    }
}

/// Lets each go through a window, so many by each thread. This thread starts all others one behind the other, and takes
/// the last portion.
fn go_beside<R: Threads + Sync>(
    rt: &R,
    portion: usize,
    window: &Window,
    last_time: u64,
    last_line: u32,
    members: &mut [Member],
)
    requires some { 0 < portion }
    requires few { All (λ member. (replay_of member).made
        + length (steps_at (replay_of member).cpu (window_view window.now)) < 2 ^ 64) members.old }
    ensures { AllWentThrough (window_view window.now) last_time last_line members.old members.new }
{
    if members.len() <= portion {
        go_in_turn(rt, window, last_time, last_line, members);
        return;
    }
    let (front, rest) = members.split_at_mut(portion);
    join_mut(
        rt,
        &mut ||
            requires { IsSync R.row × All (λ member. (replay_of member).made
                + length (steps_at (replay_of member).cpu (window_view window.now)) < 2 ^ 64) front.now }
            ensures { AllWentThrough (window_view window.entry.now) last_time last_line front.entry.now
                front.exit.now }
        { go_in_turn(rt, window, last_time, last_line, front) },
        &mut ||
            requires { IsSync R.row × (0 < portion) × All (λ member. (replay_of member).made
                + length (steps_at (replay_of member).cpu (window_view window.now)) < 2 ^ 64) rest.now }
            ensures { AllWentThrough (window_view window.entry.now) last_time last_line rest.entry.now rest.exit.now }
        { go_beside(rt, portion, window, last_time, last_line, rest) },
    );
}

/// Lets each go through a window, one after the other.
fn go_in_turn<R: Threads + Sync>(
    rt: &R,
    window: &Window,
    last_time: u64,
    last_line: u32,
    members: &mut [Member],
)
    requires { All (λ member. (replay_of member).made
        + length (steps_at (replay_of member).cpu (window_view window.now)) < 2 ^ 64) members.old }
    ensures { AllWentThrough (window_view window.now) last_time last_line members.old members.new }
{
    thread::for_each_mut(
        rt,
        members,
        1,
        &|_cpu: usize, member: &mut Member|
            requires { (replay_of member.old).made
                + length (steps_at (replay_of member.old).cpu (window_view window.now)) < 2 ^ 64 }
            ensures { WentThrough (window_view window.entry.now) last_time last_line member.old member.new }
        { member.go_through(window, last_time, last_line) },
    );
}

/// By how many threads so many members go through so many events: by one where starting more would take longer.
fn threads_for(members: usize, events: usize) -> usize
    requires { 0 < members }
    ensures { 0 < result }
{
    members.min(1 + events / EVENTS_A_THREAD).min(MOST_THREADS)
}

/// Whether a growth was refused to one of them.
pub(crate) fn want_memory(members: &[Member]) -> bool
    ensures { result ≡ false → All (λ member. member.wants_memory ≡ false) members.now }
{
    for member in members {
        if member.wants_memory {
            return true;
        }
    }
    false
}

/// Empties the lists of the pages of all.
pub(crate) fn forget_all(members: &mut [Member])
    ensures { (cpu : ℕ) (d : MemberOf) → cpu < length members.old
        → replay_of (slice_index_or members.new cpu d) ≡ forgotten (replay_of (slice_index_or members.old cpu d)) }
{
    for member in members.iter_mut() {
        member.forget();
    }
}
