//! The members of a crew: made, run at once for all processors, and gathered.
ghost use Rattle.std.specs.Prelude.{◌≡◌, ◌+◌, ◌<◌, ◌≤◌, None, length, vec_len, All, IfOk, OnOk};
ghost use Rattle.sched_record.specs.Record.{record_view};

use crate::Gate;
use crate::member::Member;
use crate::shared_book::{CrewLedger, SharedBook};
use cfs_model::{Knobs, Memory};
use sched_record::Record;
use std::alloc::Global;
use std::sync::ledger::Share;
use std::sync::{Mutex, Wait};
use std::thread;
use std::thread::Threads;

/// A member for each of so many processors, each with one part of the ledger.
pub(crate) fn members_of<L: CrewLedger>(
    alloc: Global,
    all: &mut Share<L>,
    cpus: u32,
) -> Result<Vec<Member<L>>, Memory>
    requires parts { all.old.parts ≡ cpus }
    requires none { all.old.amount ≡ 0 }
    ensures count { IfOk result (λ members. vec_len members ≡ cpus) }
    ensures free { IfOk result (λ members. All (λ member. member.posted ≡ None) members.items) }
    ensures none_underway { IfOk result (λ members. All (λ member. member.underway ≡ None) members.items) }
    ensures rest { OnOk result (all.new.parts ≡ 0) }
    ensures none { OnOk result (all.new.amount ≡ 0) }
{
    let mut members = Vec::with_capacity(alloc, cpus as usize)?;
    for _cpu in 0..cpus {
        members.push(Member::new(all.split_off(1, 0)))?;
    }
    Ok(members)
}

/// Makes the first stretch of the auditors of all members at once, and waits for its end at each.
pub(crate) fn begin_all<L: CrewLedger + Send + Sync, R: Threads + Wait + Sync, G: Gate>(
    rt: &R,
    alloc: Global,
    members: &mut [Member<L>],
    shared: &Mutex<SharedBook<L>>,
    joined: &Record,
    knobs: Knobs,
    gate: &G,
)
    requires one_each { length members.old ≡ (record_view joined.now).cpus }
    requires free { All (λ member. member.posted ≡ None) members.old }
    requires none_underway { All (λ member. member.underway ≡ None) members.old }
    requires joined { L.joined ≡ record_view joined.now }
    requires knobs { L.knobs ≡ knobs }
{
    let threads = members.len();
    thread::for_each_mut(
        rt,
        members,
        threads,
        &|cpu: usize, member: &mut Member<L>|
            requires { (cpu < (record_view joined.now).cpus) × (member.old.posted ≡ None) × (member.old.underway ≡ None)
                × (L.joined ≡ record_view joined.now) × (L.knobs ≡ knobs) }
        { member.begin(rt, alloc, shared, joined, cpu as u32, knobs, gate) },
    );
}

/// Runs the auditors of all members to their ends, at once, and waits for these. Where all have come to them no thread
/// is started.
pub(crate) fn end_all<L: CrewLedger + Send + Sync, R: Threads + Wait + Sync, G: Gate>(
    rt: &R,
    members: &mut [Member<L>],
    shared: &Mutex<SharedBook<L>>,
    gate: &G,
)
    requires { 0 < length members.old }
{
    if !members.iter().any(|member| member.is_underway()) {
        return;
    }
    let threads = members.len();
    thread::for_each_mut(
        rt,
        members,
        threads,
        &|_cpu: usize, member: &mut Member<L>| { member.end(rt, shared, gate) },
    );
}

/// Merges the shares of all members, and counts their posts.
pub(crate) fn gather<L: CrewLedger>(
    members: Vec<Member<L>>,
    all: &mut Share<L>,
) -> Result<u32, Memory>
    requires few { vec_len members ≤ 64 }
    requires none { all.old.amount ≡ 0 }
    ensures parts { OnOk result (all.new.parts ≡ all.old.parts + vec_len members) }
    ensures amount { IfOk result (λ posted. all.new.amount ≡ posted) }
{
    let mut posted = 0;
    for member in members {
        posted += member.leave(all)?;
    }
    Ok(posted)
}
