//! Two auditors that wait for each other: they run at once, and hold no lock while they replay, in every call that
//! audits.

use crate::answers::wants_about;
use crate::calls::{MaybeFault, Told, companion_of, fault_of, gathered, told_together, trace_of};
use crate::machines::{
    DEATH_THEN_BIRTH_ELSEWHERE, FAULT_BEFORE_TEN_THOUSAND_WAKEUPS, Recording, TEN_THOUSAND_WAKEUPS,
};
use audit_crew::Gate;
use cfs_model::Knobs;
use sched_audit::{Fault, FeedOf, SinkOf, Status, audit_texts, run};
use std::alloc::Global;
use std::sync::Wait;
use std::sync::atomic::{AtomicBool, AtomicU64, Ordering};
use std::test::Fail;
use std::thread;
use std::thread::Threads;
use std::time::{Clock, Duration};

/// The number of turns, each of a millisecond, for which an auditor waits for the other.
const LIMIT: u32 = 10000;

/// How often the auditors of processors 0 and 1 have entered, and whether one waited up to the limit.
type Entries = (u64, u64, bool);

/// A gate for two auditors, at which each entry waits until the other has entered as often, up to the limit.
#[derive(Drop)]
struct Turnstile<'c, C: Clock> {
    clock: &'c C,
    zero: AtomicU64,
    one: AtomicU64,
    limit_reached: AtomicBool,
}

impl<'c, C: Clock> Turnstile<'c, C> {
    fn new(clock: &'c C) -> Turnstile<'c, C> {
        Turnstile {
            clock,
            zero: AtomicU64::new(0),
            one: AtomicU64::new(0),
            limit_reached: AtomicBool::new(false),
        }
    }

    fn entries(&self) -> Entries {
        (
            self.zero.load(Ordering::SeqCst),
            self.one.load(Ordering::SeqCst),
            self.limit_reached.load(Ordering::SeqCst),
        )
    }
}

impl<C: Clock + Sync> Gate for Turnstile<'_, C> {
    fn enter(&self, cpu: u32) {
        let (own, other) = if cpu == 0 {
            (&self.zero, &self.one)
        } else {
            (&self.one, &self.zero)
        };
        let before = own.fetch_add(1, Ordering::SeqCst);
        for _turn in 0..LIMIT {
            if other.load(Ordering::SeqCst) > before {
                return;
            }
            thread::sleep(self.clock, Duration::from_millis(1));
        }
        self.limit_reached.store(true, Ordering::SeqCst);
    }
}

/// The entries of auditors that make so many stretches each: one before each, and one before the page is posted.
fn entries_by(stretches: u64) -> Entries {
    let each = stretches.saturating_add(1);
    (each, each, false)
}

/// Recordings at which each auditor makes one stretch, or two, with their reports.
fn meetings() -> [(&'static Recording, u64, &'static str); 2] {
    [
        (
            &DEATH_THEN_BIRTH_ELSEWHERE,
            1,
            "run\nevents 2\nswitches 1\nmigrations 0\nbirths 1\ndeaths 1\ntask 101 ran 1000000 charged 1000000 picks 0\n",
        ),
        (
            &TEN_THOUSAND_WAKEUPS,
            2,
            "run\nevents 10000\nswitches 0\nmigrations 0\nbirths 0\ndeaths 0\ntask 101 ran 0 charged 0 picks 0\ntask 102 ran 0 charged 0 picks 0\n",
        ),
    ]
}

/// How many pages a crew posts that meets at a gate, and the gate's entries.
fn gathered_at<R: Threads + Wait + Clock + Sync>(
    rt: &R,
    alloc: Global,
    recording: &Recording,
) -> Result<(u32, Entries), Fail> {
    let gate = Turnstile::new(rt);
    let (posted, _least) = gathered(rt, alloc, recording, &gate)?;
    Ok((posted, gate.entries()))
}

#[test]
fn auditors_of_a_crew_wait_for_each_other(rt: HostRuntime) -> Result<(), Fail> {
    for (recording, stretches, _report) in meetings() {
        let answer = gathered_at(&rt, rt.alloc(), recording)?;
        wants_about(&rt, recording.name, &answer, &(2, entries_by(stretches)));
    }
    Ok(())
}

/// What a crew comes to that meets at a gate, and the gate's entries.
fn judged_at<R: Threads + Wait + Clock + Sync>(
    rt: &R,
    alloc: Global,
    recording: &Recording,
) -> Result<(Told, Entries), Fail> {
    let gate = Turnstile::new(rt);
    let told = told_together(rt, alloc, recording, &gate)?;
    Ok((told, gate.entries()))
}

#[test]
fn auditors_of_a_record_wait_for_each_other(rt: HostRuntime) -> Result<(), Fail> {
    for (recording, stretches, _report) in meetings() {
        let answer = judged_at(&rt, rt.alloc(), recording)?;
        let wanted = ((0, recording.fault), entries_by(stretches));
        wants_about(&rt, recording.name, &answer, &wanted);
    }
    Ok(())
}

#[test]
fn auditors_learn_of_a_fault_before_their_second_stretch(rt: HostRuntime) -> Result<(), Fail> {
    let recording = &FAULT_BEFORE_TEN_THOUSAND_WAKEUPS;
    let answer = judged_at(&rt, rt.alloc(), recording)?;
    let wanted = ((0, recording.fault), entries_by(1));
    wants_about(&rt, recording.name, &answer, &wanted);
    Ok(())
}

/// What the audit of two texts comes to, by the standard settings.
fn texts_by<R: Threads + Wait + Sync, G: Gate>(
    rt: &R,
    alloc: Global,
    trace: &[u8],
    companion: &[u8],
    gate: &G,
) -> Result<MaybeFault, Fail> {
    let knobs = Knobs::standard();
    Ok(fault_of(audit_texts(rt, alloc, trace, companion, knobs, gate)?))
}

/// The same where the auditors meet at a gate, and the gate's entries.
fn texts_at<R: Threads + Wait + Clock + Sync>(
    rt: &R,
    alloc: Global,
    recording: &Recording,
) -> Result<(MaybeFault, Entries), Fail> {
    let gate = Turnstile::new(rt);
    let trace = trace_of(alloc, recording.lines)?;
    let companion = companion_of(alloc, recording.companion)?;
    let fault = texts_by(rt, alloc, &trace, &companion, &gate)?;
    Ok((fault, gate.entries()))
}

#[test]
fn auditors_of_two_texts_wait_for_each_other(rt: HostRuntime) -> Result<(), Fail> {
    for (recording, stretches, _report) in meetings() {
        let answer = texts_at(&rt, rt.alloc(), recording)?;
        let wanted = (recording.fault, entries_by(stretches));
        wants_about(&rt, recording.name, &answer, &wanted);
    }
    Ok(())
}

/// What a run answers, and whether it wrote the report.
type Ran = (Result<Status, Fault>, bool);

/// What a run of two texts comes to, by the standard settings.
fn run_by<R: Threads + Wait + Sync, G: Gate>(
    rt: &R,
    alloc: Global,
    texts: (&[u8], &[u8]),
    report: &str,
    gate: &G,
) -> Ran {
    let mut written = Vec::new(alloc);
    let answer = run(
        rt,
        alloc,
        &mut FeedOf::new(texts.0),
        &mut FeedOf::new(texts.1),
        Knobs::standard(),
        gate,
        &mut SinkOf::new(&mut written),
    );
    let is_report = written.as_slice() == report.as_bytes();
    (answer, is_report)
}

/// The same where the auditors meet at a gate, and the gate's entries.
fn run_at<R: Threads + Wait + Clock + Sync>(
    rt: &R,
    alloc: Global,
    recording: &Recording,
    report: &str,
) -> Result<(Ran, Entries), Fail> {
    let gate = Turnstile::new(rt);
    let trace = trace_of(alloc, recording.lines)?;
    let companion = companion_of(alloc, recording.companion)?;
    let ran = run_by(rt, alloc, (&trace, &companion), report, &gate);
    Ok((ran, gate.entries()))
}

#[test]
fn auditors_of_a_run_wait_for_each_other(rt: HostRuntime) -> Result<(), Fail> {
    for (recording, stretches, report) in meetings() {
        let answer = run_at(&rt, rt.alloc(), recording, report)?;
        let wanted = ((Ok(Status::Yes), true), entries_by(stretches));
        wants_about(&rt, recording.name, &answer, &wanted);
    }
    Ok(())
}
