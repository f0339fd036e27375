//! Three auditors in each order in which they can come, over one book and as threads.

use crate::answers::wants_about;
use crate::books::{AUDITOR, Case, wants_books};
use crate::calls::{Told, gathered, told_together};
use crate::machines::THREE_FAULTS_ON_THREE_PROCESSORS;
use audit_crew::Gate;
use queue_replay::Reached::Faulted;
use std::alloc::Global;
use std::sync::Wait;
use std::sync::atomic::{AtomicBool, AtomicU64, Ordering};
use std::test::Fail;
use std::thread;
use std::thread::Threads;
use std::time::{Clock, Duration};

/// Auditors in each order, with the line of their fault and the least line that the book answers to the page.
static AUDITORS: [Case; 6] = [
    Case {
        cpus: 3,
        comings: &[
            (0, AUDITOR, Faulted(4), Ok(4)),
            (1, AUDITOR, Faulted(9), Ok(4)),
            (2, AUDITOR, Faulted(2), Ok(2)),
        ],
        remade: 0,
    },
    Case {
        cpus: 3,
        comings: &[
            (0, AUDITOR, Faulted(4), Ok(4)),
            (2, AUDITOR, Faulted(2), Ok(2)),
            (1, AUDITOR, Faulted(9), Ok(2)),
        ],
        remade: 0,
    },
    Case {
        cpus: 3,
        comings: &[
            (1, AUDITOR, Faulted(9), Ok(9)),
            (0, AUDITOR, Faulted(4), Ok(4)),
            (2, AUDITOR, Faulted(2), Ok(2)),
        ],
        remade: 0,
    },
    Case {
        cpus: 3,
        comings: &[
            (1, AUDITOR, Faulted(9), Ok(9)),
            (2, AUDITOR, Faulted(2), Ok(2)),
            (0, AUDITOR, Faulted(4), Ok(2)),
        ],
        remade: 0,
    },
    Case {
        cpus: 3,
        comings: &[
            (2, AUDITOR, Faulted(2), Ok(2)),
            (0, AUDITOR, Faulted(4), Ok(2)),
            (1, AUDITOR, Faulted(9), Ok(2)),
        ],
        remade: 0,
    },
    Case {
        cpus: 3,
        comings: &[
            (2, AUDITOR, Faulted(2), Ok(2)),
            (1, AUDITOR, Faulted(9), Ok(2)),
            (0, AUDITOR, Faulted(4), Ok(2)),
        ],
        remade: 0,
    },
];

#[test]
fn three_auditors_come_to_one_verdict_in_each_order(rt: HostRuntime) -> Result<(), Fail> {
    wants_books(
        &rt,
        rt.alloc(),
        &THREE_FAULTS_ON_THREE_PROCESSORS,
        &AUDITORS,
    )
}

/// Each order of three processors.
const ORDERS: [[u32; 3]; 6] = [
    [0, 1, 2],
    [0, 2, 1],
    [1, 0, 2],
    [1, 2, 0],
    [2, 0, 1],
    [2, 1, 0],
];

/// The number of turns, each of a millisecond, for which an auditor waits for those before it.
const LIMIT: u32 = 10000;

/// A gate at which three auditors begin together, and leave with their pages in this order.
#[derive(Drop)]
struct InOrder<'c, C: Clock> {
    clock: &'c C,
    order: [u32; 3],
    begun: AtomicU64,
    left: AtomicU64,
    limit_reached: AtomicBool,
}

impl<'c, C: Clock> InOrder<'c, C> {
    fn new(clock: &'c C, order: [u32; 3]) -> InOrder<'c, C> {
        InOrder {
            clock,
            order,
            begun: AtomicU64::new(0),
            left: AtomicU64::new(0),
            limit_reached: AtomicBool::new(false),
        }
    }

    /// How many come before the auditor of a processor.
    fn before(&self, cpu: u32) -> u64 {
        match self.order {
            [first, _, _] if first == cpu => 0,
            [_, second, _] if second == cpu => 1,
            _ => 2,
        }
    }

    /// Waits until a count is reached, up to the limit.
    fn wait(&self, count: &AtomicU64, wanted: u64) {
        for _turn in 0..LIMIT {
            if count.load(Ordering::SeqCst) >= wanted {
                return;
            }
            thread::sleep(self.clock, Duration::from_millis(1));
        }
        self.limit_reached.store(true, Ordering::SeqCst);
    }
}

impl<C: Clock + Sync> Gate for InOrder<'_, C> {
    /// Each auditor has one stretch. It enters once before it, and once after it, before it posts.
    fn enter(&self, cpu: u32) {
        if self.begun.fetch_add(1, Ordering::SeqCst) < 3 {
            self.wait(&self.begun, 3);
            return;
        }
        self.wait(&self.left, self.before(cpu));
        // So that the page of the one before is posted by now.
        thread::sleep(self.clock, Duration::from_millis(5));
        let _before = self.left.fetch_add(1, Ordering::SeqCst);
    }
}

/// What a crew that leaves in this order comes to, and whether one of it waited up to the limit.
fn judged_in<R: Threads + Wait + Clock + Sync>(
    rt: &R,
    alloc: Global,
    order: [u32; 3],
) -> Result<(Told, bool), Fail> {
    let gate = InOrder::new(rt, order);
    let told = told_together(rt, alloc, &THREE_FAULTS_ON_THREE_PROCESSORS, &gate)?;
    Ok((told, gate.limit_reached.load(Ordering::SeqCst)))
}

/// How many pages such a crew posts, and the least line of a fault on them.
fn gathered_in<R: Threads + Wait + Clock + Sync>(
    rt: &R,
    alloc: Global,
    order: [u32; 3],
) -> Result<(u32, u64), Fail> {
    let gate = InOrder::new(rt, order);
    gathered(rt, alloc, &THREE_FAULTS_ON_THREE_PROCESSORS, &gate)
}

#[test]
fn three_threads_come_to_one_verdict_in_each_order(rt: HostRuntime) -> Result<(), Fail> {
    let told = (0, THREE_FAULTS_ON_THREE_PROCESSORS.fault);
    for order in ORDERS {
        wants_about(&rt, "", &judged_in(&rt, rt.alloc(), order)?, &(told, false));
    }
    Ok(())
}

#[test]
fn three_threads_post_their_pages_in_each_order(rt: HostRuntime) -> Result<(), Fail> {
    for order in ORDERS {
        wants_about(&rt, "", &gathered_in(&rt, rt.alloc(), order)?, &(3, 2));
    }
    Ok(())
}
