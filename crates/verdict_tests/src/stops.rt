//! Auditors that go on to their fault, or learn of one and stop, and pages that stopped before it.

use crate::books::{AUDITOR, Bringer, Case, SLACK, WHOLE, wants_books};
use crate::machines::{
    FAULT_BEFORE_MANY_WAKEUPS, IDLE_FAULT_AT_LINE_OF_OTHER_PROCESSOR, TWO_FAULTS_FIRST_LINE_NAMED,
};
use queue_replay::Reached::{Faulted, Stopped};
use std::test::Fail;
use ticket_book::PostFault;

static IN_EITHER_ORDER: [Case; 2] = [
    Case {
        cpus: 2,
        comings: &[
            (0, AUDITOR, Faulted(80), Ok(80)),
            (1, AUDITOR, Faulted(100), Ok(80)),
        ],
        remade: 0,
    },
    Case {
        cpus: 2,
        comings: &[
            (1, AUDITOR, Faulted(100), Ok(100)),
            (0, AUDITOR, Faulted(80), Ok(80)),
        ],
        remade: 0,
    },
];

#[test]
fn an_idle_fault_is_found_in_either_order(rt: HostRuntime) -> Result<(), Fail> {
    let recording = &IDLE_FAULT_AT_LINE_OF_OTHER_PROCESSOR;
    wants_books(&rt, rt.alloc(), recording, &IN_EITHER_ORDER)
}

static GOES_ON: [Case; 1] = [Case {
    cpus: 2,
    comings: &[
        (0, WHOLE, Faulted(80), Ok(80)),
        (1, AUDITOR, Faulted(100), Ok(80)),
    ],
    remade: 0,
}];

#[test]
fn an_auditor_goes_on_to_its_fault(rt: HostRuntime) -> Result<(), Fail> {
    let recording = &IDLE_FAULT_AT_LINE_OF_OTHER_PROCESSOR;
    wants_books(&rt, rt.alloc(), recording, &GOES_ON)
}

static STOPS: [Case; 1] = [Case {
    cpus: 2,
    comings: &[
        (0, WHOLE, Faulted(4), Ok(4)),
        (1, Bringer::Auditor(10), Stopped(14), Ok(4)),
    ],
    remade: 0,
}];

#[test]
fn an_auditor_stops_at_a_fault_that_it_learns_of(rt: HostRuntime) -> Result<(), Fail> {
    wants_books(&rt, rt.alloc(), &FAULT_BEFORE_MANY_WAKEUPS, &STOPS)
}

static BEFORE_THE_IDLE_FAULT: [Case; 1] = [Case {
    cpus: 2,
    comings: &[
        (0, WHOLE, Faulted(80), Ok(80)),
        (1, Bringer::Caller(1, SLACK), Stopped(5), Ok(80)),
    ],
    remade: 1,
}];

static BEFORE_THE_FAULT: [Case; 1] = [Case {
    cpus: 2,
    comings: &[
        (0, WHOLE, Faulted(4), Ok(4)),
        (1, Bringer::Caller(0, SLACK), Stopped(0), Ok(4)),
    ],
    remade: 1,
}];

#[test]
fn a_page_that_stopped_before_the_fault_is_made_again(rt: HostRuntime) -> Result<(), Fail> {
    let recording = &IDLE_FAULT_AT_LINE_OF_OTHER_PROCESSOR;
    wants_books(&rt, rt.alloc(), recording, &BEFORE_THE_IDLE_FAULT)?;
    wants_books(
        &rt,
        rt.alloc(),
        &FAULT_BEFORE_MANY_WAKEUPS,
        &BEFORE_THE_FAULT,
    )
}

static REFUSED: [Case; 2] = [
    // The page that was there stays.
    Case {
        cpus: 1,
        comings: &[
            (0, WHOLE, Faulted(4), Ok(4)),
            (0, AUDITOR, Faulted(4), Err(PostFault::Twice)),
        ],
        remade: 1,
    },
    Case {
        cpus: 1,
        comings: &[
            (0, WHOLE, Faulted(4), Ok(4)),
            (1, AUDITOR, Faulted(9), Err(PostFault::Outside)),
        ],
        remade: 1,
    },
];

#[test]
fn an_auditor_hands_back_the_page_that_its_shelf_refuses(rt: HostRuntime) -> Result<(), Fail> {
    wants_books(&rt, rt.alloc(), &TWO_FAULTS_FIRST_LINE_NAMED, &REFUSED)
}
