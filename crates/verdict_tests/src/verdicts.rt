//! Books with the pages of two processors, in either order, and what they come to.

use crate::books::{Case, STRICT, WHOLE, wants_books, wants_remade};
use crate::machines::{
    DEATH_THEN_BIRTH_ELSEWHERE, IDLE_FAULT_AT_LINE_OF_OTHER_PROCESSOR, TWO_FAULTS_FIRST_LINE_NAMED,
};
use queue_replay::Reached::Faulted;
use std::test::Fail;
use ticket_book::PostFault;

static TWO_FAULTS: [Case; 2] = [
    Case {
        cpus: 2,
        comings: &[(0, WHOLE, Faulted(4), Ok(4)), (1, WHOLE, Faulted(9), Ok(4))],
        remade: 0,
    },
    Case {
        cpus: 2,
        comings: &[(1, WHOLE, Faulted(9), Ok(9)), (0, WHOLE, Faulted(4), Ok(4))],
        remade: 0,
    },
];

static IDLE_FAULT: [Case; 2] = [
    Case {
        cpus: 2,
        comings: &[
            (0, WHOLE, Faulted(80), Ok(80)),
            (1, WHOLE, Faulted(100), Ok(80)),
        ],
        remade: 0,
    },
    Case {
        cpus: 2,
        comings: &[
            (1, WHOLE, Faulted(100), Ok(100)),
            (0, WHOLE, Faulted(80), Ok(80)),
        ],
        remade: 0,
    },
];

#[test]
fn the_order_of_posts_changes_no_verdict(rt: HostRuntime) -> Result<(), Fail> {
    wants_books(&rt, rt.alloc(), &TWO_FAULTS_FIRST_LINE_NAMED, &TWO_FAULTS)?;
    let recording = &IDLE_FAULT_AT_LINE_OF_OTHER_PROCESSOR;
    wants_books(&rt, rt.alloc(), recording, &IDLE_FAULT)
}

static REFUSED: [Case; 2] = [
    Case {
        cpus: 2,
        comings: &[
            (0, WHOLE, Faulted(4), Ok(4)),
            (0, WHOLE, Faulted(4), Err(PostFault::Twice)),
        ],
        remade: 1,
    },
    Case {
        cpus: 1,
        comings: &[
            (0, WHOLE, Faulted(4), Ok(4)),
            (1, WHOLE, Faulted(9), Err(PostFault::Outside)),
        ],
        remade: 1,
    },
];

#[test]
fn a_page_that_is_refused_is_made_again(rt: HostRuntime) -> Result<(), Fail> {
    wants_books(&rt, rt.alloc(), &TWO_FAULTS_FIRST_LINE_NAMED, &REFUSED)
}

static OTHER_SETTINGS: [Case; 2] = [
    Case {
        cpus: 2,
        comings: &[
            (0, STRICT, Faulted(4), Ok(4)),
            (1, STRICT, Faulted(9), Ok(4)),
        ],
        remade: 2,
    },
    Case {
        cpus: 2,
        comings: &[
            (0, STRICT, Faulted(4), Ok(4)),
            (1, WHOLE, Faulted(9), Ok(4)),
        ],
        remade: 1,
    },
];

#[test]
fn pages_of_other_settings_are_made_again(rt: HostRuntime) -> Result<(), Fail> {
    wants_books(
        &rt,
        rt.alloc(),
        &TWO_FAULTS_FIRST_LINE_NAMED,
        &OTHER_SETTINGS,
    )
}

#[test]
fn a_page_that_is_not_honest_is_made_again(rt: HostRuntime) -> Result<(), Fail> {
    let recording = &TWO_FAULTS_FIRST_LINE_NAMED;
    let pages = (&DEATH_THEN_BIRTH_ELSEWHERE, recording);
    wants_remade(&rt, rt.alloc(), pages, recording, 1)
}

static MISSING: [Case; 2] = [
    Case {
        cpus: 2,
        comings: &[],
        remade: 2,
    },
    // The book of one processor has no place for the other.
    Case {
        cpus: 1,
        comings: &[(0, WHOLE, Faulted(4), Ok(4))],
        remade: 1,
    },
];

#[test]
fn pages_that_are_missing_are_made_again(rt: HostRuntime) -> Result<(), Fail> {
    wants_books(&rt, rt.alloc(), &TWO_FAULTS_FIRST_LINE_NAMED, &MISSING)
}
