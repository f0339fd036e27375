//! Runs between ends of these tests, by one function that promises nothing: what the clauses of `run` say stands before
//! no test, which is then proved in seconds.

use crate::ends::{Narrow, Pieces, Room, ample};
use cfs_model::Knobs;
use json_audit::{Told, run_json};
use sched_audit::{
    Fault, FeedOf, OpenGate, SinkOf, Sizes, Status, run, run_in_blocks, run_least,
    run_least_in_blocks,
};
use std::alloc::Global;
use std::process::Abort;
use std::sync::Wait;
use std::thread::Threads;

/// What a run answers, what is written, and how often the trace, the companion and the output were called.
pub type Ran = (Result<Status, Fault>, Vec<u8>, [u64; 3]);

/// The run of two texts, by the standard settings.
pub fn ran<R: Threads + Wait + Sync>(
    rt: &R,
    alloc: Global,
    trace: Pieces<'_>,
    companion: Pieces<'_>,
    room: Room,
) -> Ran {
    let (mut trace, mut companion) = (trace, companion);
    let mut out = Narrow::new(alloc, room);
    let status = run(
        rt,
        alloc,
        &mut FeedOf::new(&mut trace),
        &mut FeedOf::new(&mut companion),
        Knobs::standard(),
        &OpenGate,
        &mut SinkOf::new(&mut out),
    );
    (status, out.taken, [trace.calls, companion.calls, out.calls])
}

/// What is answered and written of two inputs that are read at once, in blocks and windows of these sizes.
pub fn ran_in_blocks<R: Threads + Sync>(
    rt: &R,
    alloc: Global,
    trace: Pieces<'_>,
    companion: Pieces<'_>,
    (block, window): (u32, usize),
) -> (Result<Status, Fault>, Vec<u8>) {
    let (mut trace, mut companion) = (trace, companion);
    let mut out = Narrow::new(alloc, ample());
    let status = run_in_blocks(
        rt,
        alloc,
        &mut FeedOf::new(&mut trace),
        &mut FeedOf::new(&mut companion),
        Knobs::standard(),
        Sizes::new(block.max(1), window.max(1)),
        &mut SinkOf::new(&mut out),
    );
    (status, out.taken)
}

/// Ends the test where the run of two texts answers or writes something else, and says how often each end was called.
pub fn wants_run<R: Abort + Threads + Wait + Sync>(
    rt: &R,
    alloc: Global,
    ends: (Pieces<'_>, Pieces<'_>, Room),
    answer: Result<Status, Fault>,
    written: &[u8],
) -> [u64; 3] {
    let (trace, companion, room) = ends;
    let (status, taken, calls) = ran(rt, alloc, trace, companion, room);
    assert_eq!(*rt; (status, taken.as_slice()), (answer, written));
    calls
}

/// What is answered and written of the least settings of two texts.
pub fn least_ran<R: Threads + Wait + Sync>(
    rt: &R,
    alloc: Global,
    trace: Pieces<'_>,
    companion: Pieces<'_>,
) -> (Result<Status, Fault>, Vec<u8>) {
    let (mut trace, mut companion) = (trace, companion);
    let mut out = Narrow::new(alloc, ample());
    let status = run_least(
        rt,
        alloc,
        &mut FeedOf::new(&mut trace),
        &mut FeedOf::new(&mut companion),
        &OpenGate,
        &mut SinkOf::new(&mut out),
    );
    (status, out.taken)
}

/// The same of two inputs that are read at once, in blocks and windows of these sizes.
pub fn least_ran_in_blocks<R: Threads + Sync>(
    rt: &R,
    alloc: Global,
    trace: Pieces<'_>,
    companion: Pieces<'_>,
    (block, window): (u32, usize),
) -> (Result<Status, Fault>, Vec<u8>) {
    let (mut trace, mut companion) = (trace, companion);
    let mut out = Narrow::new(alloc, ample());
    let status = run_least_in_blocks(
        rt,
        alloc,
        &mut FeedOf::new(&mut trace),
        &mut FeedOf::new(&mut companion),
        Sizes::new(block.max(1), window.max(1)),
        &mut SinkOf::new(&mut out),
    );
    (status, out.taken)
}

/// What is answered and written of two texts as JSON, by the standard settings.
pub fn object_ran<J: Told, R: Threads + Wait + Sync>(
    rt: &R,
    alloc: Global,
    trace: Pieces<'_>,
    companion: Pieces<'_>,
) -> (Result<Status, Fault>, Vec<u8>) {
    let (mut trace, mut companion) = (trace, companion);
    let mut out = Narrow::new(alloc, ample());
    let status = run_json::<J, R, _, _, _, _>(
        rt,
        alloc,
        &mut FeedOf::new(&mut trace),
        &mut FeedOf::new(&mut companion),
        Knobs::standard(),
        &OpenGate,
        &mut SinkOf::new(&mut out),
    );
    (status, out.taken)
}
