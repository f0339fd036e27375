//! The theorem, where it is a request that says what is asked for.

ghost use Rattle.std.specs.Prelude.{◌≡◌, false};
ghost use Rattle.sched_audit.specs.Asked.{RunsAsked};
ghost use Rattle.sched_audit.specs.Run.{input_of, output_of};

use crate::{
    Fault, Feed, OpenGate, Request, Sink, Sizes, Status, run_counted_in_blocks, run_counted_waits,
    run_in_blocks, run_least_in_blocks, run_least_waits, run_waits,
};
use std::alloc::Global;
use std::sync::Wait;
use std::thread::{self, Threads};

/// How many bytes a read of an input asks for, where both are read at once: so few that they stay in a core's
/// second-level cache until their lines are read.
const BLOCK: u32 = 1 << 17;

/// How many reads of the trace are audited together on several cores: threads begin for them.
const READS_OF_THREADS: u32 = 16;

/// How many events are audited at once there, at most.
const WINDOW: usize = 1 << 16;

/// Reads both inputs to their ends, judges them as a request asks, and writes the report in lines.
pub fn run_request<R: Threads + Wait + Sync, T: Feed, C: Feed, S: Sink>(
    rt: &R,
    alloc: Global,
    request: &Request<'_>,
    trace: &mut T,
    companion: &mut C,
    out: &mut S,
) -> Result<Status, Fault>
    // No read was made yet, and no write failed.
    requires trace { T.calls trace.old ≡ 0 }
    requires companion { C.calls companion.old ≡ 0 }
    requires out { S.has_failed out.old ≡ false }
    // The report that is asked for of the two inputs, or of a refusal.
    ensures { RunsAsked request.now.least request.now.summary request.now.waits request.now.knobs
        (input_of (T.left trace.old) (T.left trace.new) (T.calls trace.new) (T.has_failed trace.new)
        (T.has_ended trace.new)) (input_of (C.left companion.old) (C.left companion.new) (C.calls companion.new)
        (C.has_failed companion.new) (C.has_ended companion.new))
        (output_of (S.taken out.old) (S.taken out.new) (S.has_failed out.new)) result }
{
    let knobs = request.knobs;
    let gate = &OpenGate;
    match (request.least, request.summary, request.waits) {
        (true, _, true) => run_least_waits(rt, alloc, trace, companion, gate, out),
        (true, _, false) => {
            run_least_in_blocks(rt, alloc, trace, companion, block_sizes(rt), out)
        }
        (false, true, true) => run_counted_waits(rt, alloc, trace, companion, knobs, gate, out),
        (false, true, false) => {
            run_counted_in_blocks(rt, alloc, trace, companion, knobs, block_sizes(rt), out)
        }
        (false, false, true) => run_waits(rt, alloc, trace, companion, knobs, gate, out),
        (false, false, false) => run_in_blocks(
            rt,
            alloc,
            trace,
            companion,
            knobs,
            block_sizes(rt),
            out,
        ),
    }
}

/// How much of a recording is looked at at once where both inputs are read a block at a time.
pub fn block_sizes<R: Threads>(rt: &R) -> Sizes {
    let sizes = Sizes::new(BLOCK, WINDOW);
    match thread::available_parallelism(rt) {
        Ok(cores) if cores.get() > 1 => sizes.by_reads(READS_OF_THREADS),
        _ => sizes.in_turn(),
    }
}
