//! The report of an audit that keeps no record, and behind it why that is a fault, or which line is refused and why.
ghost use Rattle.std.specs.Prelude.{◌≡◌};

use crate::explaining::{Texts, explain};
use audit_command::{Answer, Failure, FrontOf, Lengths, kept_input};
use audit_input::{Keeping, KeepingFeed};
use given_texts::Input;
use recent_past::RecentPast;
use sched_audit::{
    Feed, Heard, Request, SinkOf, Sizes, Status, Streamed, block_sizes, judge_in_blocks,
    write_in_pieces,
};
use std::alloc::Global;
use std::io;
use std::rt::Files;
use std::thread::Threads;

/// Judges both inputs, a block at a time, writes the report, and explains it.
pub(crate) fn answer_explained<J: Streamed, R: Files + Print + Eprint + Threads + Sync>(
    rt: &R,
    alloc: Global,
    request: &Request<'_>,
    trace: Input<R::File>,
    companion: Input<R::File>,
    lengths: Lengths,
) -> Result<Answer, Failure> {
    let sizes = sizes_of(rt, &trace);
    let mut trace = kept_input(rt, alloc, trace, lengths.trace, Keeping::Last);
    let mut companion = kept_input(rt, alloc, companion, lengths.companion, Keeping::Last);
    explained_of::<J, _, _, _>(rt, alloc, request, &mut trace, &mut companion, sizes)
}

/// How much of this trace and its companion is looked at at once: less than without an explanation, since a window more
/// is kept for that, and of what can't be opened a second time the last reads.
fn sizes_of<R: Threads, F>(rt: &R, trace: &Input<F>) -> Sizes {
    let sizes = block_sizes(rt);
    if trace.is_regular() {
        return sizes.by_reads(sizes.reads().saturating_sub(sizes.reads() / 10));
    }
    // Several of these are kept.
    let together = sizes.block().saturating_mul(sizes.reads());
    sizes.with_block((together / 2).max(1)).by_reads(1)
}

/// The same, of inputs of which nothing was read.
fn explained_of<'a, J: Streamed, R: Files + Print + Threads + Sync, F: Feed, C: Feed>(
    rt: &'a R,
    alloc: Global,
    request: &'a Request<'a>,
    trace: &'a mut KeepingFeed<F>,
    companion: &'a mut KeepingFeed<C>,
    sizes: Sizes,
) -> Result<Answer, Failure>
    requires trace { ⟦<KeepingFeed<F> as Feed>⟧.calls trace.old ≡ 0 }
    requires companion { ⟦<KeepingFeed<C> as Feed>⟧.calls companion.old ≡ 0 }
{
    let knobs = request.knobs;
    let mut past = RecentPast::new(alloc, J::replayed_by(knobs));
    let heard: Heard<J> = judge_in_blocks(rt, alloc, trace, companion, knobs, sizes, &mut past)?;
    let mut texts = Texts::of(rt, alloc, request, trace, companion);
    write_explained(rt, alloc, request, &heard, &past, &mut texts)
}

/// Writes the report, and an explanation behind it.
fn write_explained<J: Streamed, R: Files + Print, F: Feed, C: Feed>(
    rt: &R,
    alloc: Global,
    request: &Request<'_>,
    heard: &Heard<J>,
    past: &RecentPast,
    texts: &mut Texts<'_, R, F, C>,
) -> Result<Answer, Failure> {
    let mut out = FrontOf::new(SinkOf::new(io::writer(rt)));
    let status = write_in_pieces(alloc, &heard.outcome, heard.tells_charges, &mut out)?;
    if status != Status::Yes {
        explain(rt, alloc, request, &heard.outcome, past, texts)?;
    }
    Ok(out.answer(status))
}
