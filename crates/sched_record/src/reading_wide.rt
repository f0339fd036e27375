ghost use Rattle.std.specs.Prelude.{◌≡◌, ℕ, IfOk, IsErrOf, List, Result};
ghost use Rattle.std.specs.List.{AllZip, flat_map};
ghost use Rattle.cfs_model.specs.declared.act.Entry.{Entry};
ghost use Rattle.text_parts.specs.Lines.{lines_of};
ghost use Rattle.sched_record.specs.declared.cause.TraceCause.{TraceCause};
ghost use Rattle.sched_record.specs.Reader.{HasRead};
ghost use Rattle.sched_record.specs.Trace.{IsFirstBadTraceLine, TraceAnswer};
ghost use Rattle.sched_record.specs.Seen.{Tells};

use crate::cause::TraceFault;
use crate::laws::one_trace_answer;
use crate::trace::Trace;
use crate::trace_reader::TraceReader;
use cfs_model::Memory;
use rayon::prelude::*;
use std::alloc::Global;
use std::thread::Threads;
use text_parts::cutting::cut_at_lines;

/// Reads the text of a trace by several threads: its events, or its first bad line.
pub fn read_trace_wide(
    rt: &(impl Threads + Sync),
    alloc: Global,
    text: &[u8],
) -> Result<Trace, TraceFault>
    // What is answered is what the text means.
    ensures answered { Tells result (TraceAnswer text.now) }
    // What the text means is answered, unless a growth was refused.
    ensures only { (answer : Result (List Entry) (ℕ × TraceCause)) → TraceAnswer text.now answer
        → Tells result (λ told. told ≡ answer) }
    // A refusal is of the first bad line.
    ensures refused { (line : ℕ) (cause : TraceCause) → IsErrOf result (TraceFault.Text line cause)
        → IsFirstBadTraceLine (lines_of text.now) line cause }
{
    one_trace_answer();
    trace_of(rt, alloc, text)
}

/// The trace of all lines of a text.
fn trace_of(rt: &(impl Threads + Sync), alloc: Global, text: &[u8]) -> Result<Trace, TraceFault>
    ensures { Tells result (TraceAnswer text.now) }
{
    reader_of_pieces(rt, alloc, text)?.finish()
}

/// A reader of all lines of a text, which several threads have read by pieces.
fn reader_of_pieces(
    rt: &(impl Threads + Sync),
    alloc: Global,
    text: &[u8],
) -> Result<TraceReader, Memory>
    ensures { IfOk result (λ reader. HasRead reader (lines_of text.now)) }
{
    let pieces = cut_at_lines(alloc, text)?;
    let readers = readers_of(rt, alloc, &pieces)?;
    joined(alloc, &pieces, readers)
}

/// Reads each piece by itself.
fn readers_of(
    rt: &(impl Threads + Sync),
    alloc: Global,
    pieces: &[&[u8]],
) -> Result<Vec<TraceReader>, Memory>
    ensures { IfOk result (λ readers. AllZip (λ piece reader. HasRead reader (lines_of piece.now)) pieces.now
        readers.items) }
{
    pieces
        .par_iter()
        .with_min_len(1)
        .map(
            |piece: &&[u8]| -> Result<TraceReader, Memory>
                ensures { IfOk result (λ reader. HasRead reader (lines_of piece.now.now)) }
            { reader_of(alloc, piece) },
        )
        .collect::<Result<Vec<TraceReader>, Memory>>(rt, alloc)?
}

/// A reader of one text.
fn reader_of(alloc: Global, text: &[u8]) -> Result<TraceReader, Memory>
    ensures { IfOk result (λ reader. HasRead reader (lines_of text.now)) }
{
    let mut reader = TraceReader::new(alloc);
    reader.read(text)?;
    Ok(reader)
}

/// What the readers of pieces have read, one behind the other.
fn joined(alloc: Global, pieces: &[&[u8]], readers: Vec<TraceReader>) -> Result<TraceReader, Memory>
    requires { AllZip (λ piece reader. HasRead reader (lines_of piece.now)) pieces.now readers.items }
    ensures { IfOk result (λ reader. HasRead reader (flat_map (λ piece. lines_of piece.now) pieces.now)) }
{
    let mut whole = TraceReader::new(alloc);
    let mut readers = readers.into_iter();
    for piece in pieces {
        let reader = match readers.next() {
            Some(reader) => reader,
            None => reader_of(alloc, piece)?,
        };
        whole = whole.followed_by(reader, piece)?;
    }
    Ok(whole)
}
