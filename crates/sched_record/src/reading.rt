ghost use Rattle.std.specs.Prelude.{◌≡◌, ℕ, IsErrOf, List, Result};
ghost use Rattle.cfs_model.specs.declared.act.Entry.{Entry};
ghost use Rattle.text_parts.specs.Lines.{lines_of};
ghost use Rattle.sched_record.specs.declared.cause.TraceCause.{TraceCause};
ghost use Rattle.sched_record.specs.Trace.{IsFirstBadTraceLine, TraceAnswer};
ghost use Rattle.sched_record.specs.Seen.{Tells};

use crate::cause::TraceFault;
use crate::laws::one_trace_answer;
use crate::trace::Trace;
use crate::trace_reader::TraceReader;
use std::alloc::Global;

/// Reads the text of a trace: its events, or its first bad line.
pub fn read_trace(alloc: Global, text: &[u8]) -> Result<Trace, TraceFault>
    // What is answered is what the text means.
    ensures answered { Tells result (TraceAnswer text.now) }
    // What the text means is answered, unless a growth was refused.
    ensures only { (answer : Result (List Entry) (ℕ × TraceCause)) → TraceAnswer text.now answer
        → Tells result (λ told. told ≡ answer) }
    // A refusal is of the first bad line.
    ensures refused { (line : ℕ) (cause : TraceCause) → IsErrOf result (TraceFault.Text line cause)
        → IsFirstBadTraceLine (lines_of text.now) line cause }
{
    one_trace_answer();
    trace_of(alloc, text)
}

/// The trace of all lines of a text.
fn trace_of(alloc: Global, text: &[u8]) -> Result<Trace, TraceFault>
    ensures { Tells result (TraceAnswer text.now) }
{
    let mut reader = TraceReader::new(alloc);
    reader.read(text)?;
    reader.finish()
}
