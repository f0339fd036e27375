ghost use Rattle.std.specs.Prelude.{◌≡◌, ◌<◌, length, map, AllPairs, IfOk};
ghost use Rattle.companion_file.specs.Order.{IdleRises};
ghost use Rattle.companion_file.specs.Spans.{AreSpansOf, ended, span_of};

use crate::idle_span::IdleSpan;
use cfs_model::IdleLine;
use std::alloc::{AllocError, Global};
use std::marker::Model;

/// From which line to which tasks are of the idle policy.
#[derive(Debug, Drop)]
pub struct IdleSpans {
    items: Vec<IdleSpan>,
}

impl Model for IdleSpans {
    ghost use Rattle.std.specs.Prelude.{List};
    ghost use Rattle.companion_file.specs.declared.idle_span.IdleSpan.{IdleSpan};

    ghost Value = { List IdleSpan };

    ghost view = { λ spans. spans.items.items };
}

/// The spans that these lines begin, in the order of the lines.
fn begun(alloc: Global, idles: &[IdleLine]) -> Result<Vec<IdleSpan>, AllocError>
    ensures { IfOk result (λ spans. spans.items ≡ map span_of idles.now) }
{
    idles.iter().map(|idle| IdleSpan::of(*idle)).collect(alloc)
}

impl IdleSpans {
    /// The spans that these lines begin, by rising pid, and at one pid by rising line.
    pub(crate) fn of(alloc: Global, idles: &[IdleLine]) -> Result<IdleSpans, AllocError>
        requires { AllPairs IdleRises idles.now }
        ensures { IfOk result (AreSpansOf idles.now) }
    {
        let mut items = begun(alloc, idles)?;
        items.sort_unstable_by_key(|span| (span.pid, span.from));
        Ok(IdleSpans { items })
    }

    pub(crate) fn as_slice(&self) -> &[IdleSpan]
        ensures { result.now ≡ self.now }
    {
        self.items.as_slice()
    }

    /// Ends the span at this index at a line of the trace.
    pub(crate) fn end_at(&mut self, index: usize, line: u32)
        requires { index < length self.old }
        ensures { self.new ≡ ended self.old index line }
    {
        self.items[index].until = line;
    }
}
