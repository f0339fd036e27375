ghost use Rattle.std.specs.Prelude.{◌≡◌, All};
ghost use Rattle.cfs_model.specs.Limits.{no_line};
ghost use Rattle.companion_file.specs.Seen.{companion_view};
ghost use Rattle.sched_record.specs.Kept.{AreInOrder};
ghost use Rattle.sched_record.specs.Join.{NamesBirth};
ghost use Rattle.sched_record.specs.Policies.{EndsAtBirth, EndsLast};

use crate::policies::span_before;
use cfs_model::{Entry, NO_LINE};
use companion_file::Companion;

/// Ends each span of the idle policy at the first birth of its pid behind its start. Takes no memory.
pub(crate) fn end_spans(events: &[Entry], companion: &mut Companion)
    requires in_order { AreInOrder events.now }
    requires born { All (NamesBirth events.now) companion.old.idles }
    ensures ended { All (EndsAtBirth events.now) companion.new.spans }
    ensures others { companion_view companion.new ≡ companion_view companion.old }
{
    if companion.spans().is_empty() {
        return;
    }
    forget_ends(companion);
    for event in events {
        if let Some(pid) = event.act.begun() {
            end_last(companion, event.line, pid);
        }
    }
}

/// No span has an end.
fn forget_ends(companion: &mut Companion)
    ensures forgotten { All (λ span. span.until ≡ no_line) companion.new.spans }
    ensures others { companion_view companion.new ≡ companion_view companion.old }
{
    for index in 0..companion.spans().len() {
        companion.end_span(index, NO_LINE);
    }
}

/// Ends the last span of this pid that starts above this line, unless it has an end.
fn end_last(companion: &mut Companion, line: u32, pid: u32)
    ensures ended { EndsLast companion.old.spans line pid companion.new.spans }
    ensures others { companion_view companion.new ≡ companion_view companion.old }
{
    if let Some(index) = span_before(companion.spans(), line, pid) {
        if companion.spans()[index].until == NO_LINE {
            companion.end_span(index, line);
        }
    }
}
