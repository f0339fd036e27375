ghost use Rattle.std.specs.Prelude.{◌≡◌, true, is_some};
ghost use Rattle.window_joining.specs.Passing.{IsLateWith, IsOutsideWith};

use cfs_model::{Entry, NO_LINE};

/// Notes the line of the first event outside, with one more event. Nearly never is there something to write.
#[inline(always)]
pub(crate) fn note_outside(outside: &mut Option<u32>, event: &Entry, cpus: u32)
    ensures told { IsOutsideWith cpus event.now outside.old outside.new }
    ensures stays { is_some outside.old ≡ true → is_some outside.new ≡ true }
{
    if !event.act.is_within(cpus) && outside.is_none() {
        *outside = Some(event.line);
    }
}

/// Notes the line of the first event, where it comes before the start, with one more event; the last one's line tells
/// whether there was one.
#[inline(always)]
pub(crate) fn note_late(late: &mut Option<u32>, last: u32, event: &Entry, start: u64)
    ensures told { IsLateWith start last event.now late.old late.new }
    ensures stays { is_some late.old ≡ true → is_some late.new ≡ true }
{
    if last == NO_LINE && event.time < start {
        *late = Some(event.line);
    }
}
