ghost use Rattle.std.specs.Prelude.{◌<◌, IfOk};
ghost use Rattle.sched_record.specs.Record.{record_view};
ghost use Rattle.ticket_book.specs.Verdict.{IsVerdict};

use crate::WindowAudit;
use cfs_model::{Knobs, Memory};
use replay_laws::first_faults;
use sched_record::{Record, Window};
use std::alloc::Global;
use std::thread::Threads;
use ticket_book::Verdict;
use window_laws::windows;

/// The verdict on a record whose events are gone through in windows, each of at most so many.
pub fn audit_in_windows<R: Threads + Sync>(
    rt: &R,
    alloc: Global,
    joined: &Record,
    knobs: Knobs,
    size: usize,
) -> Result<Verdict, Memory>
    requires { 0 < size }
    ensures { IfOk result (IsVerdict knobs (record_view joined.now)) }
{
    windows();
    first_faults();
    // No sum is too great: no time is above the last, there are no more events than lines, and the drift is a setting.
    let _last = (joined.last_time(), joined.last_line(), knobs.drift());
    let mut audit = WindowAudit::new(alloc, joined.companion(), knobs)?;
    let mut window = Window::new(alloc);
    let count = joined.events().len();
    let mut from = 0;
    while from < count {
        joined.fill(&mut window, from, size)?;
        if let Some(fault) = audit.go_through(rt, alloc, &window)? {
            return Ok(Verdict::Fault(fault));
        }
        from += window.events().len();
    }
    Ok(Verdict::Run(audit.finish()))
}
