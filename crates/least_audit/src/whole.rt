ghost use Rattle.std.specs.Prelude.{◌<◌, IfOk};
ghost use Rattle.least_places.specs.LeastAnswer.{IsLeastAnswer};
ghost use Rattle.sched_record.specs.Record.{record_view};

use crate::LeastAudit;
use cfs_model::{Memory, least_settings};
use least_places::LeastFigures;
use replay_laws::first_faults;
use sched_record::{Record, Window};
use std::alloc::Global;
use std::thread::Threads;
use window_laws::windows;

/// The least settings of a record whose events are gone through in windows, each of at most so many.
pub fn least_in_windows<R: Threads + Sync>(
    rt: &R,
    alloc: Global,
    joined: &Record,
    size: usize,
) -> Result<LeastFigures, Memory>
    requires { 0 < size }
    ensures { IfOk result (IsLeastAnswer (record_view joined.now)) }
{
    windows();
    first_faults();
    least_settings();
    // There are no more events than lines.
    let _last = joined.last_line();
    let mut audit = LeastAudit::new(alloc, joined.companion())?;
    let mut window = Window::new(alloc);
    let count = joined.events().len();
    let mut from = 0;
    while from < count {
        joined.fill(&mut window, from, size)?;
        if let Some(fault) = audit.go_through(rt, alloc, &window)? {
            return Ok(LeastFigures::Fault(fault));
        }
        from += window.events().len();
    }
    Ok(audit.finish())
}
