ghost use Rattle.std.specs.Prelude.{IfOk};
ghost use Rattle.sched_record.specs.Record.{record_view};
ghost use Rattle.ticket_book.specs.Faultless.{AreFaultless, IsFaultOf};

use crate::closing::told_by;
use crate::page_by::pages_by;
use cfs_model::{Knobs, Memory};
use queue_replay::Page;
use replay_laws::{closing, first_faults};
use replay_model::FirstFault;
use sched_record::Record;
use std::alloc::Global;

/// What is wrong first with a record at some settings, by its processors' pages at the greatest, of which none has a
/// fault. Those whose needs these settings meet are relied on, and the others are replayed, up to a fault.
pub fn first_fault_by(
    alloc: Global,
    pages: &[Page],
    joined: &Record,
    knobs: Knobs,
) -> Result<Option<FirstFault>, Memory>
    requires { AreFaultless (record_view joined.now) pages.now }
    ensures { IfOk result (IsFaultOf knobs (record_view joined.now)) }
{
    closing();
    first_faults();
    let all = pages_by(alloc, pages, joined, knobs)?;
    told_by(alloc, &all, joined)
}
