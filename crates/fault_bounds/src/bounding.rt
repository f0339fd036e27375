ghost use Rattle.std.specs.Prelude.{IfOk, IfSome};
ghost use Rattle.fault_bounds.specs.Bounds.{AreIdlingNumbers, AreNumbers};
ghost use Rattle.sched_record.specs.Record.{record_view};

use crate::Bound;
use crate::charging::{range_bound, told_bound};
use crate::found::found_bound;
use crate::moment::{idled_before, moment_at, moment_before};
use crate::moved::moved_bound;
use cfs_model::{Kind, Knobs, Memory};
use replay_model::FirstFault;
use sched_record::Record;
use std::alloc::Global;

/// The numbers that the rule of a fault compares; none where it compares none. The fault is the record's first at these
/// settings.
pub fn bound_of(
    alloc: Global,
    joined: &Record,
    knobs: Knobs,
    fault: FirstFault,
) -> Result<Option<Bound>, Memory>
    ensures { IfOk result (λ found. IfSome found (λ bound. AreNumbers knobs (record_view joined.now) fault.kind fault
        bound.value bound.limit)) }
{
    let FirstFault {
        line,
        cpu,
        pid,
        kind,
    } = fault;
    match kind {
        Kind::IdleTooLong => idling_bound(alloc, joined, knobs, cpu, line),
        Kind::TicketUnequal => moved_bound(alloc, joined, knobs, cpu, line, pid),
        Kind::Range => match moment_before(alloc, joined, knobs, cpu, line)? {
            Some(moment) => Ok(range_bound(&moment, pid)),
            None => Ok(None),
        },
        Kind::WrongCharge => match moment_before(alloc, joined, knobs, cpu, line)? {
            Some(moment) => Ok(told_bound(&moment, knobs)),
            None => Ok(None),
        },
        _ => match moment_at(alloc, joined, knobs, cpu, line)? {
            Some(moment) => found_bound(moment, knobs, kind, pid),
            None => Ok(None),
        },
    }
}

/// For how long a processor has idled beside a waiting task at the event on a line, in nanoseconds, and the slack.
fn idling_bound(
    alloc: Global,
    joined: &Record,
    knobs: Knobs,
    cpu: u32,
    line: u32,
) -> Result<Option<Bound>, Memory>
    ensures { IfOk result (λ found. IfSome found (λ bound. AreIdlingNumbers knobs (record_view joined.now) cpu line
        bound.value bound.limit)) }
{
    let Some(since) = idled_before(alloc, joined, knobs, cpu, line)? else {
        return Ok(None);
    };
    for event in joined.events() {
        if event.line == line {
            return Ok(Some(Bound {
                value: i128::from(event.time.saturating_sub(since)),
                limit: i128::from(knobs.slack()),
            }));
        }
    }
    Ok(None)
}
