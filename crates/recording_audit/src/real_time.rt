//! How far a real-time or deadline task takes a processor's time.
ghost use Rattle.std.specs.Prelude.{IsTrue};
ghost use Rattle.sched_event.specs.declared.fault.EventFault.TheVariants as events;
ghost use Rattle.sched_record.specs.Said.{RefusesEvent};

use bstr::ByteSlice;
use cfs_model::Memory;
use ftrace_line::{Line, Sched, Which, read_line};
use sched_event::{EventFault, read_event};
use std::alloc::Global;
use text_parts::lines::next_line;
use text_parts::numerals::numeral_at;

/// The least prio that is no real-time or deadline task's.
const LEAST_PRIO: u64 = 100;

/// The processors where such a task runs.
#[derive(Drop)]
struct Taken {
    cpus: Vec<u32>,
}

/// How many lines of a text, of which the first is such a task's, stand before one from which on no such task runs.
pub(crate) fn lines_of_real_time(alloc: Global, text: &[u8]) -> Result<u64, Memory> {
    let mut taken = Taken {
        cpus: Vec::new(alloc),
    };
    let mut count = 0u64;
    let mut rest = text;
    while !rest.is_empty() {
        let (line, after) = next_line(rest);
        if count > 0 && taken.cpus.is_empty() && !is_real_time(line) {
            break;
        }
        taken.pass(line)?;
        count = count.saturating_add(1);
        rest = after;
    }
    Ok(count)
}

/// Whether a line names such a task.
pub(crate) fn is_real_time(line: &[u8]) -> bool
    ensures { IsTrue result → RefusesEvent line.now events.RealTime }
{
    match read_line(line) {
        Ok(Line::Sched(sched)) => matches!(read_event(sched), Err(EventFault::RealTime)),
        _ => false,
    }
}

impl Taken {
    /// One more line.
    fn pass(&mut self, line: &[u8]) -> Result<(), Memory> {
        if let Ok(
            Line::Sched(
                Sched {
                    cpu,
                    which: Which::Switch,
                    rest,
                    ..
                },
            ),
        ) = read_line(line)
        {
            self.cpus.retain(|taken| *taken != cpu);
            if is_next_real_time(rest) {
                self.cpus.push(cpu)?;
            }
        }
        Ok(())
    }
}

/// Whether the task that a switch goes to is such a one.
fn is_next_real_time(fields: &[u8]) -> bool {
    let Some((_, prio)) = fields.rsplit_once_str(b" next_prio=") else {
        return false;
    };
    match numeral_at(prio) {
        Some((prio, _)) => prio < LEAST_PRIO,
        None => prio.first() == Some(&b'-'),
    }
}
