//! What a kernel printed of its charges.

use crate::print::Print;
use crate::printed::{LABEL, Printed, first_charge};
use cfs_model::{MOST_PROCESSORS, Memory};
use ftrace_line::RecentClocks;
use memchr::{memchr_iter, memmem};
use std::alloc::Global;

/// The charges that the lines of a trace print, which are read some at a time.
#[derive(Drop)]
pub struct Prints {
    /// How many lines were read.
    lines: u32,
    /// By rising line.
    prints: Vec<Print>,
    /// The greatest virtual runtime of each processor, where one is printed there.
    greatest: [i64; MOST_PROCESSORS],
}

impl Prints {
    /// Before the first line. It takes no memory.
    pub fn none(alloc: Global) -> Prints {
        Prints {
            lines: 0,
            prints: Vec::new(alloc),
            greatest: [0; MOST_PROCESSORS],
        }
    }

    /// Reads the lines of a text, behind those read before.
    pub fn read(&mut self, text: &[u8]) -> Result<(), Memory> {
        if !has_label(text) {
            self.lines = self.lines.saturating_add(line_count(text));
            return Ok(());
        }
        let mut clocks = RecentClocks::new();
        let mut rest = text;
        for _ in 0..text.len() {
            if rest.is_empty() {
                break;
            }
            let (printed, after) = first_charge(rest, &mut clocks);
            rest = after;
            self.lines = self.lines.saturating_add(1);
            if let Some(printed) = printed {
                self.take(printed)?;
            }
        }
        Ok(())
    }

    /// Notes what the line prints that was read last.
    fn take(&mut self, printed: Printed) -> Result<(), Memory> {
        if let Some(greatest) = self.greatest.get_mut(printed.cpu as usize) {
            *greatest = (*greatest).max(printed.amounts.v);
        }
        self.prints.push(Print {
            line: self.lines,
            pid: printed.amounts.pid,
            time: printed.time,
            runtime: printed.amounts.runtime,
            v: printed.amounts.v,
        })?;
        Ok(())
    }

    pub(crate) fn is_empty(&self) -> bool {
        self.prints.is_empty()
    }

    /// By rising line.
    pub(crate) fn as_slice(&self) -> &[Print] {
        self.prints.as_slice()
    }

    /// The greatest virtual runtime that is printed at a processor, and 0 where none is.
    pub(crate) fn greatest(&self, cpu: u32) -> i64 {
        self.greatest.get(cpu as usize).copied().unwrap_or(0)
    }
}

/// Whether a charge may be printed somewhere in a text.
fn has_label(text: &[u8]) -> bool {
    memmem::find(text, LABEL).is_some()
}

/// How many lines a text has; what stands behind the last line feed is one too.
fn line_count(text: &[u8]) -> u32 {
    let ended = memchr_iter(b'\n', text).count();
    let open = usize::from(!text.is_empty() && !text.ends_with(b"\n"));
    u32::try_from(ended.saturating_add(open)).unwrap_or(u32::MAX)
}
