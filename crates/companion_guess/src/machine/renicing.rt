//! Changes of tasks' nice values, and the lines on which a companion can tell them.

use super::Machine;
use crate::named::Named;
use cfs_model::{Memory, Nice, NiceLine};

impl Machine {
    /// Where the event prints another nice value than the task's, it has changed: on this line, or on an earlier one of
    /// the processor that doesn't name it.
    pub(super) fn renice(
        &mut self,
        line: u32,
        cpu: u32,
        pid: u32,
        nice: Nice,
    ) -> Result<(), Memory> {
        let Some(before) = self.tasks.name(pid, line, nice) else {
            return Ok(());
        };
        let Some(processor) = self.processors.get_mut(before.cpu as usize) else {
            return Ok(());
        };
        match processor.queue.renice(pid, nice) {
            Some(old) if before.cpu == cpu && old != nice => {
                self.tell_change(line, pid, nice, before)
            }
            _ => Ok(()),
        }
    }

    /// Tells a change of a task's nice value, where a line is left for it.
    fn tell_change(
        &mut self,
        line: u32,
        pid: u32,
        nice: Nice,
        before: Named,
    ) -> Result<(), Memory> {
        match self.line_of_change(line, before) {
            Some(line) => {
                self.made.nices.insert(line, NiceLine { line, pid, nice })?;
            }
            None => self.stop_at(line),
        }
        Ok(())
    }

    /// A line on which a change of the task's nice value can be told.
    fn line_of_change(&self, line: u32, before: Named) -> Option<u32> {
        if !self.made.nices.contains_key(&line) {
            return Some(line);
        }
        let processor = self.processors.get(before.cpu as usize)?;
        let free = processor.free_line;
        if free > before.line && !self.made.nices.contains_key(&free) {
            Some(free)
        } else {
            None
        }
    }

    /// The line of an event at the processor is over.
    pub(super) fn end_line(&mut self, line: u32, cpu: u32) {
        if self.made.nices.contains_key(&line) {
            return;
        }
        if let Some(processor) = self.processors.get_mut(cpu as usize) {
            processor.free_line = line;
        }
    }
}
