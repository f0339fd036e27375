//! What the machine charges who runs.

use super::Machine;
use cfs_model::{ChargeLine, GREATEST_SETTING, Memory, Setting};

impl Machine {
    /// Charges who runs, exactly, and raises the floor.
    pub(super) fn lift(&mut self, line: u32, cpu: u32, time: u64) {
        let Some(processor) = self.processors.get_mut(cpu as usize) else {
            return;
        };
        if processor.queue.lift(time, None, 0).is_err() {
            self.stop_at(line);
        }
    }

    /// The same at the processor where an event happens: as it was printed, where the kernel printed what it charged.
    pub(super) fn charge(&mut self, line: u32, cpu: u32, time: u64) -> Result<(), Memory> {
        if let Some(told) = self.told(line, cpu) {
            if let Some(processor) = self.processors.get_mut(cpu as usize) {
                if processor
                    .queue
                    .lift(time, Some(told), GREATEST_SETTING)
                    .is_ok()
                {
                    self.made.need(Setting::Drift, processor.drift());
                    self.made.charges.push(told)?;
                    return Ok(());
                }
            }
        }
        self.lift(line, cpu, time);
        Ok(())
    }

    /// What who runs has come to before a line, where anything is printed of it: what was printed last since it came,
    /// or what it has. Its placement is settled by that.
    fn told(&mut self, line: u32, cpu: u32) -> Option<ChargeLine> {
        let task = self.processors.get(cpu as usize)?.queue.runner()?;
        let pid = task.pid;
        let named = self.tasks.get_mut(pid)?;
        if !named.is_printed {
            return None;
        }
        let v = match named.printed() {
            Some(printed) => {
                named.unsettled = None;
                printed.max(task.v)
            }
            None => task.v,
        };
        Some(ChargeLine { line, pid, v })
    }
}
