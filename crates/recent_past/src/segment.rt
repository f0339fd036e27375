use crate::Moment;
use crate::pending::Pending;
use crate::standing::Standing;
use cfs_model::{Act, Entry, Memory};
use replay_model::Step;
use sched_record::{Saying, Window};
use std::alloc::{AllocError, Global};

/// Some windows, one behind another, and how the processors stood before them.
#[derive(Drop)]
pub(crate) struct Segment {
    pub standings: Vec<Standing>,
    pub windows: Vec<Window>,
}

impl Segment {
    /// Nothing.
    pub(crate) fn empty(alloc: Global) -> Segment {
        Segment {
            standings: Vec::new(alloc),
            windows: Vec::new(alloc),
        }
    }

    /// How many events it has.
    pub(crate) fn count(&self) -> usize {
        let mut count = 0usize;
        for window in &self.windows {
            count = count.saturating_add(window.events().len());
        }
        count
    }

    /// How many tasks stood at processors before it.
    pub(crate) fn task_count(&self) -> usize {
        let mut count = 0usize;
        for standing in &self.standings {
            count = count.saturating_add(standing.tasks.len());
        }
        count
    }

    /// Who may stand behind it, at each processor: who stood there before it, was born there or came.
    pub(crate) fn who_may_stand(&self, alloc: Global) -> Result<Vec<Vec<u32>>, AllocError> {
        let mut lists = Vec::new(alloc);
        for standing in &self.standings {
            lists.push(standing.pids(alloc)?)?;
        }
        for window in &self.windows {
            for event in window.events() {
                push_arrival(lists.as_mut_slice(), event.act)?;
            }
        }
        for pids in lists.iter_mut() {
            pids.sort_unstable();
            pids.dedup();
        }
        Ok(lists)
    }

    /// Adds the steps of a processor before a line.
    pub(crate) fn push_steps(
        &self,
        alloc: Global,
        cpu: u32,
        line: u32,
        steps: &mut Vec<Step>,
    ) -> Result<(), Memory> {
        let mut dealt = Vec::new(alloc);
        for window in &self.windows {
            window.deal(cpu, &mut dealt)?;
            let above = dealt.partition_point(|step| step.line < line);
            steps.extend_from_slice(dealt.get(..above).unwrap_or(&[]))?;
        }
        Ok(())
    }

    /// The event on a line, and what is said there.
    pub(crate) fn event_on(&self, line: u32) -> Option<(Entry, Saying)> {
        for window in &self.windows {
            let events = window.events();
            let index = events.partition_point(|event| event.line < line);
            if let Some((event, saying)) = window.event_at(index) {
                if event.line == line {
                    return Some((event, saying));
                }
            }
        }
        None
    }

    /// The last switch at a processor before a line.
    pub(crate) fn switch_before(&self, cpu: u32, line: u32) -> Option<Moment> {
        for window in self.windows.iter().rev() {
            let events = window.events();
            let above = events.partition_point(|event| event.line < line);
            let before = events.get(..above).unwrap_or(&[]);
            let found = before
                .iter()
                .rev()
                .find(|event| is_switch_at(event.act, cpu));
            if let Some(event) = found {
                return Some(Moment {
                    line: event.line,
                    time: event.time,
                });
            }
        }
        None
    }

    /// Seeks how tasks were placed before a line, the last claims first, until all are found.
    pub(crate) fn seek(&self, line: u32, pending: &mut Pending) -> Result<(), AllocError> {
        for window in self.windows.iter().rev() {
            seek_in(window, line, pending)?;
        }
        Ok(())
    }
}

/// The same in one window.
fn seek_in(window: &Window, line: u32, pending: &mut Pending) -> Result<(), AllocError> {
    let events = window.events();
    let above = events.partition_point(|event| event.line < line);
    for index in (0..above).rev() {
        if pending.is_over() {
            return Ok(());
        }
        if let Some((event, saying)) = window.event_at(index) {
            if let Some(claim) = saying.claim {
                pending.offer(event, claim)?;
            }
        }
    }
    Ok(())
}

fn is_switch_at(act: Act, processor: u32) -> bool {
    matches!(act, Act::Switch { cpu, .. } if cpu == processor)
}

/// Adds the task that an event bears or moves to those of its processor.
fn push_arrival(lists: &mut [Vec<u32>], act: Act) -> Result<(), AllocError> {
    match act {
        Act::Born { cpu, pid, .. } | Act::Shift { dest: cpu, pid, .. } => {
            if let Some(pids) = lists.get_mut(cpu as usize) {
                pids.push(pid)?;
            }
            Ok(())
        }
        Act::Switch { .. } | Act::Wake { .. } => Ok(()),
    }
}
