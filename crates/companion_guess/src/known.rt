use crate::floors::Floors;
use crate::kernel_values::KernelValues;
use crate::next_prints::NextPrints;
use crate::print::Print;
use crate::prints::Prints;
use cfs_model::{Memory, Place, Task};
use std::alloc::Global;
use std::collections::BTreeMap;

/// What is known of the kernel's own values, but for the placements by events.
#[derive(Drop)]
pub(crate) struct Known {
    values: KernelValues,
    /// What is printed of each task first behind the start; of one that is printed above the first event, what is
    /// printed last there.
    first: NextPrints,
    /// Of tasks that no print tells at the start, what they have to be there by what was found later.
    asked: BTreeMap<u32, i64>,
}

impl Known {
    /// What these values and prints tell.
    pub(crate) fn of(alloc: Global, values: KernelValues, first: NextPrints) -> Known {
        Known {
            values,
            first,
            asked: BTreeMap::new(alloc),
        }
    }

    /// Nothing is.
    pub(crate) fn nothing(alloc: Global) -> Known {
        Known::of(alloc, KernelValues::none(alloc), NextPrints::new(alloc))
    }

    pub(crate) fn prints(&self) -> &Prints {
        &self.values.prints
    }

    /// Whether something is printed of the task.
    pub(crate) fn names(&self, pid: u32) -> bool {
        self.first.names(pid)
    }

    /// The floors at the start that the kernel told beside the trace.
    pub(crate) fn floors(&self) -> &Floors {
        &self.values.floors
    }

    /// A task that no print tells has to be elsewhere at the start. Whether that is news.
    pub(crate) fn ask(&mut self, pid: u32, v: i64) -> Result<bool, Memory> {
        Ok(self.asked.insert(pid, v)? != Some(v))
    }

    /// The virtual runtime of a task at the start, which is given in nanoseconds.
    pub(crate) fn at_start(&self, task: &Task, start: u64) -> Option<i64> {
        match self.asked.get(&task.pid) {
            Some(v) => Some(*v),
            None => self.printed_at_start(task, start),
        }
    }

    /// The same, where a print tells it.
    pub(crate) fn printed_at_start(&self, task: &Task, start: u64) -> Option<i64> {
        let print: Print = self.first.of(task.pid)?;
        match task.place {
            Place::Run => print.from_start(start, task.nice),
            Place::Wait | Place::Rest => print.before(task.nice),
        }
    }
}
