use crate::escaped::Escaped;
use crate::head::Head;
use crate::origin::Origin;
use cfs_model::{IDLE_PID, Memory};
use ftrace_line::{Line, read_line};
use sched_event::{Event, Switch, read_event};
use std::alloc::{AllocError, Global};
use std::fmt;
use task_names::TraceText;

/// The name of a task, as a line of the trace has it.
#[derive(Drop)]
struct TaskName {
    pid: u32,
    name: Vec<u8>,
}

/// The names of tasks, as far as lines that were read have them.
#[derive(Drop)]
pub(crate) struct Names {
    alloc: Global,
    names: Vec<TaskName>,
}

/// A task in words: its pid, and its name where that is known.
#[derive(Clone, Copy)]
pub(crate) struct Named<'a> {
    pid: u32,
    name: Option<&'a [u8]>,
}

impl fmt::Display for Named<'_> {
    fn fmt<W: fmt::Write>(&self, f: &mut fmt::Formatter<W>) -> fmt::Result {
        let pid = self.pid;
        match self.name {
            Some(name) => {
                let name = Escaped(name);
                write!(f, "pid {pid} ({name})")
            }
            None => write!(f, "pid {pid}"),
        }
    }
}

impl Names {
    /// No names.
    pub(crate) fn new(alloc: Global) -> Names {
        Names {
            alloc,
            names: Vec::new(alloc),
        }
    }

    /// A task in words.
    pub(crate) fn named(&self, pid: u32) -> Named<'_> {
        Named {
            pid,
            name: self.name_of(pid),
        }
    }

    /// Its name, where that is known.
    pub(crate) fn name_of(&self, pid: u32) -> Option<&[u8]> {
        let known = self.names.iter().find(|known| known.pid == pid)?;
        Some(known.name.as_slice())
    }

    /// Learns the names on the lines since which tasks are where they are.
    pub(crate) fn read_lines_of<T: TraceText>(
        &mut self,
        trace: &mut T,
        origins: &[Origin],
    ) -> Result<(), Memory> {
        for origin in origins {
            if let Some(line) = origin.line() {
                self.read_line(trace, line)?;
            }
        }
        Ok(())
    }

    /// Learns the names on the line of this number, where it can be read again.
    pub(crate) fn read_line<T: TraceText>(
        &mut self,
        trace: &mut T,
        number: u32,
    ) -> Result<(), Memory> {
        match trace.line(number)? {
            Some(line) => Ok(self.learn_line(line.as_slice())?),
            None => Ok(()),
        }
    }

    /// Learns the names on a line of the trace: of its event's tasks, and of the one in its head.
    pub(crate) fn learn_line(&mut self, line: &[u8]) -> Result<(), AllocError> {
        if let Ok(Line::Sched(sched)) = read_line(line) {
            if let Ok(event) = read_event(sched) {
                self.learn_event(&event)?;
            }
        }
        match Head::of(line) {
            Some(Head { pid, name, .. }) => self.learn(pid, name),
            None => Ok(()),
        }
    }

    fn learn_event(&mut self, event: &Event<'_>) -> Result<(), AllocError> {
        match event {
            Event::Switch(switch) => self.learn_switch(switch),
            Event::Wakeup(wakeup) => self.learn(wakeup.pid, wakeup.name),
            Event::WakeupNew(birth) => self.learn(birth.pid, birth.name),
            Event::Migration(migration) => self.learn(migration.pid, migration.name),
        }
    }

    fn learn_switch(&mut self, switch: &Switch<'_>) -> Result<(), AllocError> {
        self.learn(switch.prev, switch.prev_name)?;
        self.learn(switch.next, switch.next_name)
    }

    /// Learns the name of a task, unless one is known. The idle tasks are called by their pid alone.
    fn learn(&mut self, pid: u32, name: &[u8]) -> Result<(), AllocError> {
        if pid == IDLE_PID || self.name_of(pid).is_some() {
            return Ok(());
        }
        let mut kept = Vec::new(self.alloc);
        kept.extend_from_slice(name)?;
        self.names.push(TaskName { pid, name: kept })?;
        Ok(())
    }
}
