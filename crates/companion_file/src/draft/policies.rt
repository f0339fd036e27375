ghost use Rattle.std.specs.Prelude.{◌≡◌, ◌≢◌, ◌<◌, false, AllPairs, MatchOption, IfOk};
ghost use Rattle.cfs_model.specs.Limits.{no_line};
ghost use Rattle.companion_file.specs.Shape.{idle_line};
ghost use Rattle.companion_file.specs.Earlier.{is_task};
ghost use Rattle.companion_file.specs.Spans.{AreSpansOf};
ghost use Rattle.companion_file.specs.Draft.{Adds, AddsTested, KeepsOrder, IsTaskIndex};

use crate::draft::Draft;
use crate::fault::{CompanionCause, Refusal};
use crate::limits::idle_within;
use crate::spans::IdleSpans;
use cfs_model::{IdleLine, NO_LINE, Policy};
use std::alloc::AllocError;

impl Draft {
    /// Where the task of this pid stands in the list.
    fn index_of(&self, pid: u32) -> Option<usize>
        requires { AllPairs (λ t u. t.pid < u.pid) self.now.tasks }
        ensures { MatchOption result (is_task self.now.tasks pid ≡ false) (IsTaskIndex self.now.tasks pid) }
    {
        self.tasks.binary_search_by_key(&pid, |task| task.pid).ok()
    }

    fn add_from_birth(&mut self, idle: IdleLine) -> Result<(), Refusal>
        requires order { KeepsOrder self.old }
        requires birth { idle.line ≢ no_line }
        ensures { Adds self.old (idle_line idle) result self.new }
    {
        self.idles.push(idle)?;
        Ok(())
    }

    fn add_from_start(&mut self, idle: IdleLine, index: usize) -> Result<(), Refusal>
        requires order { KeepsOrder self.old }
        requires start { idle.line ≡ no_line }
        requires task { IsTaskIndex self.old.tasks idle.pid index }
        ensures { Adds self.old (idle_line idle) result self.new }
    {
        self.idles.push(idle)?;
        self.tasks[index].policy = Policy::Idle;
        Ok(())
    }

    #[inline(never)]
    pub(super) fn say_idle(&mut self, line: u64, pid: u64) -> Result<(), Refusal>
        requires { KeepsOrder self.old }
        ensures { AddsTested self.old (idle_line (record { line = line; pid = pid })) result self.new }
    {
        if !self.is_at_start() {
            return Err(Refusal::Bad(CompanionCause::Order));
        }
        let Some(idle) = idle_within(line, pid) else {
            return Err(Refusal::Bad(CompanionCause::NumberRange));
        };
        if !self.may_be_idle(idle) {
            return Err(Refusal::Bad(CompanionCause::LineOrder));
        }
        if idle.line != NO_LINE {
            return self.add_from_birth(idle);
        }
        let Some(index) = self.index_of(idle.pid) else {
            return Err(Refusal::Bad(CompanionCause::NoTask));
        };
        self.add_from_start(idle, index)
    }

    /// The spans that the idle lines begin.
    pub(crate) fn spans(&self) -> Result<IdleSpans, AllocError>
        requires { KeepsOrder self.now }
        ensures { IfOk result (AreSpansOf self.now.idles) }
    {
        IdleSpans::of(*self.idles.allocator(), self.idles.as_slice())
    }
}
