ghost use Rattle.std.specs.Prelude.{◌≡◌, ◌<◌, ◌&&◌, nat_lt, not, true, false, ◌==◌, unwrap_or, Some, MatchOption, []};
ghost use Rattle.std.specs.Prelude.{IsTrue, slice_set};
ghost use Rattle.cfs_model.specs.declared.policy.Policy.TheVariants.{Normal};
ghost use Rattle.cfs_model.specs.declared.task.Task.{Task};
ghost use Rattle.cfs_model.specs.declared.claim.Claim.{Claim};
ghost use Rattle.cfs_model.specs.Limits.{most_processors};
ghost use Rattle.companion_file.specs.Shape.{task_line};
ghost use Rattle.companion_file.specs.Earlier.{summed, has_all_floors, is_run, is_taken};
ghost use Rattle.companion_file.specs.Tests.{is_at_start, is_in_limits};
ghost use Rattle.companion_file.specs.Spans.{AreSpansOf};
ghost use Rattle.companion_file.specs.Draft.{Adds, KeepsOrder, IsCompleted};
ghost use Rattle.companion_file.specs.Seen.{companion_view};

mod holding;
mod piecewise;
mod policies;
mod rising;
mod saying;

use crate::companion::Companion;
use crate::fault::Refusal;
use crate::limits::{is_pid, is_running, is_value, nice_within};
use crate::lists::{Charges, Claims, Floors, Idles, Nices, Tasks};
use crate::spans::IdleSpans;
use cfs_model::{ChargeLine, Claim, IdleLine, MOST_PROCESSORS, NiceLine, Place, Policy, Task};
use std::alloc::Global;
use std::marker::Model;

/// What the lines so far have said.
#[derive(Drop)]
pub(crate) struct Draft {
    version: Option<u32>,
    cpus: Option<u32>,
    start: Option<u64>,
    floors: Vec<i64>,
    tasks: Vec<Task>,
    claims: Vec<Claim>,
    nices: Vec<NiceLine>,
    idles: Vec<IdleLine>,
    charges: Vec<ChargeLine>,
    // By processor, whether a task runs there.
    running: [bool; MOST_PROCESSORS],
}

impl Model for Draft {
    ghost use Rattle.companion_file.specs.Earlier.{Said};
    ghost use Rattle.companion_file.specs.Spans.{AreSpansOf};
    ghost use Rattle.companion_file.specs.Draft.{KnowsRunning};

    ghost Value = { Said };

    ghost view = { λ d. record {
      version = d.version;
      cpus = d.cpus;
      start = d.start;
      floors = d.floors.items;
      tasks = d.tasks.items;
      claims = d.claims.items;
      nices = d.nices.items;
      idles = d.idles.items;
      charges = d.charges.items;
    } };

    ghost invariant = { λ d. KnowsRunning d.cpus d.tasks.items d.running };
}

fn occupy(running: &mut [bool; MOST_PROCESSORS], cpu: u32)
    requires { cpu < most_processors }
    ensures { running.new ≡ slice_set running.old cpu true }
{
    running[cpu as usize] = true;
}

impl Draft {
    pub(crate) fn new(alloc: Global) -> Draft
        ensures { result ≡ summed [] }
    {
        Draft {
            version: None,
            cpus: None,
            start: None,
            floors: Vec::new(alloc),
            tasks: Vec::new(alloc),
            claims: Vec::new(alloc),
            nices: Vec::new(alloc),
            idles: Vec::new(alloc),
            charges: Vec::new(alloc),
            running: [false; MOST_PROCESSORS],
        }
    }

    pub(crate) fn has_all_floors(&self) -> bool
        ensures { result ≡ has_all_floors self.now }
    {
        self.cpus
            .is_some_and(|cpus| self.floors.len() == cpus as usize)
    }

    /// Whether every floor was said, and neither a claim nor a change of a nice value nor a charge.
    fn is_at_start(&self) -> bool
        ensures { result ≡ is_at_start self.now }
    {
        self.has_all_floors()
            && self.claims.is_empty()
            && self.nices.is_empty()
            && self.charges.is_empty()
    }

    fn has_cpu(&self, cpu: u64) -> bool
        ensures below { result ≡ nat_lt cpu (unwrap_or self.now.cpus 0) }
        ensures few { IsTrue result → cpu < most_processors }
    {
        cpu < u64::from(self.cpus.unwrap_or(0))
    }

    fn task_within(&self, pid: u64, nice: i64, cpu: u64, place: Place, v: i64) -> Option<Task>
        ensures { let task : Task = record {
          pid = pid;
          nice = nice;
          policy = Normal;
          cpu = cpu;
          place = place;
          v = v;
        } in
            MatchOption result (is_in_limits (unwrap_or self.now.cpus 0) (task_line task) ≡ false)
            (λ within. (within ≡ task) × (is_in_limits (unwrap_or self.now.cpus 0) (task_line task) ≡ true)) }
    {
        let nice = nice_within(nice)?;
        if is_pid(pid) && self.has_cpu(cpu) && is_value(v) {
            Some(Task {
                pid: pid as u32,
                nice,
                policy: Policy::Normal,
                cpu: cpu as u32,
                place,
                v,
            })
        } else {
            None
        }
    }

    fn is_free(&self, task: &Task) -> bool
        requires { task.now.cpu < unwrap_or self.now.cpus 0 }
        ensures { result ≡ not (is_run task.now.place && is_taken self.now.tasks task.now.cpu) }
    {
        !(is_running(task.place) && self.running[task.cpu as usize])
    }

    #[inline(always)]
    fn add_task(&mut self, task: Task) -> Result<(), Refusal>
        requires cpu { task.cpu < unwrap_or self.old.cpus 0 }
        requires plain { task.policy ≡ Normal }
        requires first { self.old.idles ≡ [] }
        ensures { Adds self.old (task_line task) result self.new }
    {
        let cpu = task.cpu;
        let runs = is_running(task.place);
        self.tasks.push(task)?;
        if runs {
            occupy(&mut self.running, cpu);
        }
        Ok(())
    }

    /// What the lines said, once each processor has its floor, with these spans of the idle policy.
    pub(crate) fn finish(self, spans: IdleSpans) -> Option<Companion>
        requires order { KeepsOrder self }
        requires spans { AreSpansOf self.idles spans }
        ensures { MatchOption result (has_all_floors self ≡ false) (λ c. IsCompleted self (companion_view c)) }
    {
        if !self.has_all_floors() {
            return None;
        }
        let Draft {
            version: _,
            cpus,
            start,
            floors,
            tasks,
            claims,
            nices,
            idles,
            charges,
            running: _,
        } = self;
        Some(Companion::new(
            cpus?,
            start?,
            Floors::from_vec(floors),
            Tasks::from_vec(tasks),
            Claims::from_vec(claims),
            Nices::from_vec(nices),
            Idles::from_vec(idles),
            Charges::from_vec(charges),
            spans,
        ))
    }
}
