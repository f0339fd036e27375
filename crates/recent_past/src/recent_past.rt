use crate::pending::Pending;
use crate::segment::Segment;
use crate::standing::Standing;
use crate::{Beside, Moment, Placing, ProcessorState};
use cfs_model::{Entry, IdleLine, Knobs, Memory, Place};
use companion_file::Companion;
use pid_table::PidTable;
use queue_replay::WindowedReplay;
use replay_model::{FirstFault, Step};
use sched_record::{Saying, Window};
use std::alloc::{AllocError, Global};
use std::mem;
use stream_audit::Past;

/// For so many tasks that stand at a processor a segment has an event at least, so that it costs little to copy all of
/// these once for it.
const TASKS_AN_EVENT: usize = 4;

/// The last events of a record that comes in windows, in two segments, and how the processors stood before each. Of
/// what was before them it keeps how those were placed who still waited behind them. Once a fault is told it stays as
/// it is.
#[derive(Drop)]
pub struct RecentPast {
    alloc: Global,
    knobs: Knobs,
    keeps: bool,
    cpus: u32,
    /// The time of the start, in nanoseconds.
    start: u64,
    earlier: Segment,
    latest: Segment,
    /// By pid, of those who were placed before the segments.
    placings: PidTable<Placing>,
    /// By processor, the last switch before the segments.
    switches: Vec<Option<Moment>>,
    fault: Option<FirstFault>,
    /// The `idle` line that names a birth on the fault's line.
    idle: Option<IdleLine>,
}

impl RecentPast {
    /// Before the first event of a record that is replayed under these settings.
    pub fn new(alloc: Global, knobs: Knobs) -> RecentPast {
        RecentPast {
            alloc,
            knobs,
            keeps: true,
            cpus: 0,
            start: 0,
            earlier: Segment::empty(alloc),
            latest: Segment::empty(alloc),
            placings: PidTable::new(alloc),
            switches: Vec::new(alloc),
            fault: None,
            idle: None,
        }
    }

    /// One that keeps nothing.
    pub fn unkept(alloc: Global) -> RecentPast {
        let mut past = RecentPast::new(alloc, Knobs::standard());
        past.keeps = false;
        past
    }

    fn push(&mut self, window: &mut Window) -> Result<(), AllocError> {
        let taken = mem::replace(window, Window::new(self.alloc));
        self.latest.windows.push(taken)?;
        Ok(())
    }

    /// The earlier segment is let go, and the latest is the earlier one, before these standings. A window of it is
    /// given back, whose room can be used again.
    fn let_go(&mut self, standings: Vec<Standing>) -> Result<Option<Window>, Memory> {
        self.note_placings(standings.as_slice())?;
        self.note_switches()?;
        let mut next = Segment::empty(self.alloc);
        next.standings = standings;
        let latest = mem::replace(&mut self.latest, next);
        let mut gone = mem::replace(&mut self.earlier, latest);
        Ok(gone.windows.pop())
    }

    /// Notes how those were placed who wait since before the latest segment, and of nobody else.
    fn note_placings(&mut self, standings: &[Standing]) -> Result<(), Memory> {
        let mut pending = Pending::new(self.alloc);
        push_waiting(standings, &mut pending)?;
        self.latest.seek(u32::MAX, &mut pending)?;
        if pending.is_over() {
            self.placings = PidTable::new(self.alloc);
            return Ok(());
        }
        pending.found.clear();
        self.earlier.seek(u32::MAX, &mut pending)?;
        self.keep_placings(&pending.missing(self.alloc)?)?;
        for cpu in 0..self.cpus {
            self.note_placings_at(cpu, pending.found.as_slice())?;
        }
        Ok(())
    }

    /// Keeps what is noted of these tasks, and lets go the rest.
    fn keep_placings(&mut self, pids: &[u32]) -> Result<(), AllocError> {
        let noted = mem::replace(&mut self.placings, PidTable::new(self.alloc));
        for pid in pids {
            if let Some(index) = noted.index_of(*pid) {
                self.note_placing(noted.rows()[index])?;
            }
        }
        Ok(())
    }

    /// Notes how tasks were placed at one processor in the earlier segment, of which the last comes first.
    fn note_placings_at(&mut self, cpu: u32, found: &[Placing]) -> Result<(), Memory> {
        if !found.iter().any(|placing| placing.cpu() == cpu) {
            return Ok(());
        }
        let mut steps = Vec::new(self.alloc);
        self.earlier
            .push_steps(self.alloc, cpu, u32::MAX, &mut steps)?;
        let placed = self.with_besides(cpu, steps.as_slice(), found)?;
        for placing in &placed {
            self.note_placing(*placing)?;
        }
        Ok(())
    }

    fn note_placing(&mut self, placing: Placing) -> Result<(), AllocError> {
        // Named: the check knows the types of what is.
        let _act = placing.act;
        let pid = placing.claim.pid;
        self.placings.make_room()?;
        match self.placings.index_of(pid) {
            Some(index) => *self.placings.row_mut(index) = placing,
            None => self.placings.add(pid, placing),
        }
        Ok(())
    }

    /// Notes the last switches of the earlier segment.
    fn note_switches(&mut self) -> Result<(), AllocError> {
        let mut switches = Vec::new(self.alloc);
        for cpu in 0..self.cpus {
            let last = self.earlier.switch_before(cpu, u32::MAX);
            switches.push(last.or(self.noted_switch(cpu)))?;
        }
        self.switches = switches;
        Ok(())
    }

    fn noted_switch(&self, cpu: u32) -> Option<Moment> {
        match self.switches.get(cpu as usize) {
            Some(switch) => *switch,
            None => None,
        }
    }

    /// The settings.
    pub fn knobs(&self) -> Knobs {
        self.knobs
    }

    /// How many processors there are.
    pub fn cpus(&self) -> u32 {
        self.cpus
    }

    /// The time of the start, in nanoseconds.
    pub fn start(&self) -> u64 {
        self.start
    }

    /// The `idle` line that names a birth on the fault's line.
    pub fn idle(&self) -> Option<IdleLine> {
        self.idle
    }

    /// The event on a line that is kept, and what is said there.
    pub fn event_on(&self, line: u32) -> Option<(Entry, Saying)> {
        match self.latest.event_on(line) {
            Some(found) => Some(found),
            None => self.earlier.event_on(line),
        }
    }

    /// The last switch at a processor before a line that is kept.
    pub fn switch_before(&self, cpu: u32, line: u32) -> Option<Moment> {
        let last = self.latest.switch_before(cpu, line);
        let last = last.or(self.earlier.switch_before(cpu, line));
        last.or(self.noted_switch(cpu))
    }

    /// How a processor stands before a line that is kept. Nobody stands at one that the record doesn't have.
    pub fn state_before(&self, cpu: u32, line: u32) -> Result<ProcessorState, Memory> {
        let steps = self.steps_before(cpu, line)?;
        self.first_state(cpu)?
            .after(self.alloc, self.knobs, steps.as_slice())
    }

    /// How tasks were placed that wait at a processor before a line that is kept. There is none of a task that waits
    /// there since the start.
    pub fn placings_before(
        &self,
        cpu: u32,
        line: u32,
        pids: &[u32],
    ) -> Result<Vec<Placing>, Memory> {
        let mut pending = Pending::new(self.alloc);
        for pid in pids {
            pending.add(*pid)?;
        }
        self.latest.seek(line, &mut pending)?;
        self.earlier.seek(line, &mut pending)?;
        let steps = self.steps_before(cpu, line)?;
        let mut placed = self.with_besides(cpu, steps.as_slice(), pending.found.as_slice())?;
        for pid in &pending.missing(self.alloc)? {
            if let Some(index) = self.placings.index_of(*pid) {
                placed.push(self.placings.rows()[index])?;
            }
        }
        Ok(placed)
    }

    /// The kept steps of a processor before a line.
    fn steps_before(&self, cpu: u32, line: u32) -> Result<Vec<Step>, Memory> {
        let mut steps = Vec::new(self.alloc);
        self.earlier.push_steps(self.alloc, cpu, line, &mut steps)?;
        self.latest.push_steps(self.alloc, cpu, line, &mut steps)?;
        Ok(steps)
    }

    /// How a processor stood before all that is kept.
    fn first_state(&self, cpu: u32) -> Result<ProcessorState, Memory> {
        let front = if self.earlier.standings.is_empty() {
            &self.latest
        } else {
            &self.earlier
        };
        match front.standings.get(cpu as usize) {
            Some(standing) => standing.state(self.alloc),
            None => Ok(ProcessorState::nobody(self.alloc, cpu, self.start)),
        }
    }

    /// What lies beside tasks that were placed at a processor, of which the last comes first, by the steps from the
    /// first that is kept on. The first comes first then.
    fn with_besides(
        &self,
        cpu: u32,
        steps: &[Step],
        found: &[Placing],
    ) -> Result<Vec<Placing>, Memory> {
        let mut placed = Vec::new(self.alloc);
        let mut from = 0;
        let mut state = self.first_state(cpu)?;
        for placing in found.iter().rev() {
            if placing.cpu() != cpu {
                continue;
            }
            let mut placing = *placing;
            if placing.is_bounded() {
                let at = steps.partition_point(|step| step.line < placing.claim.line);
                state = self.advanced(state, steps, from, at)?;
                let own = state.queue.task_at(placing.claim.pid).map(|task| task.v);
                from = at.saturating_add(1);
                state = self.advanced(state, steps, at, from)?;
                let floor = state.queue.floor();
                placing.beside = Some(Beside { own, floor });
            }
            placed.push(placing)?;
        }
        Ok(placed)
    }

    /// A processor behind the steps between two indices.
    fn advanced(
        &self,
        state: ProcessorState,
        steps: &[Step],
        from: usize,
        end: usize,
    ) -> Result<ProcessorState, Memory> {
        let between = steps.get(from..end).unwrap_or(&[]);
        state.after(self.alloc, self.knobs, between)
    }
}

impl Past for RecentPast {
    fn goes_on(&self) -> bool {
        self.keeps && self.fault.is_none()
    }

    fn begin(&mut self, companion: &Companion, replays: &[&WindowedReplay]) -> Result<(), Memory> {
        if self.goes_on() && self.latest.standings.is_empty() {
            self.cpus = companion.cpus();
            self.start = companion.start();
            let pids = pids_of(self.alloc, replays)?;
            self.latest.standings = standings_of(self.alloc, replays, pids.as_slice())?;
        }
        Ok(())
    }

    fn take_window(
        &mut self,
        replays: &[&WindowedReplay],
        window: &mut Window,
    ) -> Result<(), Memory> {
        if !self.goes_on() {
            return Ok(());
        }
        self.push(window)?;
        let kept = self.latest.count().saturating_mul(TASKS_AN_EVENT);
        if kept >= self.latest.task_count() {
            let pids = self.latest.who_may_stand(self.alloc)?;
            let standings = standings_of(self.alloc, replays, pids.as_slice())?;
            if let Some(spare) = self.let_go(standings)? {
                *window = spare;
            }
        }
        Ok(())
    }

    fn take_last(
        &mut self,
        companion: &Companion,
        window: &mut Window,
        fault: FirstFault,
    ) -> Result<(), Memory> {
        if !self.goes_on() {
            return Ok(());
        }
        self.push(window)?;
        let mut idles = companion.idles().iter();
        self.idle = idles.find(|idle| idle.line == fault.line).copied();
        self.fault = Some(fault);
        Ok(())
    }
}

/// Who stands at each processor at the start, where no event was replayed yet.
fn pids_of(alloc: Global, replays: &[&WindowedReplay]) -> Result<Vec<Vec<u32>>, AllocError> {
    let mut lists = Vec::new(alloc);
    for replay in replays {
        let mut pids = Vec::new(alloc);
        for tally in replay.tallies() {
            pids.push(tally.pid)?;
        }
        lists.push(pids)?;
    }
    Ok(lists)
}

/// Where replays stand, at each of which nobody stands but some of these.
fn standings_of(
    alloc: Global,
    replays: &[&WindowedReplay],
    pids: &[Vec<u32>],
) -> Result<Vec<Standing>, AllocError> {
    let mut standings = Vec::new(alloc);
    for (replay, pids) in replays.iter().zip(pids) {
        standings.push(Standing::of(alloc, replay, pids.as_slice())?)?;
    }
    Ok(standings)
}

/// Seeks how those were placed who wait.
fn push_waiting(standings: &[Standing], pending: &mut Pending) -> Result<(), AllocError> {
    for standing in standings {
        for task in &standing.tasks {
            if task.place == Place::Wait {
                pending.add(task.pid)?;
            }
        }
    }
    Ok(())
}
