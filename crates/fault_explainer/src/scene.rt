ghost use Rattle.std.specs.Prelude.{◌≤◌};
ghost use Rattle.cfs_model.specs.Limits.{greatest_setting};

use crate::companion_lines::push_companion_lines;
use crate::event::Event;
use crate::gap::{Gap, gap_before};
use crate::history::origins;
use crate::names::{Named, Names};
use crate::processor::Processor;
use crate::processor_lines::{Telling, push_charge, push_floor, push_processor};
use crate::told_charge::{ToldCharge, push_told_charge};
use cfs_model::{Act, ChargeLine, IDLE_PID, Kind, Knobs, Memory};
use recent_past::RecentPast;
use replay_model::FirstFault;
use runqueue::SchedEntity;
use std::alloc::{AllocError, Global};
use task_names::TraceText;

/// A fault with its event, and the processors at which it happened.
#[derive(Drop)]
pub(crate) struct Scene {
    pub fault: FirstFault,
    pub event: Event,
    pub knobs: Knobs,
    /// The fault's processor; of a migration its origin.
    pub here: Processor,
    /// The destination of a migration to another processor.
    pub there: Option<Processor>,
    /// Where the fault's task stood before the event, if it stood anywhere: the processor, and how. Told where the
    /// fault lies in that.
    pub stood: Option<(u32, SchedEntity)>,
    pub names: Names,
    /// A switch that is missing in the trace before the event, as the heads of its lines show.
    pub gap: Option<Gap>,
}

impl Scene {
    /// As it is before the event.
    pub(crate) fn new(
        alloc: Global,
        past: &RecentPast,
        fault: FirstFault,
        event: Event,
    ) -> Result<Scene, Memory> {
        let (here, there) = match event.ends() {
            Some((orig, dest)) if fault.kind != Kind::IdleTooLong => (orig, Some(dest)),
            _ => (fault.cpu, None),
        };
        let here = Processor::before(alloc, past, here, fault.line)?;
        let there = match there {
            Some(cpu) => Some(Processor::before(alloc, past, cpu, fault.line)?),
            None => None,
        };
        Ok(Scene {
            fault,
            event,
            knobs: past.knobs(),
            here,
            there,
            stood: None,
            names: Names::new(alloc),
            gap: None,
        })
    }

    /// Where the fault's task stood, at whatever processor, and how. Those that are shown are asked first, and none is
    /// replayed again.
    fn stood_before(
        &self,
        alloc: Global,
        past: &RecentPast,
    ) -> Result<Option<(u32, SchedEntity)>, Memory> {
        let pid = self.fault.pid;
        let shown = self.here.place_of(pid);
        if shown.is_some() {
            return Ok(shown);
        }
        let shown = self.there.as_ref().and_then(|there| there.place_of(pid));
        if shown.is_some() {
            return Ok(shown);
        }
        for cpu in 0..past.cpus() {
            if !self.shows(cpu) {
                let place = Processor::before(alloc, past, cpu, self.fault.line)?.place_of(pid);
                if place.is_some() {
                    return Ok(place);
                }
            }
        }
        Ok(None)
    }

    /// Whether a processor is one of those that are shown.
    fn shows(&self, cpu: u32) -> bool {
        self.here.cpu == cpu || self.there.as_ref().is_some_and(|there| there.cpu == cpu)
    }

    /// How those who are shown came to where they run or wait, and what the trace's lines say of them.
    pub(crate) fn recall<T: TraceText>(
        &mut self,
        alloc: Global,
        past: &RecentPast,
        trace: &mut T,
    ) -> Result<(), Memory> {
        let line = self.fault.line;
        if lies_in_place(self.fault) {
            self.stood = self.stood_before(alloc, past)?;
        }
        self.names.read_line(trace, line)?;
        recall_at(alloc, past, line, &mut self.here)?;
        self.names
            .read_lines_of(trace, self.here.origins.as_slice())?;
        if let Some(there) = &mut self.there {
            recall_at(alloc, past, line, there)?;
            self.names.read_lines_of(trace, there.origins.as_slice())?;
        }
        if hides_switch(self.fault.kind) {
            let runner = self.here.queue.runner().map_or(IDLE_PID, |task| task.pid);
            let (cpu, names) = (self.here.cpu, &mut self.names);
            self.gap = gap_before(past, cpu, line, runner, names, trace)?;
        }
        Ok(())
    }

    /// A task in words.
    pub(crate) fn named(&self, pid: u32) -> Named<'_> {
        self.names.named(pid)
    }

    /// The event's task in words; of a switch the previous one.
    pub(crate) fn subject(&self) -> Named<'_> {
        self.named(self.event.act.subject())
    }

    /// The task as it stands at the fault's processor, or at a migration's origin.
    pub(crate) fn task(&self, pid: u32) -> Option<SchedEntity> {
        self.here.queue.task_at(pid)
    }

    /// The fault's processor.
    pub(crate) fn at_fault(&self) -> &Processor {
        match &self.there {
            Some(there) if there.cpu == self.fault.cpu => there,
            _ => &self.here,
        }
    }

    /// Tells how things were before the event, and what comes first at it.
    pub(crate) fn set(&mut self, text: &mut String) -> Result<(), AllocError> {
        self.push_before(text)?;
        self.go_on_to_event(text)
    }

    /// What comes first at the event, which is told: the charge, the floor, the change of a nice value, with what the
    /// companion says.
    pub(crate) fn go_on_to_event(&mut self, text: &mut String) -> Result<(), AllocError> {
        if self.fault.kind == Kind::IdleTooLong {
            return Ok(());
        }
        self.charge(text)?;
        if self.is_charged() {
            self.renice();
        }
        push_companion_lines(text, &self.event)
    }

    /// The processors before the event.
    fn push_before(&self, text: &mut String) -> Result<(), AllocError> {
        writeln!(
            text,
            "# times are in ns, and in s in brackets; virtual runtimes (vruntime), floors (min_vruntime) and charges in virtual ns"
        )?;
        self.push_processor(text, &self.here)?;
        match &self.there {
            Some(there) => self.push_processor(text, there),
            None => Ok(()),
        }
    }

    fn push_processor(&self, text: &mut String, processor: &Processor) -> Result<(), AllocError> {
        let telling = Telling {
            names: &self.names,
            origins: processor.origins.as_slice(),
            time: self.event.time,
        };
        push_processor(text, processor, telling)
    }

    /// Whether the fault comes behind the charge. One that lies in the charge lifts no floor.
    fn is_charged(&self) -> bool {
        !matches!(self.fault.kind, Kind::Range | Kind::WrongCharge)
    }

    /// Charges who runs at the processors, and lifts their floors. What is told of a migration is the origin's.
    fn charge(&mut self, text: &mut String) -> Result<(), AllocError> {
        let Event {
            time,
            charge: told,
            ..
        } = self.event;
        let drift = self.knobs.drift();
        let lifts = self.is_charged();
        charge(text, &mut self.here, time, told, drift, lifts, &self.names)?;
        match &mut self.there {
            Some(there) => charge(text, there, time, None, drift, lifts, &self.names),
            None => Ok(()),
        }
    }

    /// The change of a nice value that the companion tells.
    fn renice(&mut self) {
        if let Some(change) = self.event.nice {
            self.here.queue.renice(change.pid, change.nice);
        }
    }

    /// Where the fault lies in who is picked, the previous task of the switch has gone its way before.
    pub(crate) fn go_on_to_pick(&mut self) -> Result<(), Memory> {
        let act = self.event.act;
        match (self.fault.kind, act) {
            (Kind::IdleBesideWaiting | Kind::NotLeast, Act::Switch { way, .. }) => {
                self.here.queue.put_prev(way)
            }
            _ => Ok(()),
        }
    }
}

/// How those came who are shown of a processor.
fn recall_at(
    alloc: Global,
    past: &RecentPast,
    line: u32,
    processor: &mut Processor,
) -> Result<(), Memory> {
    processor.origins = origins(alloc, past, processor, line)?;
    Ok(())
}

/// Whether a fault may come of a switch that isn't in the trace: its event wants another task where one runs.
fn hides_switch(kind: Kind) -> bool {
    matches!(
        kind,
        Kind::PrevNotRunning | Kind::Strange | Kind::MoveRunning | Kind::NextNotWaiting
    )
}

/// Whether a fault lies in where its task stood.
pub(crate) fn lies_in_place(fault: FirstFault) -> bool {
    fault.pid != IDLE_PID
        && matches!(
            fault.kind,
            Kind::WrongCharge
                | Kind::Strange
                | Kind::Already
                | Kind::BornTwice
                | Kind::NextNotWaiting
                | Kind::PrevNotRunning
        )
}

/// Charges who runs, exactly or as told within a drift, lifts the floor where that is asked for, and tells all of it.
fn charge(
    text: &mut String,
    processor: &mut Processor,
    time: u64,
    told: Option<ChargeLine>,
    drift: u64,
    lifts: bool,
    names: &Names,
) -> Result<(), AllocError>
    requires { drift ≤ greatest_setting }
{
    push_charge(text, processor, time, names)?;
    let told_charge = ToldCharge::at(&processor.queue, time, told);
    if lifts && processor.queue.lift(time, told, drift).is_ok() {
        push_told_charge(text, processor.cpu, told_charge, names)?;
        push_floor(text, processor.cpu, processor.queue.floor())
    } else {
        Ok(())
    }
}
