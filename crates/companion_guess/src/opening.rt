//! Who stands where at the start.

use crate::pid_rows::PidRows;
use cfs_model::{
    Act, Entry, GREATEST_PID, IDLE_PID, MOST_PROCESSORS, Memory, Nice, Place, Policy, Task,
};
use std::alloc::Global;
use std::collections::BTreeMap;

/// How an event names a task.
#[derive(Clone, Copy, Debug, PartialEq, Eq)]
enum Sight {
    Previous,
    Next,
    Woken,
    Moved,
    Born,
}

/// What is known so far of where a task stood at the start.
#[derive(Clone, Copy, Debug, PartialEq, Eq)]
enum Guess {
    /// It stood here.
    Known(Place),
    /// It was first woken: it rested, or it ran where it is switched away from without having been picked.
    Woken,
    /// It was first migrated: it rested, or it waited where it is picked without having been woken.
    Moved,
    /// It stood nowhere.
    Unborn,
}

/// A task as it was first named.
#[derive(Clone, Copy, Debug)]
struct FirstSight {
    guess: Guess,
    cpu: u32,
    nice: Nice,
}

/// What is known so far of who ran at a processor at the start.
#[derive(Clone, Copy, Debug, PartialEq, Eq)]
enum Runner {
    /// Nothing, and no task has come there since.
    Unsought,
    /// Nothing, though tasks have come there.
    Unnamed,
    /// A switch has told it.
    Told,
}

#[derive(Drop)]
struct Opening {
    tasks: PidRows<FirstSight>,
    /// By processor.
    runners: [Runner; MOST_PROCESSORS],
}

/// The tasks of the start state, by rising pid: where each stood is told by the first events that name it. Among them a
/// stand-in for each who must have run all along, unnamed, at a processor to which tasks come and which never switches.
pub(crate) fn tasks_at_start(alloc: Global, events: &[Entry]) -> Result<Vec<Task>, Memory> {
    let mut opening = Opening {
        tasks: PidRows::new(alloc),
        runners: [Runner::Unsought; MOST_PROCESSORS],
    };
    for event in events {
        opening.pass(event.act)?;
    }
    let mut stood = BTreeMap::new(alloc);
    for (pid, sight) in opening.tasks.pids().iter().zip(opening.tasks.rows()) {
        if let Some(place) = place_of(sight.guess) {
            stood.insert(*pid, task_at_start(*pid, sight.nice, sight.cpu, place))?;
        }
    }
    opening.add_stand_ins(&mut stood)?;
    let mut tasks = Vec::with_capacity(alloc, stood.len())?;
    for task in stood.values() {
        tasks.push(*task)?;
    }
    Ok(tasks)
}

/// A task at the start: all begin at virtual runtime 0.
fn task_at_start(pid: u32, nice: Nice, cpu: u32, place: Place) -> Task {
    Task {
        pid,
        nice,
        policy: Policy::Normal,
        cpu,
        place,
        v: 0,
    }
}

/// Where a task stood, where it stood anywhere.
fn place_of(guess: Guess) -> Option<Place> {
    match guess {
        Guess::Known(place) => Some(place),
        Guess::Woken | Guess::Moved => Some(Place::Rest),
        Guess::Unborn => None,
    }
}

/// What more is known of a task that is named again, at the processor where it was named first or at another.
fn guess_after(guess: Guess, sight: Sight, is_there: bool) -> Guess {
    match (guess, sight) {
        (Guess::Woken, Sight::Previous) if is_there => Guess::Known(Place::Run),
        (Guess::Woken, Sight::Previous | Sight::Next | Sight::Moved | Sight::Born) => {
            Guess::Known(Place::Rest)
        }
        (Guess::Moved, Sight::Next | Sight::Previous) => Guess::Known(Place::Wait),
        (Guess::Moved, Sight::Woken | Sight::Born) => Guess::Known(Place::Rest),
        _ => guess,
    }
}

/// What is known of a task that is first named so.
fn first_guess(sight: Sight) -> Guess {
    match sight {
        Sight::Previous => Guess::Known(Place::Run),
        Sight::Next => Guess::Known(Place::Wait),
        Sight::Woken => Guess::Woken,
        Sight::Moved => Guess::Moved,
        Sight::Born => Guess::Unborn,
    }
}

impl Opening {
    fn pass(&mut self, act: Act) -> Result<(), Memory> {
        match act {
            Act::Switch {
                cpu,
                prev,
                prev_nice,
                next,
                next_nice,
                ..
            } => {
                self.see(prev, cpu, prev_nice, Sight::Previous)?;
                self.settle(cpu);
                self.see(next, cpu, next_nice, Sight::Next)
            }
            Act::Wake { cpu, pid, nice } => {
                self.seek(cpu);
                self.see(pid, cpu, nice, Sight::Woken)
            }
            Act::Born { cpu, pid, nice } => {
                self.seek(cpu);
                self.see(pid, cpu, nice, Sight::Born)
            }
            Act::Shift {
                orig,
                dest,
                pid,
                nice,
            } => {
                self.seek(dest);
                self.see(pid, orig, nice, Sight::Moved)
            }
        }
    }

    /// One more event names a task.
    fn see(&mut self, pid: u32, cpu: u32, nice: Nice, sight: Sight) -> Result<(), Memory> {
        if pid == IDLE_PID {
            return Ok(());
        }
        match self.tasks.get(pid) {
            Some(first) => {
                let guess = guess_after(first.guess, sight, cpu == first.cpu);
                if guess == first.guess {
                    return Ok(());
                }
                let guess = self.possible(guess, first.guess, first.cpu);
                self.tasks.set(pid, FirstSight { guess, ..first })
            }
            None => {
                let guess = self.possible(first_guess(sight), Guess::Unborn, cpu);
                self.tasks.set(pid, FirstSight { guess, cpu, nice })
            }
        }
    }

    /// The guess, where it isn't that one more task runs at a processor of which it is known who runs.
    fn possible(&self, guess: Guess, before: Guess, cpu: u32) -> Guess {
        if guess != before && guess == Guess::Known(Place::Run) && self.is_settled(cpu) {
            Guess::Known(Place::Rest)
        } else {
            guess
        }
    }

    fn is_settled(&self, cpu: u32) -> bool {
        match self.runners.get(cpu as usize) {
            Some(runner) => *runner == Runner::Told,
            None => true,
        }
    }

    /// Adds who runs at a processor without ever being named, each with the lowest pid that is free; none where no pid
    /// is.
    fn add_stand_ins(&self, stood: &mut BTreeMap<u32, Task>) -> Result<(), Memory> {
        let mut last = IDLE_PID;
        for cpu in 0..MOST_PROCESSORS as u32 {
            if self.is_unnamed(cpu) {
                if let (Some(pid), Some(nice)) = (self.free_pid(last), Nice::new(0)) {
                    stood.insert(pid, task_at_start(pid, nice, cpu, Place::Run))?;
                    last = pid;
                }
            }
        }
        Ok(())
    }

    /// The lowest pid above this one that no event names.
    fn free_pid(&self, last: u32) -> Option<u32> {
        (last.saturating_add(1)..=GREATEST_PID as u32).find(|pid| self.tasks.get(*pid).is_none())
    }

    /// Whether tasks came to the processor, and no switch has told who ran there.
    fn is_unnamed(&self, cpu: u32) -> bool {
        matches!(self.runners.get(cpu as usize), Some(Runner::Unnamed))
    }

    /// It is known who ran at the processor.
    fn settle(&mut self, cpu: u32) {
        if let Some(runner) = self.runners.get_mut(cpu as usize) {
            *runner = Runner::Told;
        }
    }

    /// A task comes to the processor, where somebody may have run.
    fn seek(&mut self, cpu: u32) {
        if let Some(runner) = self.runners.get_mut(cpu as usize) {
            if *runner == Runner::Unsought {
                *runner = Runner::Unnamed;
            }
        }
    }
}
