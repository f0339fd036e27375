use crate::glance::Glance;
use crate::sight::Sight;
use runqueue::{SchedEntity, charged};

/// For how long somebody ran up to an event, and what that cost.
#[derive(Clone, Copy, Debug, PartialEq, Eq)]
pub struct Stretch {
    /// As who ran stood before the charge.
    pub task: SchedEntity,
    /// In nanoseconds.
    pub ran: u64,
    /// The virtual runtime after the charge, in virtual nanoseconds.
    pub to: i64,
}

impl Stretch {
    /// That up to an event; None where nobody ran.
    pub fn of(sight: &Sight) -> Option<Stretch> {
        let task = sight.before.runner?;
        let ran = sight.step.time.saturating_sub(sight.before.mark);
        let to = reached(sight, &task, ran);
        Some(Stretch { task, ran, to })
    }

    /// In virtual nanoseconds.
    pub fn cost(&self) -> u64 {
        self.to.abs_diff(self.task.v)
    }

    /// By how much told charges of who ran stray in sum from exact ones behind the event, where the processor stands so
    /// then; in virtual nanoseconds, signed.
    pub(crate) fn drift(&self, after: &Glance) -> i64 {
        match kept(after, self.task.pid) {
            Some(task) => task.drift,
            None => {
                let strayed = self.to.saturating_sub(exact_end(&self.task, self.ran));
                self.task.drift.saturating_add(strayed)
            }
        }
    }
}

/// Who ran, where it still stands at the processor: it runs on, or is the previous task of a switch.
fn kept(after: &Glance, pid: u32) -> Option<SchedEntity> {
    match after.runner {
        Some(task) if task.pid == pid => Some(task),
        _ => match after.task {
            Some(task) if task.pid == pid => Some(task),
            _ => None,
        },
    }
}

/// Where the charge up to an event leads.
fn reached(sight: &Sight, task: &SchedEntity, ran: u64) -> i64 {
    match kept(&sight.after, task.pid) {
        Some(after) => after.v,
        None => end(sight, task, ran),
    }
}

/// The same of a task that ends with the event.
fn end(sight: &Sight, task: &SchedEntity, ran: u64) -> i64 {
    let charge = sight.step.charge;
    match charge {
        Some(told) => told.v,
        None => exact_end(task, ran),
    }
}

/// Where an exact charge leads.
fn exact_end(task: &SchedEntity, ran: u64) -> i64 {
    let own = task.v;
    let before = *task;
    match charged(before, ran) {
        Ok(after) => after.v,
        Err(_) => own,
    }
}
