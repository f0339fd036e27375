ghost use Rattle.std.specs.Prelude.{◌≡◌, ℕ, ◌+◌};
ghost use Rattle.waiting_times.specs.Rows.{IsRoomy, IsWithin, fresh, picked_row, stand_by, stand_left, told_of, waited};
ghost use Rattle.waiting_times.specs.Rows.{with_wait, woken_row};

use crate::{Moment, TaskWaits, Wait};
use cfs_model::{Place, Way};

/// What is known of a task up to an event: where it stands, and its waits that have ended.
#[derive(Clone, Copy, Debug)]
pub(crate) struct TaskRow {
    pub stand: Stand,
    /// The number of its waits that have ended.
    pub times: u64,
    /// All of those together, in nanoseconds.
    pub total: u128,
    /// The first of the longest of those.
    pub longest: Option<Wait>,
}

/// Where a task stands, on whichever processor.
#[derive(Clone, Copy, Debug)]
pub(crate) enum Stand {
    /// It rests, or isn't there.
    Away,
    Runs,
    /// It waits since this moment.
    Waits(Moment),
}

impl Stand {
    /// Where a task stands that the start names in this place.
    pub fn by(place: Place, start: Moment) -> Stand
        ensures { result ≡ stand_by start place }
    {
        match place {
            Place::Run => Stand::Runs,
            Place::Wait => Stand::Waits(start),
            Place::Rest => Stand::Away,
        }
    }

    /// Where a task stands that a switch takes off its processor.
    pub fn left(way: Way, at: Moment) -> Stand
        ensures { result ≡ stand_left at way }
    {
        match way {
            Way::Stays => Stand::Waits(at),
            Way::Sleeps | Way::Ends => Stand::Away,
        }
    }
}

impl TaskRow {
    /// Of a task that isn't there yet.
    pub fn fresh() -> TaskRow
        ensures { result ≡ fresh }
    {
        TaskRow {
            stand: Stand::Away,
            times: 0,
            total: 0,
            longest: None,
        }
    }

    /// The task is woken: unless it runs or waits, it waits from now on.
    pub fn woken(self, at: Moment) -> TaskRow
        ensures row { result ≡ woken_row at self }
        ensures within { (n : ℕ) → IsWithin n self → IsWithin n result }
    {
        match self.stand {
            Stand::Away => TaskRow {
                stand: Stand::Waits(at),
                ..self
            },
            Stand::Runs | Stand::Waits(_) => self,
        }
    }

    /// The task is picked: it runs from now on, and no longer waits.
    pub fn picked(self, at: Moment) -> TaskRow
        requires { IsRoomy self }
        ensures row { result ≡ picked_row at self }
        ensures within { (n : ℕ) → IsWithin n self → IsWithin (n + 1) result }
    {
        TaskRow {
            stand: Stand::Runs,
            ..self.waited(at)
        }
    }

    /// With the wait that ends now, if the task waits.
    pub fn waited(self, at: Moment) -> TaskRow
        requires { IsRoomy self }
        ensures row { result ≡ waited at self }
        ensures within { (n : ℕ) → IsWithin n self → IsWithin (n + 1) result }
    {
        match self.stand {
            Stand::Waits(since) => self.with(Wait {
                from: since,
                to: at,
            }),
            Stand::Away | Stand::Runs => self,
        }
    }

    /// With one wait more.
    fn with(self, wait: Wait) -> TaskRow
        requires { IsRoomy self }
        ensures row { result ≡ with_wait wait self }
        ensures within { (n : ℕ) → IsWithin n self → IsWithin (n + 1) result }
    {
        TaskRow {
            stand: self.stand,
            times: self.times + 1,
            total: self.total + u128::from(wait.duration()),
            longest: Some(wait.after(self.longest)),
        }
    }

    /// What is told of the task at the end.
    pub fn told(self, pid: u32, end: Moment) -> TaskWaits
        requires { IsRoomy self }
        ensures { result ≡ told_of end pid self }
    {
        let row = self.waited(end);
        TaskWaits {
            pid,
            times: row.times,
            total: row.total,
            longest: row.longest,
        }
    }
}
