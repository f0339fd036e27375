ghost use Rattle.std.specs.Prelude.{◌≡◌, ◌-◌, ◌^◌};
ghost use Rattle.replay_model.specs.Summary.{is_birth, is_death, is_migration, is_switch};
ghost use Rattle.ticket_book.specs.EventCounts.{AreCountsBelow, Fit, plus_counts, with_event};
ghost use Rattle.ticket_book.specs.Walk.{IsPlain};

use cfs_model::{Act, Entry};

/// How many events do what.
#[derive(Clone, Copy)]
pub(crate) struct EventCounts {
    pub switches: u64,
    pub migrations: u64,
    pub births: u64,
    pub deaths: u64,
}

impl EventCounts {
    /// Of no events.
    pub const NONE: EventCounts = EventCounts {
        switches: 0,
        migrations: 0,
        births: 0,
        deaths: 0,
    };

    /// With one event more.
    pub fn with(self, event: &Entry) -> EventCounts
        requires { AreCountsBelow (2 ^ 64 - 1) self }
        ensures { result ≡ with_event event.now self }
    {
        EventCounts {
            switches: self.switches + u64::from(is_switch(event.act)),
            migrations: self.migrations + u64::from(is_migration(event.act)),
            births: self.births + u64::from(is_birth(event.act)),
            deaths: self.deaths + u64::from(is_death(event.act)),
        }
    }

    /// The same of an event with which no task begins, ends or migrates.
    #[inline(always)]
    pub fn with_plain(self, event: &Entry) -> EventCounts
        requires plain { IsPlain event.now.act }
        requires fit { AreCountsBelow (2 ^ 64 - 1) self }
        ensures { result ≡ with_event event.now self }
    {
        EventCounts {
            switches: self.switches + u64::from(is_switch(event.act)),
            ..self
        }
    }

    /// With those of more events.
    pub fn plus(self, more: EventCounts) -> EventCounts
        requires { Fit self more }
        ensures { result ≡ plus_counts self more }
    {
        EventCounts {
            switches: self.switches + more.switches,
            migrations: self.migrations + more.migrations,
            births: self.births + more.births,
            deaths: self.deaths + more.deaths,
        }
    }
}

fn is_switch(act: Act) -> bool
    ensures { result ≡ is_switch act }
{
    matches!(act, Act::Switch { .. })
}

fn is_migration(act: Act) -> bool
    ensures { result ≡ is_migration act }
{
    matches!(act, Act::Shift { .. })
}

fn is_birth(act: Act) -> bool
    ensures { result ≡ is_birth act }
{
    act.begun().is_some()
}

/// A switch whose previous task ends.
fn is_death(act: Act) -> bool
    ensures { result ≡ is_death act }
{
    act.ended().is_some()
}
