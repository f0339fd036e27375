ghost use Rattle.std.specs.Prelude.{◌≡◌};
ghost use Rattle.cfs_model.specs.Kinds.{name_of, text_of};

use std::fmt;

/// What is wrong with an event, in the order in which the tests of an event are made.
#[derive(Clone, Copy, Debug, PartialEq, Eq)]
pub enum Kind {
    IdleTooLong,
    Range,
    WrongCharge,
    MoveHome,
    SelfSwitch,
    PrevNotRunning,
    Strange,
    Already,
    MoveRunning,
    WrongPrio,
    ClaimMissing,
    ClaimExtra,
    ClaimPid,
    WrongPutBack,
    WakeBounds,
    ForkBounds,
    NextNotWaiting,
    IdleBesideWaiting,
    NotLeast,
    TicketUnequal,
    BornTwice,
}

// The table of kinds: each with its name and its text.
macro_rules! words_of {
    ($kind:expr; $($name:ident: $text:literal,)+) => {
        match $kind {
            $(Kind::$name => (stringify!($name), $text),)+
        }
    };
}

impl Kind {
    /// The kind's name and text, as reports print them.
    pub fn words(self) -> (&'static str, &'static str)
        ensures name { result.0.now ≡ name_of self }
        ensures text { result.1.now ≡ text_of self }
    {
        words_of!(self;
            IdleTooLong: "idle beside a waiting task",
            Range: "virtual runtime out of range",
            WrongCharge: "charged beyond the drift",
            MoveHome: "migration to its own processor",
            SelfSwitch: "switch to the same task",
            PrevNotRunning: "previous task is not the running one",
            Strange: "task does not stand at this processor",
            Already: "task stands at this processor already",
            MoveRunning: "running task migrated",
            WrongPrio: "printed prio is not the task's own",
            ClaimMissing: "claim is missing",
            ClaimExtra: "claim on an event that needs none",
            ClaimPid: "claim names another task",
            WrongPutBack: "put back at another value",
            WakeBounds: "placed outside the wake bounds",
            ForkBounds: "placed outside the fork bounds",
            NextNotWaiting: "next task is not waiting here",
            IdleBesideWaiting: "switch to idle beside a waiting task",
            NotLeast: "next task is beyond the granularity",
            TicketUnequal: "migration values do not agree",
            BornTwice: "task born twice",
        )
    }
}

impl fmt::Display for Kind {
    fn fmt<W: fmt::Write>(&self, f: &mut fmt::Formatter<W>) -> fmt::Result {
        let (name, text) = self.words();
        write!(f, "{name}: {text}")
    }
}
