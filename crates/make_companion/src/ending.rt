ghost use Rattle.std.specs.Prelude.{◌≡◌};
ghost use Rattle.make_companion.specs.Codes.{code_of_ending};

/// How the program ends.
#[derive(Clone, Copy, Debug, PartialEq, Eq)]
pub enum Ending {
    /// The companion was written, or help or the version was printed.
    Told,
    /// The trace gives no companion; the reason was printed.
    Refused,
    /// The trace couldn't be read.
    Unread,
    /// The file of `--debug` couldn't be read.
    DebugUnread,
    /// The companion couldn't be written.
    Unwritten,
    /// A growth was refused.
    Memory,
    /// The command line makes no sense; the reason was printed.
    Misused,
}

impl Ending {
    /// The exit status: those of `sched_audit`.
    pub fn code(self) -> u8
        ensures { result ≡ code_of_ending self }
    {
        match self {
            Ending::Told => 0,
            Ending::Refused => 2,
            Ending::Unread | Ending::DebugUnread | Ending::Unwritten => 3,
            Ending::Memory => 4,
            Ending::Misused => 5,
        }
    }

    /// What is still to be said of it on standard error.
    pub(crate) fn words(self) -> Option<&'static str> {
        match self {
            Ending::Told | Ending::Refused | Ending::Misused => None,
            Ending::Unread => Some("cannot read the trace"),
            Ending::DebugUnread => Some("cannot read the file of --debug"),
            Ending::Unwritten => Some("cannot write the companion"),
            Ending::Memory => Some("out of memory"),
        }
    }
}
