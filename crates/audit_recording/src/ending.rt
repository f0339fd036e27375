ghost use Rattle.std.specs.Prelude.{◌≡◌};
ghost use Rattle.audit_recording.specs.Codes.{code_of_ending};

/// How the program ends.
#[derive(Clone, Copy, Debug, PartialEq, Eq)]
pub enum Ending {
    /// Each stretch is a run within the limits; or help or the version was printed.
    Told,
    /// A stretch needs more than the limits.
    Over,
    /// The recording is refused, or no stretch of it was judged.
    Refused,
    /// The recording couldn't be read.
    Unread,
    /// The file of `--debug` couldn't be read.
    DebugUnread,
    /// The report couldn't be written.
    Unwritten,
    /// A stretch or its companion couldn't be written to the folder of `--out`.
    NotKept,
    /// A growth was refused.
    Memory,
    /// The command line makes no sense; the reason was printed.
    Misused,
}

impl Ending {
    /// The exit status: those of `sched_audit`.
    pub fn code(self) -> u8
        ensures { result ≡ code_of_ending self }
    {
        match self {
            Ending::Told => 0,
            Ending::Over => 1,
            Ending::Refused => 2,
            Ending::Unread | Ending::DebugUnread | Ending::Unwritten | Ending::NotKept => 3,
            Ending::Memory => 4,
            Ending::Misused => 5,
        }
    }

    /// What is still to be said of it on standard error.
    pub(crate) fn words(self) -> Option<&'static str> {
        match self {
            Ending::Told | Ending::Over | Ending::Refused | Ending::Misused => None,
            Ending::Unread => Some("cannot read the trace"),
            Ending::DebugUnread => Some("cannot read the file of --debug"),
            Ending::Unwritten => Some("cannot write the report"),
            Ending::NotKept => Some("cannot write to the folder of --out"),
            Ending::Memory => Some("out of memory"),
        }
    }
}
