ghost use Rattle.std.specs.Prelude.{◌≡◌};
ghost use Rattle.audit_report.specs.Codes.{code_of_status};

/// How an audit that was written out ended.
#[derive(Clone, Copy, Debug, PartialEq, Eq)]
pub enum Status {
    /// The trace's events are a run of the scheduler.
    Yes,
    /// They are none.
    No,
    /// One of the texts was refused.
    Refused,
}

impl Status {
    /// The exit status of a program.
    pub fn code(self) -> u8
        ensures { result ≡ code_of_status self }
    {
        match self {
            Status::Yes => 0,
            Status::No => 1,
            Status::Refused => 2,
        }
    }
}
