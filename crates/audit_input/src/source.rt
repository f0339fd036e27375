ghost use Rattle.std.specs.Prelude.{◌≡◌};
ghost use Rattle.audit_input.specs.Words.{source_word};

/// Which text a refusal speaks of.
#[derive(Clone, Copy, Debug, PartialEq, Eq)]
pub enum Source {
    Trace,
    Companion,
    /// Each text is good alone, and the two don't fit each other. Lines are those of the trace.
    Join,
}

impl Source {
    /// As a report prints it.
    pub fn word(self) -> &'static str
        ensures { result.now ≡ source_word self }
    {
        match self {
            Source::Trace => "trace",
            Source::Companion => "companion",
            Source::Join => "join",
        }
    }
}
