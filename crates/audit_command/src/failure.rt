use audit_input::Fault;

/// Why not all that was asked for was written.
#[derive(Clone, Copy, Debug, PartialEq, Eq)]
pub enum Failure {
    /// An input or the report failed, or memory ran out.
    Audit(Fault),
    /// The file of `--states` couldn't be made or written.
    States,
}

impl From<Fault> for Failure {
    ghost use Rattle.std.specs.Prelude.{◌≡◌};
    ghost use Rattle.audit_command.specs.declared.failure.Failure.TheVariants.{Audit};

    ghost from_gives = { λ fault failure. failure ≡ Audit fault };

    fn from(fault: Fault) -> Failure {
        Failure::Audit(fault)
    }
}
