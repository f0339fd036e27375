ghost use Rattle.std.specs.Prelude.{◌≡◌};
ghost use Rattle.audit_command.specs.Codes.{code_of_ending};

use crate::answer::Answer;
use crate::failure::Failure;
use crate::hints::say_hints;
use audit_input::Fault;
use audit_report::Status;
use audit_request::Request;
use std::rt::Files;

/// How the program ends.
#[derive(Clone, Copy)]
pub enum Ending {
    /// The report was written.
    Answered(Status),
    /// An input or the output failed, or memory ran out.
    Failed(Fault),
    /// The file of `--states` couldn't be made or written.
    StatesUnwritten,
    /// Help or the version was printed.
    Told,
    /// The command line makes no sense; the reason was printed.
    Misused,
}

impl Ending {
    /// Of a request that was answered so. Behind an answer it is said what is likely a mistake.
    pub fn of<R: Files + Eprint>(
        rt: &R,
        request: &Request<'_>,
        answered: Result<Answer, Failure>,
    ) -> Ending {
        match answered {
            Ok(answer) => {
                say_hints(rt, request, &answer);
                Ending::Answered(answer.status)
            }
            Err(Failure::Audit(fault)) => Ending::Failed(fault),
            Err(Failure::States) => Ending::StatesUnwritten,
        }
    }

    /// Says what failed, on standard error.
    pub fn say<R: Eprint>(self, rt: &R) {
        match self {
            Ending::Failed(fault) => {
                let _ = eprintln!(rt; "sched_audit: {fault}");
            }
            Ending::StatesUnwritten => {
                let _ = eprintln!(rt; "sched_audit: cannot write the file of --states");
            }
            Ending::Answered(_) | Ending::Told | Ending::Misused => {}
        }
    }

    /// The exit status.
    pub fn code(self) -> u8
        ensures { result ≡ code_of_ending self }
    {
        match self {
            Ending::Answered(status) => status.code(),
            Ending::Failed(fault) => fault.code(),
            Ending::StatesUnwritten => 3,
            Ending::Told => 0,
            Ending::Misused => 5,
        }
    }
}
