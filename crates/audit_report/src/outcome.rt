ghost use Rattle.std.specs.Prelude.{◌≡◌};

use crate::{Judgement, Status};
use audit_input::{Cause, Source};
use ticket_book::Verdict;

/// What a report tells: a verdict or the least settings, or which text is refused and why.
#[derive(Debug, PartialEq, Eq, Drop)]
pub enum Outcome<J = Verdict> {
    Judged(J),
    Text {
        source: Source,
        /// The line in that text, from 1, comments counted.
        line: u64,
        cause: Cause,
    },
}

impl<J: Judgement> Outcome<J> {
    ghost use Rattle.audit_report.specs.Codes.{status_of};

    /// How a run that wrote its report ends.
    pub fn status(&self) -> Status
        ensures { result ≡ status_of J.fault self.now }
    {
        match self {
            Outcome::Judged(judged) => match judged.fault() {
                Some(_) => Status::No,
                None => Status::Yes,
            },
            Outcome::Text { .. } => Status::Refused,
        }
    }
}
