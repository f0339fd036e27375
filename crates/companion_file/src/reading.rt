ghost use Rattle.std.specs.Prelude.{◌≡◌, ℕ, ◌+◌, ◌<◌, ◌^◌, List, Result, IsErrOf, IfOk};
ghost use Rattle.text_parts.specs.Lines.{lines_of};
ghost use Rattle.companion_file.specs.declared.fault.CompanionCause.{CompanionCause};
ghost use Rattle.companion_file.specs.Companion.{CompanionView, CompanionAnswer, IsRefusedCompanion, IsRead};
ghost use Rattle.companion_file.specs.Seen.{IsAnswered, IsReturned, companion_view};

use crate::companion::Companion;
use crate::draft::Draft;
use crate::fault::{CompanionCause, CompanionFault};
use std::alloc::Global;

/// Reads the text of a companion: what it says, or its first bad line.
pub fn read_companion(alloc: Global, text: &[u8]) -> Result<Companion, CompanionFault>
    // What is answered is what the text means.
    ensures answered { IsAnswered text.now result }
    // A refusal is of the first bad line, or the text ends too soon.
    ensures refused { (line : ℕ) (cause : CompanionCause) → IsErrOf result (CompanionFault.Text line cause)
        → IsRefusedCompanion (lines_of text.now) line cause }
    // What is read is what all lines say.
    ensures read { IfOk result (λ c. IsRead (lines_of text.now) (companion_view c)) }
    // What the text means is answered, unless a growth was refused.
    ensures only { (answer : Result CompanionView (ℕ × CompanionCause)) → CompanionAnswer text.now answer
        → IsReturned result answer }
{
    companion_of(alloc, text)
}

/// The companion that the lines make, one line after another.
fn companion_of(alloc: Global, text: &[u8]) -> Result<Companion, CompanionFault>
    ensures { IsAnswered text.now result }
{
    let mut draft = Draft::new(alloc);
    let mut rest = text;
    let mut number = 0;
    while !rest.is_empty() {
        let (taken, after) = draft.take_next(rest);
        number += 1;
        rest = after;
        if let Err(refusal) = taken {
            return Err(refusal.at(number));
        }
    }
    let spans = draft.spans()?;
    match draft.finish(spans) {
        Some(companion) => Ok(companion),
        None => Err(short_after(number)),
    }
}

/// The fault of a text that ends too soon, after so many lines.
fn short_after(lines: u64) -> CompanionFault
    requires { lines + 1 < 2 ^ 64 }
    ensures { result ≡ CompanionFault.Text (lines + 1) CompanionCause.Short }
{
    CompanionFault::Text {
        line: lines + 1,
        cause: CompanionCause::Short,
    }
}
