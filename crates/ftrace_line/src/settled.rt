ghost use Rattle.std.specs.Prelude.{◌↔◌, IsTrue};
ghost use Rattle.std.specs.Bool.{OnTrue};
ghost use Rattle.ftrace_line.specs.Front.{IsSettled, IsShapeless, IsTold};

use crate::head::after_name;
use text_parts::lines::is_comment;
use text_parts::pieces::begins_with;

/// Whether the beginning of a line settles what the whole line says, by its shape: it is a comment's, or neither an
/// event's nor that of a notice of lost events.
pub fn is_settled(line: &[u8]) -> bool
    ensures settled { OnTrue result (IsSettled line.now) }
    ensures shaped { IsTrue result ↔ IsTold line.now }
{
    if is_comment(line) {
        !line.is_empty()
    } else {
        is_shapeless(line)
    }
}

/// Whether the first seventeen bytes of a line tell that it has no head and is no notice of lost events.
fn is_shapeless(line: &[u8]) -> bool
    ensures { IsTrue result ↔ IsShapeless line.now }
{
    match after_name(line) {
        Some(_) => false,
        None => line.len() > 16 && !begins_with(line, b"CPU:"),
    }
}
