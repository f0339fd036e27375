ghost use Rattle.std.specs.Prelude.{ℕ, MatchOption};
ghost use Rattle.text_parts.specs.Lines.{lines_of};
ghost use Rattle.companion_file.specs.Companion.{AreOfVersion};

use crate::known_lines::version_of;
use text_parts::lines::{is_comment, next_line};

/// The version of the format that a companion's text names: the first of its lines that is no comment, if that is the
/// first line of a version that is known.
pub fn version_of_text(text: &[u8]) -> Option<u32>
    ensures { MatchOption result ((version : ℕ) → ¬ AreOfVersion (lines_of text.now) version)
        (λ version. AreOfVersion (lines_of text.now) version) }
{
    let mut rest = text;
    while !rest.is_empty() {
        let (line, after) = next_line(rest);
        if !is_comment(line) {
            return version_of(line);
        }
        rest = after;
    }
    None
}
