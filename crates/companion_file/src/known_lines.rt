ghost use Rattle.std.specs.Prelude.{◌≡◌, ◌↔◌, ℕ, IsTrue, MatchOption};
ghost use Rattle.companion_file.specs.Spelling.{IsFirstLine, IsControlGroup};

use text_parts::pieces::after_front;

/// The version of the format that a first line names, if it names one that is known.
pub(crate) fn version_of(line: &[u8]) -> Option<u32>
    ensures { MatchOption result ((version : ℕ) → ¬ IsFirstLine line.now version)
        (λ version. IsFirstLine line.now version) }
{
    if is_text(line, b"cfs-companion 1") {
        Some(1)
    } else if is_text(line, b"cfs-companion 2") {
        Some(2)
    } else if is_text(line, b"cfs-companion 3") {
        Some(3)
    } else {
        None
    }
}

fn is_text(line: &[u8], text: &[u8]) -> bool
    ensures { IsTrue result ↔ (line.now ≡ text.now) }
{
    line == text
}

/// A line about a control group.
#[inline(always)]
pub(crate) fn is_group(line: &[u8]) -> bool
    ensures { IsTrue result ↔ IsControlGroup line.now }
{
    match after_front(line, b"cgroup") {
        None => false,
        Some([]) => true,
        Some([next, ..]) => *next == b' ',
    }
}
