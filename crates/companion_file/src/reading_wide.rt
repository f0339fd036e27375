ghost use Rattle.std.specs.Prelude.{◌≡◌, ◌+◌, ◌<◌, ◌≤◌, ◌⊎◌, ℕ, false, OnOk, IsErrOf, IfOk, List, Result, length};
ghost use Rattle.std.specs.Prelude.{take, drop};
ghost use Rattle.std.specs.List.{list_any};
ghost use Rattle.text_parts.specs.Lines.{IsWhole, is_line_feed, lines_of};
ghost use Rattle.companion_file.specs.declared.fault.CompanionCause.{CompanionCause};
ghost use Rattle.companion_file.specs.Draft.{KeepsOrder};
ghost use Rattle.companion_file.specs.Piecewise.{AreReadApart, BeginsClaim, SaysOn, head_of};
ghost use Rattle.companion_file.specs.Companion.{CompanionView, CompanionAnswer, IsRefusedCompanion, IsRead};
ghost use Rattle.companion_file.specs.Seen.{IsAnswered, IsReturned, companion_view};

use crate::companion::Companion;
use crate::draft::Draft;
use crate::fault::{CompanionCause, CompanionFault, Refusal};
use crate::reading::read_companion;
use bstr::ByteSlice;
use rayon::prelude::*;
use std::alloc::Global;
use std::thread::Threads;
use text_parts::cutting::cut_at_lines;
use text_parts::lines::{lines_after_whole, whole_lines};

/// Reads the text of a companion, its claims, changes of nice values and charges by several threads: what it says, or
/// its first bad line.
pub fn read_companion_wide(
    rt: &(impl Threads + Sync),
    alloc: Global,
    text: &[u8],
) -> Result<Companion, CompanionFault>
    // What is answered is what the text means.
    ensures answered { IsAnswered text.now result }
    // A refusal is of the first bad line, or the text ends too soon.
    ensures refused { (line : ℕ) (cause : CompanionCause) → IsErrOf result (CompanionFault.Text line cause)
        → IsRefusedCompanion (lines_of text.now) line cause }
    // What is read is what all lines say.
    ensures read { IfOk result (λ c. IsRead (lines_of text.now) (companion_view c)) }
    // What the text means is answered, unless a growth was refused.
    ensures only { (answer : Result CompanionView (ℕ × CompanionCause)) → CompanionAnswer text.now answer
        → IsReturned result answer }
{
    companion_of(rt, alloc, text)
}

/// The companion of a text, or its first bad line.
fn companion_of(
    rt: &(impl Threads + Sync),
    alloc: Global,
    text: &[u8],
) -> Result<Companion, CompanionFault>
    ensures { IsAnswered text.now result }
{
    match good_companion_of(rt, alloc, text) {
        Ok(companion) => Ok(companion),
        Err(Refusal::Memory) => Err(CompanionFault::Memory),
        // Only who reads the lines in their order knows the first bad one.
        Err(Refusal::Bad(_)) => read_companion(alloc, text),
    }
}

/// The companion of a text without a bad line.
fn good_companion_of(
    rt: &(impl Threads + Sync),
    alloc: Global,
    text: &[u8],
) -> Result<Companion, Refusal>
    ensures { IfOk result (λ c. IsRead (lines_of text.now) (companion_view c)) }
{
    lines_after_whole();
    let (head, tail) = text.split_at(head_length(text));
    let mut draft = Draft::new(alloc);
    draft.take_all(head)?;
    let drafts = drafts_of(rt, alloc, &draft, tail)?;
    put_together(&mut draft, drafts)?;
    let spans = draft.spans()?;
    match draft.finish(spans) {
        Some(companion) => Ok(companion),
        None => Err(Refusal::Bad(CompanionCause::Short)),
    }
}

/// How many bytes the lines before the first `at` line take, the text's first line among them; all that end of a text
/// without one.
fn head_length(text: &[u8]) -> usize
    ensures within { result ≤ length text.now }
    ensures whole { IsWhole (take result text.now) }
    // Behind its first line it has no `at` line,
    ensures before { (place : ℕ) → place + 1 < result → ¬ BeginsClaim text.now place }
    // and behind it there is one, or no line that ends.
    ensures behind { ((place : ℕ) × (result ≡ place + 1) × BeginsClaim text.now place)
        ⊎ (list_any is_line_feed (drop result text.now) ≡ false) }
{
    match text.find(b"\nat ") {
        Some(feed) => feed + 1,
        None => whole_lines(text),
    }
}

/// What the pieces of a text say, each by itself behind the head.
fn drafts_of(
    rt: &(impl Threads + Sync),
    alloc: Global,
    head: &Draft,
    text: &[u8],
) -> Result<Vec<Draft>, Refusal>
    requires { KeepsOrder head.now }
    ensures { IfOk result (λ drafts. AreReadApart (head_of head.now) (lines_of text.now) drafts.items) }
{
    let pieces = cut_at_lines(alloc, text)?;
    pieces
        .par_iter()
        .with_min_len(1)
        .map(
            |piece: &&[u8]| -> Result<Draft, Refusal>
                requires { KeepsOrder head.now }
                ensures { IfOk result (λ later. SaysOn (head_of head.entry.now) (lines_of piece.now.now) later) }
            { head.read_behind_head(piece) },
        )
        .collect::<Result<Vec<Draft>, Refusal>>(rt, alloc)?
}

/// Puts what pieces say behind what was said, one after another.
fn put_together(draft: &mut Draft, drafts: Vec<Draft>) -> Result<(), Refusal>
    requires { KeepsOrder draft.old }
    ensures { OnOk result ((lines : List (List ℕ)) → AreReadApart (head_of draft.old) lines drafts.items
        → SaysOn draft.old lines draft.new) }
{
    for later in drafts {
        draft.put_behind(&later)?;
    }
    Ok(())
}
