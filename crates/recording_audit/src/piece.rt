//! The next part of a recording.
ghost use Rattle.std.specs.Prelude.{◌≡◌, ◌+◌, ◌<◌, ◌++◌, ◌⊎◌, ℕ, [], IfErr, IfOk, List, Some, length};
ghost use Rattle.cfs_model.specs.Knobs.{KnobsView};
ghost use Rattle.text_parts.specs.Lines.{lines_of};
ghost use Rattle.recording_audit.specs.Causes.{IsKnown};
ghost use Rattle.recording_audit.specs.Pieces.{IsCausedPiece, IsNoPiece, IsPieceOf, IsUnmeasuredPiece};

use crate::asked::Asked;
use crate::breach::Breach;
use crate::cut_cause::CutCause;
use crate::cut_task::task_of;
use crate::judging::{Judged, judge_watched};
use crate::not_audited::NotAudited;
use crate::part::{Cut, Told};
use crate::real_time::lines_of_real_time;
use crate::scanning::{comment_lines, event_count, last_start};
use crate::showing::{cause_behind, cause_of_first, shown_cause};
use crate::splitting::{split_lines, split_near};
use crate::watch::Watch;
use cfs_model::Memory;
use std::alloc::Global;
use std::sync::Wait;
use std::thread::Threads;

/// How many bytes are tried next, as a multiple of those that were a run.
const GROWTH: usize = 8;

/// How often more is tried at most: by then it is all.
const MOST_TRIES: usize = 24;

/// How often a stretch is made shorter at most, before a fault.
const MOST_CUTS: usize = 16;

/// The front of a text, what is told of it, and what follows.
#[derive(Drop)]
pub(crate) struct Piece<'a> {
    pub text: &'a [u8],
    pub rest: &'a [u8],
    pub told: Told,
    /// Why the first line of what follows stands in no stretch, where that is known.
    pub next: Option<CutCause>,
}

/// The next part of a text of which so many bytes are tried first; why its first line stands in no stretch, where that
/// is known. Each try is told.
pub(crate) fn next_piece<'a, R: Threads + Wait + Sync, W: Watch>(
    rt: &R,
    alloc: Global,
    text: &'a [u8],
    reach: usize,
    known: Option<CutCause>,
    asked: &Asked<'_>,
    watch: &mut W,
) -> Result<Piece<'a>, NotAudited>
    requires { 0 < length text.now }
    ensures piece { IfOk result (IsPieceOf asked.now.limits text.now) }
    ensures caused { (before : List ℕ) → IsKnown (before ++ text.now) (length (lines_of before) + 1) known
        → IfOk result (IsCausedPiece asked.now.limits before) }
    ensures unmeasured { IfOk result IsUnmeasuredPiece }
    ensures refused { (before : List ℕ) → IsKnown (before ++ text.now) (length (lines_of before) + 1) known
        → IfErr result (IsNoPiece before text.now) }
{
    if let Some(cause) = known {
        return cut_piece(alloc, text, cause);
    }
    match comment_lines(text) {
        0 => longest_piece(rt, alloc, text, reach, asked, watch),
        // They stand in no stretch, but before one.
        comments => piece_before(
            rt,
            alloc,
            text,
            comments.saturating_add(1),
            None,
            asked,
            watch,
        ),
    }
}

/// The longest front of a text that is a run, or the lines that can stand in none.
fn longest_piece<'a, R: Threads + Wait + Sync, W: Watch>(
    rt: &R,
    alloc: Global,
    text: &'a [u8],
    reach: usize,
    asked: &Asked<'_>,
    watch: &mut W,
) -> Result<Piece<'a>, NotAudited>
    requires { 0 < length text.now }
    ensures piece { IfOk result (IsPieceOf asked.now.limits text.now) }
    ensures caused { (before : List ℕ) → IfOk result (IsCausedPiece asked.now.limits before) }
    ensures unmeasured { IfOk result IsUnmeasuredPiece }
    ensures refused { (before : List ℕ) → IfErr result (IsNoPiece before text.now) }
{
    let mut size = reach;
    for _ in 0..MOST_TRIES {
        let (front, rest) = split_near(text, size);
        match judge_watched(rt, alloc, front, asked, watch)? {
            Judged::Bad { line, why } => {
                let Breach { line, cause } = Breach::of(rt, alloc, text, line, why, asked, watch)?;
                return piece_before(rt, alloc, text, line, cause, asked, watch);
            }
            Judged::Run(stretch) if rest.is_empty() => {
                return Ok(Piece {
                    text: front,
                    rest,
                    told: Told::Stretch(stretch),
                    next: None,
                });
            }
            Judged::Quiet if rest.is_empty() => {
                return Ok(Piece {
                    text: front,
                    rest,
                    told: Told::Quiet,
                    next: None,
                });
            }
            Judged::Run(_) | Judged::Quiet => size = size.saturating_mul(GROWTH),
        }
    }
    cut_piece(alloc, text, CutCause::Unsettled)
}

/// The longest front of a text that ends before this line, and is a run; why the line can stand in no stretch, where it
/// can't.
fn piece_before<'a, R: Threads + Wait + Sync, W: Watch>(
    rt: &R,
    alloc: Global,
    text: &'a [u8],
    line: u64,
    why: Option<CutCause>,
    asked: &Asked<'_>,
    watch: &mut W,
) -> Result<Piece<'a>, NotAudited>
    requires some { 0 < length text.now }
    requires known { IsKnown text.now line why }
    ensures piece { IfOk result (IsPieceOf asked.now.limits text.now) }
    ensures caused { (before : List ℕ) → IfOk result (IsCausedPiece asked.now.limits before) }
    ensures unmeasured { IfOk result IsUnmeasuredPiece }
    ensures refused { (before : List ℕ) → IfErr result (IsNoPiece before text.now) }
{
    let mut last = line;
    let mut cause = why;
    for _ in 0..MOST_CUTS {
        if last <= 1 {
            return cut_piece(alloc, text, cause_of_first(cause, last));
        }
        let (front, rest) = split_lines(text, last - 1);
        match judge_watched(rt, alloc, front, asked, watch)? {
            Judged::Run(stretch) => {
                return Ok(Piece {
                    text: front,
                    rest,
                    told: Told::Stretch(stretch),
                    next: cause_behind(front, cause, last),
                });
            }
            Judged::Quiet => {
                return Ok(Piece {
                    text: front,
                    rest,
                    told: Told::Quiet,
                    next: cause_behind(front, cause, last),
                });
            }
            Judged::Bad { line, why } => {
                last = line;
                cause = Some(why);
            }
        }
    }
    cut_piece(alloc, text, CutCause::Unsettled)
}

/// The lines at the front of a text that stand in no stretch, for this cause.
fn cut_piece<'a>(alloc: Global, text: &'a [u8], cause: CutCause) -> Result<Piece<'a>, NotAudited>
    requires { 0 < length text.now }
    ensures piece { (limits : KnobsView) → IfOk result (IsPieceOf limits text.now) }
    ensures caused { (limits : KnobsView) (before begin : List ℕ) → (begin ≡ before) ⊎ (begin ≡ [])
        → IsKnown (begin ++ text.now) (length (lines_of begin) + 1) (Some cause)
        → IfOk result (IsCausedPiece limits before) }
    ensures unmeasured { IfOk result IsUnmeasuredPiece }
    ensures refused { (before begin : List ℕ) → (begin ≡ before) ⊎ (begin ≡ [])
        → IsKnown (begin ++ text.now) (length (lines_of begin) + 1) (Some cause)
        → IfErr result (IsNoPiece before text.now) }
{
    if !cause.is_passed() {
        return Err(NotAudited::Refused { line: 1, cause });
    }
    let (front, rest) = split_lines(text, cut_lines(alloc, text, cause)?);
    let shown = shown_cause(front, cause);
    let task = task_of(alloc, front, shown)?;
    Ok(Piece {
        text: front,
        rest,
        told: Told::Cut(Cut {
            cause: shown,
            events: event_count(front),
            task,
        }),
        next: None,
    })
}

/// How many lines a cut has.
fn cut_lines(alloc: Global, text: &[u8], cause: CutCause) -> Result<u64, Memory> {
    if cause.is_real_time() {
        lines_of_real_time(alloc, text)
    } else if cause == CutCause::BufferStarted {
        Ok(last_start(text))
    } else {
        Ok(1)
    }
}
