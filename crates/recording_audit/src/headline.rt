//! The theorem: a recording's parts.
ghost use Rattle.std.specs.Prelude.{ℕ, IfErr, IfOk, List};
ghost use Rattle.cfs_model.specs.Knobs.{KnobsView};
ghost use Rattle.recording_audit.specs.Causes.{IsCaused, IsKnown};
ghost use Rattle.recording_audit.specs.Parts.{IsLongEnough, IsTold, IsUnmeasured};
ghost use Rattle.recording_audit.specs.Recording.{ArePartsOf, IsNotAudited};

use crate::asked::Asked;
use crate::cut_cause::CutCause;
use crate::not_audited::NotAudited;
use crate::part::{Cut, Part, Told};
use crate::piece::{Piece, next_piece};
use crate::scanning::last_start;
use crate::splitting::line_count;
use crate::watch::Watch;
use std::alloc::Global;
use std::sync::Wait;
use std::thread::Threads;

/// How many bytes are tried first.
const REACH: usize = 1 << 24;

/// How many are tried first behind a fault, and behind a stretch that no cut ends, since the next may be near.
const NEAR_REACH: usize = 1 << 14;

/// Cuts a recording into parts, and judges each stretch by a companion that is made for it.
#[tactic(auto, using(crate::proofs::Grown::grown))]
pub fn audit_recording<'a, R: Threads + Wait + Sync, W: Watch>(
    rt: &R,
    alloc: Global,
    text: &'a [u8],
    asked: &Asked<'_>,
    watch: &mut W,
) -> Result<Vec<Part<'a>>, NotAudited>
    ensures parts { IfOk result (λ parts. ArePartsOf asked.now.limits asked.now.least_events text.now parts.items) }
    ensures refused { IfErr result (IsNotAudited text.now) }
{
    let mut parts = Vec::new(alloc);
    let mut rest = text;
    let mut number = 1u64;
    let mut known = first_cause(text);
    let mut reach = REACH;
    let mut begins = true;
    while !rest.is_empty() {
        let now = asked.at(begins);
        let piece = match next_piece(rt, alloc, rest, reach, known, &now, watch) {
            Ok(piece) => piece,
            Err(why) => return Err(why.at(number)),
        };
        let Piece {
            text: front,
            rest: behind,
            told,
            next,
        } = piece;
        let lines = line_count(front);
        // By what was found, before a stretch is called too short.
        reach = reach_behind(&told, next);
        let told = long_enough(told, asked.least_events);
        begins = begins && matches!(told, Told::Quiet);
        watch.pass(front.len() as u64);
        let part = Part {
            first: number,
            last: number + lines - 1,
            text: front,
            told,
        };
        if parts.push(part).is_err() {
            return Err(NotAudited::Memory);
        }
        known = next;
        number += lines;
        rest = behind;
    }
    Ok(parts)
}

/// Why the beginning of a text stands in no stretch, where it does in none.
fn first_cause(text: &[u8]) -> Option<CutCause>
    ensures { (all : List ℕ) (line : ℕ) → IsKnown all line result }
{
    match last_start(text) {
        0 => None,
        _ => Some(CutCause::BufferStarted),
    }
}

/// How many bytes are tried behind a part, where this cuts the next one, if anything is known to.
fn reach_behind(told: &Told, next: Option<CutCause>) -> usize {
    match told {
        Told::Cut(
            Cut {
                cause: CutCause::Fault(_),
                ..
            },
        ) => NEAR_REACH,
        Told::Stretch(_) if next.is_none() => NEAR_REACH,
        _ => REACH,
    }
}

/// What is told of a part, where a stretch has to have so many events.
fn long_enough(told: Told, least: u64) -> Told
    requires { IsUnmeasured told }
    ensures long { IsLongEnough least result }
    ensures told { (limits : KnobsView) (text : List ℕ) → IsTold limits text told → IsTold limits text result }
    ensures caused { (limits : KnobsView) (before text : List ℕ) → IsTold limits text told
        → IsCaused limits before text told → IsCaused limits before text result }
{
    match told {
        Told::Stretch(stretch) if stretch.events < least => Told::Cut(Cut {
            cause: CutCause::Short,
            events: stretch.events,
            task: None,
        }),
        told => told,
    }
}
