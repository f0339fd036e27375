//! Which line a stretch has to end before.
ghost use Rattle.std.specs.Prelude.{◌<◌, ℕ, IfOk, List, Some, length};
ghost use Rattle.cfs_model.specs.Knobs.{KnobsView};
ghost use Rattle.recording_audit.specs.Causes.{IsKnown};
ghost use Rattle.recording_audit.specs.Parts.{IsJudgement};
ghost use Rattle.recording_audit.specs.Pieces.{IsKnownBreach};
ghost use Rattle.recording_audit.specs.Splits.{AreSplit};

use crate::asked::Asked;
use crate::cut_cause::CutCause;
use crate::judging::{Judged, judge_watched};
use crate::splitting::split_lines;
use crate::watch::Watch;
use cfs_model::Memory;
use std::alloc::Global;
use std::sync::Wait;
use std::thread::Threads;

/// How many fronts are tried at most: by then the next line is the one.
const MOST_FRONTS: usize = 128;

/// The line that a stretch has to end before, and why it can stand in none, where that is known.
#[derive(Clone, Copy, Debug)]
pub(crate) struct Breach {
    pub line: u64,
    pub cause: Option<CutCause>,
}

impl Breach {
    /// Where a text was found to be no run up to this line. A fault may come of lines below it, which show how tasks
    /// stood at the start: where the lines up to it are a run by themselves, the breach is further down, and so many
    /// lines are tried that it is found by halving.
    pub(crate) fn of<R: Threads + Wait + Sync, W: Watch>(
        rt: &R,
        alloc: Global,
        text: &[u8],
        line: u64,
        why: CutCause,
        asked: &Asked<'_>,
        watch: &mut W,
    ) -> Result<Breach, Memory>
        requires some { 0 < length text.now }
        requires known { IsKnown text.now line (Some why) }
        ensures { IfOk result (IsKnownBreach text.now) }
    {
        let mut breach = Breach {
            line,
            cause: Some(why),
        };
        if !matches!(why, CutCause::Fault(_)) {
            return Ok(breach);
        }
        let mut search = Search::begun(line);
        for _ in 0..MOST_FRONTS {
            if search.is_done() {
                break;
            }
            let (front, rest) = split_lines(text, search.tried);
            let judged = judge_watched(rt, alloc, front, asked, watch)?;
            breach = search.learn(breach, &judged, rest.is_empty());
        }
        Ok(search.end(breach))
    }
}

/// A search for the most lines with which a text begins that are a run.
#[derive(Clone, Copy)]
struct Search {
    /// So many lines are one, and 0 where none were tried that are.
    most: u64,
    /// So many aren't.
    fewest: Option<u64>,
    /// So many are tried next.
    tried: u64,
}

impl Search {
    fn begun(tried: u64) -> Search {
        Search {
            most: 0,
            fewest: None,
            tried,
        }
    }

    /// The lines that were tried came to this; whether they are all lines. The breach that is known by now.
    fn learn(&mut self, last: Breach, judged: &Judged, all: bool) -> Breach
        ensures { (limits : KnobsView) (text front rest : List ℕ) → AreSplit text front rest
            → IsJudgement limits front judged.now → IsKnownBreach text last → IsKnownBreach text result }
    {
        match judged {
            Judged::Bad { line, why } => {
                self.fewest = Some(self.tried);
                self.go_on();
                Breach {
                    line: *line,
                    cause: Some(*why),
                }
            }
            Judged::Run(_) | Judged::Quiet => {
                self.most = self.tried;
                if all {
                    self.fewest = Some(self.most.saturating_add(1));
                }
                self.go_on();
                last
            }
        }
    }

    /// Twice as many lines are tried next, or half-way between those that are a run and those that aren't.
    fn go_on(&mut self) {
        self.tried = match self.fewest {
            None => self.most.saturating_mul(2),
            // The lines that were tried first aren't one.
            Some(_) if self.most == 0 => 0,
            Some(fewest) => self
                .most
                .saturating_add(fewest.saturating_sub(self.most) / 2),
        };
    }

    /// Whether one line more is none, or no line is one.
    fn is_done(&self) -> bool {
        self.tried == self.most
    }

    /// The line behind the lines that are a run. The breach that was found last may lie there; else it isn't known why
    /// a stretch has to end before it.
    fn end(&self, last: Breach) -> Breach
        ensures { (text : List ℕ) → IsKnownBreach text last → IsKnownBreach text result }
    {
        let line = self.most.saturating_add(1);
        if self.most == 0 || last.line == line {
            last
        } else {
            Breach { line, cause: None }
        }
    }
}
