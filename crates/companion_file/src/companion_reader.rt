ghost use Rattle.companion_file.specs.Draft.{KeepsOrder};

use crate::bad_line::BadLine;
use crate::companion::Companion;
use crate::draft::Draft;
use crate::fault::{CompanionCause, CompanionFault, Refusal};
use cfs_model::{ChargeLine, Claim, Memory, NiceLine};
use std::alloc::Global;

/// A companion that is read some lines at a time: what it has said so far, but for claims, changes of nice values and
/// charges that were let go, or its first bad line.
#[derive(Drop)]
pub struct CompanionReader {
    draft: Draft,
    /// How many lines were read, up to the first bad one.
    count: u64,
    bad: Option<BadLine>,
    ghost ordered: { KeepsOrder draft },
}

impl CompanionReader {
    ghost use Rattle.std.specs.Prelude.{◌≡◌, ℕ, ◌≤◌, ◌∷◌, ◌||◌, [], List, is_some, IsNone, IsSome, IfOk, OnOk, OnErr};
    ghost use Rattle.std.specs.Prelude.{MatchOption, Some, ◌↔◌, ◌<◌, length};
    ghost use Rattle.std.specs.List.{before_first};
    ghost use Rattle.text_parts.specs.Lines.{is_line_feed, lines_of};
    ghost use Rattle.companion_file.specs.Companion.{AreOfVersion};
    ghost use Rattle.companion_file.specs.Earlier.{Said, summed};
    ghost use Rattle.companion_file.specs.Reader.{AreCountable, HasReadCompanion, ReadsOn, ReadsFront, OnlyFirstPassed};
    ghost use Rattle.companion_file.specs.Reader.{has_begun, reaches_past, TellsStart, IsClosed};

    /// A reader of no line yet; it takes no memory.
    pub fn new(alloc: Global) -> CompanionReader
        ensures { HasReadCompanion result [] (summed []) 0 }
    {
        CompanionReader {
            draft: Draft::new(alloc),
            count: 0,
            bad: None,
        }
    }

    /// Reads the lines of a text, behind those read before. Where a growth is refused, the lines before the one that
    /// met it are read.
    pub fn read(&mut self, text: &[u8]) -> Result<(), Memory>
        ensures read { OnOk result (ReadsOn self.old (lines_of text.now) self.new) }
        ensures memory { OnErr result (ReadsFront self.old (lines_of text.now) self.new) }
    {
        let mut rest = text;
        while !rest.is_empty() {
            if self.is_bad() {
                return Ok(());
            }
            let (taken, after) = self.take_next(rest);
            taken?;
            rest = after;
        }
        Ok(())
    }

    /// Reads the first line of a text, behind lines of which none is bad, and answers with what follows that line, too.
    #[inline(always)]
    fn take_next<'a>(&mut self, text: &'a [u8]) -> (Result<(), Memory>, &'a [u8])
        requires good { IsNone self.old.bad }
        requires some { 0 < length text.now }
        ensures read { OnOk result.0 (ReadsOn self.old (before_first is_line_feed text.now ∷ []) self.new) }
        ensures memory { OnErr result.0 (ReadsOn self.old [] self.new) }
        ensures lines { lines_of text.now ≡ before_first is_line_feed text.now ∷ lines_of result.1.now }
        ensures shorter { length result.1.now < length text.now }
    {
        let number = self.count.saturating_add(1);
        let (taken, rest) = self.draft.take_next(text);
        match taken {
            Ok(()) => {
                self.count = number;
                (Ok(()), rest)
            }
            Err(Refusal::Bad(cause)) => {
                self.bad = Some(BadLine {
                    line: number,
                    cause,
                });
                (Ok(()), rest)
            }
            Err(Refusal::Memory) => (Err(Memory), rest),
        }
    }

    /// Lets go what was said of lines of the trace up to this one, but the last claim, change and charge.
    pub fn forget_through(&mut self, line: u32)
        // What is held is of the same lines,
        ensures stays { (lines : List (List ℕ)) (said : Said) (edge : ℕ) → HasReadCompanion self.old lines said edge
            → edge ≤ line → HasReadCompanion self.new lines said line }
        // and one of each at most is held of lines up to this one.
        ensures claims { OnlyFirstPassed (λ claim. claim.line) line self.new.draft.claims }
        ensures nices { OnlyFirstPassed (λ change. change.line) line self.new.draft.nices }
        ensures charges { OnlyFirstPassed (λ charge. charge.line) line self.new.draft.charges }
    {
        self.draft.forget_through(line);
    }

    /// Whether a line is bad: nothing behind it is read.
    pub fn is_bad(&self) -> bool
        ensures { result ≡ is_some self.now.bad }
    {
        self.bad.is_some()
    }

    /// The version that the first line other than a comment names.
    pub fn version(&self) -> Option<u32>
        ensures { (lines : List (List ℕ)) (said : Said) (edge : ℕ) → HasReadCompanion self.now lines said edge
            → (version : ℕ) → (result ≡ Some version) ↔ AreOfVersion lines version }
    {
        self.draft.version()
    }

    /// Whether nothing more can be said of the start: a claim, a change of a nice value or a charge was said, or a line
    /// is bad.
    pub fn is_begun(&self) -> bool
        ensures { (lines : List (List ℕ)) (said : Said) (edge : ℕ) → HasReadCompanion self.now lines said edge
            → result ≡ (is_some self.now.bad || has_begun said) }
    {
        self.is_bad() || self.draft.is_begun()
    }

    /// Whether nothing more can be said of lines of the trace up to this one: the last claim, change of a nice value or
    /// charge stands above it, or a line is bad.
    pub fn reaches_past(&self, line: u32) -> bool
        ensures { (lines : List (List ℕ)) (said : Said) (edge : ℕ) → HasReadCompanion self.now lines said edge
            → result ≡ (is_some self.now.bad || reaches_past said line) }
    {
        self.is_bad() || self.draft.reaches_past(line)
    }

    /// What was said of the start, with neither claims nor changes of nice values nor charges; none where a floor is
    /// missing or a line is bad.
    pub fn start(&self) -> Result<Option<Companion>, Memory>
        ensures { (lines : List (List ℕ)) (said : Said) (edge : ℕ) → HasReadCompanion self.now lines said edge
            → IfOk result (λ start. MatchOption self.now.bad (TellsStart said start) (λ bad. IsNone start)) }
    {
        if self.is_bad() {
            return Ok(None);
        }
        let start = self.draft.start_alone()?;
        let spans = start.spans()?;
        Ok(start.finish(spans))
    }

    /// The claims that are held, by rising line of the trace.
    pub fn claims(&self) -> &[Claim]
        ensures { result.now ≡ self.now.draft.claims }
    {
        self.draft.claims()
    }

    /// The changes of nice values that are held, by rising line of the trace.
    pub fn nices(&self) -> &[NiceLine]
        ensures { result.now ≡ self.now.draft.nices }
    {
        self.draft.nices()
    }

    /// The charges that are held, by rising line of the trace.
    pub fn charges(&self) -> &[ChargeLine]
        ensures { result.now ≡ self.now.draft.charges }
    {
        self.draft.charges()
    }

    /// What the lines come to, where no more follow: with the start they say a companion, or they are refused.
    pub fn finish(&self) -> Result<(), CompanionFault>
        ensures { (lines : List (List ℕ)) (said : Said) (edge : ℕ) → HasReadCompanion self.now lines said edge
            → AreCountable lines → IsClosed lines said result }
    {
        match self.bad {
            Some(bad) => Err(bad.fault()),
            None if self.draft.has_all_floors() => Ok(()),
            None => Err(CompanionFault::Text {
                line: self.count.saturating_add(1),
                cause: CompanionCause::Short,
            }),
        }
    }
}
