ghost use Rattle.std.specs.Prelude.{◌≤◌, length};
ghost use Rattle.std.proofs.Props.{props};
ghost use Rattle.cfs_model.specs.Limits.{greatest_line};
ghost use Rattle.sched_record.specs.Indices.{AreIndicesOf};
ghost use Rattle.sched_record.specs.ReadLines.{AreKept};

use crate::cause::{TraceCause, TraceFault};
use crate::entry::next_entry;
use crate::indices::Indices;
use crate::lists::Events;
use crate::trace::Trace;
use cfs_model::{Entry, GREATEST_LINE, Memory};
use ftrace_line::RecentClocks;
use std::alloc::Global;

/// A bad line: its number, from 1, comments counted, and why it is bad.
#[derive(Clone, Copy, Debug, PartialEq, Eq)]
pub(crate) struct BadLine {
    pub(crate) line: u64,
    pub(crate) cause: TraceCause,
}

/// A trace that is read some lines at a time: its events so far, or its first bad line.
#[derive(Debug, Drop)]
pub struct TraceReader {
    entries: Vec<Entry>,
    indices: Indices,
    /// How many lines were read, up to the first bad one.
    count: u64,
    /// The time of the last event in nanoseconds, and 0 before the first.
    last: u64,
    bad: Option<BadLine>,
    clocks: RecentClocks,
    ghost few: { count ≤ greatest_line },
    ghost kept: { AreKept entries.items count last },
    ghost counted: { length entries.items ≤ count },
    ghost indexed: { AreIndicesOf entries.items indices } by { Prim.hlevel props },
}

impl TraceReader {
    ghost use Rattle.std.specs.Prelude.{◌↔◌, ℕ, ◌+◌, ◌∷◌, ◌++◌, [], List, IfOk, IsNone, IsTrue, OnOk, OnErr, IsErrOf};
    ghost use Rattle.text_parts.specs.Lines.{lines_of};
    ghost use Rattle.ftrace_line.specs.Front.{IsSettled};
    ghost use Rattle.sched_record.specs.declared.trace_reader.TraceReader.{TraceReader as Reader};
    ghost use Rattle.sched_record.specs.Reader.{HasRead, HasReadFront, TakesOn};
    ghost use Rattle.sched_record.specs.Said.{LineSays};
    ghost use Rattle.sched_record.specs.Trace.{LinesAnswer};
    ghost use Rattle.sched_record.specs.Seen.{Tells};

    /// A reader of no line yet; it takes no memory.
    pub fn new(alloc: Global) -> TraceReader
        ensures { HasRead result [] }
    {
        TraceReader {
            entries: Vec::new(alloc),
            indices: Indices::new(alloc),
            count: 0,
            last: 0,
            bad: None,
            clocks: RecentClocks::new(),
        }
    }

    /// Reads the lines of a text, behind those read before. Where a growth is refused, the lines before the one that
    /// met it are read.
    pub fn read(&mut self, text: &[u8]) -> Result<(), Memory>
        ensures read { OnOk result ((lines : List (List ℕ)) → HasRead self.old lines
            → HasRead self.new (lines ++ lines_of text.now)) }
        ensures memory { OnErr result ((lines : List (List ℕ)) → HasRead self.old lines
            → HasReadFront self.new lines (lines_of text.now)) }
    {
        let mut rest = text;
        while !rest.is_empty() {
            if self.bad.is_some() {
                return Ok(());
            }
            let (said, after) = next_entry(self.count + 1, rest, &mut self.clocks);
            self.take(said)?;
            rest = after;
        }
        Ok(())
    }

    /// Reads a text whose lines another reader has read by themselves, behind those read before.
    pub(crate) fn followed_by(self, later: TraceReader, text: &[u8]) -> Result<TraceReader, Memory>
        requires { HasRead later (lines_of text.now) }
        ensures { IfOk result (λ reader. (lines : List (List ℕ)) → HasRead self lines
            → HasRead reader (lines ++ lines_of text.now)) }
    {
        if self.takes_on(&later) {
            return self.with_all_of(later);
        }
        let mut reader = self;
        reader.read(text)?;
        Ok(reader)
    }

    /// Whether what another reader has read stands behind what this one has, but for the numbers of its lines: no line
    /// is bad, they aren't too many, and the time doesn't fall from the last event here to the first there.
    fn takes_on(&self, later: &TraceReader) -> bool
        ensures { IsTrue result ↔ TakesOn self.now later.now }
    {
        let in_time = match later.entries.first() {
            Some(first) => self.last <= first.time,
            None => true,
        };
        self.bad.is_none()
            && later.bad.is_none()
            && later.count <= GREATEST_LINE - self.count
            && in_time
    }

    /// The events of both, those of the other reader as many lines further down as this one has read.
    fn with_all_of(self, later: TraceReader) -> Result<TraceReader, Memory>
        requires { TakesOn self later }
        ensures { IfOk result (λ reader. (lines more : List (List ℕ)) → HasRead self lines → HasRead later more
            → HasRead reader (lines ++ more)) }
    {
        let TraceReader {
            mut entries,
            mut indices,
            count,
            last,
            bad: _,
            clocks,
        } = self;
        let base = count as u32;
        entries.reserve(later.entries.len())?;
        for event in later.entries.as_slice() {
            indices.add_with_hint(event.act, entries.len() as u32)?;
            entries.push(Entry {
                line: event.line + base,
                time: event.time,
                act: event.act,
            })?;
        }
        Ok(TraceReader {
            entries,
            indices,
            count: count + later.count,
            last: last.max(later.last),
            bad: None,
            clocks,
        })
    }

    /// A law: a reader that has read a settled line last has read that line with anything behind it.
    pub fn settled_line()
        ensures { (reader : Reader) (lines : List (List ℕ)) (front more : List ℕ) → IsSettled front
            → HasRead reader (lines ++ front ∷ []) → HasRead reader (lines ++ (front ++ more) ∷ []) }
    {}

    /// The trace of the lines that were read, or the first bad one. It takes no memory.
    pub fn finish(self) -> Result<Trace, TraceFault>
        ensures answered { (lines : List (List ℕ)) → HasRead self lines → Tells result (LinesAnswer lines) }
        ensures memory { IsErrOf result TraceFault.Memory → ⊥ }
    {
        match self.bad {
            Some(bad) => Err(TraceFault::Text {
                line: bad.line,
                cause: bad.cause,
            }),
            None => {
                let mut entries = self.entries;
                entries.shrink_to_fit();
                Ok(Trace::new(Events::from_vec(entries), self.indices))
            }
        }
    }

    /// Reads one more line, behind lines of which none is bad; it says this.
    #[inline(always)]
    fn take(&mut self, said: Result<Option<Entry>, TraceCause>) -> Result<(), Memory>
        requires good { IsNone self.old.bad }
        requires says { (line : List ℕ) × LineSays (self.old.count + 1) line said }
        ensures read { OnOk result ((lines : List (List ℕ)) (line : List ℕ) → LineSays (self.old.count + 1) line said
            → HasRead self.old lines → HasRead self.new (lines ++ line ∷ [])) }
        ensures memory { OnErr result ((lines : List (List ℕ)) → HasRead self.old lines → HasRead self.new lines) }
    {
        let number = self.count + 1;
        match said {
            Err(cause) => self.bad = Some(BadLine {
                line: number,
                cause,
            }),
            Ok(None) => self.count = number,
            Ok(Some(entry)) => {
                let time = entry.time;
                if time < self.last {
                    let cause = TraceCause::TimeBack;
                    self.bad = Some(BadLine {
                        line: number,
                        cause,
                    });
                } else {
                    self.entries.reserve(1)?;
                    self.indices
                        .add_with_hint(entry.act, self.entries.len() as u32)?;
                    self.entries.push(entry)?;
                    self.last = time;
                    self.count = number;
                }
            }
        }
        Ok(())
    }
}
