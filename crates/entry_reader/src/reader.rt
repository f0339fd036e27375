ghost use Rattle.std.specs.Prelude.{◌<◌, ◌≤◌, ◌^◌};
ghost use Rattle.cfs_model.specs.Limits.{greatest_line};

use crate::bad_line::BadLine;
use cfs_model::{Entry, Memory};
use ftrace_line::RecentClocks;
use sched_record::{TraceCause, TraceFault, careful_entry, usual_entry};
use std::alloc::Global;
use std::mem::swap;

/// A trace that is read some lines at a time, and whose events are taken out as they are used: the events that are
/// held, or the first bad line.
#[derive(Debug, Drop)]
pub struct EntryReader {
    entries: Vec<Entry>,
    /// How many lines were read, up to the first bad one.
    count: u64,
    /// The time of the last event in nanoseconds, and 0 before the first.
    last: u64,
    bad: Option<BadLine>,
    clocks: RecentClocks,
    pub ghost few: { count ≤ greatest_line },
    pub ghost last_fits: { last < 2 ^ 64 },
}

impl EntryReader {
    ghost use Rattle.std.specs.Prelude.{◌≡◌, ℕ, ◌+◌, ◌∷◌, ◌++◌, [], List, length, IsNone, IfOk, OnOk, OnErr};
    ghost use Rattle.std.specs.List.{before_first};
    ghost use Rattle.std.specs.Option.{is_none};
    ghost use Rattle.cfs_model.specs.declared.act.Entry.{Entry as Event};
    ghost use Rattle.text_parts.specs.Lines.{is_line_feed, lines_of};
    ghost use Rattle.ftrace_line.specs.Front.{IsSettled};
    ghost use Rattle.sched_record.specs.Said.{LineSays};
    ghost use Rattle.entry_reader.specs.Reader.{EndsSo, HasReadOut, HasReadOutFront, entries_of};
    ghost use Rattle.entry_reader.specs.declared.reader.EntryReader.{EntryReader as Reader};

    /// A reader of no line yet; it takes no memory.
    pub fn new(alloc: Global) -> EntryReader
        ensures { HasReadOut result [] [] }
    {
        EntryReader {
            entries: Vec::new(alloc),
            count: 0,
            last: 0,
            bad: None,
            clocks: RecentClocks::new(),
        }
    }

    /// Reads the lines of a text, behind those read before. Where a growth is refused, the lines before the one that
    /// met it are read.
    pub fn read(&mut self, text: &[u8]) -> Result<(), Memory>
        ensures read { OnOk result ((lines : List (List ℕ)) (given : List Event) → HasReadOut self.old lines given
            → HasReadOut self.new (lines ++ lines_of text.now) given) }
        ensures memory { OnErr result ((lines : List (List ℕ)) (given : List Event) → HasReadOut self.old lines given
            → HasReadOutFront self.new lines (lines_of text.now) given) }
    {
        let mut rest = text;
        while !rest.is_empty() {
            if self.bad.is_some() {
                return Ok(());
            }
            rest = self.read_line(rest)?;
        }
        Ok(())
    }

    /// Whether no line that was read is bad.
    pub fn is_good(&self) -> bool
        ensures { result ≡ is_none self.now.bad }
    {
        self.bad.is_none()
    }

    /// Takes the events out that were read since they were taken out last, in the order of their lines, in place of
    /// what a list held. The list's room is that of the next events.
    pub fn take_out(&mut self, events: &mut Vec<Entry>)
        ensures taken { events.new.items ≡ entries_of self.old }
        ensures emptied { entries_of self.new ≡ [] }
        ensures bad { self.new.bad ≡ self.old.bad }
        ensures given { (lines : List (List ℕ)) (given : List Event) → HasReadOut self.old lines given
            → HasReadOut self.new lines (given ++ entries_of self.old) }
    {
        events.clear();
        swap(&mut self.entries, events);
    }

    /// What the lines that were read are refused for: the first bad one.
    pub fn finish(&self) -> Result<(), TraceFault>
        ensures { (lines : List (List ℕ)) (given : List Event) → HasReadOut self.now lines given
            → EndsSo result lines (given ++ entries_of self.now) }
    {
        match self.bad {
            Some(bad) => Err(TraceFault::Text {
                line: bad.line,
                cause: bad.cause,
            }),
            None => Ok(()),
        }
    }

    /// A law: a reader that has read a settled line last has read that line with anything behind it.
    pub fn settled_line()
        ensures { (reader : Reader) (lines : List (List ℕ)) (front more : List ℕ) (given : List Event)
            → IsSettled front → HasReadOut reader (lines ++ front ∷ []) given
            → HasReadOut reader (lines ++ (front ++ more) ∷ []) given }
    {}

    /// Reads the first line of a text, behind lines of which none is bad, and gives what follows it.
    #[inline(always)]
    fn read_line<'a>(&mut self, text: &'a [u8]) -> Result<&'a [u8], Memory>
        requires good { IsNone self.old.bad }
        requires some { 0 < length text.now }
        ensures lines { IfOk result (λ rest. lines_of text.now ≡ before_first is_line_feed text.now
            ∷ lines_of rest.now) }
        ensures shorter { IfOk result (λ rest. length rest.now < length text.now) }
        ensures read { OnOk result ((lines : List (List ℕ)) (given : List Event) → HasReadOut self.old lines given
            → HasReadOut self.new (lines ++ before_first is_line_feed text.now ∷ []) given) }
        ensures memory { OnErr result ((lines : List (List ℕ)) (given : List Event) → HasReadOut self.old lines given
            → HasReadOut self.new lines given) }
    {
        let number = self.count + 1;
        if let Some((said, rest)) = usual_entry(number, text, &mut self.clocks) {
            self.take(Ok(said))?;
            return Ok(rest);
        }
        self.read_carefully(text)
    }

    /// The same for a line of any form. The room for its answer is made here, where few lines come.
    #[inline(always)]
    fn read_carefully<'a>(&mut self, text: &'a [u8]) -> Result<&'a [u8], Memory>
        requires good { IsNone self.old.bad }
        requires some { 0 < length text.now }
        ensures lines { IfOk result (λ rest. lines_of text.now ≡ before_first is_line_feed text.now
            ∷ lines_of rest.now) }
        ensures shorter { IfOk result (λ rest. length rest.now < length text.now) }
        ensures read { OnOk result ((lines : List (List ℕ)) (given : List Event) → HasReadOut self.old lines given
            → HasReadOut self.new (lines ++ before_first is_line_feed text.now ∷ []) given) }
        ensures memory { OnErr result ((lines : List (List ℕ)) (given : List Event) → HasReadOut self.old lines given
            → HasReadOut self.new lines given) }
    {
        let (said, rest) = careful_entry(self.count + 1, text);
        self.take(said)?;
        Ok(rest)
    }

    /// Reads one more line, behind lines of which none is bad; it says this.
    #[inline(always)]
    fn take(&mut self, said: Result<Option<Entry>, TraceCause>) -> Result<(), Memory>
        requires good { IsNone self.old.bad }
        requires says { (line : List ℕ) × LineSays (self.old.count + 1) line said }
        ensures read { OnOk result ((lines : List (List ℕ)) (line : List ℕ) (given : List Event)
            → LineSays (self.old.count + 1) line said → HasReadOut self.old lines given
            → HasReadOut self.new (lines ++ line ∷ []) given) }
        ensures memory { OnErr result ((lines : List (List ℕ)) (given : List Event) → HasReadOut self.old lines given
            → HasReadOut self.new lines given) }
    {
        let number = self.count + 1;
        match said {
            Err(cause) => self.bad = Some(BadLine {
                line: number,
                cause,
            }),
            Ok(None) => self.count = number,
            Ok(Some(entry)) => {
                let time = entry.time;
                if time < self.last {
                    let cause = TraceCause::TimeBack;
                    self.bad = Some(BadLine {
                        line: number,
                        cause,
                    });
                } else {
                    self.entries.reserve(1)?;
                    self.entries.push_reserved(entry);
                    self.last = time;
                    self.count = number;
                }
            }
        }
        Ok(())
    }
}
