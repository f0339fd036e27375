ghost use Rattle.std.specs.Io.KnownBytes.{IsAtEnd};
ghost use Rattle.std.specs.Prelude.{◌≡◌, ◌≢◌, ◌⊎◌, ◌++◌, ◌<◌, ◌≤◌, ℕ, Bool, List, Option, [], false, true};
ghost use Rattle.std.specs.Prelude.{IfErr, IfOk, IsNone, OnErr, OnOk, length, drop, take};
ghost use Rattle.audit_input.specs.Known.{IsCutShort, most_reads};
ghost use Rattle.cfs_model.specs.Claimed.{Claimed};
ghost use Rattle.stream_audit.specs.Aim.{AimView};
ghost use Rattle.cfs_model.specs.declared.act.Entry.{Entry as Event};
ghost use Rattle.entry_reader.specs.Reader.{HasReadOut, entries_of};
ghost use Rattle.stream_audit.specs.Companion.{IsFedBy};
ghost use Rattle.stream_audit.specs.Course.{AreEventsNext, AreJudged, IsCalm, IsHandedOn, StartStays};
ghost use Rattle.stream_audit.specs.Hearing.{IsHeard, IsHeardBy, IsPending, IsReady, input_of};

use crate::beside::{fault_beside, join_and_read};
use crate::course::Course;
use crate::{Aim, Judge, Past, Sizes};
use audit_input::{Fault, Feed};
use cfs_model::{Entry, Memory};
use entry_reader::EntryReader;
use input_blocks::LineBlocks;
use std::alloc::Global;
use std::thread::Threads;

/// How many bytes of the companion a read asks for, at most. What it says ahead of the trace is moved each time that
/// what was passed is let go.
const COMPANION_BLOCK: u32 = 1 << 15;

/// What comes in of two inputs that are read at once: the trace's events are joined with what the companion says.
#[derive(Drop)]
pub(crate) struct Intake {
    /// Of the trace.
    blocks: LineBlocks,
    pub reader: EntryReader,
    /// Those that were taken out last, and come next; the room for them is used again.
    events: Vec<Entry>,
    /// How many of them were joined.
    next: usize,
    pub course: Course,
    /// How many reads are made at once, at most.
    reads: u32,
    /// How many events are joined at once, at most.
    pub most: usize,
    pub ghost some: { 0 < most },
    pub ghost begun: { 0 < length events.items → 0 < blocks.source.reads },
}

impl Intake {
    ghost use Rattle.stream_audit.specs.Listening.{EndsBoth, HasCome, IsComing, IsReadBy, IsTakenOut};

    /// Before the first read.
    pub fn new(alloc: Global, aim: Aim, sizes: Sizes) -> Intake
        ensures coming { (trace : Option (List ℕ)) (gave : Option (List ℕ))
            → IsComing aim trace trace gave gave result [] }
        ensures reads { result.blocks.source.reads ≡ 0 }
        ensures fed { IsFedBy 0 false false result.course.companion }
        ensures none { IsNone result.course.joined }
    {
        let blocks = LineBlocks::new(alloc, sizes.block());
        let reader = EntryReader::new(alloc);
        let course = Course::new(alloc, sizes.block().min(COMPANION_BLOCK), aim);
        Intake {
            blocks,
            reader,
            events: Vec::new(alloc),
            next: 0,
            course,
            reads: sizes.reads(),
            most: sizes.window(),
        }
    }

    /// Joins the first of the events that were taken out with what the companion says of them, makes the trace's next
    /// reads, or one read, where nothing waits to be audited, and reads the lines of what came before them beside that,
    /// or of them behind it by the same thread. Says whether the trace goes on.
    pub fn come<R: Threads + Sync, T: Feed, C: Feed>(
        &mut self,
        rt: &R,
        alloc: Global,
        trace: &mut T,
        companion: &mut C,
        alone: bool,
        beside: bool,
    ) -> Result<bool, Fault>
        requires coming { (aim : AimView) × (trace_gave : Option (List ℕ)) × (gave : Option (List ℕ))
            × (handed : List Claimed)
            × IsComing aim trace_gave (T.left trace.old) gave (C.left companion.old) self.old handed }
        requires read { IsReadBy (T.left trace.old) (T.calls trace.old) (T.has_failed trace.old)
            (T.has_ended trace.old) self.old.blocks true }
        requires fed { IsFedBy (C.calls companion.old) (C.has_ended companion.old) (C.has_failed companion.old)
            self.old.course.companion }
        ensures came { (aim : AimView) (trace_gave : Option (List ℕ)) (gave : Option (List ℕ))
            (handed : List Claimed)
            → IsComing aim trace_gave (T.left trace.old) gave (C.left companion.old) self.old handed
            → IfOk result (HasCome aim trace_gave (T.left trace.new) gave (C.left companion.new) self.old.course
            self.new handed) }
        ensures read { IfOk result (IsReadBy (T.left trace.new) (T.calls trace.new) (T.has_failed trace.new)
            (T.has_ended trace.new) self.new.blocks) }
        ensures read_on { OnOk result (self.old.blocks.source.reads < self.new.blocks.source.reads) }
        ensures next { OnOk result (self.new.next ≤ length self.new.events.items) }
        ensures fed { OnOk result (IsFedBy (C.calls companion.new) (C.has_ended companion.new)
            (C.has_failed companion.new) self.new.course.companion) }
        ensures reads { IfErr result (EndsBoth
            (input_of (T.left trace.new) (T.calls trace.new) (T.has_failed trace.new) (T.has_ended trace.new))
            (input_of (C.left companion.new) (C.calls companion.new) (C.has_failed companion.new)
            (C.has_ended companion.new))) }
    {
        let reads = if alone { 1 } else { self.reads };
        let (joined, read) = join_and_read(
            rt,
            alloc,
            &mut self.course,
            companion,
            &self.events,
            self.most,
            trace,
            &mut self.blocks,
            &mut self.reader,
            reads,
            beside,
        );
        match joined {
            Ok(count) => {
                self.next = count;
                read
            }
            Err(fault) => Err(fault_beside(&mut self.blocks.source, trace, fault, read)),
        }
    }

    /// Joins the first of the events that were taken out, behind which the trace has ended.
    pub fn join_last<C: Feed>(&mut self, alloc: Global, companion: &mut C) -> Result<(), Fault>
        requires fed { IsFedBy (C.calls companion.old) (C.has_ended companion.old) (C.has_failed companion.old)
            self.old.course.companion }
        requires pending { (aim : AimView) × (gave : Option (List ℕ)) × (bytes : List ℕ) × (handed : List Claimed)
            × IsPending aim gave (C.left companion.old) bytes self.old.reader self.old.course handed
            self.old.events.items }
        ensures ready { (aim : AimView) (gave : Option (List ℕ)) (bytes : List ℕ) (handed : List Claimed)
            → IsPending aim gave (C.left companion.old) bytes self.old.reader self.old.course handed
            self.old.events.items
            → OnOk result (IsReady aim gave (C.left companion.new) bytes self.new.reader self.new.course handed
            (drop self.new.next self.new.events.items) × (IsCalm self.new.course → IsCalm self.old.course)) }
        ensures starts { OnOk result (StartStays self.old.course.joined self.new.course.joined) }
        ensures aim { self.new.course.aim ≡ self.old.course.aim }
        ensures next { OnOk result (self.new.next ≤ length self.new.events.items) }
        ensures reader { self.new.reader ≡ self.old.reader }
        ensures fed { OnOk result (IsFedBy (C.calls companion.new) (C.has_ended companion.new)
            (C.has_failed companion.new) self.new.course.companion) }
        ensures bounded { C.calls companion.new ≤ most_reads }
        ensures cut_short { IfErr result (λ e. ((e ≡ Fault.Memory) × (C.has_failed companion.new ≡ false))
            ⊎ ((e ≡ Fault.ReadCompanion) × IsCutShort (C.has_failed companion.new) (C.calls companion.new))) }
    {
        self.next = self
            .course
            .join_next(alloc, companion, &self.events, self.most)?;
        Ok(())
    }

    /// Takes out the events that were read, where no line of the trace is bad. All that were taken out before were
    /// joined.
    pub fn take_next(&mut self)
        requires { 0 < self.old.blocks.source.reads }
        ensures pending { (aim : AimView) (gave : Option (List ℕ)) (left : Option (List ℕ)) (bytes : List ℕ)
            (handed : List Claimed) → IsHeardBy aim gave left bytes self.old.reader self.old.course handed
            → IsPending aim gave left bytes self.new.reader self.new.course handed self.new.events.items }
        ensures taken { IsTakenOut self.new }
        ensures course { self.new.course ≡ self.old.course }
        ensures blocks { self.new.blocks ≡ self.old.blocks }
    {
        take_good(&mut self.reader, &mut self.events);
    }

    /// Goes through the events that were taken out and not joined.
    pub fn go_through_rest<R: Threads + Sync, P: Past>(
        &mut self,
        rt: &R,
        alloc: Global,
        judge: &mut Option<Judge>,
        past: &mut P,
    ) -> Result<(), Memory>
        requires next { self.old.next ≤ length self.old.events.items }
        requires ready { (aim : AimView) × (gave : Option (List ℕ)) × (left : Option (List ℕ)) × (bytes : List ℕ)
            × (handed : List Claimed) × IsReady aim gave left bytes self.old.reader self.old.course handed
            (drop self.old.next self.old.events.items) × AreJudged self.old.course handed judge.old }
        requires handed_on { IsHandedOn self.old.course }
        ensures heard { (aim : AimView) (gave : Option (List ℕ)) (left : Option (List ℕ)) (bytes : List ℕ)
            (handed : List Claimed) → IsReady aim gave left bytes self.old.reader self.old.course handed
            (drop self.old.next self.old.events.items) → AreJudged self.old.course handed judge.old
            → OnOk result (IsHeard aim gave left bytes self.new.reader self.new.course judge.new) }
        ensures reader { self.new.reader ≡ self.old.reader }
        ensures blocks { self.new.blocks ≡ self.old.blocks }
        ensures fed { (calls : ℕ) (has_ended : Bool) (has_failed : Bool)
            → IsFedBy calls has_ended has_failed self.old.course.companion
            → IsFedBy calls has_ended has_failed self.new.course.companion }
    {
        let (_joined, rest) = self.events.split_at(self.next);
        self.course
            .go_through(rt, alloc, rest, self.most, judge, past)
    }

    /// How much was found for which a line of the trace is quoted, or of the companion.
    pub fn findings(&self) -> u32 {
        u32::from(!self.reader.is_good()).saturating_add(self.course.findings())
    }
}

/// Takes out the events that were read, where no line of the trace is bad, and else none.
fn take_good(reader: &mut EntryReader, events: &mut Vec<Entry>)
    ensures given { (lines : List (List ℕ)) (given : List Event) → HasReadOut reader.old lines given
        → HasReadOut reader.new lines (given ++ events.new.items) }
    ensures next { (lines : List (List ℕ)) (given : List Event) → HasReadOut reader.old lines given
        → 0 < length events.new.items → AreEventsNext given events.new.items }
    ensures taken { IsNone reader.new.bad → entries_of reader.new ≡ [] }
{
    if reader.is_good() {
        reader.take_out(events);
    } else {
        events.clear();
    }
}
