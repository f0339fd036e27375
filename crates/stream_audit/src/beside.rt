//! Events are joined with the companion while the trace's next reads are made.
ghost use Rattle.std.specs.Prelude.{◌≡◌, ◌⊎◌, ◌<◌, ◌≤◌, ℕ, List, Option, [], true, false, IfErr, IfOk, OnErr};
ghost use Rattle.std.specs.Prelude.{OnOk, length};
ghost use Rattle.audit_input.specs.Known.{IsCutShort, most_reads};
ghost use Rattle.cfs_model.specs.Claimed.{Claimed};
ghost use Rattle.cfs_model.specs.declared.act.Entry.{Entry as Event};
ghost use Rattle.companion_file.specs.Earlier.{Said};
ghost use Rattle.input_blocks.specs.Blocks.{ComesTo, IsAmid, IsPassed, filled};
ghost use Rattle.input_blocks.specs.OfEntries.{ReadsEntries};
ghost use Rattle.stream_audit.specs.Companion.{IsFedBy};
ghost use Rattle.stream_audit.specs.Course.{AreEventsNext, IsCourseOf, JoinsNext, StartStays};
ghost use Rattle.stream_audit.specs.Listening.{HasJoined, HasReadMore, IsLeftBy, IsReadBy};

use crate::course::Course;
use audit_input::{Fault, Feed};
use cfs_model::{Entry, Memory};
use entry_reader::EntryReader;
use input_blocks::{BlockSource, LineBlocks, Passing};
use std::alloc::Global;
use std::thread::{Threads, join_mut};
use text_parts::lines::lines_after_whole;

/// Joins the first of the events that come next, makes the trace's next reads, and passes on what was read: where that
/// can be done beside each other, what was read before, by a thread of its own.
pub(crate) fn join_and_read<R: Threads + Sync, T: Feed, C: Feed>(
    rt: &R,
    alloc: Global,
    course: &mut Course,
    companion: &mut C,
    events: &[Entry],
    most: usize,
    trace: &mut T,
    blocks: &mut LineBlocks,
    reader: &mut EntryReader,
    reads: u32,
    beside: bool,
) -> (Result<usize, Fault>, Result<bool, Fault>)
    requires fed { IsFedBy (C.calls companion.old) (C.has_ended companion.old) (C.has_failed companion.old)
        course.old.companion }
    requires next { (gave : Option (List ℕ)) × (said : Said) × (before : List Event) × (handed : List Claimed)
        × IsCourseOf course.old.aim gave (C.left companion.old) course.old said before handed
        × (0 < length events.now → AreEventsNext before events.now) }
    requires read { IsReadBy (T.left trace.old) (T.calls trace.old) (T.has_failed trace.old) (T.has_ended trace.old)
        blocks.old true }
    ensures joins { JoinsNext (C.left companion.old) (C.left companion.new) course.old course.new events.now result.0 }
    ensures starts { OnOk result.0 (StartStays course.old.joined course.new.joined) }
    ensures aim { course.new.aim ≡ course.old.aim }
    ensures within { IfOk result.0 (λ count. count ≤ length events.now) }
    ensures some { OnErr result.0 (0 < length events.now) }
    ensures fed { OnOk result.0 (IsFedBy (C.calls companion.new) (C.has_ended companion.new)
        (C.has_failed companion.new) course.new.companion) }
    ensures bounded { C.calls companion.new ≤ most_reads }
    ensures cut_short { IfErr result.0 (λ e. ((e ≡ Fault.Memory) × (C.has_failed companion.new ≡ false))
        ⊎ ((e ≡ Fault.ReadCompanion) × IsCutShort (C.has_failed companion.new) (C.calls companion.new))) }
    ensures passed { (gave : Option (List ℕ)) (done : List ℕ)
        → IsAmid ReadsEntries gave (T.left trace.old) blocks.old done
        → IfOk result.1 (ComesTo ReadsEntries reader.old reader.new gave (T.left trace.new) blocks.new done) }
    ensures read { IfOk result.1 (IsReadBy (T.left trace.new) (T.calls trace.new) (T.has_failed trace.new)
        (T.has_ended trace.new) blocks.new) }
    ensures read_on { OnOk result.1 (blocks.old.source.reads < blocks.new.source.reads) }
    ensures never_fewer { blocks.old.source.reads ≤ blocks.new.source.reads }
    ensures stands { IsLeftBy (T.calls trace.new) (T.has_failed trace.new) (T.has_ended trace.new)
        blocks.new.source result.1 }
{
    if !beside {
        let joined = course.join_next(alloc, companion, events, most);
        return (
            joined,
            blocks.next_some(trace, reader, reads, Fault::ReadTrace),
        );
    }
    lines_after_whole();
    let LineBlocks { passing, source } = blocks;
    let (passed, (joined, read)) = pass_and_read(
        rt, alloc, passing, reader, course, companion, events, most, trace, source, reads,
    );
    (joined, blocks.turn(reader, passed, read))
}

/// Passes on what was read ahead, and beside that joins the first of the events that come next and makes the trace's
/// next reads.
fn pass_and_read<R: Threads + Sync, T: Feed, C: Feed>(
    rt: &R,
    alloc: Global,
    passing: &mut Passing,
    reader: &mut EntryReader,
    course: &mut Course,
    companion: &mut C,
    events: &[Entry],
    most: usize,
    trace: &mut T,
    source: &mut BlockSource,
    reads: u32,
) -> (
    Result<(), Memory>,
    (Result<usize, Fault>, Result<bool, Fault>),
)
    requires fed { IsFedBy (C.calls companion.old) (C.has_ended companion.old) (C.has_failed companion.old)
        course.old.companion }
    requires next { (gave : Option (List ℕ)) × (said : Said) × (before : List Event) × (handed : List Claimed)
        × IsCourseOf course.old.aim gave (C.left companion.old) course.old said before handed
        × (0 < length events.now → AreEventsNext before events.now) }
    requires unended { T.has_ended trace.old ≡ false }
    requires unfailed { T.has_failed trace.old ≡ false }
    requires counted { T.calls trace.old ≡ source.old.reads }
    ensures passed { OnOk result.0 (IsPassed ReadsEntries reader.old reader.new passing.old passing.new) }
    ensures none { OnOk result.0 (filled passing.new.ahead ≡ []) }
    ensures joined { HasJoined (C.left companion.old) (C.left companion.new) (C.calls companion.new)
        (C.has_ended companion.new) (C.has_failed companion.new) course.old course.new events.now result.1.0 }
    ensures read { HasReadMore (T.left trace.old) (T.left trace.new) (T.calls trace.new) (T.has_failed trace.new)
        (T.has_ended trace.new) source.old source.new result.1.1 }
{
    // No thread is started to pass nothing on.
    if !passing.is_ahead() {
        return (
            passing.pass(reader),
            join_then_read(alloc, course, companion, events, most, trace, source, reads),
        );
    }
    join_mut(
        rt,
        &mut || passing.pass(reader),
        &mut || { join_then_read(alloc, course, companion, events, most, trace, source, reads) },
    )
}

/// Joins the first of the events that come next, and makes the trace's next reads behind that.
fn join_then_read<T: Feed, C: Feed>(
    alloc: Global,
    course: &mut Course,
    companion: &mut C,
    events: &[Entry],
    most: usize,
    trace: &mut T,
    source: &mut BlockSource,
    reads: u32,
) -> (Result<usize, Fault>, Result<bool, Fault>)
    requires fed { IsFedBy (C.calls companion.old) (C.has_ended companion.old) (C.has_failed companion.old)
        course.old.companion }
    requires next { (gave : Option (List ℕ)) × (said : Said) × (before : List Event) × (handed : List Claimed)
        × IsCourseOf course.old.aim gave (C.left companion.old) course.old said before handed
        × (0 < length events.now → AreEventsNext before events.now) }
    requires unended { T.has_ended trace.old ≡ false }
    requires unfailed { T.has_failed trace.old ≡ false }
    requires counted { T.calls trace.old ≡ source.old.reads }
    ensures joined { HasJoined (C.left companion.old) (C.left companion.new) (C.calls companion.new)
        (C.has_ended companion.new) (C.has_failed companion.new) course.old course.new events.now result.0 }
    ensures read { HasReadMore (T.left trace.old) (T.left trace.new) (T.calls trace.new) (T.has_failed trace.new)
        (T.has_ended trace.new) source.old source.new result.1 }
{
    let joined = course.join_next(alloc, companion, events, most);
    (joined, source.read_some(trace, reads, Fault::ReadTrace))
}

/// A fault of the companion is told only where the trace has none: what is left of the trace is read, if its reads
/// beside that left something.
pub(crate) fn fault_beside<T: Feed>(
    source: &mut BlockSource,
    trace: &mut T,
    fault: Fault,
    read: Result<bool, Fault>,
) -> Fault
    requires left { IsLeftBy (T.calls trace.old) (T.has_failed trace.old) (T.has_ended trace.old) source.old read }
    requires read { 0 < source.old.reads }
    requires fault { (fault ≡ Fault.Memory) ⊎ (fault ≡ Fault.ReadCompanion) }
    ensures memory { result ≡ Fault.Memory → (fault ≡ Fault.Memory) × (T.has_failed trace.new ≡ false) }
    ensures trace { result ≡ Fault.ReadTrace → IsCutShort (T.has_failed trace.new) (T.calls trace.new) }
    ensures companion { result ≡ Fault.ReadCompanion → (fault ≡ Fault.ReadCompanion)
        × (T.has_ended trace.new ≡ true) × (T.has_failed trace.new ≡ false) }
    ensures one { (result ≡ Fault.Memory) ⊎ (result ≡ Fault.ReadTrace) ⊎ (result ≡ Fault.ReadCompanion) }
    ensures never_fewer { source.old.reads ≤ source.new.reads }
    ensures bounded { T.calls trace.new ≤ most_reads }
{
    if let Err(Fault::ReadTrace) = read {
        return Fault::ReadTrace;
    }
    match fault {
        // Nothing is read behind it.
        Fault::Memory => Fault::Memory,
        _ => {
            if source.has_ended() {
                return fault;
            }
            match source.drain(trace, Fault::ReadTrace) {
                Ok(()) => fault,
                Err(earlier) => earlier,
            }
        }
    }
}
