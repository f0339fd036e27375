//! Whether a verdict can rest on a page.
ghost use Rattle.std.specs.Prelude.{◌≡◌, ◌<◌, ◌↔◌, IsTrue, length};
ghost use Rattle.queue_replay.specs.Made.{reached_of};
ghost use Rattle.queue_replay.specs.declared.tag.Reached.TheVariants.{Stopped};
ghost use Rattle.replay_model.specs.Cut.{tasks_at};
ghost use Rattle.sched_record.specs.Record.{record_view};
ghost use Rattle.sched_record.specs.Stream.{cut_of, stream_view};
ghost use Rattle.ticket_book.specs.Cursor.{IsCursor};
ghost use Rattle.ticket_book.specs.Framed.{is_framed};
ghost use Rattle.ticket_book.specs.Relying.{IsEnough};

use crate::cursor::Cursor;
use cfs_model::Task;
use queue_replay::{Page, Reached};
use sched_record::{Record, Stream};

/// Whether a page's replay got far enough, beside the least line of a fault: to its first fault, to the end, or to that
/// line.
pub(crate) fn is_enough(page: &Page, least: Option<u64>) -> bool
    ensures { IsTrue result ↔ IsEnough least (reached_of page.now.page page.now.made (length page.now.stream.steps)) }
{
    match page.tag().reached {
        Reached::Done | Reached::Faulted(_) => true,
        Reached::Stopped(line) => is_at_most(least, line),
    }
}

/// Whether there is a least line, and this one isn't before it.
fn is_at_most(least: Option<u64>, line: u32) -> bool
    ensures { IsTrue result ↔ IsEnough least (Stopped line) }
{
    least.is_some_and(|least| least <= u64::from(line))
}

/// Whether a stream is what a processor sees of the record. The cursor is the stream's, with all events dealt.
pub(crate) fn is_cut_of(stream: &Stream, joined: &Record, cpu: u32, cursor: Cursor) -> bool
    requires below { cpu < (record_view joined.now).cpus }
    requires followed { IsCursor (stream_view stream.now).steps (cut_of (record_view joined.now) cpu).steps cursor }
    ensures { IsTrue result ↔ (stream_view stream.now ≡ cut_of (record_view joined.now) cpu) }
{
    let same_steps = cursor.is_at_end(stream.steps());
    let same_tasks = are_tasks_at(stream.tasks(), joined.tasks(), cpu);
    let same_frame = is_framed(stream, joined, cpu);
    same_steps && same_tasks && same_frame
}

/// Whether a stream's processor, floor and times are those of the record for a processor.
fn is_framed(stream: &Stream, joined: &Record, cpu: u32) -> bool
    requires { cpu < (record_view joined.now).cpus }
    ensures { result ≡ is_framed (record_view joined.now) cpu (stream_view stream.now) }
{
    stream.cpu() == cpu
        && stream.floor() == joined.floors()[cpu as usize]
        && stream.start() == joined.start()
        && stream.last_time() == joined.last_time()
        && stream.last_line() == joined.last_line()
}

/// Whether some tasks are those of a record that stand at a processor.
fn are_tasks_at(here: &[Task], tasks: &[Task], cpu: u32) -> bool
    ensures { IsTrue result ↔ (here.now ≡ tasks_at cpu tasks.now) }
{
    let mut index = 0;
    for task in tasks {
        if task.cpu == cpu {
            if index == here.len() || here[index] != *task {
                return false;
            }
            index += 1;
        }
    }
    index == here.len()
}
