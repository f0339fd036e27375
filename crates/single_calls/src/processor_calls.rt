//! The calls on the processors of a record.

ghost use Rattle.std.specs.Prelude.{◌<◌};
ghost use Rattle.sched_record.specs.Record.{record_view};

use crate::endings::{bad_words, out_of_memory, print_answer};
use crate::tray::Tray;
use audit_crew::{AuditorFault, OpenGate, auditor};
use cfs_model::{Knobs, Memory};
use queue_replay::{Page, Replay, State, Tag};
use sched_record::{Record, Stream};
use std::alloc::Global;
use std::io;
use std::process::ExitCode;

/// A call on one processor.
#[derive(Clone, Copy, Debug, PartialEq, Eq)]
enum Call {
    Deal,
    Replay,
    GoOn,
    Auditor,
}

impl Call {
    fn of_name(name: &str) -> Option<Call> {
        Some(match name {
            "deal" => Call::Deal,
            "replay" => Call::Replay,
            "go_on" => Call::GoOn,
            "auditor" => Call::Auditor,
            _ => return None,
        })
    }
}

/// Makes the call of this name on each processor of a record in turn.
pub fn print_calls_by_processor<R: AllocGlobal + Print>(
    rt: &R,
    call: &str,
    record: &Record,
) -> io::Result<ExitCode> {
    let Some(call) = Call::of_name(call) else {
        return bad_words();
    };
    for cpu in 0..record.cpus() {
        print_call_at(rt, call, record, cpu)?;
    }
    Ok(ExitCode::SUCCESS)
}

/// Makes a call on one processor of a record.
fn print_call_at<R: AllocGlobal + Print>(
    rt: &R,
    call: Call,
    record: &Record,
    cpu: u32,
) -> io::Result<ExitCode>
    requires { cpu < (record_view record.now).cpus }
{
    let alloc = rt.alloc();
    match call {
        Call::Deal => print_answer(rt, &record.deal(cpu)),
        Call::Replay => {
            print_answer(
                rt,
                &replay_of(alloc, stream_of(record, cpu)?).map(Replay::page),
            )
        }
        Call::GoOn => {
            print_going_on(
                rt,
                replay_of(alloc, stream_of(record, cpu)?).map_err(out_of_memory)?,
            )
        }
        Call::Auditor => print_answer(rt, &tag_by_auditor(alloc, stream_of(record, cpu)?)),
    }
}

fn stream_of(record: &Record, cpu: u32) -> io::Result<Stream>
    requires { cpu < (record_view record.now).cpus }
{
    record.deal(cpu).map_err(out_of_memory)
}

fn replay_of(alloc: Global, stream: Stream) -> Result<Replay, Memory> {
    Replay::new(alloc, stream, Knobs::standard()).map_err(|(_, memory)| memory)
}

/// Lets a replay go on, and once more where memory ran out, and prints its page.
fn print_going_on<R: Print>(rt: &R, replay: Replay) -> io::Result<ExitCode> {
    let mut replay = replay;
    match going_on(rt, &mut replay) {
        Ok(Some(state)) => print_state(rt, state, &replay.page()),
        Ok(None) => Ok(ExitCode::SUCCESS),
        Err(error) => Err(error),
    }
}

/// How a replay stands that went on; nothing where memory ran out twice.
fn going_on<R: Print>(rt: &R, replay: &mut Replay) -> io::Result<Option<State>> {
    for _try in 0..2 {
        match replay.go_on(u64::MAX) {
            Ok(state) => return Ok(Some(state)),
            Err(memory) => println!(rt; "Err({memory:?})")?,
        }
    }
    Ok(None)
}

fn print_state<R: Print>(rt: &R, state: State, page: &Page) -> io::Result<ExitCode> {
    println!(rt; "{state:?} {page:?}")?;
    Ok(ExitCode::SUCCESS)
}

/// The tag of the page that an auditor posts, which asks before each step whether to stop.
fn tag_by_auditor(alloc: Global, stream: Stream) -> Result<Option<Tag>, AuditorFault> {
    let mut tray = Tray::new();
    auditor(alloc, &mut tray, &OpenGate, stream, Knobs::standard(), 1)?;
    Ok(tray.posted)
}
