//! What is likely a mistake, by the looks of the texts: said on standard error behind an answer.
use crate::answer::Answer;
use audit_report::Status;
use audit_request::Request;
use bstr::ByteSlice;
use cfs_model::{Knobs, Setting};
use given_texts::{KernelHint, companion_hint, has_event, is_overwritten, is_standard, trace_hint};
use std::fs::{self, File};
use std::io::Read;
use std::rt::Files;
use text_parts::numerals::numeral_at;

/// So many bytes of a text are looked at.
const FRONT: usize = 4096;

/// What is said of a companion that is given as the trace.
const OF_COMPANION: &str = "is a companion: the trace is named first";

/// What the object of least settings begins with, before the granularity.
const LEAST: &[u8] = b"{\"verdict\":\"least\",\"granularity-ns\":{\"least\":";

/// What stands in the object of a pick beyond the granularity.
const OF_PICK: &[u8] = b",\"kind\":\"NotLeast\"";

/// What the report of a run without an event begins with, and what its object does.
static NO_EVENT: [&[u8]; 2] = [b"run\nevents 0\n", b"{\"verdict\":\"run\",\"events\":0,"];

/// Says what is likely a mistake in texts that were answered so. A text that isn't a regular file isn't looked at.
pub fn say_hints<R: Files + Eprint>(rt: &R, request: &Request<'_>, answer: &Answer) {
    say_of_texts(rt, request, answer);
    if let Some(hint) = kernel_hint(answer.front.as_slice(), request) {
        let _ = eprintln!(rt; "hint: {hint}");
    }
}

/// Why a kernel is likely not of CFS, by how the report begins.
fn kernel_hint(front: &[u8], request: &Request<'_>) -> Option<KernelHint> {
    let granularity = granularity_of(request);
    if request.json {
        hint_of_object(front, granularity)
    } else {
        KernelHint::of_report(front, granularity)
    }
}

/// The same where the report is an object.
fn hint_of_object(front: &[u8], granularity: u64) -> Option<KernelHint> {
    match front.strip_prefix(LEAST) {
        Some(rest) => KernelHint::of_granularity(numeral_at(rest)?.0),
        None if front.find(OF_PICK).is_some() => {
            KernelHint::of_granularity(granularity).map(|_| KernelHint::NoneServes)
        }
        None => None,
    }
}

/// The granularity that a request's texts are judged at.
fn granularity_of(request: &Request<'_>) -> u64 {
    let knobs = if request.least {
        Knobs::greatest()
    } else {
        request.knobs
    };
    knobs.get(Setting::Granularity)
}

fn say_of_texts<R: Files + Eprint>(rt: &R, request: &Request<'_>, answer: &Answer) {
    let mut room = [0u8; FRONT];
    let mut is_empty = tells_no_event(answer.front.as_slice());
    if let Some(trace) = front_of(rt, request.trace, &mut room) {
        say_of_trace(rt, trace, answer.status);
        is_empty = is_empty || is_comments_alone(trace);
    }
    if is_empty {
        say(rt, "trace", Some("has no event of the scheduler"));
    }
    if answer.status == Status::Refused {
        if let Some(companion) = front_of(rt, request.companion, &mut room) {
            say(rt, "companion", companion_hint(companion));
        }
    }
}

fn say_of_trace<R: Eprint>(rt: &R, front: &[u8], status: Status) {
    if status == Status::Refused {
        say(rt, "trace", trace_hint(front, OF_COMPANION));
    }
    if is_overwritten(front) {
        say(
            rt,
            "trace",
            Some("misses events: its two numbers of entries differ, so the buffer was overwritten"),
        );
    }
}

/// Whether a report is of a run without an event.
fn tells_no_event(report: &[u8]) -> bool {
    for begin in &NO_EVENT {
        if report.starts_with(*begin) {
            return true;
        }
    }
    false
}

/// Whether a text is looked at whole and is empty, or comments and no event of the scheduler.
fn is_comments_alone(front: &[u8]) -> bool {
    front.len() < FRONT && !has_event(front) && front.first().is_none_or(|byte| *byte == b'#')
}

fn say<R: Eprint>(rt: &R, text: &str, hint: Option<&str>) {
    if let Some(hint) = hint {
        let _ = eprintln!(rt; "hint: the {text} {hint}");
    }
}

/// The first bytes of a regular file, as many as the room has.
fn front_of<'b, R: Files>(rt: &R, name: &str, room: &'b mut [u8]) -> Option<&'b [u8]> {
    // Before it is opened: to open a named pipe again would wait for another writer.
    if is_standard(name) || !fs::metadata(rt, name).ok()?.is_file() {
        return None;
    }
    let mut file = File::open(rt, name).ok()?;
    let count = file.read(room).ok()?;
    room.get(..count)
}
