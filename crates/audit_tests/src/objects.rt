//! The report as JSON, read back by a reader that isn't ours.

use crate::answers::wants_about;
use crate::audits::busy;
use crate::ends::{Narrow, ample, whole};
use crate::runs::object_ran;
use json_audit::{AsJson, NameTold};
use sched_audit::{Fault, LeastFigures, Outcome, SinkOf, Status, Verdict, WithWaits, write_report};
use serde_json::Value;
use std::alloc::Global;
use std::sync::Wait;
use std::test::Fail;
use std::thread::Threads;

/// The object of a run with the greatest numbers; nothing where it can't be written.
fn object_of_run(alloc: Global) -> Result<Vec<u8>, Fail> {
    let judged = Verdict::Run(busy(alloc)?);
    let outcome = Outcome::Judged(AsJson {
        judged,
        time: 0,
        bound: None,
        name: NameTold::Untold,
    });
    let mut out = Narrow::new(alloc, ample());
    let _ = write_report(alloc, &outcome, false, &mut SinkOf::new(&mut out));
    Ok(out.taken)
}

/// What an object has at a place.
#[derive(Clone, Copy, Debug, PartialEq, Eq)]
enum Held {
    Number(u64),
    Words(&'static str),
    Null,
    /// So many members or elements.
    Parts(usize),
    Nothing,
}

/// Places of an object, as JSON pointers, and what it has there.
type Places = &'static [(&'static str, Held)];

/// Whether that is at a place of a value.
fn holds(value: &Value, place: &str, held: Held) -> bool {
    match (value.pointer(place), held) {
        (Some(found), Held::Number(number)) => found.as_u64() == Some(number),
        (Some(found), Held::Words(words)) => found.as_str() == Some(words),
        (Some(found), Held::Null) => found.is_null(),
        (Some(found), Held::Parts(count)) => parts(found) == count,
        (None, Held::Nothing) => true,
        _ => false,
    }
}

/// How many members or elements a value has.
fn parts(value: &Value) -> usize {
    match (value.as_object(), value.as_array()) {
        (Some(members), _) => members.len(),
        (None, Some(elements)) => elements.len(),
        (None, None) => 0,
    }
}

/// The first place where an object has something else; the whole of it where it isn't JSON.
fn first_other(alloc: Global, object: &[u8], places: Places) -> Option<&'static str> {
    let Ok(value) = Value::from_slice(alloc, object) else {
        return Some("");
    };
    for (place, held) in places {
        if !holds(&value, *place, *held) {
            return Some(*place);
        }
    }
    None
}

static GREATEST: [(&str, Held); 12] = [
    ("", Held::Parts(7)),
    ("/verdict", Held::Words("run")),
    ("/events", Held::Number(u64::MAX)),
    ("/switches", Held::Number(1)),
    ("/deaths", Held::Number(4)),
    ("/tasks", Held::Parts(2)),
    ("/tasks/0/pid", Held::Number(4_194_304)),
    ("/tasks/0/picks", Held::Number(u64::MAX)),
    (
        "/tasks/0/ran",
        Held::Words("340282366920938463463374607431768211455"),
    ),
    ("/tasks/0/charged", Held::Words("5")),
    ("/tasks/1/picks", Held::Number(6)),
    ("/tasks/2/pid", Held::Nothing),
];

#[test]
fn the_greatest_numbers_are_read_back(rt: HostRuntime) -> Result<(), Fail> {
    let object = object_of_run(rt.alloc())?;
    let other = first_other(rt.alloc(), object.as_slice(), &GREATEST);
    wants_about(&rt, "a run", &other, &None);
    Ok(())
}

/// What is asked of two texts.
#[derive(Clone, Copy)]
enum Asked {
    Verdict,
    Waits,
    Least,
}

/// Two texts, what is asked of them, how that ends, and what their object has.
#[derive(Clone, Copy)]
struct Row {
    name: &'static str,
    asked: Asked,
    companion: &'static [u8],
    status: Status,
    places: Places,
}

/// One processor: task 101 runs for 4 ms and is put back, and task 102 runs next.
const TRACE: &[u8] =
    b"            t101-101     [000] d..2.   100.004000: sched_switch: prev_comm=t101 prev_pid=101 prev_prio=120 prev_state=R+ ==> next_comm=t102 next_pid=102 next_prio=120\n";

/// 101 is put back a virtual nanosecond above its charge.
const ONE_MORE: &[u8] =
    b"cfs-companion 1\ncpus 1\nstart 100.000000\nfloor 0 0\ntask 101 0 0 run 0\ntask 102 0 0 wait 0\nat 1 101 4000001\n";

/// A task stands where the floor has to.
const NO_FLOOR: &[u8] = b"cfs-companion 1\ncpus 1\nstart 100.000000\ntask 101 0 0 run 0\n";

/// 102 is picked 500 above 103, and 101 is told 700 more than its charge.
const LED_AND_TOLD: &[u8] =
    b"cfs-companion 3\ncpus 1\nstart 100.000000\nfloor 0 0\ntask 101 0 0 run 0\ntask 102 0 0 wait 500\ntask 103 0 0 wait 0\ncharge 1 101 4000700\nat 1 101 4000700\n";

/// 102 waits for 4 ms, then 101 up to the end, and 103 rests.
const WAITING: &[u8] =
    b"cfs-companion 1\ncpus 1\nstart 100.000000\nfloor 0 0\ntask 101 0 0 run 0\ntask 102 0 0 wait 0\ntask 103 0 0 rest 0\nat 1 101 4000000\n";

static ROWS: [Row; 4] = [
    Row {
        name: "a fault",
        asked: Asked::Waits,
        companion: ONE_MORE,
        status: Status::No,
        places: &[
            ("", Held::Parts(8)),
            ("/verdict", Held::Words("fault")),
            ("/line", Held::Number(1)),
            ("/time", Held::Number(100_004_000_000)),
            ("/cpu", Held::Number(0)),
            ("/pid", Held::Number(101)),
            ("/kind", Held::Words("WrongPutBack")),
            ("/text", Held::Words("put back at another value")),
            ("/bound/value", Held::Words("4000001")),
            ("/bound/limit", Held::Words("4000000")),
        ],
    },
    Row {
        name: "a refusal",
        asked: Asked::Verdict,
        companion: NO_FLOOR,
        status: Status::Refused,
        places: &[
            ("", Held::Parts(4)),
            ("/verdict", Held::Words("refused")),
            ("/text", Held::Words("companion")),
            ("/line", Held::Number(4)),
            ("/cause", Held::Words("Order")),
        ],
    },
    Row {
        name: "least settings",
        asked: Asked::Least,
        companion: LED_AND_TOLD,
        status: Status::Yes,
        places: &[
            ("", Held::Parts(6)),
            ("/verdict", Held::Words("least")),
            ("/granularity-ns", Held::Parts(6)),
            ("/granularity-ns/least", Held::Number(500)),
            ("/granularity-ns/line", Held::Number(1)),
            ("/granularity-ns/time", Held::Number(100_004_000_000)),
            ("/granularity-ns/cpu", Held::Number(0)),
            ("/granularity-ns/pid", Held::Number(102)),
            ("/granularity-ns/over", Held::Number(103)),
            ("/credit-ns", Held::Parts(1)),
            ("/credit-ns/least", Held::Number(0)),
            ("/debit-ns/least", Held::Number(0)),
            ("/slack-ns/least", Held::Number(0)),
            ("/drift-ns", Held::Parts(5)),
            ("/drift-ns/least", Held::Number(700)),
            ("/drift-ns/pid", Held::Number(101)),
        ],
    },
    Row {
        name: "waits",
        asked: Asked::Waits,
        companion: WAITING,
        status: Status::Yes,
        places: &[
            ("", Held::Parts(9)),
            ("/verdict", Held::Words("run")),
            ("/tasks", Held::Parts(3)),
            ("/longest", Held::Parts(4)),
            ("/longest/pid", Held::Number(102)),
            ("/longest/waited", Held::Number(4_000_000)),
            ("/longest/from", Held::Null),
            ("/longest/to", Held::Number(1)),
            ("/waits", Held::Parts(3)),
            ("/waits/0/pid", Held::Number(101)),
            ("/waits/0/times", Held::Number(1)),
            ("/waits/0/total", Held::Words("0")),
            ("/waits/0/longest/waited", Held::Number(0)),
            ("/waits/0/longest/from", Held::Number(1)),
            ("/waits/0/longest/to", Held::Null),
            ("/waits/1/total", Held::Words("4000000")),
            ("/waits/1/longest", Held::Parts(3)),
            ("/waits/2/pid", Held::Number(103)),
            ("/waits/2/times", Held::Number(0)),
            ("/waits/2/longest", Held::Null),
        ],
    },
];

/// What is answered and written of a row.
fn row_ran<R: Threads + Wait + Sync>(
    rt: &R,
    alloc: Global,
    row: &Row,
) -> (Result<Status, Fault>, Vec<u8>) {
    let (trace, companion) = (whole(TRACE), whole(row.companion));
    match row.asked {
        Asked::Verdict => object_ran::<Verdict, R>(rt, alloc, trace, companion),
        Asked::Waits => object_ran::<WithWaits<Verdict>, R>(rt, alloc, trace, companion),
        Asked::Least => object_ran::<LeastFigures, R>(rt, alloc, trace, companion),
    }
}

#[test]
fn objects_are_read_back(rt: HostRuntime) {
    for row in &ROWS {
        let (status, object) = row_ran(&rt, rt.alloc(), row);
        wants_about(&rt, row.name, &status, &Ok(row.status));
        let other = first_other(rt.alloc(), object.as_slice(), row.places);
        wants_about(&rt, row.name, &other, &None);
    }
}
