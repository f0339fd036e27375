use crate::answers::wants;
use ftrace_line::{Line, LineFault, Sched, Which, one_reading, read_line};
use sched_event::{EventFault, read_event};
use text_parts::lines::next_line;
use text_parts::numerals::{MANY, digit_count, number_at, numeral_at};
use text_parts::time::read_time;

/// The text of each event among the heads.
const WAKEUP: &[u8] = b"comm=t101 pid=101 prio=120 target_cpu=000";

/// The processor, the time and the kind of an event with that text.
fn head_of(line: &[u8]) -> Option<(u32, u64, Which)> {
    match read_line(line) {
        Ok(Line::Sched(event)) if event.rest == WAKEUP => {
            Some((event.cpu, event.time, event.which))
        }
        _ => None,
    }
}

static HEADS: [(&[u8], u32, u64, Which); 10] = [
    // The name's columns hold any bytes, `-` and spaces among them.
    (
        b"            t101-101     [000] d..2.   100.004000: sched_wakeup: comm=t101 pid=101 prio=120 target_cpu=000",
        0,
        100_004_000_000,
        Which::Wakeup,
    ),
    (
        b" \xff\xff a-1 [007] -:-101     [000] d..2.   100.004000: sched_wakeup: comm=t101 pid=101 prio=120 target_cpu=000",
        0,
        100_004_000_000,
        Which::Wakeup,
    ),
    // With the column of thread groups, known and unknown.
    (
        b"            t101-101     (    101) [000] d..2.   100.004000: sched_wakeup_new: comm=t101 pid=101 prio=120 target_cpu=000",
        0,
        100_004_000_000,
        Which::WakeupNew,
    ),
    (
        b"            t101-101     (-------) [063] d..2.   100.004000: sched_wakeup: comm=t101 pid=101 prio=120 target_cpu=000",
        63,
        100_004_000_000,
        Which::Wakeup,
    ),
    // Without flags, with nanoseconds, and with both numbers at their greatest.
    (
        b"            t101-101     [000]   100.004000: sched_wakeup: comm=t101 pid=101 prio=120 target_cpu=000",
        0,
        100_004_000_000,
        Which::Wakeup,
    ),
    (
        b"            t101-101     [0001] d..2. 0.000000017: sched_wakeup: comm=t101 pid=101 prio=120 target_cpu=000",
        1,
        17,
        Which::Wakeup,
    ),
    (
        b"            t101-101     [65535] d..2. 4294967295.999999: sched_wakeup: comm=t101 pid=101 prio=120 target_cpu=000",
        65535,
        4_294_967_295_999_999_000,
        Which::Wakeup,
    ),
    // Forty zeros in front change no number.
    (
        b"            t101-101     [0000000000000000000000000000000000000000005] d..2. 00000000000000000000000000000000000000000100.004000: sched_wakeup: comm=t101 pid=101 prio=120 target_cpu=000",
        5,
        100_004_000_000,
        Which::Wakeup,
    ),
    // A word of flags that looks like a time, a processor or a thread group.
    (
        b"            t101-101     [000] 1.000000 2.000000: sched_migrate_task: comm=t101 pid=101 prio=120 target_cpu=000",
        0,
        2_000_000_000,
        Which::MigrateTask,
    ),
    (
        b"            t101-101     [000] (101)[001]\t 2.000000: sched_wakeup: comm=t101 pid=101 prio=120 target_cpu=000",
        0,
        2_000_000_000,
        Which::Wakeup,
    ),
];

/// The first line in the table whose head is read otherwise.
fn misread_head() -> Option<&'static [u8]> {
    for (line, cpu, time, which) in &HEADS {
        if head_of(line) != Some((*cpu, *time, *which)) {
            return Some(*line);
        }
    }
    None
}

#[test]
fn heads_are_read(rt: HostRuntime) {
    wants(&rt, &misread_head(), &None);
    one_reading();
}

static OTHERS: [(&[u8], Result<Line<'static>, LineFault>); 20] = [
    (b"", Ok(Line::Comment)),
    (b"#", Ok(Line::Comment)),
    (b"# tracer: nop", Ok(Line::Comment)),
    (b"CPU:0 [LOST EVENTS]", Ok(Line::Lost)),
    (b"CPU:12 [LOST 345 EVENTS]", Ok(Line::Lost)),
    (
        b"            t101-101     [000] d..2.   100.004000: ",
        Ok(Line::Other),
    ),
    (
        b"            t101-101     [000] d..2.   100.004000: sched_waking: comm=t101 pid=101",
        Ok(Line::Other),
    ),
    (
        b"            t101-101     [000] d..2.   100.004000: sched_switch:",
        Ok(Line::Other),
    ),
    (b"hello", Err(LineFault::BadHead)),
    (b" #", Err(LineFault::BadHead)),
    (b"CPU:0 [LOST 3 EVENTS] ", Err(LineFault::BadHead)),
    (b"CPU: [LOST EVENTS]", Err(LineFault::BadHead)),
    (
        b"           t101-101     [000] d..2.   100.004000: sched_waking: ",
        Err(LineFault::BadHead),
    ),
    (
        b"            t101-101     [00] d..2.   100.004000: sched_waking: ",
        Err(LineFault::BadHead),
    ),
    (
        b"            t101-101     [000] d..2.   100.00400: sched_waking: ",
        Err(LineFault::BadHead),
    ),
    (
        b"            t101-101     [000] d..2.   100004: sched_waking: ",
        Err(LineFault::BadHead),
    ),
    (
        b"            t101-101     [000] d:2.   100.004000: sched_waking: ",
        Err(LineFault::BadHead),
    ),
    (
        b"            t101-101     [000] d..2. x 100.004000: sched_waking: ",
        Err(LineFault::BadHead),
    ),
    (
        b"            t101-101     [65536] d..2.   100.004000: sched_waking: ",
        Err(LineFault::NumberRange),
    ),
    (
        b"            t101-101     [000] d..2. 4294967296.000000: sched_wakeup: comm=t101 pid=101 prio=120 target_cpu=000",
        Err(LineFault::NumberRange),
    ),
];

/// The first line in the table that is read otherwise.
fn misread_line() -> Option<&'static [u8]> {
    for (line, wanted) in &OTHERS {
        if read_line(line) != *wanted {
            return Some(*line);
        }
    }
    None
}

#[test]
fn other_lines_are_told_apart(rt: HostRuntime) {
    wants(&rt, &misread_line(), &None);
}

/// How many digits a text begins with, by each of the two that count them, their value, and what follows.
fn number_of(text: &[u8]) -> (usize, usize, u64, &[u8]) {
    let number = number_at(text);
    (digit_count(text), number.digits, number.value, number.rest)
}

static NUMBERS: [(&[u8], usize, u64, &[u8]); 6] = [
    (b"12:3", 2, 12, b":3"),
    (b"0042]", 4, 42, b"]"),
    (b"4611686018427387905", 19, 4_611_686_018_427_387_905, b""),
    (b"99999999999999999999", 20, MANY, b""),
    (b"7 ", 1, 7, b" "),
    (b" 7", 0, 0, b" 7"),
];

/// The first text in the table whose number is read otherwise.
fn misread_number() -> Option<&'static [u8]> {
    for (text, digits, value, rest) in &NUMBERS {
        if number_of(text) != (*digits, *digits, *value, *rest) {
            return Some(*text);
        }
    }
    None
}

#[test]
fn numbers_are_read(rt: HostRuntime) {
    wants(&rt, &misread_number(), &None);
    wants(&rt, &numeral_at(b"7 "), &Some((7, b" ".as_slice())));
    wants(&rt, &numeral_at(b" 7"), &None);
}

static TIMES: [(&[u8], Option<(u64, u64)>); 5] = [
    (b"100.004000", Some((100, 4_000_000))),
    (b"0.000000001", Some((0, 1))),
    (b"1.00000", None),
    (b".000000", None),
    (b"1.000000 ", None),
];

fn time_of(word: &[u8]) -> Option<(u64, u64)> {
    match read_time(word) {
        Some(time) => Some((time.seconds, time.nanoseconds)),
        None => None,
    }
}

/// The first word in the table that is read as another time.
fn misread_time() -> Option<&'static [u8]> {
    for (word, wanted) in &TIMES {
        if time_of(word) != *wanted {
            return Some(*word);
        }
    }
    None
}

#[test]
fn times_are_read(rt: HostRuntime) {
    wants(&rt, &misread_time(), &None);
}

#[test]
fn lines_end_at_line_feeds(rt: HostRuntime) {
    wants(
        &rt,
        &next_line(b"a b\n\nc"),
        &(b"a b".as_slice(), b"\nc".as_slice()),
    );
    wants(&rt, &next_line(b"c"), &(b"c".as_slice(), b"".as_slice()));
}

/// A wakeup whose line ends in a carriage return.
const RETURNED: &[u8] =
    b"            t101-101     [000] d..2.   100.004000: sched_wakeup: comm=t101 pid=101 prio=120 target_cpu=000\r";

/// The last byte of the text on an event's line, and why that text is refused.
fn fields_of(line: &[u8]) -> Option<(Option<u8>, EventFault)> {
    let Ok(Line::Sched(event)) = read_line(line) else {
        return None;
    };
    let last = event.rest.last().copied();
    match read_event(event) {
        Ok(_) => None,
        Err(fault) => Some((last, fault)),
    }
}

/// A carriage return ends no line: it is a byte of its line, where no comment, head or field has a place for it.
#[test]
fn a_carriage_return_belongs_to_its_line(rt: HostRuntime) {
    let comment = b"# tracer: nop\r".as_slice();
    let empty = b"\r".as_slice();
    wants(
        &rt,
        &next_line(b"# tracer: nop\r\n\r\n"),
        &(comment, b"\r\n".as_slice()),
    );
    wants(&rt, &read_line(comment), &Ok(Line::Comment));
    wants(&rt, &read_line(empty), &Err(LineFault::BadHead));
    wants(
        &rt,
        &fields_of(RETURNED),
        &Some((Some(13), EventFault::BadFields)),
    );
}
