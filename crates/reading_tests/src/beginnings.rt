use crate::answers::wants;
use ftrace_line::is_settled;

/// The first of these beginnings that isn't told as it should be.
fn mistaken(lines: &[&'static str], settled: bool) -> Option<&'static str> {
    for line in lines {
        if is_settled(line.as_bytes()) != settled {
            return Some(*line);
        }
    }
    None
}

static SHORT: [&str; 8] = [
    "",
    " ",
    "hello",
    "\r",
    "\0",
    // Sixteen bytes: the one that tells is the next.
    "                ",
    "0123456789abcdef",
    "            t101",
];

#[test]
fn a_beginning_of_sixteen_bytes_settles_nothing(rt: HostRuntime) {
    wants(&rt, &mistaken(&SHORT, false), &None);
}

static SHAPED: [&str; 10] = [
    "            t101-",
    "            t101-101     (    101) [000]",
    "            t101-101     [000] d..2.   100.004000: sched_wakeup",
    "            t101-101     [000] d..2.   100.004000: sched_switch: prev_comm=t101",
    // Whatever fails behind the shape, and whatever the name.
    "            t101-x",
    "            t101-101     [65536] d..2.   100.004000: sched_",
    "            t101-101     [000] d..2.   100.004000: irq_handler_entry: irq=1",
    "            t101-101     [000]x",
    "                -",
    " # tracer: nop  -",
];

#[test]
fn the_shape_of_a_head_settles_nothing(rt: HostRuntime) {
    wants(&rt, &mistaken(&SHAPED, false), &None);
}

static NOTICES: [&str; 7] = [
    "C",
    "CPU:",
    "CPU:0 [LOST 12 EVEN",
    "CPU:0 [LOST EVENTS]",
    // None any more.
    "CPU:0 [LOST EVENTS] ",
    "CPU:0 [LOST x    ",
    "CPU:00000000000000000000",
];

#[test]
fn the_front_of_a_notice_settles_nothing(rt: HostRuntime) {
    wants(&rt, &mistaken(&NOTICES, false), &None);
}

static COMMENTS: [&str; 3] = ["#", "# tracer: nop", "#               -"];

#[test]
fn a_comment_is_settled(rt: HostRuntime) {
    wants(&rt, &mistaken(&COMMENTS, true), &None);
}

static SHAPELESS: [&str; 9] = [
    // Seventeen bytes.
    "                 ",
    "\0\0\0\0\0\0\0\0\0\0\0\0\0\0\0\0\0",
    "\r\r\r\r\r\r\r\r\r\r\r\r\r\r\r\r\r",
    "0123456789abcdefg",
    "            t101+",
    // A `-` a column too early, and one too late.
    "           t101-1",
    "             t101-101     [000] d..2.   100.004000: sched_wakeup",
    // No space in front, though the `-` is there.
    "\t           t101-101     [000] d..2.   100.004000: sched_wakeup",
    "CPU 0 [LOST EVENTS]",
];

#[test]
fn a_line_without_a_shape_is_settled(rt: HostRuntime) {
    wants(&rt, &mistaken(&SHAPELESS, true), &None);
}
