use crate::answers::wants;
use cfs_model::{Act, Nice, Way};
use ftrace_line::RecentClocks;
use sched_event::{UsualEvent, usual_line};

/// What is told of the first line of a text: what it says, and what follows it.
fn told(text: &[u8]) -> Option<(Option<UsualEvent>, &[u8])> {
    told_after(text, &mut RecentClocks::new())
}

/// The same where lines were read before.
fn told_after<'a>(
    text: &'a [u8],
    clocks: &mut RecentClocks,
) -> Option<(Option<UsualEvent>, &'a [u8])> {
    match usual_line(text, clocks) {
        Some(usual) => Some((usual.event, usual.rest)),
        None => None,
    }
}

/// An event at this time in nanoseconds.
fn at(time: u64, act: Act) -> Option<UsualEvent> {
    Some(UsualEvent { time, act })
}

/// A switch of processor 0 from task 195, which leaves in this way, to task 87 of nice 5.
fn from_195_to_87(way: Way) -> Act {
    Act::Switch {
        cpu: 0,
        prev: 195,
        prev_nice: Nice::new(0).unwrap(),
        way,
        next: 87,
        next_nice: Nice::new(5).unwrap(),
    }
}

/// The wakeup of task 15.
fn wakes_15() -> Act {
    Act::Wake {
        cpu: 0,
        pid: 15,
        nice: Nice::new(0).unwrap(),
    }
}

/// Switches from task 195 to task 87 by the clock of a real recording.
static SWITCHES: [(&[u8], Way); 5] = [
    (
        b"          record-195     [000] d..2.     8.281105: sched_switch: prev_comm=record prev_pid=195 prev_prio=120 prev_state=S ==> next_comm=spin next_pid=87 next_prio=125\nnext",
        Way::Sleeps,
    ),
    (
        b"          record-195     [000] d..2.     8.281105: sched_switch: prev_comm=record prev_pid=195 prev_prio=120 prev_state=R+ ==> next_comm=spin next_pid=87 next_prio=125\nnext",
        Way::Stays,
    ),
    (
        b"          record-195     [000] d..2.     8.281105: sched_switch: prev_comm=record prev_pid=195 prev_prio=120 prev_state=X ==> next_comm=spin next_pid=87 next_prio=125\nnext",
        Way::Ends,
    ),
    // Six letters of flags, and names with a space, of fifteen bytes, and with bytes beyond those of ASCII.
    (
        b"          record-195     [000] dNh2.4     8.281105: sched_switch: prev_comm=Web Content prev_pid=195 prev_prio=120 prev_state=D ==> next_comm=fifteen_bytes__ next_pid=87 next_prio=125\nnext",
        Way::Sleeps,
    ),
    (
        b"          record-195     [000] d..2.     8.281105: sched_switch: prev_comm=\xc3\xa9 pid prev_pid=195 prev_prio=120 prev_state=R ==> next_comm= next_pid=87 next_prio=125\nnext",
        Way::Stays,
    ),
];

#[test]
fn switches_of_recordings_are_told(rt: HostRuntime) {
    for (text, way) in &SWITCHES {
        let event = at(8_281_105_000, from_195_to_87(*way));
        wants(&rt, &told(text), &Some((event, b"next")));
    }
}

/// The wakeup of task 15 in heads of several kernels and settings.
static WAKEUPS: [&[u8]; 6] = [
    b"            spin-87      [000] dNs4.     8.282570: sched_wakeup: comm=rcu_preempt pid=15 prio=120 target_cpu=000\nnext",
    // With the column of thread groups, known and unknown.
    b"            spin-87      (     87) [000] dNs4.     8.282570: sched_wakeup: comm=rcu_preempt pid=15 prio=120 target_cpu=000\nnext",
    b"            spin-87      (-------) [000] dNs4.     8.282570: sched_wakeup: comm=rcu_preempt pid=15 prio=120 target_cpu=000\nnext",
    // Without flags, and with nine digits behind the point.
    b"            spin-87      [000]     8.282570: sched_wakeup: comm=rcu_preempt pid=15 prio=120 target_cpu=000\nnext",
    b"            spin-87      [000] dNs4.     8.282570000: sched_wakeup: comm=rcu_preempt pid=15 prio=120 target_cpu=000\nnext",
    // A name with a key in it.
    b"            spin-87      [000] dNs4.     8.282570: sched_wakeup: comm=rcu prio=9 pid=15 prio=120 target_cpu=000\nnext",
];

#[test]
fn heads_of_many_kernels_are_told(rt: HostRuntime) {
    for text in &WAKEUPS {
        wants(
            &rt,
            &told(text),
            &Some((at(8_282_570_000, wakes_15()), b"next")),
        );
    }
}

/// Lines that one reader reads one after the other, and their times in nanoseconds.
static CLOCKS: [(&[u8], u64); 14] = [
    (
        b"            spin-87      [000] dNs4.     8.282570: sched_wakeup: comm=rcu_preempt pid=15 prio=120 target_cpu=000\nnext",
        8_282_570_000,
    ),
    (
        b"            spin-87      [000] dNs4.     8.282571: sched_wakeup: comm=rcu_preempt pid=15 prio=120 target_cpu=000\nnext",
        8_282_571_000,
    ),
    // The next second, other flags, the flags of before, and none.
    (
        b"            spin-87      [000] dNs4.     9.000000: sched_wakeup: comm=rcu_preempt pid=15 prio=120 target_cpu=000\nnext",
        9_000_000_000,
    ),
    (
        b"            spin-87      [000] d..2.     9.000001: sched_wakeup: comm=rcu_preempt pid=15 prio=120 target_cpu=000\nnext",
        9_000_001_000,
    ),
    (
        b"            spin-87      [000] dNs4.     9.000002: sched_wakeup: comm=rcu_preempt pid=15 prio=120 target_cpu=000\nnext",
        9_000_002_000,
    ),
    (
        b"            spin-87      [000]     9.000003: sched_wakeup: comm=rcu_preempt pid=15 prio=120 target_cpu=000\nnext",
        9_000_003_000,
    ),
    // One more digit where fewer were read before, and fewer again.
    (
        b"            spin-87      [000] d..2. 1.000000: sched_wakeup: comm=rcu_preempt pid=15 prio=120 target_cpu=000\nnext",
        1_000_000_000,
    ),
    (
        b"            spin-87      [000] d..2. 12.000000: sched_wakeup: comm=rcu_preempt pid=15 prio=120 target_cpu=000\nnext",
        12_000_000_000,
    ),
    (
        b"            spin-87      [000] d..2. 1.500000: sched_wakeup: comm=rcu_preempt pid=15 prio=120 target_cpu=000\nnext",
        1_500_000_000,
    ),
    // Sixteen bytes before the point, seventeen, and sixteen again.
    (
        b"            spin-87      [000] d..2. 123456789.000001: sched_wakeup: comm=rcu_preempt pid=15 prio=120 target_cpu=000\nnext",
        123_456_789_000_001_000,
    ),
    (
        b"            spin-87      [000] d..2. 1234567890.000001: sched_wakeup: comm=rcu_preempt pid=15 prio=120 target_cpu=000\nnext",
        1_234_567_890_000_001_000,
    ),
    (
        b"            spin-87      [000] d..2. 123456789.000002: sched_wakeup: comm=rcu_preempt pid=15 prio=120 target_cpu=000\nnext",
        123_456_789_000_002_000,
    ),
    // Two spaces before the flags, and a time in their place.
    (
        b"            spin-87      [000]  d..2.     9.000004: sched_wakeup: comm=rcu_preempt pid=15 prio=120 target_cpu=000\nnext",
        9_000_004_000,
    ),
    (
        b"            spin-87      [000] 8.282570     9.000005: sched_wakeup: comm=rcu_preempt pid=15 prio=120 target_cpu=000\nnext",
        9_000_005_000,
    ),
];

#[test]
fn each_line_is_told_by_its_own_clock(rt: HostRuntime) {
    let mut clocks = RecentClocks::new();
    for _ in 0..2 {
        for (text, time) in &CLOCKS {
            wants(
                &rt,
                &told_after(text, &mut clocks),
                &Some((at(*time, wakes_15()), b"next")),
            );
        }
    }
}

#[test]
fn births_and_migrations_are_told(rt: HostRuntime) {
    let born = at(
        8_280_957_000,
        Act::Born {
            cpu: 0,
            pid: 233,
            nice: Nice::new(0).unwrap(),
        },
    );
    wants(
        &rt,
        &told(
            b"          record-195     [000] d..2.     8.280957: sched_wakeup_new: comm=record pid=233 prio=120 target_cpu=000\n",
        ),
        &Some((born, b"")),
    );
    let moved = at(
        8_280_957_000,
        Act::Shift {
            orig: 0,
            dest: 1,
            pid: 233,
            nice: Nice::new(-20).unwrap(),
        },
    );
    wants(
        &rt,
        &told(
            b"          record-195     [000] d..2.     8.280957: sched_migrate_task: comm=record pid=233 prio=100 orig_cpu=0 dest_cpu=1",
        ),
        &Some((moved, b"")),
    );
}

#[test]
fn lines_of_other_events_are_told(rt: HostRuntime) {
    wants(
        &rt,
        &told(
            b"          record-195     [000] d..2.     8.280957: sched_stat_runtime: comm=record pid=195 runtime=1 [ns]\nnext",
        ),
        &Some((None, b"next")),
    );
    wants(
        &rt,
        &told(b"          record-195     [000] d..2.     8.280957: sched_wakeup_new comm\nnext"),
        &Some((None, b"next")),
    );
}

/// Lines that are left to the reader of all lines, each for one thing in it.
static LEFT: [&[u8]; 17] = [
    b"",
    b"\n",
    b"# tracer: nop\n",
    b"CPU:0 [LOST 12 EVENTS]\n",
    // A line ends in the name's columns, in the flags, in a task's name, in a state, and before the last field.
    b"            sp\nn-87      [000] dNs4.     8.282570: sched_wakeup: comm=rcu_preempt pid=15 prio=120 target_cpu=000\n",
    b"            spin-87      [000] d\ns4.     8.282570: sched_wakeup: comm=rcu_preempt pid=15 prio=120 target_cpu=000\n",
    b"            spin-87      [000] dNs4.     8.282570: sched_wakeup: comm=rcu\npreempt pid=15 prio=120 target_cpu=000\n",
    b"          record-195     [000] d..2.     8.281105: sched_switch: prev_comm=record prev_pid=195 prev_prio=120 prev_state=S\n ==> next_comm=spin next_pid=87 next_prio=125\n",
    b"            spin-87      [000] dNs4.     8.282570: sched_wakeup: comm=rcu_preempt pid=15 prio=120 target_cpu=\n000\n",
    // A field that older kernels print, and bytes behind the last field.
    b"            spin-87      [000] dNs4.     8.282570: sched_wakeup: comm=rcu_preempt pid=15 prio=120 success=1 target_cpu=000\n",
    b"            spin-87      [000] dNs4.     8.282570: sched_wakeup: comm=rcu_preempt pid=15 prio=120 target_cpu=000\r\n",
    // A name of sixteen bytes, a pid and a prio out of range, and the idle task.
    b"            spin-87      [000] dNs4.     8.282570: sched_wakeup: comm=a_name_of_16____ pid=15 prio=120 target_cpu=000\n",
    b"            spin-87      [000] dNs4.     8.282570: sched_wakeup: comm=rcu_preempt pid=4194305 prio=120 target_cpu=000\n",
    b"            spin-87      [000] dNs4.     8.282570: sched_wakeup: comm=rcu_preempt pid=15 prio=99 target_cpu=000\n",
    b"            spin-87      [000] dNs4.     8.282570: sched_wakeup: comm=swapper/0 pid=0 prio=120 target_cpu=000\n",
    // A name that holds the key behind it: it is cut there, and then another key stands where one has to.
    b"          record-195     [000] d..2.     8.281105: sched_switch: prev_comm= prev_pid=1 prev_pid=195 prev_prio=120 prev_state=Z ==> next_comm=spin next_pid=87 next_prio=125\nnext",
    // A processor out of range.
    b"            spin-87      [65536] dNs4.     8.282570: sched_wakeup: comm=rcu_preempt pid=15 prio=120 target_cpu=000\n",
];

#[test]
fn lines_of_another_form_are_left(rt: HostRuntime) {
    for text in &LEFT {
        wants(&rt, &told(text), &None);
    }
}
