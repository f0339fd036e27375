use crate::answers::wants;
use cfs_model::{Act, Nice, Way};
use ftrace_line::{Sched, Which};
use sched_event::{Event, EventFault, read_event};

/// The nice value of prio 120.
fn zero() -> Nice {
    Nice::new(0).unwrap()
}

/// The answer for the text of an event on a line of processor 0.
fn read<'a>(which: Which, rest: &'a [u8]) -> Result<Event<'a>, EventFault> {
    read_event(Sched {
        cpu: 0,
        time: 100004000000,
        which,
        rest,
    })
}

/// What the event of a text does.
fn act(which: Which, rest: &[u8]) -> Result<Act, EventFault> {
    match read(which, rest) {
        Ok(event) => Ok(event.act()),
        Err(fault) => Err(fault),
    }
}

/// From task 101, which leaves in this way, to task 102.
fn from_101_to_102(way: Way) -> Act {
    Act::Switch {
        cpu: 0,
        prev: 101,
        prev_nice: zero(),
        way,
        next: 102,
        next_nice: zero(),
    }
}

static WAYS: [(&[u8], Way); 6] = [
    (
        b"prev_comm=a prev_pid=101 prev_prio=120 prev_state=R ==> next_comm=b next_pid=102 next_prio=120",
        Way::Stays,
    ),
    (
        b"prev_comm=a prev_pid=101 prev_prio=120 prev_state=X+ ==> next_comm=b next_pid=102 next_prio=120",
        Way::Stays,
    ),
    (
        b"prev_comm=a prev_pid=101 prev_prio=120 prev_state=RX ==> next_comm=b next_pid=102 next_prio=120",
        Way::Ends,
    ),
    (
        b"prev_comm=a prev_pid=101 prev_prio=120 prev_state=Z ==> next_comm=b next_pid=102 next_prio=120",
        Way::Ends,
    ),
    (
        b"prev_comm=a prev_pid=101 prev_prio=120 prev_state=D|x ==> next_comm=b next_pid=102 next_prio=120",
        Way::Ends,
    ),
    (
        b"prev_comm=a prev_pid=101 prev_prio=120 prev_state=SR ==> next_comm=b next_pid=102 next_prio=120",
        Way::Sleeps,
    ),
];

/// The first text in the table that isn't read as a switch from task 101, which leaves so, to task 102.
fn misread_way() -> Option<&'static [u8]> {
    for (text, way) in &WAYS {
        if act(Which::Switch, text) != Ok(from_101_to_102(*way)) {
            return Some(*text);
        }
    }
    None
}

#[test]
fn states_tell_the_way_out(rt: HostRuntime) {
    wants(&rt, &misread_way(), &None);
}

#[test]
fn births_and_migrations_are_read(rt: HostRuntime) {
    let born = b"comm=t5 pid=5 prio=125 target_cpu=003";
    let moved = b"comm=t5 pid=5 prio=120 orig_cpu=1 dest_cpu=0";
    wants(
        &rt,
        &act(Which::WakeupNew, born),
        &Ok(Act::Born {
            cpu: 3,
            pid: 5,
            nice: Nice::new(5).unwrap(),
        }),
    );
    wants(
        &rt,
        &act(Which::MigrateTask, moved),
        &Ok(Act::Shift {
            orig: 1,
            dest: 0,
            pid: 5,
            nice: zero(),
        }),
    );
}

/// The idle task's prio is no number that is looked at, and its state none by which it leaves.
const IDLE: &[u8] =
    b"prev_comm=swapper/0 prev_pid=0 prev_prio=99999999999999999999 prev_state=S ==> next_comm=t102 next_pid=102 next_prio=120";

#[test]
fn the_idle_task_has_no_prio_and_stays(rt: HostRuntime) {
    let wanted = Act::Switch {
        cpu: 0,
        prev: 0,
        prev_nice: zero(),
        way: Way::Stays,
        next: 102,
        next_nice: zero(),
    };
    wants(&rt, &act(Which::Switch, IDLE), &Ok(wanted));
}

/// The slices of a text's event: of a switch the two names with the state between them, of a wakeup the name.
fn slices(which: Which, text: &[u8]) -> Option<(&[u8], &[u8], &[u8])> {
    match read(which, text) {
        Ok(Event::Switch(switch)) => Some((switch.prev_name, switch.prev_state, switch.next_name)),
        Ok(Event::Wakeup(wakeup)) => Some((wakeup.name, &[], &[])),
        _ => None,
    }
}

#[test]
fn names_are_slices_of_the_line(rt: HostRuntime) {
    let text =
        b"prev_comm=a prev_pid=5 prev_pid=101 prev_prio=120 prev_state=R+ ==> next_comm=my name next_pid=102 next_prio=120";
    wants(
        &rt,
        &slices(Which::Switch, text),
        &Some((
            b"a prev_pid=5".as_slice(),
            b"R+".as_slice(),
            b"my name".as_slice(),
        )),
    );
    let text = b"comm= pid=1 prio=2 pid=7 prio=120 target_cpu=000";
    wants(
        &rt,
        &slices(Which::Wakeup, text),
        &Some((b" pid=1 prio=2".as_slice(), b"".as_slice(), b"".as_slice())),
    );
}
