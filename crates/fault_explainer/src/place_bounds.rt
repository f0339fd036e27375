//! Who stands where, and which prio is printed.

use crate::names::Named;
use crate::scene::{Scene, lies_in_place};
use crate::task_words::{verb, weight_words};
use cfs_model::{Act, IDLE_PID, Kind, Nice, NiceLine};
use replay_model::FirstFault;
use runqueue::SchedEntity;
use std::alloc::AllocError;

/// The prio that a task of nice value 0 prints.
const PRIO_OF_NICE_0: i32 = 120;

/// A migration to where the task is.
pub(crate) fn push_home(text: &mut String, scene: &Scene) -> Result<(), AllocError> {
    let cpu = scene.fault.cpu;
    writeln!(
        text,
        "# orig_cpu and dest_cpu are both {cpu}; a migration needs two processors"
    )
}

/// A switch from a task to itself.
pub(crate) fn push_self_switch(text: &mut String, scene: &Scene) -> Result<(), AllocError> {
    let pid = scene.fault.pid;
    writeln!(
        text,
        "# prev_pid and next_pid are both {pid}; a switch needs two"
    )
}

/// The printed previous task, and who runs.
pub(crate) fn push_prev_not_running(text: &mut String, scene: &Scene) -> Result<(), AllocError> {
    push_runner(text, scene, scene.here.queue.runner())?;
    push_stood(text, scene)
}

fn push_runner(
    text: &mut String,
    scene: &Scene,
    runner: Option<SchedEntity>,
) -> Result<(), AllocError> {
    let cpu = scene.here.cpu;
    let prev = scene.fault.pid;
    match runner {
        Some(SchedEntity { pid, .. }) => {
            let named = scene.named(pid);
            writeln!(text, "# prev_pid is {prev}, but {named} runs at cpu {cpu}")
        }
        None => writeln!(
            text,
            "# prev_pid is {prev}, but nobody runs at cpu {cpu}, so prev_pid has to be {IDLE_PID}"
        ),
    }
}

/// A task that doesn't stand where the event wants it.
pub(crate) fn push_strange(text: &mut String, scene: &Scene) -> Result<(), AllocError> {
    push_absent(text, scene, scene.fault.pid, scene.event.nice)?;
    push_stood(text, scene)
}

fn push_absent(
    text: &mut String,
    scene: &Scene,
    pid: u32,
    change: Option<NiceLine>,
) -> Result<(), AllocError> {
    let cpu = scene.here.cpu;
    let named = scene.named(pid);
    match change {
        Some(change) if change.pid == pid => writeln!(
            text,
            "# the companion changes the nice value of {named}, which doesn't stand at cpu {cpu}"
        ),
        _ => writeln!(text, "# {named} doesn't stand at cpu {cpu}"),
    }
}

/// A task that comes where it lives, or is born while it lives.
pub(crate) fn push_lives(text: &mut String, scene: &Scene) -> Result<(), AllocError> {
    push_life(text, scene.fault, scene.named(scene.fault.pid))?;
    push_stood(text, scene)
}

fn push_life(text: &mut String, fault: FirstFault, named: Named<'_>) -> Result<(), AllocError> {
    let FirstFault { cpu, kind, .. } = fault;
    if kind == Kind::BornTwice {
        writeln!(
            text,
            "# {named} is born at cpu {cpu} while it lives elsewhere"
        )
    } else {
        writeln!(
            text,
            "# {named} comes to cpu {cpu}, where it stands already"
        )
    }
}

/// A task that is moved while it runs.
pub(crate) fn push_running(text: &mut String, scene: &Scene) -> Result<(), AllocError> {
    let cpu = scene.here.cpu;
    let named = scene.named(scene.fault.pid);
    writeln!(
        text,
        "# {named} runs at cpu {cpu}; only a task that waits or rests can be moved"
    )
}

/// A next task that can't be picked.
pub(crate) fn push_next_not_waiting(text: &mut String, scene: &Scene) -> Result<(), AllocError> {
    push_unpicked(text, scene.here.cpu, scene.fault.pid)?;
    push_stood(text, scene)
}

fn push_unpicked(text: &mut String, cpu: u32, pid: u32) -> Result<(), AllocError> {
    writeln!(
        text,
        "# next_pid is {pid}, which doesn't wait at cpu {cpu}; only one that waits there can be picked"
    )
}

/// The printed prio, and the task's own.
pub(crate) fn push_wrong_prio(text: &mut String, scene: &Scene) -> Result<(), AllocError> {
    let pid = scene.fault.pid;
    match scene.task(pid) {
        Some(task) => {
            let printed = printed_nice(scene.event.act, pid);
            push_prios(text, scene.named(pid), task.nice, printed)
        }
        None => Ok(()),
    }
}

fn push_prios(
    text: &mut String,
    named: Named<'_>,
    nice: Nice,
    printed: Nice,
) -> Result<(), AllocError> {
    let own = prio_of(nice);
    let other = prio_of(printed);
    let nice = nice.get();
    writeln!(
        text,
        "# the line prints prio {other} of {named}; by its nice value {nice} it is {own}"
    )
}

fn prio_of(nice: Nice) -> i32 {
    PRIO_OF_NICE_0 + nice.get()
}

/// The nice value that an event prints of one of its tasks.
fn printed_nice(act: Act, task: u32) -> Nice {
    match act {
        Act::Switch {
            prev,
            prev_nice,
            next_nice,
            ..
        } => { if prev == task { prev_nice } else { next_nice } }
        Act::Wake { nice, .. } => nice,
        Act::Born { nice, .. } => nice,
        Act::Shift { nice, .. } => nice,
    }
}

/// Where the fault's task stood before, where the fault lies in that.
pub(crate) fn push_stood(text: &mut String, scene: &Scene) -> Result<(), AllocError> {
    let named = scene.named(scene.fault.pid);
    match scene.stood {
        Some((cpu, task)) => push_stood_at(text, cpu, named, task),
        None if lies_in_place(scene.fault) => writeln!(
            text,
            "# before this line {named} stands nowhere: it wasn't there yet, or it has ended"
        ),
        None => Ok(()),
    }
}

fn push_stood_at(
    text: &mut String,
    cpu: u32,
    named: Named<'_>,
    task: SchedEntity,
) -> Result<(), AllocError> {
    let weight_words = weight_words(&task);
    let verb = verb(&task);
    let SchedEntity { v, .. } = task;
    writeln!(
        text,
        "# before this line {named} {verb} at cpu {cpu}, at {v}, {weight_words}"
    )
}
