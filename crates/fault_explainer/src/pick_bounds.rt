//! Who is picked, how long nobody is, and where running leads.

use crate::charge::Charge;
use crate::duration::Nanoseconds;
use crate::names::Named;
use crate::scene::Scene;
use cfs_model::GREATEST_RUNTIME;
use runqueue::WaitingTask;
use std::alloc::AllocError;

/// For how long nobody ran beside a waiting task.
pub(crate) fn push_idle_too_long(text: &mut String, scene: &Scene) -> Result<(), AllocError> {
    match scene.here.since {
        Some(since) => {
            push_idled(text, scene.here.cpu, since, scene.event.time)?;
            push_slack(text, scene.knobs.slack())
        }
        None => Ok(()),
    }
}

fn push_idled(text: &mut String, cpu: u32, since: u64, time: u64) -> Result<(), AllocError> {
    let idled = Nanoseconds(time.saturating_sub(since));
    let since = Nanoseconds(since);
    let time = Nanoseconds(time);
    writeln!(
        text,
        "# cpu {cpu} has idled beside a waiting task since {since}, which is {idled} before this line at {time}"
    )
}

fn push_slack(text: &mut String, slack: u64) -> Result<(), AllocError> {
    let slack = Nanoseconds(slack);
    writeln!(text, "# the slack allows {slack}")
}

/// Where the charge leads.
pub(crate) fn push_range(text: &mut String, scene: &Scene) -> Result<(), AllocError> {
    match Charge::at(&scene.at_fault().queue, scene.event.time) {
        Some(charge) => push_beyond_range(text, charge, scene.named(charge.task.pid)),
        None => Ok(()),
    }
}

fn push_beyond_range(
    text: &mut String,
    charge: Charge,
    named: Named<'_>,
) -> Result<(), AllocError> {
    let to = charge.to();
    let cost = charge.cost();
    writeln!(
        text,
        "# {named} would be at {to}, charged {cost}; neither may be above {GREATEST_RUNTIME}"
    )
}

/// Who waits beside a switch to the idle task.
pub(crate) fn push_idle_beside_waiting(text: &mut String, scene: &Scene) -> Result<(), AllocError> {
    let waiting = scene.here.queue.waiting();
    match waiting.first() {
        Some(least) => push_passed_over(text, scene, *least, waiting.len()),
        None => Ok(()),
    }
}

fn push_passed_over(
    text: &mut String,
    scene: &Scene,
    least: WaitingTask,
    count: usize,
) -> Result<(), AllocError> {
    let cpu = scene.here.cpu;
    let WaitingTask { v, pid } = least;
    let named = scene.named(pid);
    writeln!(
        text,
        "# cpu {cpu} goes idle while {named} waits at {v}; tasks that wait: {count}, allowed: 0"
    )
}

/// How far the next task is above the least that waits.
pub(crate) fn push_not_least(text: &mut String, scene: &Scene) -> Result<(), AllocError> {
    let next = scene.fault.pid;
    match (scene.task(next), scene.here.queue.waiting().first()) {
        (Some(task), Some(least)) => {
            let next = WaitingTask {
                v: task.v,
                pid: next,
            };
            push_above(text, scene, next, *least)
        }
        _ => Ok(()),
    }
}

fn push_above(
    text: &mut String,
    scene: &Scene,
    next: WaitingTask,
    least: WaitingTask,
) -> Result<(), AllocError> {
    let v = next.v;
    let low = least.v;
    let apart = v.abs_diff(low);
    let granularity = scene.knobs.granularity();
    let next = scene.named(next.pid);
    let least = scene.named(least.pid);
    writeln!(
        text,
        "# {next} at {v} is above the least that waits, {least} at {low}, by {apart}; the granularity allows {granularity}"
    )
}
