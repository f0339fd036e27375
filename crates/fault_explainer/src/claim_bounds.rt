//! What a claim has to say, beside what it says.

use crate::companion_lines::word_of;
use crate::names::Named;
use crate::processor::Processor;
use crate::scene::Scene;
use crate::task_words::{verb, weight_words};
use cfs_model::{Act, Claim, ClaimSort, GREATEST_RUNTIME, IDLE_PID, Place, Way};
use runqueue::SchedEntity;
use std::alloc::AllocError;

/// The virtual runtimes that a claim may have, from the least to the greatest, in virtual nanoseconds.
#[derive(Clone, Copy)]
struct Bounds {
    least: i128,
    greatest: i128,
}

/// Of a task that is put back, its own alone.
fn put_back_bounds(task: SchedEntity) -> Bounds {
    let own = i128::from(task.v);
    Bounds {
        least: own,
        greatest: own,
    }
}

/// Of a task that wakes from rest.
fn wake_bounds(scene: &Scene, task: SchedEntity) -> Bounds {
    let own = i128::from(task.v);
    let floor = i128::from(scene.here.queue.floor());
    let credit = i128::from(scene.knobs.credit());
    Bounds {
        least: own.max(floor - credit),
        greatest: own.max(floor),
    }
}

/// Of a new task.
fn fork_bounds(scene: &Scene) -> Bounds {
    let floor = i128::from(scene.here.queue.floor());
    let debit = i128::from(scene.knobs.debit());
    Bounds {
        least: floor,
        greatest: floor + debit,
    }
}

/// A claim that isn't there, or is of the wrong sort.
pub(crate) fn push_claim_missing(text: &mut String, scene: &Scene) -> Result<(), AllocError> {
    push_need(text, scene.subject(), scene.event.act)?;
    match scene.event.ends() {
        Some(_) => push_moved(text, scene),
        None => push_by_the_rules(text, scene),
    }
}

/// What an event does that needs a claim.
fn push_need(text: &mut String, named: Named<'_>, act: Act) -> Result<(), AllocError> {
    let does = match act {
        Act::Switch { .. } => "is put back",
        Act::Wake { .. } => "wakes from rest",
        Act::Born { .. } => "is born",
        Act::Shift { .. } => "is moved",
    };
    writeln!(text, "# {named} {does}, which needs a claim of its own")
}

/// What a task is claimed at by the rules that is put back, woken or born.
fn push_by_the_rules(text: &mut String, scene: &Scene) -> Result<(), AllocError> {
    match claim_bounds(scene) {
        Some(bounds) => push_claim_bounds(
            text,
            scene.event.line,
            scene.event.act.subject(),
            bounds,
        ),
        None => Ok(()),
    }
}

/// The bounds of the claim that an event needs; not of a migration.
fn claim_bounds(scene: &Scene) -> Option<Bounds> {
    let act = scene.event.act;
    match act {
        Act::Switch { prev, .. } => Some(put_back_bounds(scene.task(prev)?)),
        Act::Wake { pid, .. } => Some(wake_bounds(scene, scene.task(pid)?)),
        Act::Born { .. } => Some(fork_bounds(scene)),
        Act::Shift { .. } => None,
    }
}

fn push_claim_bounds(
    text: &mut String,
    line: u32,
    pid: u32,
    bounds: Bounds,
) -> Result<(), AllocError> {
    let Bounds { least, greatest } = bounds;
    if least == greatest {
        writeln!(text, "# by the rules it is: at {line} {pid} {least}")
    } else {
        writeln!(
            text,
            "# by the rules it is: at {line} {pid} V, with V from {least} to {greatest}"
        )
    }
}

/// What a migrated task is claimed at by the rules.
fn push_moved(text: &mut String, scene: &Scene) -> Result<(), AllocError> {
    let pid = scene.event.act.subject();
    match (scene.task(pid), &scene.there) {
        (Some(task), Some(there)) => {
            let v = moved_value(task.v, &scene.here, there);
            push_moved_claim(text, scene.event.line, pid, sort_of(task), v)
        }
        _ => Ok(()),
    }
}

/// What a task is at by the rules that was at this and is migrated: as far from the floor as it was.
fn moved_value(v: i64, here: &Processor, there: &Processor) -> i128 {
    offset(v, here).saturating_add(i128::from(there.queue.floor()))
}

/// Of which sort the claim of a migrated task is.
fn sort_of(task: SchedEntity) -> ClaimSort {
    match task.place {
        Place::Rest => ClaimSort::Pass,
        Place::Run | Place::Wait => ClaimSort::At,
    }
}

fn push_moved_claim(
    text: &mut String,
    line: u32,
    pid: u32,
    sort: ClaimSort,
    v: i128,
) -> Result<(), AllocError> {
    if v.unsigned_abs() > GREATEST_RUNTIME as u128 {
        return writeln!(text, "# by the rules it is {v}, which no companion may say");
    }
    let word = word_of(sort);
    writeln!(text, "# by the rules it is: {word} {line} {pid} {v}")
}

/// A virtual runtime less a processor's floor.
fn offset(v: i64, processor: &Processor) -> i128 {
    i128::from(v) - i128::from(processor.queue.floor())
}

/// A claim that no task needs.
pub(crate) fn push_claim_extra(text: &mut String, scene: &Scene) -> Result<(), AllocError> {
    let act = scene.event.act;
    match act {
        Act::Switch { prev, .. } if prev == IDLE_PID => {
            writeln!(text, "# the event needs no claim: prev_pid is {IDLE_PID}")
        }
        Act::Switch {
            prev,
            way: Way::Sleeps,
            ..
        } => push_goes(text, scene.named(prev), "goes to sleep"),
        Act::Switch {
            prev,
            way: Way::Ends,
            ..
        } => push_goes(text, scene.named(prev), "ends"),
        _ => push_stays(text, scene.subject(), scene.task(scene.event.act.subject())),
    }
}

/// A previous task that needs no claim for how it goes.
fn push_goes(text: &mut String, named: Named<'_>, goes: &str) -> Result<(), AllocError> {
    writeln!(text, "# the event needs no claim: {named} {goes}")
}

/// A task that needs no claim for where it is.
fn push_stays(
    text: &mut String,
    named: Named<'_>,
    task: Option<SchedEntity>,
) -> Result<(), AllocError> {
    match task {
        Some(task) => {
            let verb = verb(&task);
            writeln!(
                text,
                "# the event needs no claim: {named} {verb} there already"
            )
        }
        None => writeln!(text, "# the event needs no claim"),
    }
}

/// A claim of another task.
pub(crate) fn push_claim_pid(text: &mut String, scene: &Scene) -> Result<(), AllocError> {
    let claimed = scene.named(scene.fault.pid);
    let named = scene.subject();
    writeln!(
        text,
        "# the claim is of {claimed}; the event needs one of {named}"
    )
}

/// A previous task that is put back at another virtual runtime than its own.
pub(crate) fn push_wrong_put_back(text: &mut String, scene: &Scene) -> Result<(), AllocError> {
    match (scene.task(scene.fault.pid), scene.event.claim) {
        (Some(task), Some(claim)) => { push_apart(text, scene.named(claim.pid), claim.v, task.v) },
        _ => Ok(()),
    }
}

/// How far what is claimed is from a task's own virtual runtime.
fn push_apart(
    text: &mut String,
    named: Named<'_>,
    claimed: i64,
    own: i64,
) -> Result<(), AllocError> {
    let apart = own.abs_diff(claimed);
    let side = if claimed > own { "above" } else { "below" };
    writeln!(
        text,
        "# {named} is claimed at {claimed}, which is {apart} {side} {own}, where it is after the charge"
    )
}

/// A woken task that is claimed outside its bounds.
pub(crate) fn push_wake_bounds(text: &mut String, scene: &Scene) -> Result<(), AllocError> {
    match scene.task(scene.fault.pid) {
        Some(task) => {
            push_wake_rule(text, task.v, scene.here.queue.floor(), scene.knobs.credit())?;
            push_outside(text, scene, wake_bounds(scene, task))
        }
        None => Ok(()),
    }
}

fn push_wake_rule(text: &mut String, own: i64, floor: i64, credit: u64) -> Result<(), AllocError> {
    writeln!(
        text,
        "# allowed: at least the greater of its own {own} and the floor {floor} less the credit {credit}, at most the greater of {own} and {floor}"
    )
}

/// A new task that is claimed outside its bounds.
pub(crate) fn push_fork_bounds(text: &mut String, scene: &Scene) -> Result<(), AllocError> {
    push_fork_rule(text, scene.here.queue.floor(), scene.knobs.debit())?;
    push_outside(text, scene, fork_bounds(scene))
}

fn push_fork_rule(text: &mut String, floor: i64, debit: u64) -> Result<(), AllocError> {
    writeln!(
        text,
        "# allowed: at least the floor {floor}, at most the floor plus the debit {debit}"
    )
}

/// By how much the claim is outside.
fn push_outside(text: &mut String, scene: &Scene, bounds: Bounds) -> Result<(), AllocError> {
    match scene.event.claim {
        Some(claim) if i128::from(claim.v) < bounds.least => {
            push_beyond(
                text,
                scene.named(claim.pid),
                claim.v,
                "below the least",
                bounds.least,
            )
        }
        Some(claim) => push_beyond(
            text,
            scene.named(claim.pid),
            claim.v,
            "above the greatest",
            bounds.greatest,
        ),
        None => Ok(()),
    }
}

fn push_beyond(
    text: &mut String,
    named: Named<'_>,
    v: i64,
    side: &str,
    bound: i128,
) -> Result<(), AllocError> {
    let apart = i128::from(v).abs_diff(bound);
    writeln!(
        text,
        "# {named} is claimed at {v}, which is {apart} {side}, {bound}"
    )
}

/// What a migration takes along, as each of its ends sees it.
pub(crate) fn push_ticket_unequal(text: &mut String, scene: &Scene) -> Result<(), AllocError> {
    if let Some(task) = scene.task(scene.fault.pid) {
        push_leaves(text, &scene.here, task)?;
    }
    if let (Some(there), Some(claim)) = (&scene.there, scene.event.claim) {
        push_comes(text, there, claim)?;
    }
    push_moved(text, scene)
}

/// At a migration's origin.
fn push_leaves(text: &mut String, here: &Processor, task: SchedEntity) -> Result<(), AllocError> {
    let cpu = here.cpu;
    let weight_words = weight_words(&task);
    let verb = verb(&task);
    let SchedEntity { v, .. } = task;
    let above = offset(v, here);
    writeln!(
        text,
        "# it leaves cpu {cpu}: {verb} at {v}, {weight_words}; {above} from the floor"
    )
}

/// At its destination.
fn push_comes(text: &mut String, there: &Processor, claim: Claim) -> Result<(), AllocError> {
    let cpu = there.cpu;
    let verb = match claim.sort {
        ClaimSort::At => "waits",
        ClaimSort::Pass => "rests",
    };
    let v = claim.v;
    let above = offset(v, there);
    writeln!(
        text,
        "# it comes to cpu {cpu}: {verb} at {v}; {above} from the floor"
    )
}
