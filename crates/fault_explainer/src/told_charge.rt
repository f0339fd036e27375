//! What the companion tells of a charge, beside the exact one.

use crate::charge::Charge;
use crate::names::{Named, Names};
use crate::place_bounds::push_stood;
use crate::scene::Scene;
use cfs_model::ChargeLine;
use runqueue::{Runqueue, SchedEntity};
use std::alloc::AllocError;

/// A charge of who runs, as the companion tells it.
#[derive(Clone, Copy)]
pub(crate) struct ToldCharge {
    exact: Charge,
    /// The virtual runtime after it, in virtual nanoseconds, signed.
    to: i64,
}

impl ToldCharge {
    /// That of who runs, up to a time in nanoseconds; none where what is told is of another task.
    pub(crate) fn at(queue: &Runqueue, time: u64, told: Option<ChargeLine>) -> Option<ToldCharge> {
        let ChargeLine { pid, v, .. } = told?;
        let exact = Charge::at(queue, time)?;
        if exact.task.pid == pid {
            Some(ToldCharge { exact, to: v })
        } else {
            None
        }
    }

    /// Whether it takes virtual runtime away.
    pub(crate) fn takes_away(&self) -> bool {
        self.to < self.exact.task.v
    }

    /// How far it leads above the exact charge, in virtual nanoseconds; below 0 where it leads below that.
    fn stray(&self) -> i128 {
        i128::from(self.to).saturating_sub(self.exact.to())
    }

    /// The task's drift after it, in virtual nanoseconds.
    pub(crate) fn drift_after(&self) -> i128 {
        i128::from(self.exact.task.drift).saturating_add(self.stray())
    }
}

/// The told charge that a processor took, if one was told.
pub(crate) fn push_told_charge(
    text: &mut String,
    cpu: u32,
    told: Option<ToldCharge>,
    names: &Names,
) -> Result<(), AllocError> {
    match told {
        Some(told) => push_taken(text, cpu, told, names.named(told.exact.task.pid)),
        None => Ok(()),
    }
}

fn push_taken(
    text: &mut String,
    cpu: u32,
    told: ToldCharge,
    named: Named<'_>,
) -> Result<(), AllocError> {
    let SchedEntity { v, drift, .. } = told.exact.task;
    let to = told.to;
    let after = told.drift_after();
    writeln!(
        text,
        "# told charge at cpu {cpu}: {named} from {v} to {to}, so its drift goes from {drift} to {after}"
    )
}

/// What is wrong with a told charge: whose it is, that it takes virtual runtime away, or how far its task drifts.
pub(crate) fn push_wrong_charge(text: &mut String, scene: &Scene) -> Result<(), AllocError> {
    let queue = &scene.here.queue;
    match ToldCharge::at(queue, scene.event.time, scene.event.charge) {
        Some(told) => {
            push_told_at(text, &told, scene.named(told.exact.task.pid))?;
            push_drift(text, &told, scene.knobs.drift())
        }
        None => {
            push_not_its(text, scene, queue.runner())?;
            push_stood(text, scene)
        }
    }
}

fn push_not_its(
    text: &mut String,
    scene: &Scene,
    runner: Option<SchedEntity>,
) -> Result<(), AllocError> {
    let cpu = scene.here.cpu;
    let told = scene.named(scene.fault.pid);
    match runner {
        Some(SchedEntity { pid, .. }) => {
            let named = scene.named(pid);
            writeln!(
                text,
                "# the told charge is of {told}, but {named} runs at cpu {cpu}"
            )
        }
        None => writeln!(
            text,
            "# the told charge is of {told}, but nobody runs at cpu {cpu}"
        ),
    }
}

/// Where the told charge leads, beside where the task was, or where it is by the exact charge.
fn push_told_at(text: &mut String, told: &ToldCharge, named: Named<'_>) -> Result<(), AllocError> {
    let SchedEntity { v, .. } = told.exact.task;
    let to = told.to;
    if to < v {
        let apart = v.abs_diff(to);
        return writeln!(
            text,
            "# the companion has {named} at {to}, which is {apart} below {v}, where it was before the charge: no charge takes virtual runtime away"
        );
    }
    let exact = told.exact.to();
    let stray = told.stray();
    let apart = stray.unsigned_abs();
    let side = if stray < 0 { "below" } else { "above" };
    writeln!(
        text,
        "# the companion has {named} at {to}, which is {apart} {side} {exact}, where it is by the exact charge"
    )
}

fn push_drift(text: &mut String, told: &ToldCharge, most: u64) -> Result<(), AllocError> {
    let before = told.exact.task.drift;
    let after = told.drift_after();
    writeln!(
        text,
        "# its drift would go from {before} to {after}; the setting allows {most} either way"
    )
}
