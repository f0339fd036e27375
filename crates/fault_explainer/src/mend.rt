//! At which setting the test that failed would pass, or that it passes at none.

use crate::scene::Scene;
use crate::told_charge::ToldCharge;
use cfs_model::{GREATEST_SETTING, Kind, Setting};
use std::alloc::AllocError;

/// The setting that a test asks for.
#[derive(Clone, Copy)]
struct Mend {
    setting: Setting,
    /// The least of it at which the test passes: of the slack in nanoseconds, of the others in virtual ones.
    least: u128,
}

/// Which setting would do, and how much of it; or that none would.
pub(crate) fn push_mend(text: &mut String, scene: &Scene) -> Result<(), AllocError> {
    match asked_for(scene) {
        Some(Mend { setting, least }) if least <= u128::from(GREATEST_SETTING) => {
            push_setting(text, setting.name(), least)
        }
        _ => writeln!(text, "# no setting mends this fault"),
    }
}

fn push_setting(text: &mut String, name: &str, least: u128) -> Result<(), AllocError> {
    writeln!(
        text,
        "# this test passes with --{name} {least} or more; other tests may need more, which --least prints"
    )
}

/// What the failed test asks for; none where it asks for no setting, or for less of one.
fn asked_for(scene: &Scene) -> Option<Mend> {
    match scene.fault.kind {
        Kind::IdleTooLong => slack(scene),
        Kind::WrongCharge => drift(scene),
        Kind::WakeBounds => credit(scene),
        Kind::ForkBounds => debit(scene),
        Kind::NotLeast => granularity(scene),
        _ => None,
    }
}

/// For how long nobody ran beside a waiting task.
fn slack(scene: &Scene) -> Option<Mend> {
    let idled = scene.event.time.saturating_sub(scene.here.since?);
    Some(Mend {
        setting: Setting::Slack,
        least: u128::from(idled),
    })
}

/// How far the told charge leaves its task's drift from 0; none where it takes virtual runtime away.
fn drift(scene: &Scene) -> Option<Mend> {
    let told = ToldCharge::at(&scene.here.queue, scene.event.time, scene.event.charge)?;
    if told.takes_away() {
        return None;
    }
    Some(Mend {
        setting: Setting::Drift,
        least: told.drift_after().unsigned_abs(),
    })
}

/// How far the claim of a woken task is below the floor; none where it is below its own, or above both.
fn credit(scene: &Scene) -> Option<Mend> {
    let v = scene.event.claim?.v;
    let own = scene.task(scene.fault.pid)?.v;
    let floor = scene.here.queue.floor();
    if v < own || v > floor {
        return None;
    }
    Some(Mend {
        setting: Setting::Credit,
        least: u128::from(floor.abs_diff(v)),
    })
}

/// How far the claim of a new task is above the floor; none where it is below that.
fn debit(scene: &Scene) -> Option<Mend> {
    let v = scene.event.claim?.v;
    let floor = scene.here.queue.floor();
    if v < floor {
        return None;
    }
    Some(Mend {
        setting: Setting::Debit,
        least: u128::from(v.abs_diff(floor)),
    })
}

/// How far the next task is above the least that waits.
fn granularity(scene: &Scene) -> Option<Mend> {
    let next = scene.task(scene.fault.pid)?.v;
    let least = scene.here.queue.waiting().first()?.v;
    Some(Mend {
        setting: Setting::Granularity,
        least: u128::from(next.abs_diff(least)),
    })
}
