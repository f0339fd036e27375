//! What is wrong with a stretch at the limits.
ghost use Rattle.std.specs.Prelude.{◌≤◌, ◌↔◌, IfOk, IsTrue};
ghost use Rattle.std.specs.List.{AllByRecursion};
ghost use Rattle.cfs_model.specs.Knobs.{value_at};
ghost use Rattle.recording_audit.specs.Parts.{IsLeastOf, IsOver};
ghost use Rattle.sched_record.specs.Record.{record_view};

use audit_crew::{OpenGate, audit};
use cfs_model::{Knobs, Memory, Setting, least_settings};
use replay_model::FirstFault;
use sched_record::Record;
use std::alloc::Global;
use std::sync::Wait;
use std::thread::Threads;
use ticket_book::Verdict;

/// What is wrong first at the limits with a record that is a run just from these settings on.
pub(crate) fn fault_over<R: Threads + Wait + Sync>(
    rt: &R,
    alloc: Global,
    joined: &Record,
    least: Knobs,
    limits: Knobs,
) -> Result<Option<FirstFault>, Memory>
    requires { IsLeastOf (record_view joined.now) least }
    ensures { IfOk result (IsOver (record_view joined.now) limits) }
{
    least_settings();
    if are_within(least, limits, &Setting::ALL) {
        return Ok(None);
    }
    let closed = audit(rt, alloc, joined, limits, &OpenGate)?;
    match closed.verdict {
        Verdict::Fault(fault) => Ok(Some(fault)),
        Verdict::Run(_) => Ok(None),
    }
}

/// Whether none of these settings is above its limit.
fn are_within(knobs: Knobs, limits: Knobs, settings: &[Setting]) -> bool
    ensures { IsTrue result ↔ AllByRecursion (λ which. value_at knobs which ≤ value_at limits which) settings.now }
{
    for setting in settings {
        if knobs.get(*setting) > limits.get(*setting) {
            return false;
        }
    }
    true
}
