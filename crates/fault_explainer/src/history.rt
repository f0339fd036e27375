//! How those who run and wait at a processor came there.

use crate::origin::Origin;
use crate::processor::Processor;
use crate::processor_lines::MOST_WAITING;
use cfs_model::Memory;
use recent_past::{Placing, RecentPast};
use runqueue::Runqueue;
use std::alloc::{AllocError, Global};

/// The origins of who runs at a processor before a line, and of those who wait there, as far as they are shown.
pub(crate) fn origins(
    alloc: Global,
    past: &RecentPast,
    processor: &Processor,
    line: u32,
) -> Result<Vec<Origin>, Memory> {
    let Processor { cpu, queue, .. } = processor;
    let shown = shown_waiting(alloc, queue)?;
    let placings = past.placings_before(*cpu, line, shown.as_slice())?;
    let mut origins = Vec::new(alloc);
    for pid in &shown {
        origins.push(waiting_origin(past, *pid, placings.as_slice()))?;
    }
    if let Some(task) = queue.runner() {
        origins.push(Origin::of_runner(past, *cpu, line, task.pid))?;
    }
    Ok(origins)
}

/// The origin of a task that waits: one that was never placed stands there at the start.
fn waiting_origin(past: &RecentPast, pid: u32, placings: &[Placing]) -> Origin {
    match placings.iter().find(|placing| placing.claim.pid == pid) {
        Some(placing) => Origin::placed(past, placing),
        None => Origin::at_start(past, pid),
    }
}

/// The pids of those who wait and are shown.
fn shown_waiting(alloc: Global, queue: &Runqueue) -> Result<Vec<u32>, AllocError> {
    let mut shown = Vec::new(alloc);
    for index in 0..MOST_WAITING {
        if let Some(waiting) = queue.waiting().nth(index) {
            shown.push(waiting.pid)?;
        }
    }
    Ok(shown)
}
