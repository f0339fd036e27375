//! A switch that is missing in a trace, as the heads of its lines show.

use crate::head::Head;
use crate::names::Names;
use crate::scene::Scene;
use cfs_model::{Memory, NO_LINE};
use recent_past::{Moment, RecentPast};
use std::alloc::AllocError;
use task_names::TraceText;

/// The heads of so many lines before a fault are looked at.
const MOST_HEADS: u32 = 100;

/// A line whose head names another task than the one that should run at its processor.
#[derive(Clone, Copy)]
pub(crate) struct Gap {
    line: u32,
    pid: u32,
    /// Who should run there.
    runner: u32,
    /// The last line before it that fits; `NO_LINE` where none does.
    behind: u32,
}

/// The first such line behind the last switch at a processor and before a line, among those that are looked at.
pub(crate) fn gap_before<T: TraceText>(
    past: &RecentPast,
    cpu: u32,
    line: u32,
    runner: u32,
    names: &mut Names,
    trace: &mut T,
) -> Result<Option<Gap>, Memory> {
    let switch = line_of_switch(past, cpu, line);
    let first = switch
        .saturating_add(1)
        .max(line.saturating_sub(MOST_HEADS));
    // Where lines may be left out, the switch is no line right behind which another is missing.
    let mut behind = if first > switch.saturating_add(1) {
        NO_LINE
    } else {
        switch
    };
    for line in first..line {
        match head_at(trace, names, cpu, line)? {
            Some(pid) if pid != runner => {
                return Ok(Some(Gap {
                    line,
                    pid,
                    runner,
                    behind,
                }));
            }
            Some(_) => behind = line,
            None => {}
        }
    }
    Ok(None)
}

/// The line of the last switch at a processor before another line; `NO_LINE` where there is none.
fn line_of_switch(past: &RecentPast, cpu: u32, line: u32) -> u32 {
    match past.switch_before(cpu, line) {
        Some(Moment { line, .. }) => line,
        None => NO_LINE,
    }
}

/// The pid in the head of a line, where that is of this processor and can be read again. Its names are learnt.
fn head_at<T: TraceText>(
    trace: &mut T,
    names: &mut Names,
    cpu: u32,
    number: u32,
) -> Result<Option<u32>, Memory> {
    let Some(line) = trace.line(number)? else {
        return Ok(None);
    };
    names.learn_line(line.as_slice())?;
    let head = Head::of(line.as_slice()).filter(|head| head.cpu == cpu);
    Ok(head.map(|head| head.pid))
}

/// Says that a switch is missing, where the heads of the lines before the fault show it.
pub(crate) fn push_gap(text: &mut String, scene: &Scene) -> Result<(), AllocError> {
    match scene.gap {
        Some(gap) => push_missing(text, scene, gap),
        None => Ok(()),
    }
}

fn push_missing(text: &mut String, scene: &Scene, gap: Gap) -> Result<(), AllocError> {
    let Gap { line, behind, .. } = gap;
    let pid = scene.named(gap.pid);
    let runner = scene.named(gap.runner);
    if behind == NO_LINE {
        writeln!(
            text,
            "# the head of line {line} names {pid}, where {runner} should run: a switch is missing before it"
        )
    } else {
        writeln!(
            text,
            "# the head of line {line} names {pid}, where {runner} should run: a switch is missing behind line {behind}"
        )
    }
}
