//! How long it takes to name the pids of a trace's births, by the hash that finds them.

use crate::endings::{out_of_memory, refused};
use crate::stopwatch::Stopwatch;
use cfs_model::Memory;
use indexmap::IndexMap;
use pid_table::PidTable;
use sched_record::Trace;
use std::alloc::Global;
use std::io;
use std::rt::Clock;

/// Names the pids of a trace's births, in their order, in a `PidTable`, and in an `IndexMap` with its own hash, whose
/// seed is fixed. Prints how long each took, and how many pids there are.
pub fn print_naming<R: AllocGlobal + Clock + Print>(rt: &R, trace: &Trace) -> io::Result<()> {
    let alloc = rt.alloc();
    let born = born_in(alloc, trace).map_err(out_of_memory)?;
    let mut watch = Stopwatch::start(rt)?;
    let in_table = named_in_table(alloc, &born).map_err(out_of_memory)?;
    watch.print_lap(rt)?;
    let in_map = named_in_map(alloc, &born).map_err(out_of_memory)?;
    watch.print_lap(rt)?;
    if in_table != in_map {
        return Err(refused());
    }
    println!(rt; "{in_table}")
}

/// The pids of a trace's births.
fn born_in(alloc: Global, trace: &Trace) -> Result<Vec<u32>, Memory> {
    let mut pids = Vec::new(alloc);
    for event in trace.events() {
        if let Some(pid) = event.act.begun() {
            pids.push(pid)?;
        }
    }
    Ok(pids)
}

/// Names pids in a table, and tells how many there are.
fn named_in_table(alloc: Global, pids: &[u32]) -> Result<usize, Memory> {
    let mut table = PidTable::new(alloc);
    for pid in pids {
        table.make_room()?;
        if table.index_of(*pid).is_none() {
            table.add(*pid, 0u64);
        }
    }
    Ok(table.pids().len())
}

/// Names pids in a map whose hash has a fixed seed, and tells how many there are.
fn named_in_map(alloc: Global, pids: &[u32]) -> Result<usize, Memory> {
    let mut map = IndexMap::new(alloc);
    for pid in pids {
        map.insert(*pid, 0u64)?;
    }
    Ok(map.len())
}
