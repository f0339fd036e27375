use crate::endings::refused;
use companion_file::{Companion, read_companion};
use sched_record::{Record, Trace, join, read_trace};
use std::alloc::Global;
use std::rt::Files;
use std::{fs, io};

/// The texts of a trace and of its companion.
#[derive(Drop)]
pub struct Texts {
    pub trace: Vec<u8>,
    pub companion: Vec<u8>,
}

impl Texts {
    /// The texts in the files of these names.
    pub fn read<R: AllocGlobal + Files>(rt: &R, trace: &str, companion: &str) -> io::Result<Texts> {
        let trace = fs::read(rt, trace)?;
        let companion = fs::read(rt, companion)?;
        Ok(Texts { trace, companion })
    }

    /// What both say.
    pub fn both(&self, alloc: Global) -> io::Result<(Trace, Companion)> {
        let trace = read_trace(alloc, &self.trace).map_err(|_| refused())?;
        let companion = read_companion(alloc, &self.companion).map_err(|_| refused())?;
        Ok((trace, companion))
    }

    /// The record that they are together.
    pub fn record(&self, alloc: Global) -> io::Result<Record> {
        let (trace, companion) = self.both(alloc)?;
        join(trace, companion).map_err(|_| refused())
    }
}
