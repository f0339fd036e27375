use audit_crew::Gate;
use cfs_model::Memory;
use std::alloc::Global;
use std::sync::atomic::{AtomicU64, Ordering};

/// A gate that holds nobody up, and counts how often each auditor enters.
#[derive(Drop)]
pub struct CountingGate {
    /// By processor.
    entries: Vec<AtomicU64>,
}

impl CountingGate {
    /// For so many processors.
    pub fn new(alloc: Global, cpus: u32) -> Result<CountingGate, Memory> {
        let mut entries = Vec::new(alloc);
        for _cpu in 0..cpus {
            entries.push(AtomicU64::new(0))?;
        }
        Ok(CountingGate { entries })
    }

    /// The most stretches that an auditor replayed: it enters before the first and after each.
    pub fn most_stretches(&self) -> u64 {
        let mut most = 0;
        for entries in &self.entries {
            most = most.max(entries.load(Ordering::SeqCst));
        }
        most.saturating_sub(1)
    }
}

impl Gate for CountingGate {
    fn enter(&self, cpu: u32) {
        if let Some(entries) = self.entries.get(cpu as usize) {
            entries.fetch_add(1, Ordering::SeqCst);
        }
    }
}
