use cfs_model::Memory;
use std::alloc::Global;

/// How many pids a page has.
const PAGE: u32 = 256;

/// Where a pid's row is that has none.
const NOWHERE: usize = usize::MAX;

/// A row for each pid that was named, in the order in which they were. Where the row of a pid is stands on the page of
/// that pid and those beside it: no pid is hashed, so none collide.
#[derive(Drop)]
pub(crate) struct PidRows<V> {
    alloc: Global,
    pages: Vec<Vec<usize>>,
    pids: Vec<u32>,
    rows: Vec<V>,
}

impl<V: Copy + Drop> PidRows<V> {
    /// No row.
    pub(crate) fn new(alloc: Global) -> PidRows<V> {
        PidRows {
            alloc,
            pages: Vec::new(alloc),
            pids: Vec::new(alloc),
            rows: Vec::new(alloc),
        }
    }

    /// The pids, in the order in which they were named.
    pub(crate) fn pids(&self) -> &[u32] {
        self.pids.as_slice()
    }

    /// The rows, in the order of their pids.
    pub(crate) fn rows(&self) -> &[V] {
        self.rows.as_slice()
    }

    /// The row of a pid, if it has one.
    pub(crate) fn get(&self, pid: u32) -> Option<V> {
        self.get_ref(pid).copied()
    }

    /// The same, where it stands.
    pub(crate) fn get_ref(&self, pid: u32) -> Option<&V> {
        self.rows.get(self.row_of(pid))
    }

    /// The same, to be changed.
    pub(crate) fn get_mut(&mut self, pid: u32) -> Option<&mut V> {
        let row = self.row_of(pid);
        self.rows.get_mut(row)
    }

    /// Where the row of a pid is.
    fn row_of(&self, pid: u32) -> usize {
        match self.pages.get((pid / PAGE) as usize) {
            Some(page) => page.get((pid % PAGE) as usize).copied().unwrap_or(NOWHERE),
            None => NOWHERE,
        }
    }

    /// The row of a pid is this, whether it had one or not.
    pub(crate) fn set(&mut self, pid: u32, value: V) -> Result<(), Memory> {
        match self.get_mut(pid) {
            Some(row) => *row = value,
            None => self.add(pid, value)?,
        }
        Ok(())
    }

    /// Adds a row for a pid that has none.
    fn add(&mut self, pid: u32, value: V) -> Result<(), Memory> {
        let row = self.rows.len();
        self.make_page((pid / PAGE) as usize)?;
        self.pids.push(pid)?;
        self.rows.push(value)?;
        if let Some(page) = self.pages.get_mut((pid / PAGE) as usize) {
            if let Some(place) = page.get_mut((pid % PAGE) as usize) {
                *place = row;
            }
        }
        Ok(())
    }

    /// Makes the page at an index, where there is none.
    fn make_page(&mut self, index: usize) -> Result<(), Memory> {
        for _ in self.pages.len()..index.saturating_add(1) {
            self.pages.push(Vec::new(self.alloc))?;
        }
        if let Some(page) = self.pages.get_mut(index) {
            if page.is_empty() {
                page.resize(PAGE as usize, NOWHERE)?;
            }
        }
        Ok(())
    }
}
