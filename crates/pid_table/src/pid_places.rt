ghost use Rattle.std.specs.Prelude.{◌≡◌, ◌≢◌, ◌<◌, ◌≤◌, ◌+◌, ◌^◌, ℕ, true, length, slice_index_or, OnOk, vec_capacity};
ghost use Rattle.pid_table.specs.Places.{AreNodes, AreLevels, IsPadded, PointsAt, place_of, has_room};
ghost use Rattle.pid_table.specs.Places.{top_index, branch_index, leaf_index};

use std::alloc::{AllocError, Global};
use std::fmt;
use std::fmt::{Debug, Formatter, Write};

/// How many words the first level has: one for each 1,024 pids, and the last for all pids from 2^22 on.
const TOPS: usize = 4097;

/// How many words a branch has: one for each 32 pids.
const BRANCH: usize = 32;

/// How many words a leaf has: one for each pid.
const LEAF: usize = 32;

/// Where each pid's row is looked for: three levels of words, by the bits of the pid. A word of an upper level is the
/// index at which a node of the next one begins. The first node of a level is empty, so a pid without a row leads to a
/// word 0 there. A system gives pids in turn: so those that are alive stand in few nodes, and these stay in the cache.
#[derive(Drop)]
pub(crate) struct PidPlaces {
    tops: Vec<u32>,
    branches: Vec<u32>,
    leaves: Vec<u32>,
}

impl PidPlaces {
    /// No pid has a row. Takes no memory.
    pub(crate) fn new(alloc: Global) -> PidPlaces
        ensures { AreLevels result }
    {
        PidPlaces {
            tops: Vec::new(alloc),
            branches: Vec::new(alloc),
            leaves: Vec::new(alloc),
        }
    }

    /// Where a pid's row is looked for, counted from 1; 0 if it has none.
    #[inline(always)]
    pub(crate) fn place_of(&self, pid: u32) -> u32
        ensures { result ≡ place_of self.now pid }
    {
        let branch = word_at(&self.tops, top_index(pid));
        let leaf = word_at(&self.branches, branch_index(branch as usize, pid));
        word_at(&self.leaves, leaf_index(leaf as usize, pid))
    }

    /// Makes room for the place of one pid more.
    pub(crate) fn make_room(&mut self) -> Result<(), AllocError>
        requires { AreLevels self.old }
        ensures levels { AreLevels self.new }
        ensures room { OnOk result (has_room self.new ≡ true) }
        ensures kept { (pid : ℕ) → place_of self.new pid ≡ place_of self.old pid }
    {
        make_words(&mut self.leaves, LEAF)?;
        make_words(&mut self.branches, BRANCH)?;
        make_words(&mut self.tops, TOPS)?;
        self.branches.reserve(BRANCH)?;
        self.leaves.reserve(LEAF)
    }

    /// Sets the place of a pid that has none. Takes no memory.
    pub(crate) fn put(&mut self, pid: u32, place: u32)
        requires levels { AreLevels self.old }
        requires room { has_room self.old ≡ true }
        requires counted { 0 < place }
        ensures levels { AreLevels self.new }
        ensures here { 0 < place_of self.new pid }
        ensures kept { (other : ℕ) → 0 < place_of self.old other → 0 < place_of self.new other }
    {
        let branch = node_at(&mut self.tops, top_index(pid), &mut self.branches, BRANCH);
        let leaf = node_at(
            &mut self.branches,
            branch_index(branch, pid),
            &mut self.leaves,
            LEAF,
        );
        self.leaves[leaf_index(leaf, pid)] = place;
    }
}

impl Debug for PidPlaces {
    /// The words aren't shown.
    fn fmt<W: Write>(&self, f: &mut Formatter<W>) -> fmt::Result {
        f.write_str("PidPlaces")
    }
}

/// Which word of the first level is a pid's.
#[inline(always)]
fn top_index(pid: u32) -> usize
    ensures { result ≡ top_index pid }
{
    (pid / 1024).min(4096) as usize
}

/// Which word of the branches is a pid's, where its branch begins at an index.
#[inline(always)]
fn branch_index(branch: usize, pid: u32) -> usize
    requires { branch < 2 ^ 32 }
    ensures { result ≡ branch_index branch pid }
{
    branch + (pid / 32 % 32) as usize
}

/// Which word of the leaves is a pid's, where its leaf begins at an index.
#[inline(always)]
fn leaf_index(leaf: usize, pid: u32) -> usize
    requires { leaf < 2 ^ 32 }
    ensures { result ≡ leaf_index leaf pid }
{
    leaf + (pid % 32) as usize
}

/// A word of a list, 0 behind its last.
#[inline(always)]
fn word_at(words: &[u32], index: usize) -> u32
    ensures { result ≡ slice_index_or words.now index 0 }
{
    match words.get(index) {
        Some(word) => *word,
        None => 0,
    }
}

/// Makes at least so many words, the new ones 0.
fn make_words(words: &mut Vec<u32>, least: usize) -> Result<(), AllocError>
    ensures padded { IsPadded least words.old.items words.new.items }
    ensures enough { OnOk result (least ≤ length words.new.items) }
{
    if words.len() < least {
        words.resize(least, 0)?;
    }
    Ok(())
}

/// The node at which a word points: a new one behind the others, where it pointed at the first.
#[inline(always)]
fn node_at(parents: &mut Vec<u32>, index: usize, nodes: &mut Vec<u32>, size: usize) -> usize
    requires there { index < length parents.old.items }
    requires size { 0 < size }
    requires first { size ≤ length nodes.old.items }
    requires room { length nodes.old.items + size ≤ vec_capacity nodes.old }
    requires few { length nodes.old.items < 2 ^ 32 }
    requires nodes { AreNodes size parents.old.items nodes.old.items }
    ensures nodes { AreNodes size parents.new.items nodes.new.items }
    ensures points { PointsAt parents.old.items parents.new.items index result }
    ensures behind { size ≤ result }
    ensures padded { IsPadded (length nodes.old.items + size) nodes.old.items nodes.new.items }
{
    let node = parents[index] as usize;
    if node > 0 {
        return node;
    }
    let new = nodes.len();
    match nodes.resize(new + size, 0) {
        Ok(()) => {}
        Err(_full) => unreachable!(),
    }
    parents[index] = new as u32;
    new
}
