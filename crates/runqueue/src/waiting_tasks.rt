ghost use Rattle.std.specs.Prelude.{◌≡◌, ◌-◌, ◌<◌, ◌≤◌, ◌++◌, ◌∷◌, [], List, true, false, drop, length, slice_index_or};
ghost use Rattle.std.specs.Prelude.{reverse, slice_get, IfOk, OnOk, OnErr};
ghost use Rattle.std.specs.BTreeSet.{contains};
ghost use Rattle.std.specs.List.{list_all};
ghost use Rattle.std.specs.Ordering.{is_gt};
ghost use Rattle.runqueue.specs.Entities.{by_runtime};
ghost use Rattle.runqueue.specs.WaitingTasks.{falls, set_of, IsSettled, Updates};
ghost use Rattle.runqueue.specs.declared.waiting_task.WaitingTask.{WaitingTask as Waiting};

use crate::waiting_task::WaitingTask;
use cfs_model::Memory;
use std::alloc::Global;
use std::collections::BTreeSet;
use std::marker::Model;

/// How many stand in the list at most.
const MOST_LISTED: usize = 64;

/// Those who wait at a processor, by virtual runtime, and of equal ones by pid. A few stand in a list, the least last,
/// where one comes and goes by less work than in a tree. When they become more, all go to the tree, until that is
/// empty: no walk is long, however many wait.
#[derive(Drop)]
pub struct WaitingTasks {
    list: Vec<WaitingTask>,
    tree: BTreeSet<WaitingTask>,
    ghost apart: { 0 < length tree.keys → length list.items ≡ 0 },
    ghost in_order: { falls list.items ≡ true },
}

impl Model for WaitingTasks {
    ghost use Rattle.std.specs.Prelude.{◌++◌, reverse};
    ghost use Rattle.std.specs.BTreeSet.{BTreeSet};
    ghost use Rattle.runqueue.specs.WaitingTasks.{set_of};
    ghost use Rattle.runqueue.specs.declared.waiting_task.WaitingTask.{WaitingTask};

    ghost Value = { BTreeSet WaitingTask };

    ghost view = { λ waiting. set_of (reverse waiting.list.items ++ waiting.tree.keys) };
}

impl WaitingTasks {
    ghost use Rattle.std.specs.Prelude.{[], ◌↔◌, IfSome, IsSome, IsTrue};
    ghost use Rattle.std.specs.BTreeSet.{IsLowerBound, IsOrdered, btree_set_len};

    /// Nobody. Takes no memory.
    pub(crate) fn new(alloc: Global) -> WaitingTasks
        ensures { result.keys ≡ [] }
    {
        WaitingTasks {
            list: Vec::new(alloc),
            tree: BTreeSet::new(alloc),
        }
    }

    /// One more waits.
    #[inline(always)]
    pub(crate) fn insert(&mut self, task: WaitingTask) -> Result<(), Memory>
        ensures updates { OnOk result (Updates self.old self.new task true) }
        ensures err { OnErr result (self.new.keys ≡ self.old.keys) }
    {
        if self.tree.is_empty() && self.list.len() < MOST_LISTED {
            insert_listed(&mut self.list, task)
        } else {
            self.insert_in_tree(task)
        }
    }

    /// The same, where it goes to the tree, and all others with it.
    #[cold]
    #[inline(never)]
    fn insert_in_tree(&mut self, task: WaitingTask) -> Result<(), Memory>
        ensures updates { OnOk result (Updates self.old self.new task true) }
        ensures err { OnErr result (self.new.keys ≡ self.old.keys) }
    {
        if !self.tree.is_empty() {
            self.tree.insert(task)?;
            return Ok(());
        }
        let mut tree = tree_of(*self.list.allocator(), &self.list)?;
        tree.insert(task)?;
        self.list.clear();
        self.tree = tree;
        Ok(())
    }

    /// One waits no more.
    #[inline(always)]
    pub(crate) fn remove(&mut self, task: WaitingTask)
        ensures updates { Updates self.old self.new task false }
    {
        if self.tree.is_empty() {
            remove_listed(&mut self.list, task);
        } else {
            remove_from_tree(&mut self.tree, task);
        }
    }

    /// The least.
    #[inline(always)]
    pub fn first(&self) -> Option<&WaitingTask>
        ensures variant { IsSome result ↔ (0 < btree_set_len self.now) }
        ensures member { IfSome result (λ task. IsTrue (contains by_runtime self.now task.now)) }
        ensures least { IfSome result (λ task. IsLowerBound by_runtime self.now task.now) }
    {
        let count = self.list.len();
        if count > 0 {
            Some(&self.list[count - 1])
        } else {
            self.tree.first()
        }
    }

    /// How many wait.
    pub fn len(&self) -> usize
        ensures { result ≡ btree_set_len self.now }
    {
        if self.tree.is_empty() {
            self.list.len()
        } else {
            self.tree.len()
        }
    }

    /// The one at an index, in their order.
    pub fn nth(&self, index: usize) -> Option<WaitingTask>
        ensures at { result ≡ slice_get self.now.keys index }
        ensures ordered { IsOrdered by_runtime self.now }
    {
        if self.tree.is_empty() {
            nth_listed(&self.list, index)
        } else {
            self.tree.iter().nth(index).copied()
        }
    }
}

/// The one at an index of a list, from its last on.
fn nth_listed(list: &[WaitingTask], index: usize) -> Option<WaitingTask>
    ensures { result ≡ slice_get (reverse list.now) index }
{
    if index < list.len() {
        Some(list[list.len() - 1 - index])
    } else {
        None
    }
}

/// Puts one into a list, unless it is there.
#[inline(always)]
fn insert_listed(list: &mut Vec<WaitingTask>, task: WaitingTask) -> Result<(), Memory>
    requires { falls list.old.items ≡ true }
    ensures falls { falls list.new.items ≡ true }
    ensures updates { OnOk result (Updates (set_of list.old.items) (set_of list.new.items) task true) }
    ensures err { OnErr result (list.new.items ≡ list.old.items) }
{
    list.reserve(1)?;
    list.push_reserved(task);
    let place = settle(list, task);
    if place > 0 && list[place - 1] == task {
        list.remove(place);
    }
    Ok(())
}

/// Lets the last of a list, which is this task, pass those that are less, and says where it stands then. Whoever is
/// woken comes near the least.
#[inline(always)]
fn settle(list: &mut [WaitingTask], task: WaitingTask) -> usize
    requires { (tasks : List Waiting) × (list.old ≡ tasks ++ task ∷ []) }
    ensures { (tasks : List Waiting) → list.old ≡ tasks ++ task ∷ [] → IsSettled tasks task result list.new }
{
    let mut place = list.len() - 1;
    while place > 0 && list[place - 1] < task {
        list[place] = list[place - 1];
        place -= 1;
    }
    list[place] = task;
    place
}

/// Takes one out of a list. Mostly it is the least.
#[inline(always)]
fn remove_listed(list: &mut Vec<WaitingTask>, task: WaitingTask)
    requires { falls list.old.items ≡ true }
    ensures falls { falls list.new.items ≡ true }
    ensures updates { Updates (set_of list.old.items) (set_of list.new.items) task false }
{
    let count = list.len();
    if count > 0 && list[count - 1] == task {
        let _least = list.pop();
        return;
    }
    let place = place_in(list, task);
    if place > 0 && list[place - 1] == task {
        list.remove(place - 1);
    }
}

/// Takes one out of a tree. Marked as seldom called, so that a list is gone through with no register kept for a call.
#[cold]
#[inline(never)]
fn remove_from_tree(tree: &mut BTreeSet<WaitingTask>, task: WaitingTask)
    ensures { Updates tree.old tree.new task false }
{
    tree.remove(&task);
}

/// How many of a list that falls aren't less than a task. Whoever is woken comes near the least, so the list is walked
/// from there.
#[inline(always)]
fn place_in(list: &[WaitingTask], task: WaitingTask) -> usize
    ensures within { result ≤ length list.now }
    ensures less { list_all (λ other. is_gt (by_runtime task other)) (drop result list.now) ≡ true }
    ensures stops { (d : Waiting) → 0 < result
        → is_gt (by_runtime task (slice_index_or list.now (result - 1) d)) ≡ false }
{
    let mut place = list.len();
    while place > 0 && list[place - 1] < task {
        place -= 1;
    }
    place
}

/// A tree of those in a list.
fn tree_of(alloc: Global, list: &[WaitingTask]) -> Result<BTreeSet<WaitingTask>, Memory>
    ensures { IfOk result (λ tree. (task : Waiting) → contains by_runtime tree task
        ≡ contains by_runtime (set_of list.now) task) }
{
    let mut tree = BTreeSet::new(alloc);
    for task in list {
        tree.insert(*task)?;
    }
    Ok(tree)
}
