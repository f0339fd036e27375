ghost use Rattle.std.specs.Prelude.{◌≡◌, ℕ, IfOk, OnOk};
ghost use Rattle.std.specs.Bool.{OnTrue};
ghost use Rattle.cfs_model.specs.Claimed.{is_named_idle, named_policy, policies_after, policy_by, policy_told};
ghost use Rattle.cfs_model.specs.Limits.{no_line};
ghost use Rattle.cfs_model.specs.Machine.{put};
ghost use Rattle.window_joining.specs.Policies.{AreUsual, policies_view};

use cfs_model::{Act, Entry, IdleLine, Memory, NO_LINE, Policy};
use std::alloc::Global;
use std::collections::BTreeSet;

/// By which policy each task weighs: the pids of the idle policy.
#[derive(Drop)]
pub(crate) struct Policies {
    // In order and not by a hash: the pids come from a file that isn't trusted.
    idle: BTreeSet<u32>,
}

impl Policies {
    /// Those of the start, by what a companion says of it.
    pub(crate) fn new(alloc: Global, idles: &[IdleLine]) -> Result<Policies, Memory>
        ensures { IfOk result (λ policies. (pid : ℕ) → policies_view policies pid
            ≡ named_policy idles.now no_line pid) }
    {
        let mut idle = BTreeSet::new(alloc);
        for named in idles {
            if named.line == NO_LINE {
                idle.insert(named.pid)?;
            }
        }
        Ok(Policies { idle })
    }

    /// Whether nobody is of the idle policy.
    #[inline(always)]
    pub(crate) fn are_usual(&self) -> bool
        ensures { OnTrue result (AreUsual self.now) }
    {
        self.idle.is_empty()
    }

    /// The policy of the task that an event bears or moves; the idle lines on its line are among these.
    pub(crate) fn told(&self, idles: &[IdleLine], event: &Entry) -> Policy
        ensures { result ≡ policy_told idles.now (λ line. policies_view self.now) event.now.line event.now.act }
    {
        match event.act {
            Act::Born { pid, .. } => policy_of(is_named(idles, event.line, pid)),
            Act::Shift { pid, .. } => self.policy_by_now(pid),
            Act::Switch { .. } | Act::Wake { .. } => Policy::Normal,
        }
    }

    /// The policy of a task. Out of line, as few events move one.
    #[inline(never)]
    fn policy_by_now(&self, pid: u32) -> Policy
        ensures { result ≡ policies_view self.now pid }
    {
        policy_of(self.idle.contains(&pid))
    }

    /// Goes on over an event: a task that is born is of the policy that is said on its line.
    pub(crate) fn pass(&mut self, idles: &[IdleLine], event: &Entry) -> Result<(), Memory>
        ensures { OnOk result ((pid : ℕ) → policies_view self.new pid
            ≡ policies_after idles.now (policies_view self.old) event.now.line event.now.act pid) }
    {
        if let Some(pid) = event.act.begun() {
            self.put(pid, is_named(idles, event.line, pid))?;
        }
        Ok(())
    }

    /// Takes a pid in, or out. Out of line, as few events bear a task.
    #[inline(never)]
    fn put(&mut self, pid: u32, is_idle: bool) -> Result<(), Memory>
        ensures { OnOk result ((other : ℕ) → policies_view self.new other
            ≡ put (policies_view self.old) pid (policy_by is_idle) other) }
    {
        if is_idle {
            self.idle.insert(pid)?;
        } else {
            self.idle.remove(&pid);
        }
        Ok(())
    }
}

/// Whether these lines name a pid, on this line.
fn is_named(idles: &[IdleLine], line: u32, pid: u32) -> bool
    ensures { result ≡ is_named_idle idles.now line pid }
{
    for idle in idles {
        if idle.line == line && idle.pid == pid {
            return true;
        }
    }
    false
}

fn policy_of(is_idle: bool) -> Policy
    ensures { result ≡ policy_by is_idle }
{
    if is_idle {
        Policy::Idle
    } else {
        Policy::Normal
    }
}
