ghost use Rattle.std.specs.Prelude.{◌≢◌, ◌++◌, List, [], IfOk, OnOk};
ghost use Rattle.cfs_model.specs.Claimed.{Claimed};
ghost use Rattle.least_places.specs.Finding.{IsFinding};
ghost use Rattle.sched_record.specs.Record.{RecordView};
ghost use Rattle.sched_record.specs.Window.{window_view};
ghost use Rattle.stream_audit.specs.Aim.{Begun};
ghost use Rattle.stream_audit.specs.Judge.{begun};
ghost use Rattle.stream_audit.specs.Progress.{IsEnd, IsKnownOf, IsNext, IsToldWith};

use crate::{Aim, Past};
use cfs_model::{Memory, least_settings};
use companion_file::Companion;
use least_audit::LeastAudit;
use least_places::{Finding, LeastFigures};
use queue_replay::WindowedReplay;
use replay_laws::first_faults;
use replay_model::FirstFault;
use sched_record::Window;
use std::alloc::{AllocError, Global};
use std::thread::Threads;
use ticket_book::Verdict;
use window_audit::WindowAudit;
use window_laws::windows;

/// What is known of a record's events so far.
#[derive(Drop)]
pub enum Progress {
    /// They are a run, with which the audit goes on.
    Running(WindowAudit),
    /// The same, and their least settings are known.
    Pursuing(LeastAudit),
    /// They are none: their first fault.
    Told(FirstFault),
}

impl Progress {
    /// Before the first event of a record that begins so.
    pub fn new(alloc: Global, start: &Companion, aim: Aim) -> Result<Progress, Memory>
        ensures { IfOk result (IsKnownOf (begun aim start.now) []) }
    {
        if aim.is_least() {
            let audit = LeastAudit::new(alloc, start)?;
            return Ok(Progress::Pursuing(audit));
        }
        let audit = WindowAudit::new(alloc, start, aim.knobs())?;
        Ok(Progress::Running(audit))
    }

    /// Takes the events of a window into account, which has at least one.
    pub fn judge<R: Threads + Sync>(
        &mut self,
        rt: &R,
        alloc: Global,
        window: &Window,
    ) -> Result<(), Memory>
        requires some { window_view window.now ≢ [] }
        requires next { (of : Begun) × (so_far : List Claimed)
            × IsNext of so_far (window_view window.now) self.old }
        ensures { (of : Begun) (so_far : List Claimed) → IsNext of so_far (window_view window.now) self.old
            → OnOk result (IsKnownOf of (so_far ++ window_view window.now) self.new) }
    {
        if let Some(fault) = self.go_on(rt, alloc, window)? {
            *self = Progress::Told(fault);
        }
        Ok(())
    }

    /// Lets an audit that goes on go through a window, and tells the first fault of the events with it, if there is
    /// one.
    fn go_on<R: Threads + Sync>(
        &mut self,
        rt: &R,
        alloc: Global,
        window: &Window,
    ) -> Result<Option<FirstFault>, Memory>
        requires some { window_view window.now ≢ [] }
        requires next { (of : Begun) × (so_far : List Claimed)
            × IsNext of so_far (window_view window.now) self.old }
        ensures { (of : Begun) (so_far : List Claimed) → IsNext of so_far (window_view window.now) self.old
            → IfOk result (λ told. IsToldWith of (so_far ++ window_view window.now) told self.new) }
    {
        windows();
        match self {
            Progress::Running(audit) => audit.go_through(rt, alloc, window),
            Progress::Pursuing(audit) => audit.go_through(rt, alloc, window),
            Progress::Told(_) => Ok(None),
        }
    }

    /// Before the first window a past that keeps events is told where the replays stand, by the start of this
    /// companion.
    pub(crate) fn begin_past<P: Past>(
        &self,
        alloc: Global,
        start: &Companion,
        past: &mut P,
    ) -> Result<(), Memory> {
        match self.audit() {
            Some(audit) if past.goes_on() => {
                let replays = replays_of(alloc, audit, start.cpus())?;
                past.begin(start, replays.as_slice())
            }
            _ => Ok(()),
        }
    }

    /// A past that keeps events takes a window, once that was judged.
    pub(crate) fn fill_past<P: Past>(
        &self,
        alloc: Global,
        start: &Companion,
        window: &mut Window,
        past: &mut P,
    ) -> Result<(), Memory> {
        if let Progress::Told(fault) = self {
            return past.take_last(start, window, *fault);
        }
        match self.audit() {
            Some(audit) if past.goes_on() => {
                let replays = replays_of(alloc, audit, start.cpus())?;
                past.take_window(replays.as_slice(), window)
            }
            _ => Ok(()),
        }
    }

    /// The audit that goes on, if one does.
    fn audit(&self) -> Option<&WindowAudit> {
        match self {
            Progress::Running(audit) => Some(audit),
            Progress::Pursuing(audit) => Some(audit.audit()),
            Progress::Told(_) => None,
        }
    }

    /// What is found of the record whose events these are.
    pub fn finish(self, aim: Aim) -> Finding
        requires { (r : RecordView) × IsEnd aim r self }
        ensures { (r : RecordView) → IsEnd aim r self → IsFinding aim.least aim.knobs r result }
    {
        first_faults();
        least_settings();
        match self {
            Progress::Running(audit) => Finding::Verdict(Verdict::Run(audit.finish())),
            Progress::Pursuing(audit) => Finding::Least(audit.finish()),
            Progress::Told(fault) if aim.is_least() => Finding::Least(LeastFigures::Fault(fault)),
            Progress::Told(fault) => Finding::Verdict(Verdict::Fault(fault)),
        }
    }
}

/// The replays of so many processors.
fn replays_of(
    alloc: Global,
    audit: &WindowAudit,
    cpus: u32,
) -> Result<Vec<&WindowedReplay>, AllocError> {
    let mut replays = Vec::new(alloc);
    for cpu in 0..cpus {
        if let Some(replay) = audit.replay(cpu) {
            replays.push(replay)?;
        }
    }
    Ok(replays)
}
