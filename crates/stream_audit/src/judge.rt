ghost use Rattle.std.specs.Prelude.{◌≡◌, [], List, IfOk, OnOk};
ghost use Rattle.cfs_model.specs.Claimed.{Claimed};
ghost use Rattle.sched_record.specs.Window.{window_view};
ghost use Rattle.stream_audit.specs.Aim.{Begun};
ghost use Rattle.stream_audit.specs.Judge.{IsAwaiting, begun};
ghost use Rattle.stream_audit.specs.Progress.{IsKnownOf};

use crate::{Aim, JoinedEvents, Past, Progress};
use cfs_model::Memory;
use companion_file::Companion;
use sched_record::Window;
use std::alloc::Global;
use std::thread::Threads;

/// What is known of the events of a record that were handed on, but for the last window of them, which waits to be
/// judged.
#[derive(Drop)]
pub struct Judge {
    progress: Progress,
    window: Window,
}

impl Judge {
    /// Before the first event of a record that begins so.
    pub fn new(alloc: Global, start: &Companion, aim: Aim) -> Result<Judge, Memory>
        ensures known { IfOk result (IsAwaiting (begun aim start.now) []) }
        ensures emptied { IfOk result (λ judge. window_view judge.window ≡ []) }
    {
        Ok(Judge {
            progress: Progress::new(alloc, start, aim)?,
            window: Window::new(alloc),
        })
    }

    /// Judges the window that waits.
    pub fn judge<R: Threads + Sync>(&mut self, rt: &R, alloc: Global) -> Result<(), Memory>
        requires { (of : Begun) × (handed : List Claimed) × IsAwaiting of handed self.old }
        ensures { (of : Begun) (handed : List Claimed) → IsAwaiting of handed self.old
            → OnOk result (IsKnownOf of handed self.new.progress) }
    {
        if self.window.events().is_empty() {
            return Ok(());
        }
        self.progress.judge(rt, alloc, &self.window)
    }

    /// Before the first window a past that keeps events is told where the replays stand.
    pub fn begin_past<P: Past>(
        &self,
        alloc: Global,
        start: &Companion,
        past: &mut P,
    ) -> Result<(), Memory> {
        self.progress.begin_past(alloc, start, past)
    }

    /// Lets the window go, once it was judged. The recent past takes it, if it keeps events.
    pub fn let_go<P: Past>(
        &mut self,
        alloc: Global,
        start: &Companion,
        past: &mut P,
    ) -> Result<(), Memory>
        ensures known { (of : Begun) (handed : List Claimed) → IsKnownOf of handed self.old.progress
            → OnOk result (IsAwaiting of handed self.new) }
        ensures emptied { OnOk result (window_view self.new.window ≡ []) }
    {
        if !self.window.events().is_empty() {
            self.progress
                .fill_past(alloc, start, &mut self.window, past)?;
        }
        self.window.clear();
        Ok(())
    }

    /// Lets the window go unjudged.
    pub fn skip(&mut self)
        ensures { window_view self.new.window ≡ [] }
    {
        self.window.clear();
    }

    /// Takes the events that were joined and not handed on. None waits here.
    pub fn take(&mut self, joined: &mut JoinedEvents)
        requires { window_view self.old.window ≡ [] }
        ensures taken { window_view self.new.window ≡ window_view joined.old.window }
        ensures progress { self.new.progress ≡ self.old.progress }
        ensures emptied { window_view joined.new.window ≡ [] }
        ensures start { joined.new.start ≡ joined.old.start }
        ensures joining { joined.new.joining ≡ joined.old.joining }
    {
        joined.hand_on(&mut self.window);
    }

    /// Whether a window waits.
    pub(crate) fn is_awaited(&self) -> bool {
        !self.window.events().is_empty()
    }

    /// How much was found: a fault.
    pub fn findings(&self) -> u32 {
        u32::from(matches!(self.progress, Progress::Told(_)))
    }

    /// What is known of all events, where none waits.
    pub fn into_progress(self) -> Progress
        ensures { result ≡ self.progress }
    {
        self.progress
    }
}
