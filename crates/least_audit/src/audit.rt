ghost use Rattle.sched_record.specs.Window.{window_view};

use crate::figures::Figures;
use crate::pursuer::Pursuer;
use crate::pursuers::{pursue_all, pursuers_of};
use cfs_model::{Knobs, Memory, least_settings, prefixes};
use companion_file::Companion;
use least_places::LeastFigures;
use replay_laws::first_faults;
use replay_model::{FirstFault, Step};
use sched_record::Window;
use std::alloc::Global;
use std::thread::Threads;
use window_audit::WindowAudit;
use window_laws::window_ends;

/// The audit at the greatest settings of a record that comes in windows, beside which each processor is replayed once
/// more, to note what is needed.
#[derive(Drop)]
pub struct LeastAudit {
    audit: WindowAudit,
    pursuers: Vec<Pursuer>,
    figures: Figures,
    /// Those of a window at one processor; the room for them is used again.
    steps: Vec<Step>,
}

impl LeastAudit {
    ghost use Rattle.std.specs.Prelude.{◌≡◌, ◌≢◌, [], List, IfOk};
    ghost use Rattle.cfs_model.specs.Claimed.{Claimed};
    ghost use Rattle.cfs_model.specs.Least.{greatest_settings};
    ghost use Rattle.companion_file.specs.Seen.{companion_view};
    ghost use Rattle.least_audit.specs.Audit.{HasSeenRecord, IsLeastAuditOf, IsLeastToldOf, LeastComesNext};
    ghost use Rattle.least_places.specs.LeastAnswer.{IsLeastAnswer};
    ghost use Rattle.sched_record.specs.Record.{RecordView};
    ghost use Rattle.window_audit.specs.Audit.{Beginning};

    /// The audit before the first window, from a start state on.
    pub fn new(alloc: Global, companion: &Companion) -> Result<LeastAudit, Memory>
        ensures { let of = companion_view companion.now in
            IfOk result (IsLeastAuditOf (record {
              knobs = greatest_settings;
              start = of.start;
              floors = of.floors;
              tasks = of.tasks;
              cpus = of.cpus;
            }) []) }
    {
        Ok(LeastAudit {
            audit: WindowAudit::new(alloc, companion, Knobs::greatest())?,
            pursuers: pursuers_of(alloc, companion)?,
            figures: Figures::none(),
            steps: Vec::new(alloc),
        })
    }

    /// Goes through a window's events, which has one, and tells the first fault of the events with it at the greatest
    /// settings, if there is one. Else the audit has seen them.
    pub fn go_through<R: Threads + Sync>(
        &mut self,
        rt: &R,
        alloc: Global,
        window: &Window,
    ) -> Result<Option<FirstFault>, Memory>
        requires some { window_view window.now ≢ [] }
        requires next { (of : Beginning) × (so_far : List Claimed)
            × LeastComesNext of so_far (window_view window.now) self.old }
        ensures { (of : Beginning) (so_far : List Claimed) → LeastComesNext of so_far (window_view window.now) self.old
            → IfOk result (λ told. IsLeastToldOf of so_far (window_view window.now) told self.new) }
    {
        let told = self.audit.go_through(rt, alloc, window)?;
        if told.is_some() {
            return Ok(told);
        }
        pursue_all(&mut self.pursuers, window, &mut self.steps)?;
        self.figures = self.figures.behind(&self.pursuers, window);
        Ok(None)
    }

    /// The audit, but for what is needed.
    pub fn audit(&self) -> &WindowAudit {
        &self.audit
    }

    /// The least settings of the record whose events these all are, where nothing was told of any window.
    pub fn finish(self) -> LeastFigures
        requires { (r : RecordView) × HasSeenRecord r self }
        ensures { (r : RecordView) → HasSeenRecord r self → IsLeastAnswer r result }
    {
        window_ends();
        least_settings();
        prefixes();
        first_faults();
        let Figures { least, places } = self.figures;
        match Knobs::of(least) {
            Some(knobs) => LeastFigures::Found { knobs, places },
            None => unreachable!(),
        }
    }
}
