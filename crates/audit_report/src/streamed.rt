ghost use Rattle.std.specs.Prelude.{◌≡◌, ◌++◌, ℕ, Bool, List, OnOk, string_bytes};
ghost use Rattle.audit_report.specs.Report.{tally_lines};
ghost use Rattle.cfs_model.specs.Knobs.{KnobsView};
ghost use Rattle.least_places.specs.Finding.{IsFinding};
ghost use Rattle.sched_record.specs.Record.{RecordView};

use crate::{Finding, Judgement};
use replay_model::Tally;
use std::alloc::AllocError;

/// What is told of a record that needn't be kept for it.
pub trait Streamed: Judgement {
    /// What a report says of it before the tallies of tasks, by whether the companion tells charges.
    ghost front: { Bool → Self → List ℕ };

    /// That of a record, by what is found of it.
    fn of_stream(finding: Finding) -> Self
        requires { (knobs : KnobsView) × (r : RecordView) × IsFinding Self.is_least knobs r finding }
        ensures { (knobs : KnobsView) (r : RecordView) → IsFinding Self.is_least knobs r finding
            → Self.is_of knobs r result };

    /// Writes what a report says of it before the tallies of tasks.
    fn push_front(&self, text: &mut String, tells_charges: bool) -> Result<(), AllocError>
        ensures { OnOk result (string_bytes text.new ≡ string_bytes text.old ++ front tells_charges self.now) };

    /// The tallies whose lines stand behind that; none where a report has no such lines.
    fn tallies(&self) -> &[Tally]
        ensures { (tells_charges : Bool) → Self.lines tells_charges self.now
            ≡ front tells_charges self.now ++ tally_lines result.now };
}
