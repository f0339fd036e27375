//! Reports of any length, which are written piece by piece.

ghost use Rattle.std.specs.Prelude.{◌≡◌, ◌⊎◌, ◌+◌, ◌≤◌, ◌++◌, ℕ, Bool, List, false, true, OnOk, OnErr, IfErr, IfOk};
ghost use Rattle.std.specs.Prelude.{IsErrOf, string_bytes, string_capacity, string_len};
ghost use Rattle.std.specs.Io.KnownBytes.{Appends, Keeps};
ghost use Rattle.audit_report.specs.Codes.{status_of};
ghost use Rattle.audit_report.specs.Taken.{AppendsFront};
ghost use Rattle.audit_report.specs.Report.{report_by, tally_lines};

use crate::verdict::{MOST_TALLY_BYTES, put_tally};
use crate::writing::write_all;
use crate::{Outcome, Sink, Status, Streamed};
use audit_input::Fault;
use cfs_model::Memory;
use itoa::Buffer;
use replay_model::Tally;
use std::alloc::Global;

/// How many bytes of the lines of tallies are written at once, at most.
const PIECE: usize = 1 << 16;

/// Writes the report of what was judged of a record that isn't kept, as `write_report` does. The tallies of tasks are
/// written a piece at a time, however many there are. Room for a piece is made before anything is written.
pub fn write_in_pieces<J: Streamed, S: Sink>(
    alloc: Global,
    outcome: &Outcome<J>,
    tells_charges: bool,
    out: &mut S,
) -> Result<Status, Fault>
    // No write failed.
    requires { S.has_failed out.old ≡ false }
    ensures status { IfOk result (λ status. status ≡ status_of J.fault outcome.now) }
    ensures whole { OnOk result
        (Appends (S.taken out.old) (S.taken out.new) (report_by J.refusal (J.lines tells_charges) outcome.now)) }
    ensures written { OnOk result (S.has_failed out.new ≡ false) }
    // The output's fault comes only where a write failed or took no byte, and a front of the report was written.
    ensures fault { IfErr result (λ fault. (fault ≡ Fault.Write) ⊎ (fault ≡ Fault.Memory)) }
    ensures write { IsErrOf result Fault.Write → S.has_failed out.new ≡ true }
    ensures front { IsErrOf result Fault.Write
        → AppendsFront (S.taken out.old) (S.taken out.new) (report_by J.refusal (J.lines tells_charges) outcome.now) }
    // Where memory is wanted nothing was written.
    ensures unwritten { IsErrOf result Fault.Memory
        → Keeps (S.taken out.old) (S.taken out.new) × (S.has_failed out.new ≡ false) }
{
    let mut text = front_of(alloc, outcome, tells_charges)?;
    write_tallies(out, &mut text, tallies_of(outcome))?;
    Ok(outcome.status())
}

/// What a report says before the tallies of tasks, with room for a piece behind it.
fn front_of<J: Streamed>(
    alloc: Global,
    outcome: &Outcome<J>,
    tells_charges: bool,
) -> Result<String, Memory>
    ensures text { IfOk result (λ text. string_bytes text ≡ report_by J.refusal (J.front tells_charges) outcome.now) }
    ensures room { IfOk result (λ text. 160 ≤ string_capacity text) }
{
    let mut text = String::new(alloc);
    match outcome {
        Outcome::Judged(judged) => judged.push_front(&mut text, tells_charges)?,
        Outcome::Text {
            source,
            line,
            cause,
        } => J::push_refusal(&mut text, *source, *line, *cause)?,
    }
    text.reserve(PIECE)?;
    Ok(text)
}

/// The tallies whose lines a report has behind its front.
fn tallies_of<J: Streamed>(outcome: &Outcome<J>) -> &[Tally]
    ensures { (tells_charges : Bool) → report_by J.refusal (J.lines tells_charges) outcome.now
        ≡ report_by J.refusal (J.front tells_charges) outcome.now ++ tally_lines result.now }
{
    match outcome {
        Outcome::Judged(judged) => judged.tallies(),
        Outcome::Text { .. } => &[],
    }
}

/// Writes a text and, behind it, the lines of tallies. The text has room for one, and is used again.
fn write_tallies<S: Sink>(out: &mut S, text: &mut String, tallies: &[Tally]) -> Result<(), Fault>
    requires { 160 ≤ string_capacity text.old }
    ensures whole { OnOk result (Appends (S.taken out.old) (S.taken out.new)
        (string_bytes text.old ++ tally_lines tallies.now)) }
    ensures heard { OnOk result (S.has_failed out.new ≡ S.has_failed out.old) }
    ensures fault { IfErr result (λ fault. fault ≡ Fault.Write) }
    ensures front { OnErr result (AppendsFront (S.taken out.old) (S.taken out.new)
        (string_bytes text.old ++ tally_lines tallies.now)) }
    ensures failed { OnErr result (S.has_failed out.new ≡ true) }
{
    let mut digits = Buffer::new();
    for tally in tallies {
        write_full(out, text)?;
        put_tally(text, tally, &mut digits);
    }
    write_all(out, text.as_bytes())
}

/// Writes a text that has no room for the line of a tally, and empties it.
fn write_full<S: Sink>(out: &mut S, text: &mut String) -> Result<(), Fault>
    requires { 160 ≤ string_capacity text.old }
    ensures taken { OnOk result ((written : List ℕ) × (string_bytes text.old ≡ written ++ string_bytes text.new)
        × Appends (S.taken out.old) (S.taken out.new) written) }
    ensures room { OnOk result (string_len text.new + 160 ≤ string_capacity text.new) }
    ensures heard { OnOk result (S.has_failed out.new ≡ S.has_failed out.old) }
    ensures fault { IfErr result (λ fault. fault ≡ Fault.Write) }
    ensures front { OnErr result (AppendsFront (S.taken out.old) (S.taken out.new) (string_bytes text.old)) }
    ensures failed { OnErr result (S.has_failed out.new ≡ true) }
{
    if text.capacity() - text.len() >= MOST_TALLY_BYTES {
        return Ok(());
    }
    write_all(out, text.as_bytes())?;
    text.clear();
    Ok(())
}
