ghost use Rattle.std.specs.Prelude.{◌≡◌, ◌⊎◌, false, true, OnOk, OnErr, IfErr, IfOk, IsErrOf};
ghost use Rattle.std.specs.Io.KnownBytes.{Appends, Keeps};
ghost use Rattle.audit_report.specs.Codes.{status_of};
ghost use Rattle.audit_report.specs.Taken.{AppendsFront};
ghost use Rattle.audit_report.specs.Report.{report_by};

use crate::reporting::report_on;
use crate::{Judgement, Outcome, Sink, Status};
use audit_input::Fault;
use std::alloc::Global;

/// Writes the report of an outcome, by whether the companion tells charges, and answers its status.
pub fn write_report<J: Judgement, S: Sink>(
    alloc: Global,
    outcome: &Outcome<J>,
    tells_charges: bool,
    out: &mut S,
) -> Result<Status, Fault>
    // No write failed.
    requires { S.has_failed out.old ≡ false }
    ensures status { IfOk result (λ status. status ≡ status_of J.fault outcome.now) }
    ensures whole { OnOk result
        (Appends (S.taken out.old) (S.taken out.new) (report_by J.refusal (J.lines tells_charges) outcome.now)) }
    ensures written { OnOk result (S.has_failed out.new ≡ false) }
    // The output's fault comes only where a write failed or took no byte, and a front of the report was written.
    ensures fault { IfErr result (λ fault. (fault ≡ Fault.Write) ⊎ (fault ≡ Fault.Memory)) }
    ensures write { IsErrOf result Fault.Write → S.has_failed out.new ≡ true }
    ensures front { IsErrOf result Fault.Write
        → AppendsFront (S.taken out.old) (S.taken out.new) (report_by J.refusal (J.lines tells_charges) outcome.now) }
    // Where memory is wanted nothing was written.
    ensures unwritten { IsErrOf result Fault.Memory
        → Keeps (S.taken out.old) (S.taken out.new) × (S.has_failed out.new ≡ false) }
{
    let report = report_on(alloc, outcome, tells_charges)?;
    write_all(out, &report)?;
    Ok(outcome.status())
}

/// Writes the bytes, in as many writes as it takes. It ends at the first that fails or takes no byte.
pub(crate) fn write_all<S: Sink>(out: &mut S, bytes: &[u8]) -> Result<(), Fault>
    ensures whole { OnOk result (Appends (S.taken out.old) (S.taken out.new) bytes.now) }
    ensures heard { OnOk result (S.has_failed out.new ≡ S.has_failed out.old) }
    ensures fault { IfErr result (λ fault. fault ≡ Fault.Write) }
    ensures front { OnErr result (AppendsFront (S.taken out.old) (S.taken out.new) bytes.now) }
    ensures failed { OnErr result (S.has_failed out.new ≡ true) }
{
    let mut rest = bytes;
    while !rest.is_empty() {
        match out.write(rest) {
            Ok(count) if count > 0 => rest = &rest[count..],
            _ => return Err(Fault::Write),
        }
    }
    Ok(())
}
