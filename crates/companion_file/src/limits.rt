ghost use Rattle.std.specs.Prelude.{◌≡◌, ℕ, true, false, MatchOption};
ghost use Rattle.cfs_model.specs.declared.claim.Claim.{Claim};
ghost use Rattle.cfs_model.specs.declared.nice_line.NiceLine.{NiceLine};
ghost use Rattle.cfs_model.specs.declared.idle_line.IdleLine.{IdleLine};
ghost use Rattle.cfs_model.specs.declared.charge_line.ChargeLine.{ChargeLine};
ghost use Rattle.companion_file.specs.Shape.{claim_line, nice_line, idle_line, charge_line};
ghost use Rattle.companion_file.specs.Earlier.{is_run};
ghost use Rattle.companion_file.specs.Tests.{is_value, is_pid, is_nice, is_in_limits};

use cfs_model::{
    ChargeLine, Claim, ClaimSort, GREATEST_LINE, GREATEST_PID, GREATEST_RUNTIME, IdleLine, Nice,
    NiceLine, Place,
};

pub(crate) fn is_value(v: i64) -> bool
    ensures { result ≡ is_value v }
{
    -GREATEST_RUNTIME <= v && v <= GREATEST_RUNTIME
}

pub(crate) fn is_pid(pid: u64) -> bool
    ensures { result ≡ is_pid pid }
{
    1 <= pid && pid <= GREATEST_PID
}

pub(crate) fn is_running(place: Place) -> bool
    ensures { result ≡ is_run place }
{
    matches!(place, Place::Run)
}

pub(crate) fn nice_within(value: i64) -> Option<Nice>
    ensures { MatchOption result (is_nice value ≡ false) (λ nice. (nice ≡ value) × (is_nice value ≡ true)) }
{
    if -20 <= value && value <= 19 {
        Nice::new(value as i32)
    } else {
        None
    }
}

pub(crate) fn claim_within(line: u64, pid: u64, v: i64, sort: ClaimSort) -> Option<Claim>
    ensures { let claim : Claim = record { line = line; pid = pid; v = v; sort = sort } in
        MatchOption result ((cpus : ℕ) → is_in_limits cpus (claim_line claim) ≡ false)
        (λ within. (within ≡ claim) × ((cpus : ℕ) → is_in_limits cpus (claim_line claim) ≡ true)) }
{
    if 1 <= line && line <= GREATEST_LINE && is_pid(pid) && is_value(v) {
        Some(Claim {
            line: line as u32,
            pid: pid as u32,
            v,
            sort,
        })
    } else {
        None
    }
}

pub(crate) fn change_within(line: u64, pid: u64, nice: i64) -> Option<NiceLine>
    ensures { let change : NiceLine = record { line = line; pid = pid; nice = nice } in
        MatchOption result ((cpus : ℕ) → is_in_limits cpus (nice_line change) ≡ false)
        (λ within. (within ≡ change) × ((cpus : ℕ) → is_in_limits cpus (nice_line change) ≡ true)) }
{
    let nice = nice_within(nice)?;
    if 1 <= line && line <= GREATEST_LINE && is_pid(pid) {
        Some(NiceLine {
            line: line as u32,
            pid: pid as u32,
            nice,
        })
    } else {
        None
    }
}

pub(crate) fn idle_within(line: u64, pid: u64) -> Option<IdleLine>
    ensures { let idle : IdleLine = record { line = line; pid = pid } in
        MatchOption result ((cpus : ℕ) → is_in_limits cpus (idle_line idle) ≡ false)
        (λ within. (within ≡ idle) × ((cpus : ℕ) → is_in_limits cpus (idle_line idle) ≡ true)) }
{
    if line <= GREATEST_LINE && is_pid(pid) {
        Some(IdleLine {
            line: line as u32,
            pid: pid as u32,
        })
    } else {
        None
    }
}

pub(crate) fn charge_within(line: u64, pid: u64, v: i64) -> Option<ChargeLine>
    ensures { let charge : ChargeLine = record { line = line; pid = pid; v = v } in
        MatchOption result ((cpus : ℕ) → is_in_limits cpus (charge_line charge) ≡ false)
        (λ within. (within ≡ charge) × ((cpus : ℕ) → is_in_limits cpus (charge_line charge) ≡ true)) }
{
    if 1 <= line && line <= GREATEST_LINE && is_pid(pid) && is_value(v) {
        Some(ChargeLine {
            line: line as u32,
            pid: pid as u32,
            v,
        })
    } else {
        None
    }
}
