ghost use Rattle.std.specs.Prelude.{◌≡◌, nat_le, not, true, ◌==◌};
ghost use Rattle.std.specs.Option.{option_map_or};
ghost use Rattle.companion_file.specs.Earlier.{last_task, last_claim, last_nice, last_idle, last_charge};
ghost use Rattle.companion_file.specs.Tests.{is_above_claims, is_above_changes, is_from_charges};
ghost use Rattle.companion_file.specs.Tests.{may_claim_at, may_change_at, may_charge_at, may_be_idle};

use crate::draft::Draft;
use cfs_model::{ChargeLine, Claim, IdleLine, NiceLine, Task};

impl Draft {
    fn last_task(&self) -> Option<Task>
        ensures { result ≡ last_task self.now }
    {
        self.tasks.last().copied()
    }

    pub(super) fn last_claim(&self) -> Option<Claim>
        ensures { result ≡ last_claim self.now }
    {
        self.claims.last().copied()
    }

    pub(super) fn last_nice(&self) -> Option<NiceLine>
        ensures { result ≡ last_nice self.now }
    {
        self.nices.last().copied()
    }

    fn last_idle(&self) -> Option<IdleLine>
        ensures { result ≡ last_idle self.now }
    {
        self.idles.last().copied()
    }

    pub(super) fn last_charge(&self) -> Option<ChargeLine>
        ensures { result ≡ last_charge self.now }
    {
        self.charges.last().copied()
    }

    pub(super) fn is_pid_next(&self, pid: u64) -> bool
        ensures { result ≡ option_map_or (λ last. nat_le last.pid pid) (last_task self.now) true }
    {
        self.last_task()
            .is_none_or(|last| u64::from(last.pid) <= pid)
    }

    pub(super) fn is_pid_new(&self, pid: u64) -> bool
        ensures { result ≡ option_map_or (λ last. not (last.pid == pid)) (last_task self.now) true }
    {
        self.last_task()
            .is_none_or(|last| u64::from(last.pid) != pid)
    }

    fn is_above_claims(&self, line: u64) -> bool
        ensures { result ≡ is_above_claims self.now line }
    {
        self.last_claim()
            .is_none_or(|last| u64::from(last.line) < line)
    }

    fn is_above_changes(&self, line: u64) -> bool
        ensures { result ≡ is_above_changes self.now line }
    {
        self.last_nice()
            .is_none_or(|change| u64::from(change.line) < line)
    }

    fn is_from_charges(&self, line: u64) -> bool
        ensures { result ≡ is_from_charges self.now line }
    {
        self.last_charge()
            .is_none_or(|charge| u64::from(charge.line) <= line)
    }

    pub(super) fn may_claim_at(&self, line: u64) -> bool
        ensures { result ≡ may_claim_at self.now line }
    {
        self.is_above_claims(line)
            && self
                .last_nice()
                .is_none_or(|change| u64::from(change.line) <= line)
            && self.is_from_charges(line)
    }

    pub(super) fn may_change_at(&self, line: u64) -> bool
        ensures { result ≡ may_change_at self.now line }
    {
        self.is_above_changes(line) && self.is_above_claims(line) && self.is_from_charges(line)
    }

    pub(super) fn may_charge_at(&self, line: u64) -> bool
        ensures { result ≡ may_charge_at self.now line }
    {
        self.last_charge()
            .is_none_or(|charge| u64::from(charge.line) < line)
            && self.is_above_changes(line)
            && self.is_above_claims(line)
    }

    pub(super) fn may_be_idle(&self, idle: IdleLine) -> bool
        ensures { result ≡ may_be_idle self.now idle }
    {
        self.last_idle().is_none_or(|last| {
            last.line < idle.line || (last.line == idle.line && last.pid < idle.pid)
        })
    }
}
