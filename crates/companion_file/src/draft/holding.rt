ghost use Rattle.std.specs.Prelude.{◌≡◌, ◌-◌, min, nat_le, IfOk, drop, length};
ghost use Rattle.std.specs.List.{prefix_len};
ghost use Rattle.companion_file.specs.Draft.{KeepsOrder};
ghost use Rattle.companion_file.specs.Reader.{HoldsOf, OnlyFirstPassed, has_begun, reaches_past, start_of};

use crate::draft::Draft;
use cfs_model::{ChargeLine, Claim, NiceLine};
use std::alloc::AllocError;

/// How many claims, from the first on, stand on lines up to this one.
fn passed_claims(claims: &[Claim], line: u32) -> usize
    ensures { result ≡ prefix_len (λ claim. nat_le claim.line line) claims.now }
{
    claims.iter().take_while(|claim| claim.line <= line).count()
}

/// How many changes, from the first on, stand on lines up to this one.
fn passed_changes(nices: &[NiceLine], line: u32) -> usize
    ensures { result ≡ prefix_len (λ change. nat_le change.line line) nices.now }
{
    nices
        .iter()
        .take_while(|change| change.line <= line)
        .count()
}

/// How many charges, from the first on, stand on lines up to this one.
fn passed_charges(charges: &[ChargeLine], line: u32) -> usize
    ensures { result ≡ prefix_len (λ charge. nat_le charge.line line) charges.now }
{
    charges
        .iter()
        .take_while(|charge| charge.line <= line)
        .count()
}

/// Lets so many elements go, from the first on, but not the last; it takes no memory.
fn forget_first<T: Copy>(list: &mut Vec<T>, passed: usize)
    ensures { list.new.items ≡ drop (min passed (length list.old.items - 1)) list.old.items }
{
    let gone = passed.min(list.len().saturating_sub(1));
    let left = list.len() - gone;
    for index in 0..left {
        list[index] = list[gone + index];
    }
    list.truncate(left);
}

impl Draft {
    pub(crate) fn version(&self) -> Option<u32>
        ensures { result ≡ self.now.version }
    {
        self.version
    }

    pub(crate) fn claims(&self) -> &[Claim]
        ensures { result.now ≡ self.now.claims }
    {
        self.claims.as_slice()
    }

    pub(crate) fn nices(&self) -> &[NiceLine]
        ensures { result.now ≡ self.now.nices }
    {
        self.nices.as_slice()
    }

    pub(crate) fn charges(&self) -> &[ChargeLine]
        ensures { result.now ≡ self.now.charges }
    {
        self.charges.as_slice()
    }

    /// Whether a claim, a change of a nice value or a charge was said.
    pub(crate) fn is_begun(&self) -> bool
        ensures { result ≡ has_begun self.now }
    {
        !(self.claims.is_empty() && self.nices.is_empty() && self.charges.is_empty())
    }

    /// Whether the last claim, change of a nice value or charge stands above this line.
    pub(crate) fn reaches_past(&self, line: u32) -> bool
        ensures { result ≡ reaches_past self.now line }
    {
        self.last_claim().is_some_and(|last| line < last.line)
            || self.last_nice().is_some_and(|last| line < last.line)
            || self.last_charge().is_some_and(|last| line < last.line)
    }

    /// What was said of the start.
    pub(crate) fn start_alone(&self) -> Result<Draft, AllocError>
        ensures { IfOk result (λ start. start ≡ start_of self.now) }
    {
        let mut start = self.head()?;
        start.running = self.running;
        start.tasks.extend_from_slice(&self.tasks)?;
        start.idles.extend_from_slice(&self.idles)?;
        Ok(start)
    }

    /// Lets go what was said of lines up to this one, but the last claim, change and charge.
    pub(crate) fn forget_through(&mut self, line: u32)
        requires { KeepsOrder self.old }
        ensures holds { HoldsOf line self.old self.new }
        ensures claims { OnlyFirstPassed (λ claim. claim.line) line self.new.claims }
        ensures nices { OnlyFirstPassed (λ change. change.line) line self.new.nices }
        ensures charges { OnlyFirstPassed (λ charge. charge.line) line self.new.charges }
    {
        let claims = passed_claims(self.claims.as_slice(), line);
        let changes = passed_changes(self.nices.as_slice(), line);
        let charges = passed_charges(self.charges.as_slice(), line);
        forget_first(&mut self.claims, claims);
        forget_first(&mut self.nices, changes);
        forget_first(&mut self.charges, charges);
    }
}
