ghost use Rattle.std.specs.Prelude.{◌≡◌, ◌↔◌, OnOk, IfOk, IsTrue};
ghost use Rattle.text_parts.specs.Lines.{lines_of};
ghost use Rattle.companion_file.specs.Draft.{KeepsOrder};
ghost use Rattle.companion_file.specs.Piecewise.{SaysOn, FollowsOn, ClaimsFollow, ChangesFollow, ChargesFollow};
ghost use Rattle.companion_file.specs.Piecewise.{head_of, with_piece};

use crate::draft::Draft;
use crate::fault::{CompanionCause, Refusal};
use cfs_model::{ChargeLine, Claim, NiceLine};
use std::alloc::AllocError;

impl Draft {
    /// Takes the lines of a text.
    pub(crate) fn take_all(&mut self, text: &[u8]) -> Result<(), Refusal>
        requires { KeepsOrder self.old }
        ensures { OnOk result (SaysOn self.old (lines_of text.now) self.new) }
    {
        let mut rest = text;
        while !rest.is_empty() {
            let (taken, after) = self.take_next(rest);
            taken?;
            rest = after;
        }
        Ok(())
    }

    /// What the lines up to the floors have said.
    pub(super) fn head(&self) -> Result<Draft, AllocError>
        ensures { IfOk result (λ head. head ≡ head_of self.now) }
    {
        let alloc = *self.floors.allocator();
        let mut head = Draft::new(alloc);
        head.version = self.version;
        head.cpus = self.cpus;
        head.start = self.start;
        head.floors.extend_from_slice(&self.floors)?;
        Ok(head)
    }

    /// What a piece of the text says behind the head alone.
    pub(crate) fn read_behind_head(&self, piece: &[u8]) -> Result<Draft, Refusal>
        requires { KeepsOrder self.now }
        ensures { IfOk result (λ later. SaysOn (head_of self.now) (lines_of piece.now) later) }
    {
        let mut later = self.head()?;
        later.take_all(piece)?;
        Ok(later)
    }

    fn claims_follow(&self, claims: &[Claim]) -> bool
        ensures { IsTrue result ↔ ClaimsFollow self.now claims.now }
    {
        match claims {
            [] => true,
            [first, ..] => self.may_claim_at(u64::from(first.line)),
        }
    }

    fn changes_follow(&self, nices: &[NiceLine]) -> bool
        ensures { IsTrue result ↔ ChangesFollow self.now nices.now }
    {
        match nices {
            [] => true,
            [first, ..] => self.may_change_at(u64::from(first.line)),
        }
    }

    fn charges_follow(&self, charges: &[ChargeLine]) -> bool
        ensures { IsTrue result ↔ ChargesFollow self.now charges.now }
    {
        match charges {
            [] => true,
            [first, ..] => self.may_charge_at(u64::from(first.line)),
        }
    }

    /// Whether a piece that was read behind the head alone says the same behind all that was said.
    fn is_followed_by(&self, later: &Draft) -> bool
        ensures { IsTrue result ↔ FollowsOn self.now later.now }
    {
        self.version.is_some()
            && self.start.is_some()
            && self.has_all_floors()
            && later.tasks.is_empty()
            && later.idles.is_empty()
            && self.claims_follow(&later.claims)
            && self.changes_follow(&later.nices)
            && self.charges_follow(&later.charges)
    }

    /// Puts what a piece said behind what was said.
    pub(crate) fn put_behind(&mut self, later: &Draft) -> Result<(), Refusal>
        ensures { OnOk result (FollowsOn self.old later.now × (self.new ≡ with_piece self.old later.now)) }
    {
        if !self.is_followed_by(later) {
            return Err(Refusal::Bad(CompanionCause::LineOrder));
        }
        self.claims.extend_from_slice(&later.claims)?;
        self.nices.extend_from_slice(&later.nices)?;
        self.charges.extend_from_slice(&later.charges)?;
        Ok(())
    }
}
