use crate::companion_text::CompanionText;
use cfs_model::{ChargeLine, Claim, NiceLine};
use std::alloc::{AllocError, Global};

/// How many claims a piece has, but for the last.
const CLAIMS_A_PIECE: usize = 4 * 1024;

/// How many bytes most lines have at most.
const BYTES_A_LINE: usize = 40;

/// What a companion says on the lines of events, each by rising line.
#[derive(Clone, Copy)]
pub(crate) struct Sayings<'c> {
    pub claims: &'c [Claim],
    pub charges: &'c [ChargeLine],
    pub nices: &'c [NiceLine],
}

impl<'c> Sayings<'c> {
    /// The same in pieces: what is said on one line stands in one of them.
    pub(crate) fn cut(self, alloc: Global) -> Result<Vec<Sayings<'c>>, AllocError> {
        let mut pieces = Vec::new(alloc);
        let mut rest = self;
        for claims in self.claims.chunks(CLAIMS_A_PIECE) {
            if let Some(last) = claims.last() {
                let (piece, behind) = rest.split_behind(last.line);
                pieces.push(piece)?;
                rest = behind;
            }
        }
        pieces.push(rest)?;
        Ok(pieces)
    }

    /// What is said up to a line of the trace, and what is said behind it.
    fn split_behind(self, line: u32) -> (Sayings<'c>, Sayings<'c>) {
        let (claims, later_claims) = self
            .claims
            .split_at(self.claims.partition_point(|claim| claim.line <= line));
        let (charges, later_charges) = self
            .charges
            .split_at(self.charges.partition_point(|charge| charge.line <= line));
        let (nices, later_nices) = self
            .nices
            .split_at(self.nices.partition_point(|change| change.line <= line));
        (
            Sayings {
                claims,
                charges,
                nices,
            },
            Sayings {
                claims: later_claims,
                charges: later_charges,
                nices: later_nices,
            },
        )
    }

    /// Its lines.
    pub(crate) fn text(self, alloc: Global) -> Result<Vec<u8>, AllocError> {
        let count = self
            .claims
            .len()
            .saturating_add(self.charges.len())
            .saturating_add(self.nices.len());
        let room = count.saturating_mul(BYTES_A_LINE);
        let mut text = CompanionText::new(String::with_capacity(alloc, room)?);
        let mut later = self;
        for claim in self.claims {
            later = later.push_up_to(&mut text, claim.line)?;
            text.push_claim(claim)?;
        }
        later.push_up_to(&mut text, u32::MAX)?;
        Ok(text.into_bytes())
    }

    /// Writes the charges and the changes up to a line of the trace, and gives those that follow.
    fn push_up_to(self, text: &mut CompanionText, line: u32) -> Result<Sayings<'c>, AllocError> {
        let mut later = self;
        for charge in self.charges {
            if charge.line > line {
                break;
            }
            // On the line of a charge the change stands behind it.
            later.nices = push_changes(text, later.nices, charge.line.saturating_sub(1))?;
            text.push_charge(charge)?;
            later.charges = later.charges.get(1..).unwrap_or(&[]);
        }
        later.nices = push_changes(text, later.nices, line)?;
        Ok(later)
    }
}

/// Writes the changes up to a line of the trace, and gives those that follow.
fn push_changes<'c>(
    text: &mut CompanionText,
    changes: &'c [NiceLine],
    line: u32,
) -> Result<&'c [NiceLine], AllocError> {
    let mut later = changes;
    for change in changes {
        if change.line > line {
            break;
        }
        text.push_change(change)?;
        later = later.get(1..).unwrap_or(&[]);
    }
    Ok(later)
}
