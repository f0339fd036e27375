ghost use Rattle.std.specs.Prelude.{◌<◌};
ghost use Rattle.std.specs.List.{AllPairs};
ghost use Rattle.window_joining.specs.Look.{ArePassed, IsSeen, WillPass};

use cfs_model::{Claim, ClaimSort, NO_LINE};

/// What is new of the claims up to a line, as far as one look at the next claim tells.
#[derive(Clone, Copy, Debug)]
pub(crate) enum Look<'a> {
    /// This claim, which is on the line, or nothing: whether it is said is no branch, since nobody could guess it.
    Clear {
        claim: &'a Claim,
        is_said: bool,
        /// How many claims are passed then.
        passed: usize,
    },
    /// More than a look tells.
    Unclear,
}

/// What a look shows where no claim comes.
const NO_CLAIM: Claim = Claim {
    line: NO_LINE,
    pid: 0,
    v: 0,
    sort: ClaimSort::At,
};

/// Looks at the claim at an index, before which all claims stand on lines up to one: what is new from there up to
/// another.
#[inline(always)]
pub(crate) fn look_at(claims: &[Claim], next: usize, low: u32, line: u32) -> Look<'_>
    requires rise { AllPairs (λ a b. a.line < b.line) claims.now }
    requires passed { ArePassed claims.now next low }
    requires order { low < line }
    ensures seen { IsSeen claims.now next low line result }
    ensures passed { WillPass claims.now line result }
{
    if next == claims.len() {
        return Look::Clear {
            claim: &NO_CLAIM,
            is_said: false,
            passed: next,
        };
    }
    let claim = &claims[next];
    if claim.line < line {
        return Look::Unclear;
    }
    let is_said = claim.line == line;
    Look::Clear {
        claim,
        is_said,
        passed: next + usize::from(is_said),
    }
}
