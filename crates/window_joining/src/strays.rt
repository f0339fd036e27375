ghost use Rattle.std.specs.Prelude.{◌≡◌, [], true};
ghost use Rattle.std.specs.List.{AllPairs};
ghost use Rattle.companion_file.specs.Order.{IdleRises};
ghost use Rattle.sched_record.specs.Join.{IsLeastOf};
ghost use Rattle.sched_record.specs.Lesser.{lesser_of};
ghost use Rattle.window_joining.specs.Lesser.{above_limit};
ghost use Rattle.window_joining.specs.News.{AreRising, IsIdleBeside, IsStrayBeside, is_named_by};

use crate::between::first_line;
use cfs_model::{ChargeLine, Claim, Entry, IdleLine, NiceLine};

/// The least line of what is new and isn't on this event's line, or names no birth there.
pub(crate) fn stray_in(
    claims: &[Claim],
    nices: &[NiceLine],
    charges: &[ChargeLine],
    idles: &[IdleLine],
    event: &Entry,
) -> Option<u32>
    requires { AreRising (record {
      claims = claims.now;
      nices = nices.now;
      charges = charges.now;
      idles = idles.now;
    }) }
    ensures { IsLeastOf (IsStrayBeside (record {
      claims = claims.now;
      nices = nices.now;
      charges = charges.now;
      idles = idles.now;
    }) event.now) result }
{
    let claim = above(first_line(claims), event.line);
    if are_only_claims(nices, charges, idles) {
        return claim;
    }
    let change = above(first_line(nices), event.line);
    let idle = stray_idle(idles, event);
    let charge = above(first_line(charges), event.line);
    lesser(claim, lesser(change, lesser(idle, charge)))
}

/// Whether no more than claims is new, as nearly always.
fn are_only_claims(nices: &[NiceLine], charges: &[ChargeLine], idles: &[IdleLine]) -> bool
    ensures { result ≡ true → (nices.now ≡ []) × (charges.now ≡ []) × (idles.now ≡ []) }
{
    nices.is_empty() && charges.is_empty() && idles.is_empty()
}

/// The line of the first idle line that names no birth by this event.
fn stray_idle(idles: &[IdleLine], event: &Entry) -> Option<u32>
    requires { AllPairs IdleRises idles.now }
    ensures { IsLeastOf (IsIdleBeside idles.now event.now) result }
{
    for idle in idles {
        if !is_birth(event, *idle) {
            return Some(idle.line);
        }
    }
    None
}

/// Whether an event is the birth that an idle line speaks of.
fn is_birth(event: &Entry, idle: IdleLine) -> bool
    ensures { result ≡ is_named_by event.now idle }
{
    event.line == idle.line && event.act.begun() == Some(idle.pid)
}

/// The line, where it is above this one.
fn above(line: Option<u32>, limit: u32) -> Option<u32>
    ensures { result ≡ above_limit limit line }
{
    match line {
        Some(line) if line < limit => Some(line),
        _ => None,
    }
}

/// The lesser of the lines that there are.
pub(crate) fn lesser(first: Option<u32>, second: Option<u32>) -> Option<u32>
    ensures { result ≡ lesser_of first second }
{
    match (first, second) {
        (Some(a), Some(b)) => Some(a.min(b)),
        (Some(line), None) | (None, Some(line)) => Some(line),
        (None, None) => None,
    }
}
