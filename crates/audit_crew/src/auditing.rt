ghost use Rattle.std.specs.Prelude.{◌≡◌, ◌<◌, None, [], IfErr, OnOk, OnErr};
ghost use Rattle.audit_crew.specs.Refusal.{IsToldBy};
ghost use Rattle.audit_crew.specs.Tags.{IsOneTag};
ghost use Rattle.sched_record.specs.Stream.{stream_view};

use crate::underway::Underway;
use crate::{AuditorFault, Gate, Shelf};
use cfs_model::Knobs;
use sched_record::Stream;
use std::alloc::Global;

/// Replays a stream in stretches of so many steps, and posts its page. It goes through the gate at the beginning and
/// behind every stretch; a stream without steps has one. Where steps are left after a stretch it asks the shelf for
/// the least line of a fault, and stops where it is on that line or past it: no step that is left can tell of an
/// earlier one.
pub fn auditor<S: Shelf, G: Gate>(
    alloc: Global,
    shelf: &mut S,
    gate: &G,
    stream: Stream,
    knobs: Knobs,
    stretch: u64,
) -> Result<(), AuditorFault>
    requires stretch { 0 < stretch }
    requires accepted { S.accepted shelf.old ≡ [] }
    requires refused { S.refused shelf.old ≡ None }
    ensures posted { OnOk result (IsOneTag (stream_view stream) knobs (S.told shelf.new) (S.accepted shelf.new)) }
    ensures none_refused { OnOk result (S.refused shelf.new ≡ None) }
    ensures kept { OnErr result (S.accepted shelf.new ≡ S.accepted shelf.old) }
    ensures fault { IfErr result (λ fault. IsToldBy (S.refused shelf.new) (stream_view stream) knobs fault) }
{
    Underway::begin(alloc, gate, stream, knobs, stretch)?.end(shelf, gate, stretch)
}
