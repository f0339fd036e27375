//! All events of a record dealt once, past the pages of all processors.
ghost use Rattle.std.specs.Prelude.{◌≡◌, ◌≢◌, ◌==◌, ◌||◌, ℕ, List, [], ◌∷◌, ◌++◌, IfOk, slice_get, vec_len};
ghost use Rattle.std.specs.List.{list_any};
ghost use Rattle.cfs_model.specs.Claimed.{Claimed};
ghost use Rattle.cfs_model.specs.Touch.{touched};
ghost use Rattle.replay_model.specs.declared.step.Step.{Step};
ghost use Rattle.sched_record.specs.Record.{record_view};
ghost use Rattle.ticket_book.specs.Book.{page_at};
ghost use Rattle.ticket_book.specs.Cursor.{AreFollowed, IsFollowed, steps_in};
ghost use Rattle.ticket_book.specs.SaidEvents.{events_of};

use crate::cursor::Cursor;
use cfs_model::{ChargeLine, Claim, Entry, Memory, NiceLine, Policy};
use queue_replay::Page;
use replay_model::Step;
use sched_record::{Record, step_at};
use std::alloc::Global;

/// For each of the record's processors the cursor of the page at its index, with all events dealt.
pub(crate) fn cursors_of(
    alloc: Global,
    slots: &[Option<Page>],
    joined: &Record,
) -> Result<Vec<Cursor>, Memory>
    ensures count { IfOk result (λ cursors. vec_len cursors ≡ (record_view joined.now).cpus) }
    ensures followed { IfOk result (λ cursors. AreFollowed slots.now cursors.items
        (events_of (record_view joined.now))) }
{
    let mut cursors = Vec::from_elem(alloc, Cursor::At(0), joined.cpus() as usize)?;
    let mut claim_index = 0;
    let mut nice_index = 0;
    let mut charge_index = 0;
    for (index, event) in joined.events().iter().enumerate() {
        let (claim, next_claim) = joined.claim_beside(index, claim_index);
        let (nice, next_nice) = joined.nice_beside(index, nice_index);
        let (charge, next_charge) = joined.charge_beside(index, charge_index);
        let policy = joined.policy_at(index);
        follow(&mut cursors, slots, event, claim, &nice, charge, policy);
        claim_index = next_claim;
        nice_index = next_nice;
        charge_index = next_charge;
    }
    Ok(cursors)
}

/// Deals one more event, with the claim, the change of a nice value and the told charge on its line, and the policy of
/// the task that it bears or moves.
fn follow(
    cursors: &mut [Cursor],
    slots: &[Option<Page>],
    event: &Entry,
    claim: Option<Claim>,
    nice: &Option<NiceLine>,
    charge: Option<ChargeLine>,
    policy: Policy,
)
    ensures { (events : List Claimed) → AreFollowed slots.now cursors.old events
        → AreFollowed slots.now cursors.new
        (events ++ record { entry = event.now; claim = claim; nice = nice.now; charge = charge; policy = policy } ∷
        []) }
{
    let (first, second) = event.act.ends();
    let step = step_at(*event, claim, *nice, charge, policy, first);
    follow_at(cursors, slots, first, step);
    if second != first {
        let step = step_at(*event, claim, *nice, charge, policy, second);
        follow_at(cursors, slots, second, step);
    }
}

/// Deals one more step to a processor.
fn follow_at(cursors: &mut [Cursor], slots: &[Option<Page>], cpu: u32, step: Step)
    ensures here { (dealt : List Step) → IsFollowed slots.now cursors.old cpu dealt
        → IsFollowed slots.now cursors.new cpu (dealt ++ step ∷ []) }
    ensures others { (other : ℕ) → other ≢ cpu → slice_get cursors.new other ≡ slice_get cursors.old other }
{
    let index = cpu as usize;
    if index < cursors.len() {
        cursors[index] = cursors[index].after(steps_of(slots, cpu), step);
    }
}

/// The steps of a processor's page, none where it has no page.
fn steps_of(slots: &[Option<Page>], cpu: u32) -> &[Step]
    ensures { result.now ≡ steps_in (page_at slots.now cpu) }
{
    match slots.get(cpu as usize) {
        Some(Some(page)) => page.stream().steps(),
        _ => &[],
    }
}
