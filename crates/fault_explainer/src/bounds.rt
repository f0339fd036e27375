use crate::claim_bounds::{
    push_claim_extra, push_claim_missing, push_claim_pid, push_fork_bounds, push_ticket_unequal,
    push_wake_bounds, push_wrong_put_back,
};
use crate::pick_bounds::{
    push_idle_beside_waiting, push_idle_too_long, push_not_least, push_range,
};
use crate::place_bounds::{
    push_home, push_lives, push_next_not_waiting, push_prev_not_running, push_running,
    push_self_switch, push_strange, push_wrong_prio,
};
use crate::scene::Scene;
use crate::told_charge::push_wrong_charge;
use cfs_model::Kind;
use std::alloc::AllocError;

/// What the event asked for and what it found, with both numbers.
pub(crate) fn push_bound(text: &mut String, scene: &Scene) -> Result<(), AllocError> {
    match scene.fault.kind {
        Kind::IdleTooLong => push_idle_too_long(text, scene),
        Kind::Range => push_range(text, scene),
        Kind::WrongCharge => push_wrong_charge(text, scene),
        Kind::MoveHome => push_home(text, scene),
        Kind::SelfSwitch => push_self_switch(text, scene),
        Kind::PrevNotRunning => push_prev_not_running(text, scene),
        Kind::Strange => push_strange(text, scene),
        Kind::Already | Kind::BornTwice => push_lives(text, scene),
        Kind::MoveRunning => push_running(text, scene),
        Kind::WrongPrio => push_wrong_prio(text, scene),
        Kind::ClaimMissing => push_claim_missing(text, scene),
        Kind::ClaimExtra => push_claim_extra(text, scene),
        Kind::ClaimPid => push_claim_pid(text, scene),
        Kind::WrongPutBack => push_wrong_put_back(text, scene),
        Kind::WakeBounds => push_wake_bounds(text, scene),
        Kind::ForkBounds => push_fork_bounds(text, scene),
        Kind::NextNotWaiting => push_next_not_waiting(text, scene),
        Kind::TicketUnequal => push_ticket_unequal(text, scene),
        Kind::IdleBesideWaiting => push_idle_beside_waiting(text, scene),
        Kind::NotLeast => push_not_least(text, scene),
    }
}
