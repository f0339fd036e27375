ghost use Rattle.std.specs.Prelude.{◌≡◌, Some, pos};
ghost use Rattle.replay_model.specs.Deeds.{came_ticket, left_ticket, place_of_sort};
ghost use Rattle.runqueue.specs.Queue.{runqueue_view, IsTaskAt};
ghost use Rattle.runqueue.specs.Tasks.{entity_of};

use cfs_model::{Claim, ClaimSort, Nice, Place, Policy, Task};
use replay_model::Ticket;
use runqueue::{Runqueue, SchedEntity};

/// A task that comes here at the claimed virtual runtime, without a drift.
pub(crate) fn claimed_task(
    place: Place,
    pid: u32,
    nice: Nice,
    policy: Policy,
    cpu: u32,
    claim: Claim,
) -> SchedEntity
    ensures pid { result.pid ≡ pid }
    ensures entity { entity_of result ≡ record {
      place = place;
      nice = nice;
      policy = policy;
      runtime = claim.v;
      drift =
          pos 0;
    } }
{
    SchedEntity::of(Task {
        pid,
        nice,
        policy,
        cpu,
        place,
        v: claim.v,
    })
}

/// The ticket of a task that leaves, if it stands here.
pub(crate) fn left_ticket(
    queue: &Runqueue,
    line: u32,
    pid: u32,
    task: &Option<SchedEntity>,
) -> Option<Ticket>
    requires { IsTaskAt (runqueue_view queue.now) pid task.now }
    ensures { result ≡ left_ticket (runqueue_view queue.now) line pid }
{
    let task = (*task)?;
    Some(Ticket {
        line,
        pid,
        nice: task.nice,
        policy: task.policy,
        place: task.place,
        offset: i128::from(task.v) - i128::from(queue.floor()),
    })
}

/// The ticket of a task that comes by this claim.
pub(crate) fn came_ticket(
    queue: &Runqueue,
    line: u32,
    pid: u32,
    nice: Nice,
    policy: Policy,
    claim: Claim,
) -> Ticket
    ensures { Some result ≡ came_ticket (runqueue_view queue.now) line pid nice policy (Some claim) }
{
    Ticket {
        line,
        pid,
        nice,
        policy,
        place: place_of(claim),
        offset: i128::from(claim.v) - i128::from(queue.floor()),
    }
}

/// The place that a migration's claim tells.
pub(crate) fn place_of(claim: Claim) -> Place
    ensures { result ≡ place_of_sort claim.sort }
{
    let sort = claim.sort;
    match sort {
        ClaimSort::At => Place::Wait,
        ClaimSort::Pass => Place::Rest,
    }
}
