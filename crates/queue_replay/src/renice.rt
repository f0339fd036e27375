ghost use Rattle.std.specs.Prelude.{◌≡◌, Some, IfOk};
ghost use Rattle.replay_model.specs.Deeds.{reniced};
ghost use Rattle.runqueue.specs.Queue.{runqueue_view};
ghost use Rattle.queue_replay.specs.Rows.{HoldsUnmade, IsTried, NamesMade};

use crate::deeds::try_deed;
use crate::outcome::Outcome;
use cfs_model::{Kind, Knobs, Memory, NiceLine};
use replay_model::{Step, StepFault};
use runqueue::Runqueue;

/// A step is tried on a runqueue that is charged and lifted: the change of a nice value on its line, and then its deed.
/// Where a test fails, or memory is wanted, the map and the set hold what they did.
#[inline(always)]
pub(crate) fn try_step(
    queue: &mut Runqueue,
    cpu: u32,
    step: &Step,
    knobs: &Knobs,
) -> Result<Outcome, Memory>
    ensures tried { IfOk result (IsTried knobs.now cpu (reniced step.now.nice (runqueue_view queue.old)) step.now
        (runqueue_view queue.new)) }
    ensures same { HoldsUnmade result queue.old queue.new }
    ensures pids { NamesMade result step.now.deed queue.old queue.new }
{
    match step.nice {
        None => try_deed(queue, cpu, step, knobs),
        Some(change) => {
            // Handed on by value: the outcomes of other steps then need no place in memory.
            let outcome = try_reniced(queue, cpu, step, change, knobs)?;
            Ok(outcome)
        }
    }
}

/// The same of a step whose line changes a nice value.
#[inline(never)]
fn try_reniced(
    queue: &mut Runqueue,
    cpu: u32,
    step: &Step,
    change: NiceLine,
    knobs: &Knobs,
) -> Result<Outcome, Memory>
    requires { step.now.nice ≡ Some change }
    ensures tried { IfOk result (IsTried knobs.now cpu (reniced (Some change) (runqueue_view queue.old)) step.now
        (runqueue_view queue.new)) }
    ensures same { HoldsUnmade result queue.old queue.new }
    ensures pids { NamesMade result step.now.deed queue.old queue.new }
{
    let pid = change.pid;
    let Some(before) = queue.renice(pid, change.nice) else {
        return Ok(Outcome::Failed(StepFault {
            line: step.line,
            kind: Kind::Strange,
            pid,
            deadline: None,
        }));
    };
    match try_deed(queue, cpu, step, knobs) {
        Ok(Outcome::Made(deed)) => Ok(Outcome::Made(deed)),
        Ok(Outcome::Failed(fault)) => {
            queue.renice(pid, before);
            Ok(Outcome::Failed(fault))
        }
        Err(memory) => {
            queue.renice(pid, before);
            Err(memory)
        }
    }
}
