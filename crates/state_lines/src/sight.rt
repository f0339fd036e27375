ghost use Rattle.std.specs.Prelude.{◌≡◌, ◌+◌, Some, None, IfOk, IfSome, slice_get};
ghost use Rattle.state_lines.specs.Glance.{IsGlanceAt, subject_of};

use crate::glance::Glance;
use cfs_model::Memory;
use queue_replay::{Replay, State};
use replay_model::{Deed, Step};

/// An event, and how a processor that it touches stands before it and behind it.
#[derive(Clone, Copy, Debug, PartialEq, Eq)]
pub struct Sight {
    pub step: Step,
    pub before: Glance,
    pub after: Glance,
}

/// Makes the next step of a replay. None where it fails. Behind the last step the end test may fail, too.
pub fn next_sight(replay: &mut Replay, step: &Step) -> Result<Option<Sight>, Memory>
    requires { slice_get replay.old.stream.steps replay.old.made ≡ Some step.now }
    ensures step { IfOk result (λ found. IfSome found (λ sight. sight.step ≡ step.now)) }
    ensures before { IfOk result (λ found. IfSome found
        (λ sight. IsGlanceAt replay.old (subject_of step.now.deed) sight.before)) }
    ensures after { IfOk result (λ found. IfSome found
        (λ sight. IsGlanceAt replay.new (subject_of step.now.deed) sight.after)) }
    ensures failed { IfOk result (λ found. found ≡ None → replay.new.page.line ≡ replay.old.page.line) }
    ensures made { IfOk result (λ found. IfSome found (λ _. replay.new.made ≡ replay.old.made + 1)) }
    ensures stream { replay.new.stream ≡ replay.old.stream }
    ensures knobs { replay.new.knobs ≡ replay.old.knobs }
{
    let pid = subject(&step.deed);
    let before = Glance::of(replay, pid);
    let last = replay.line();
    let state = replay.go_on(1)?;
    // The line of the last step that passed stays where a step fails.
    if state == State::Faulted && replay.line() == last {
        return Ok(None);
    }
    Ok(Some(Sight {
        step: *step,
        before,
        after: Glance::of(replay, pid),
    }))
}

/// The task that a deed is of; of a switch the previous one.
pub(crate) fn subject(deed: &Deed) -> u32
    ensures { result ≡ subject_of deed.now }
{
    match *deed {
        Deed::Switch { prev, .. } => prev,
        Deed::Wake { pid, .. }
        | Deed::Born { pid, .. }
        | Deed::Leave { pid, .. }
        | Deed::Arrive { pid, .. } => pid,
    }
}
