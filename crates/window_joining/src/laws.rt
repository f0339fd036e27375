ghost use Rattle.std.specs.Prelude.{◌≡◌, ℕ, ◌≤◌, All, List, false};
ghost use Rattle.cfs_model.specs.declared.act.Entry.{Entry};
ghost use Rattle.companion_file.specs.Companion.{CompanionView};
ghost use Rattle.window_joining.specs.Joining.{GoTogetherSoFar, HasJoined, SaysMore, is_refused, joined_events};
ghost use Rattle.window_joining.specs.declared.joining.Joining.{Joining};

/// A law: where a companion says more, all of it below the last event's line, what is known of the events and what is
/// said on their lines stay.
pub fn more_said()
    ensures joined { (joining : Joining) (c later : CompanionView) (events : List Entry) → HasJoined joining c events
        → SaysMore joining.line c later → HasJoined joining later events }
    ensures events { (c later : CompanionView) (events : List Entry) (edge : ℕ)
        → All (λ event. event.line ≤ edge) events → SaysMore edge c later
        → joined_events later events ≡ joined_events c events }
{}

/// A law: where there is no reason to refuse, the events and the companion go together so far.
pub fn together()
    ensures { (joining : Joining) (c : CompanionView) (events : List Entry) → HasJoined joining c events
        → is_refused joining ≡ false → GoTogetherSoFar events c }
{}
