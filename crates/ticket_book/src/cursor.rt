ghost use Rattle.std.specs.Prelude.{◌≡◌, ◌↔◌, IsTrue, List, [], ◌∷◌, ◌++◌};
ghost use Rattle.replay_model.specs.declared.step.Step.{Step};

use replay_model::Step;

/// How far a stream keeps up with the steps that its record deals to its processor.
#[derive(Clone, Copy, Debug, PartialEq, Eq)]
pub(crate) enum Cursor {
    /// So many were dealt, and the stream begins with them.
    At(usize),
    /// The stream doesn't begin with those dealt.
    Apart,
}

impl Cursor {
    ghost use Rattle.ticket_book.specs.Cursor.{IsCursor};

    /// The cursor of a stream with these steps, with one more step dealt.
    pub fn after(self, steps: &[Step], step: Step) -> Cursor
        ensures { (dealt : List Step) → IsCursor steps.now dealt self → IsCursor steps.now (dealt ++ step ∷ []) result }
    {
        match self {
            Cursor::At(index) => {
                if index < steps.len() && steps[index] == step {
                    Cursor::At(index + 1)
                } else {
                    Cursor::Apart
                }
            }
            Cursor::Apart => Cursor::Apart,
        }
    }

    /// Whether the steps dealt are all steps of the stream.
    pub fn is_at_end(self, steps: &[Step]) -> bool
        ensures { (dealt : List Step) → IsCursor steps.now dealt self → IsTrue result ↔ (steps.now ≡ dealt) }
    {
        match self {
            Cursor::At(index) => index == steps.len(),
            Cursor::Apart => false,
        }
    }
}
