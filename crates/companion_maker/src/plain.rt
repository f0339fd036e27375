ghost use Rattle.std.specs.Prelude.{◌≡◌, List, All, IfOk};
ghost use Rattle.cfs_model.specs.declared.act.Entry.{Entry};
ghost use Rattle.cfs_model.specs.Limits.{most_processors};
ghost use Rattle.sched_record.specs.Join.{IsInside};
ghost use Rattle.companion_maker.specs.Fitting.{ReadsAndJoins};
ghost use Rattle.companion_maker.specs.Unguessed.{plain};

use std::alloc::{AllocError, Global};

/// A companion that goes together with each trace whose processors are below 64: nobody stands anywhere, and nothing is
/// claimed.
const PLAIN: &[u8] =
    b"cfs-companion 2\ncpus 64\nstart 0.000000\nfloor 0 0\nfloor 1 0\nfloor 2 0\nfloor 3 0\nfloor 4 0\nfloor 5 0\nfloor 6 0\nfloor 7 0\nfloor 8 0\nfloor 9 0\nfloor 10 0\nfloor 11 0\nfloor 12 0\nfloor 13 0\nfloor 14 0\nfloor 15 0\nfloor 16 0\nfloor 17 0\nfloor 18 0\nfloor 19 0\nfloor 20 0\nfloor 21 0\nfloor 22 0\nfloor 23 0\nfloor 24 0\nfloor 25 0\nfloor 26 0\nfloor 27 0\nfloor 28 0\nfloor 29 0\nfloor 30 0\nfloor 31 0\nfloor 32 0\nfloor 33 0\nfloor 34 0\nfloor 35 0\nfloor 36 0\nfloor 37 0\nfloor 38 0\nfloor 39 0\nfloor 40 0\nfloor 41 0\nfloor 42 0\nfloor 43 0\nfloor 44 0\nfloor 45 0\nfloor 46 0\nfloor 47 0\nfloor 48 0\nfloor 49 0\nfloor 50 0\nfloor 51 0\nfloor 52 0\nfloor 53 0\nfloor 54 0\nfloor 55 0\nfloor 56 0\nfloor 57 0\nfloor 58 0\nfloor 59 0\nfloor 60 0\nfloor 61 0\nfloor 62 0\nfloor 63 0\n";

fn plain_bytes() -> &'static [u8]
    ensures { result.now ≡ plain }
{
    PLAIN
}

/// The text of that companion.
#[tactic(auto, using(crate::proofs::Unguessed::plain_fits))]
pub(crate) fn plain_text(alloc: Global) -> Result<Vec<u8>, AllocError>
    ensures { IfOk result (λ text. (events : List Entry) → All (IsInside most_processors) events
        → ReadsAndJoins events text.items) }
{
    Vec::from_slice(alloc, plain_bytes())
}
