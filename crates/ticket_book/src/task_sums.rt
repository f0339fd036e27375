//! What each task did, added over processors.
ghost use Rattle.std.specs.Prelude.{◌≡◌, [], ◌∷◌, All, map};
ghost use Rattle.ticket_book.specs.Tallying.{FitsTally, with_tallies};

use queue_replay::TallyBook;
use replay_model::Tally;

/// Adds what some tallies say to the sums of their tasks.
pub(crate) fn add_all(sums: &mut TallyBook, tallies: &[Tally])
    requires { All (λ sum. FitsTally (with_tallies tallies.now sum)) sums.old.table.rows }
    ensures { sums.new.table.rows ≡ map (with_tallies tallies.now) sums.old.table.rows }
{
    // Mostly the next tally's sum stands behind this one's: pages and sums name their tasks as they come.
    let mut expected = 0;
    for tally in tallies {
        expected = add(sums, *tally, expected);
    }
}

/// Adds what a tally says to the sum of its task, which is expected at an index. Answers where the next one is.
fn add(sums: &mut TallyBook, tally: Tally, expected: usize) -> usize
    requires { All (λ sum. FitsTally (with_tallies (tally ∷ []) sum)) sums.old.table.rows }
    ensures { sums.new.table.rows ≡ map (with_tallies (tally ∷ [])) sums.old.table.rows }
{
    match sums.index_near(expected, tally.pid) {
        Some(index) => {
            add_to(sums.table.row_mut(index), tally);
            index.saturating_add(1)
        }
        None => expected,
    }
}

/// Adds what a tally says of a task to the task's sum.
fn add_to(sum: &mut Tally, tally: Tally)
    requires { FitsTally (with_tallies (tally ∷ []) sum.old) }
    ensures { sum.new ≡ with_tallies (tally ∷ []) sum.old }
{
    if sum.pid == tally.pid {
        sum.ran += tally.ran;
        sum.charged += tally.charged;
        sum.picks += tally.picks;
    }
}
