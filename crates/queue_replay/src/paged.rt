ghost use Rattle.std.specs.Prelude.{◌≡◌};
ghost use Rattle.replay_model.specs.Noted.{PageView};

use crate::page::Page;
use crate::windowed::WindowedReplay;
use replay_model::{StepFault, Tally, Ticket};

/// What has the page of one processor: of a whole record, or of a window.
pub trait Paged {
    ghost page: { Self → PageView };

    /// The first fault, of a step or of the end test.
    fn fault(&self) -> Option<StepFault>
        ensures { result ≡ (page self.now).fault };

    /// The tickets of the tasks that left, in the order of their lines.
    fn left(&self) -> &[Ticket]
        ensures { result.now ≡ (page self.now).left };

    /// The tickets of the tasks that came, in the order of their lines.
    fn came(&self) -> &[Ticket]
        ensures { result.now ≡ (page self.now).came };

    /// One for each pid that stood here, in the order in which they first did.
    fn tallies(&self) -> &[Tally]
        ensures { result.now ≡ (page self.now).tallies };
}

impl Paged for Page {
    ghost page = { λ page. page.page };

    fn fault(&self) -> Option<StepFault> {
        self.fault()
    }

    fn left(&self) -> &[Ticket] {
        self.left()
    }

    fn came(&self) -> &[Ticket] {
        self.came()
    }

    fn tallies(&self) -> &[Tally] {
        self.tallies()
    }
}

impl Paged for WindowedReplay {
    ghost use Rattle.queue_replay.specs.Windowed.{windowed_view};

    ghost page = { λ replay. (windowed_view replay).state.page };

    fn fault(&self) -> Option<StepFault> {
        self.fault()
    }

    fn left(&self) -> &[Ticket] {
        self.left()
    }

    fn came(&self) -> &[Ticket] {
        self.came()
    }

    fn tallies(&self) -> &[Tally] {
        self.tallies()
    }
}
