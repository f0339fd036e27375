use audit_crew::Shelf;
use queue_replay::{Page, Tag};
use ticket_book::{NO_FAULT, PostFault};

/// A shelf that takes one page, and tells of no fault.
#[derive(Debug, Drop)]
pub struct Tray {
    pub posted: Option<Tag>,
    told: u64,
}

impl Tray {
    ghost use Rattle.std.specs.Prelude.{◌≡◌, None};

    pub fn new() -> Tray
        ensures { result.posted ≡ None }
    {
        Tray {
            posted: None,
            told: NO_FAULT,
        }
    }
}

impl Shelf for Tray {
    ghost use Rattle.std.specs.Option.{option_to_list};
    ghost use Rattle.std.specs.Prelude.{None};

    ghost accepted = { λ tray. option_to_list tray.posted };

    ghost told = { λ tray. tray.told };

    ghost refused = { λ _. None };

    fn post(&mut self, page: Page) -> Result<(), (Page, PostFault)> {
        self.posted = Some(page.tag());
        Ok(())
    }

    fn least(&mut self) -> u64 {
        self.told
    }
}
