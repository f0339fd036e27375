ghost use Rattle.std.specs.Prelude.{◌≡◌};
ghost use Rattle.recording_audit.specs.Report.{counted, no_count, word_for};

use crate::part::Told;
use std::fmt;

/// How much of a recording was judged.
#[derive(Clone, Copy, Debug)]
pub struct Tally {
    pub stretches: u64,
    pub cuts: u64,
    /// The events of the stretches.
    pub judged: u64,
    /// All events.
    pub events: u64,
    /// Whether a stretch needs more than the limits.
    pub is_over: bool,
}

impl Tally {
    /// Nothing is counted.
    pub fn new() -> Tally
        ensures { result ≡ no_count }
    {
        Tally {
            stretches: 0,
            cuts: 0,
            judged: 0,
            events: 0,
            is_over: false,
        }
    }

    /// One more part.
    pub fn add(&mut self, told: &Told)
        ensures { self.new ≡ counted self.old told.now }
    {
        match told {
            Told::Stretch(stretch) => {
                self.stretches = self.stretches.saturating_add(1);
                self.judged = self.judged.saturating_add(stretch.events);
                self.events = self.events.saturating_add(stretch.events);
                self.is_over |= stretch.over.is_some();
            }
            Told::Cut(cut) => {
                self.cuts = self.cuts.saturating_add(1);
                self.events = self.events.saturating_add(cut.events);
            }
            Told::Quiet => (),
        }
    }
}

impl fmt::Display for Tally {
    ghost use Rattle.std.specs.Prelude.{Some};
    ghost use Rattle.recording_audit.specs.Report.{tally_words};

    ghost output = { λ tally. Some (tally_words tally) };

    fn fmt<W: fmt::Write>(&self, f: &mut fmt::Formatter<W>) -> fmt::Result {
        let Tally {
            stretches,
            cuts,
            judged,
            events,
            ..
        } = *self;
        let stretch = word_for(stretches, "stretch", "stretches");
        let cut = word_for(cuts, "cut", "cuts");
        write!(
            f,
            "judged {judged} of {events} events in {stretches} {stretch}, {cuts} {cut}"
        )
    }
}

/// The one word for one, and the other for none and for several.
fn word_for(count: u64, one: &'static str, several: &'static str) -> &'static str
    ensures { result.now ≡ word_for count one.now several.now }
{
    if count == 1 { one } else { several }
}
