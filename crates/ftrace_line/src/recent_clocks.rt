ghost use Rattle.std.specs.Prelude.{◌≡◌, ◌<◌, ◌≤◌, IfSome, length};
ghost use Rattle.std.specs.List.{prefix_len};
ghost use Rattle.text_parts.specs.Reading.{Gives, after_run};
ghost use Rattle.ftrace_line.specs.Clock.{is_mark, HasFlags, HasSeconds};

use crate::clock::{Clock, WIDTH};
use text_parts::numerals::numeral_at;
use text_parts::packed::first_word;
use text_parts::pieces::{after_gap, beyond};

/// How many clocks are remembered.
const REMEMBERED: usize = 8;

/// What stood before the point of a time in lines that were read. Nearly each line has there what one of the last lines
/// had, since there are few words of flags, and a second has many events.
#[derive(Clone, Copy, Debug, Drop)]
pub struct RecentClocks {
    clocks: [Clock; REMEMBERED],
    /// How many bytes that of the last line has. The next has mostly as many, and what follows it is read there before
    /// it is known which it is.
    width: usize,
    ghost few: { width ≤ 16 },
}

impl RecentClocks {
    /// Those of no line yet.
    pub fn new() -> RecentClocks {
        RecentClocks {
            clocks: [Clock::zero(); REMEMBERED],
            width: 0,
        }
    }

    /// The whole seconds behind a processor, and what follows them.
    #[inline(always)]
    pub(crate) fn seconds_at<'a>(&mut self, text: &'a [u8]) -> Option<(u64, &'a [u8])>
        ensures { IfSome result (λ x. HasSeconds text.now x.0 x.1.now) }
    {
        if text.len() <= WIDTH {
            return seconds_at(text);
        }
        let width = self.width;
        let place = place_of(text);
        let clock = &self.clocks[place];
        // Before a further digit another clock stands.
        if clock.width == width && clock.stands_before(text) && text[width] == b'.' {
            return Some((clock.seconds, &text[width..]));
        }
        self.other_seconds_at(place, text)
    }

    /// The same where a clock of another width stands there, or none that is remembered.
    #[inline(never)]
    fn other_seconds_at<'a>(&mut self, place: usize, text: &'a [u8]) -> Option<(u64, &'a [u8])>
        requires place { place < 8 }
        requires long { 16 < length text.now }
        ensures { IfSome result (λ x. HasSeconds text.now x.0 x.1.now) }
    {
        let clock = &self.clocks[place];
        let width = clock.width;
        let seconds = clock.seconds;
        if clock.stands_before(text) && text[width] == b'.' {
            self.width = width;
            return Some((seconds, &text[width..]));
        }
        self.remember(place, text)
    }

    /// The same where another clock stands there, which is remembered in this place.
    fn remember<'a>(&mut self, place: usize, text: &'a [u8]) -> Option<(u64, &'a [u8])>
        requires place { place < 8 }
        requires long { 16 ≤ length text.now }
        ensures { IfSome result (λ x. HasSeconds text.now x.0 x.1.now) }
    {
        let (seconds, rest) = seconds_at(text)?;
        let width = text.len() - rest.len();
        if width <= WIDTH {
            self.clocks[place] = Clock::of(text, width, seconds);
            self.width = width;
        }
        Some((seconds, rest))
    }
}

/// The whole seconds behind a processor, and what follows them.
#[inline(always)]
fn seconds_at(text: &[u8]) -> Option<(u64, &[u8])>
    ensures { IfSome result (λ x. HasSeconds text.now x.0 x.1.now) }
{
    let clock = after_gap(text)?;
    let (seconds, rest) = numeral_at(after_flags(clock))?;
    Some((seconds, rest))
}

/// What follows the word of flags, where there is one.
fn after_flags(text: &[u8]) -> &[u8]
    ensures { HasFlags text.now result.now }
{
    match beyond_flags(text) {
        Some(rest) => rest,
        None => text,
    }
}

/// What follows a word of flags and the spaces behind it.
fn beyond_flags(text: &[u8]) -> Option<&[u8]>
    ensures { IfSome result (λ rest. HasFlags text.now rest.now) }
{
    let gap = beyond_marks(text)?;
    let rest = after_gap(gap)?;
    Some(rest)
}

/// What follows one or more bytes of a word of flags.
#[tactic(auto, unfolding(text_parts::specs::Reading::after_run))]
fn beyond_marks(text: &[u8]) -> Option<&[u8]>
    ensures { Gives (λ x. x.now) result (after_run is_mark text.now) }
{
    beyond(text, mark_count(text))
}

/// How many bytes of a word of flags a text begins with.
#[tactic(auto, using(text_parts::proofs::Runs::prefix_within))]
fn mark_count(text: &[u8]) -> usize
    ensures count { result ≡ prefix_len is_mark text.now }
    ensures within { result ≤ length text.now }
{
    text.iter()
        .take_while(|byte| **byte > b' ' && **byte != b':')
        .count()
}

/// In which place a clock is remembered that stands at the front of a text: the flags tell, which are among the first
/// eight bytes. The multiplier is the golden ratio's.
#[inline(always)]
fn place_of(text: &[u8]) -> usize
    requires { 8 ≤ length text.now }
    ensures { result < 8 }
{
    (first_word(text).wrapping_mul(0x9e37_79b9_7f4a_7c15) >> 61) as usize % REMEMBERED
}
