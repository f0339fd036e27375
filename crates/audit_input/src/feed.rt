ghost use Rattle.std.specs.Prelude.{◌≡◌, ◌≤◌, ℕ, List, Option, Bool, false, length, is_err, ◌||◌, IfOk};
ghost use Rattle.std.specs.Io.KnownBytes.{ReadConsumes};
ghost use Rattle.audit_input.specs.Known.{one_more, gives_nothing};

use crate::Failed;

/// An end that gives bytes.
pub trait Feed {
    /// The bytes that its reads will give from here on, where they are known.
    ghost left: { Self → Option (List ℕ) };

    /// How many reads were made, in a count that stays at 2^64 - 1.
    ghost calls: { Self → ℕ };

    /// Whether a read failed.
    ghost has_failed: { Self → Bool };

    /// Whether a read into a buffer with room gave none: its end.
    ghost has_ended: { Self → Bool };

    /// Gives bytes to the front of the buffer, and says how many. None, into a buffer with room, is the end: no read
    /// follows it, since a terminal would go on behind its end.
    fn read(&mut self, buf: &mut [u8]) -> Result<usize, Failed>
        requires { has_ended self.old ≡ false }
        ensures within { IfOk result (λ count. count ≤ length buf.new) }
        ensures bytes { ReadConsumes (left self.old) (left self.new) result buf.new }
        ensures counted { calls self.new ≡ one_more (calls self.old) }
        ensures failed { has_failed self.new ≡ (has_failed self.old || is_err result) }
        ensures ended { has_ended self.new ≡ (has_ended self.old || gives_nothing result buf.new) };

    /// Tells how much was found so far for which a line may be quoted. Where it is more than before, the latest finding
    /// is told in place of all before, and a feed that keeps its last reads holds those that it has then.
    fn note_findings(&self, _count: u32) {}

    /// Where no read was made none failed and none ended.
    ghost untouched: { (feed : Self) → calls feed ≡ 0 → (has_failed feed ≡ false) × (has_ended feed ≡ false) };
}
