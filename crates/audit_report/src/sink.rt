ghost use Rattle.std.specs.Prelude.{◌≡◌, ◌≤◌, ◌||◌, ℕ, List, Option, Bool, length, IfOk};
ghost use Rattle.std.specs.Io.KnownBytes.{WriteAppends};
ghost use Rattle.audit_report.specs.Taken.{takes_nothing};

use audit_input::Failed;

/// An end that takes bytes.
pub trait Sink {
    /// The bytes that it has taken, where they are known.
    ghost taken: { Self → Option (List ℕ) };

    /// Whether a write failed, or took no byte of some.
    ghost has_failed: { Self → Bool };

    /// Takes bytes from the front of the buffer, and says how many.
    fn write(&mut self, buf: &[u8]) -> Result<usize, Failed>
        ensures within { IfOk result (λ count. count ≤ length buf.now) }
        ensures bytes { WriteAppends (taken self.old) (taken self.new) result buf.now }
        ensures failed { has_failed self.new ≡ (has_failed self.old || takes_nothing result buf.now) };
}
