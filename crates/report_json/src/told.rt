ghost use Rattle.std.specs.Prelude.{◌≡◌, ◌++◌, ℕ, Bool, List, OnOk, string_bytes};

use audit_report::Judgement;
use std::alloc::AllocError;

/// What is told of a record, as members of a JSON object.
pub trait Told: Judgement {
    /// The members of an object that tells it where it names no fault, by whether the companion tells charges.
    ghost members: { Bool → Self → List ℕ };

    /// Writes them.
    fn push_members(&self, text: &mut String, tells_charges: bool) -> Result<(), AllocError>
        ensures { OnOk result (string_bytes text.new ≡ string_bytes text.old ++ members tells_charges self.now) };
}
