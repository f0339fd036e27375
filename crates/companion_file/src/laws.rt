ghost use Rattle.std.specs.Prelude.{◌≡◌, ◌↔◌, ℕ, List, Result};
ghost use Rattle.companion_file.specs.declared.fault.CompanionCause.{CompanionCause};
ghost use Rattle.companion_file.specs.Companion.{CompanionView, CompanionAnswer};
ghost use Rattle.companion_file.specs.Versions.{DifferInVersion, DifferInThird};

/// A text means one companion, or it is refused at one line for one cause.
pub fn one_companion_answer()
    ensures { (text : List ℕ) (a b : Result CompanionView (ℕ × CompanionCause)) → CompanionAnswer text a
        → CompanionAnswer text b → a ≡ b }
{}

/// A text without `nice` lines and `idle` lines means the same in versions 1 and 2.
pub fn same_in_both_versions()
    ensures { (one two : List ℕ) (answer : Result CompanionView (ℕ × CompanionCause)) → DifferInVersion one two
        → CompanionAnswer one answer ↔ CompanionAnswer two answer }
{}

/// A text without `charge` lines means the same in versions 2 and 3.
pub fn same_without_charges()
    ensures { (two three : List ℕ) (answer : Result CompanionView (ℕ × CompanionCause)) → DifferInThird two three
        → CompanionAnswer two answer ↔ CompanionAnswer three answer }
{}
