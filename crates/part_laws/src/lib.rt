//! The laws of a processor's part, each the contract of a function that does nothing: a step of the machine is one of
//! the parts that its event touches, and a stream has one page. Each names the files of `proofs` that carry it, the
//! topmost first.
#![tactic(auto)]

ghost use Rattle.part_laws.specs.Migrations.{MachineMigrates, PartsMigrate};
ghost use Rattle.part_laws.specs.PartSteps.{MachineSteps, PartSteps};
ghost use Rattle.part_laws.specs.Pages.{OnePage};

/// Where an event touches one processor, the machine has a step just where the part there passes the tests and a pid
/// that is born stands nowhere; no other part changes.
///
/// Carried by `stepping`: PartForward from the machine to the part, and PartSteps back; below both PartLift,
/// PartRenice, PartSwitch with SwitchClear, PartPlaced with PlacedClear, PartMoves.
pub fn part_steps()
    ensures part { PartSteps }
    ensures machine { MachineSteps }
{}

/// The machine has a step by a migration just where the parts at both ends pass the tests and their tickets are equal;
/// no other part changes.
///
/// Carried by `migrating`: MigrationSteps, PartMigration; then PartLift, PartRenice, PartMoves and PlacedClear of
/// `stepping`.
pub fn migrations()
    ensures part { PartsMigrate }
    ensures machine { MachineMigrates }
{}

/// A stream has at most one page by its first steps.
///
/// Carried by `one_page`: OnePage, OneRunner, OnePid, OneLift.
pub fn pages()
    ensures { OnePage }
{}
