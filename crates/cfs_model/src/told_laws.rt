//! The laws of told charges. Each is the contract of a function that does nothing.
ghost use Rattle.cfs_model.specs.ToldLaws.{UntoldIgnoresDrift, UntoldHasNoDrift, UntoldLiftsExactly, NoDriftIsExact};
ghost use Rattle.cfs_model.specs.ToldLaws.{DriftsAreWithin, DriftsBeginAnew, DriftAddsUp, SumsAreWithin};

/// Where no charge is told, each task is charged exactly: a run asks nothing of the drift, and no task has one.
pub fn untold()
    ensures ignores { UntoldIgnoresDrift }
    ensures none { UntoldHasNoDrift }
    ensures exact { UntoldLiftsExactly }
{}

/// At drift 0 every told charge is the exact one.
pub fn no_drift()
    ensures { NoDriftIsExact }
{}

/// A task's drift is the sum of what its told charges stray from exact ones since it came to its processor, over sleep
/// and wakeup too; it begins anew where the task comes to another, and is within the setting in each state of a run.
pub fn drifts()
    ensures within { DriftsAreWithin }
    ensures anew { DriftsBeginAnew }
    ensures sum { DriftAddsUp }
    ensures sums { SumsAreWithin }
{}
