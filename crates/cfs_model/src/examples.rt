//! Small recordings against the definitions of a step and of a run. Each is the contract of a function that does
//! nothing.
ghost use Rattle.cfs_model.specs.Examples.{PutBackExample, NiceExample, IdlePolicyExample, PickExample};
ghost use Rattle.cfs_model.specs.Examples.{MigrationExample, LaterMigrationExample, WakeExample, IdleExample};
ghost use Rattle.cfs_model.specs.Examples.{ToldExample, ToldFloorExample};
ghost use Rattle.cfs_model.specs.Examples.{BirthExample, IdleSwitchExample, NiceChangeExample, StrangeNiceExample};
ghost use Rattle.cfs_model.specs.Examples.{MovedNiceExample, AwayNiceExample, IdleBirthExample, RebirthExample};

/// A task that stays is put back at just what it was charged, by its weight and rounded down; one of the idle policy
/// weighs 3 whatever its nice value.
pub fn put_back_example()
    ensures even { PutBackExample }
    ensures light { NiceExample }
    ensures idle { IdlePolicyExample }
{}

/// A told charge stands in place of the exact one, within the drift: a task that stays is put back at it, and the floor
/// follows it.
pub fn told_example()
    ensures put_back { ToldExample }
    ensures floor { ToldFloorExample }
{}

/// A change of a nice value takes effect between the charge at its event and what the event prints; the task that it
/// names stands at the event's processor, and of a migration at the origin.
pub fn nice_example()
    ensures changes { NiceChangeExample }
    ensures stands { StrangeNiceExample }
    ensures moves { MovedNiceExample }
    ensures away { AwayNiceExample }
{}

/// A picked task lies within the granularity of the least waiting one, which may be the one that was put back; and
/// beside that one a processor doesn't go idle.
pub fn pick_example()
    ensures within { PickExample }
    ensures idle { IdleSwitchExample }
{}

/// A task that moves keeps its distance from the floor, as it is after the lift.
pub fn migration_example()
    ensures at_once { MigrationExample }
    ensures later { LaterMigrationExample }
{}

/// A woken task is placed from the credit below the floor to the floor.
pub fn wake_example()
    ensures { WakeExample }
{}

/// A processor idles beside a waiting task for at most the slack, counted from the event after which it did.
pub fn idle_example()
    ensures { IdleExample }
{}

/// A pid may be born again once its task has ended, at any processor, and is placed from the floor to the debit above
/// it.
pub fn birth_example()
    ensures { BirthExample }
{}

/// A task is of the idle policy where the companion names it at its birth, and else it isn't, whatever the task was
/// that had its pid before.
pub fn policy_example()
    ensures born { IdleBirthExample }
    ensures reborn { RebirthExample }
{}
