ghost use Rattle.std.specs.Prelude.{IfOk, IfSome};
ghost use Rattle.sched_record.specs.Record.{record_view};
ghost use Rattle.task_names.specs.NameOf.{IsNameOf};

use cfs_model::Memory;
use replay_model::FirstFault;
use sched_record::Record;

/// What knows the names of a record's tasks, by a trace that was read to its end.
pub trait TaskNaming<T> {
    /// The name of the task of a record's first fault, if it is known.
    fn name(
        &mut self,
        joined: &Record,
        fault: FirstFault,
        trace: &T,
    ) -> Result<Option<Vec<u8>>, Memory>
        ensures { IfOk result
            (λ found. IfSome found (λ name. IsNameOf (record_view joined.now) fault.pid name.items)) };
}
