use crate::text_again::TextAgain;
use audit_input::{Feed, KeepingFeed};
use cfs_model::Memory;
use json_audit::TaskNaming;
use replay_model::FirstFault;
use sched_record::Record;
use std::alloc::Global;
use std::rt::Files;
use task_names::task_name;

/// The name of a fault's task, which is read again from the trace of this name.
#[derive(Drop)]
pub(crate) struct FaultNaming<'a, R> {
    rt: &'a R,
    alloc: Global,
    trace: &'a str,
}

impl<'a, R> FaultNaming<'a, R> {
    pub(crate) fn new(rt: &'a R, alloc: Global, trace: &'a str) -> FaultNaming<'a, R> {
        FaultNaming { rt, alloc, trace }
    }
}

impl<R: Files, F: Feed> TaskNaming<KeepingFeed<F>> for FaultNaming<'_, R> {
    fn name(
        &mut self,
        joined: &Record,
        fault: FirstFault,
        trace: &KeepingFeed<F>,
    ) -> Result<Option<Vec<u8>>, Memory> {
        let mut again = TextAgain::new(self.rt, self.alloc, self.trace, trace);
        task_name(self.alloc, joined, fault.pid, fault.line, &mut again)
    }
}
