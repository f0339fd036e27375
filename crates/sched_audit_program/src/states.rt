//! The file of `--states`.
use audit_command::Failure;
use cfs_model::Knobs;
use sched_audit::{Fault, Hearing, Judgement, Kept, Outcome};
use state_lines::{NotWritten, write_states};
use std::alloc::Global;
use std::fs::File;
use std::io::Write;
use std::rt::Files;

/// Makes the file of this name, if one is asked for.
pub(crate) fn file_of<R: Files>(rt: &R, name: Option<&str>) -> Result<Option<R::File>, Failure> {
    match name {
        Some(name) => match File::create(rt, name) {
            Ok(file) => Ok(Some(file)),
            Err(_) => Err(Failure::States),
        },
        None => Ok(None),
    }
}

/// Writes how each processor stands at each event. Of a refused text there is nothing to write.
pub(crate) fn write_states_to<J: Judgement, W: Write + Drop>(
    alloc: Global,
    knobs: Knobs,
    hearing: &Hearing<J>,
    file: W,
) -> Result<(), Failure> {
    match (&hearing.outcome, &hearing.kept) {
        (Outcome::Judged(judged), Kept::Record(record)) => {
            let knobs = J::replayed_by(knobs);
            match write_states(alloc, record, knobs, judged.fault(), file) {
                Ok(()) => Ok(()),
                Err(NotWritten::Memory) => Err(Failure::Audit(Fault::Memory)),
                Err(NotWritten::Write) => Err(Failure::States),
            }
        }
        _ => Ok(()),
    }
}
