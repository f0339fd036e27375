//! How a command line ends: with an answer, or why there is none.

use cfs_model::Memory;
use std::fmt::Debug;
use std::io;
use std::io::ErrorKind;
use std::process::ExitCode;

/// Prints the answer of a call.
pub fn print_answer<R: Print, T: Debug>(rt: &R, answer: &T) -> io::Result<ExitCode> {
    println!(rt; "{answer:?}")?;
    Ok(ExitCode::SUCCESS)
}

/// The end of a bad command line.
pub fn bad_words() -> io::Result<ExitCode> {
    Ok(ExitCode::from(5))
}

/// The end where a text is refused, or both don't join.
pub fn refused() -> io::Error {
    io::Error::from(ErrorKind::InvalidData)
}

pub fn out_of_memory(_memory: Memory) -> io::Error {
    io::Error::from(ErrorKind::OutOfMemory)
}
