use std::fs::{self, Metadata};
use std::io::{self, ErrorKind};
use std::rt::{Files, Stdin};

/// Where the system shows what standard input is.
const SHOWN: &str = "/dev/stdin";

/// Standard input, and what the system says of it. It is looked at before any name is opened: where it is closed, the
/// first file that is opened takes its place.
#[derive(Drop)]
pub struct StandardInput {
    stdin: Stdin,
    /// None once it was taken.
    about: Option<io::Result<Metadata>>,
}

impl StandardInput {
    /// As it stands; no name was opened yet.
    pub fn new<R: Files>(rt: &R, stdin: Stdin) -> StandardInput {
        StandardInput {
            stdin,
            about: Some(fs::metadata(rt, SHOWN)),
        }
    }

    /// The input itself, where it isn't closed. It can be taken once.
    pub(crate) fn take(&mut self) -> io::Result<(Stdin, Metadata)> {
        match self.about.take() {
            Some(about) => Ok((self.stdin, about?)),
            None => Err(io::Error::from(ErrorKind::NotFound)),
        }
    }
}
