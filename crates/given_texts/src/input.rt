use crate::standard_input::StandardInput;
use std::fs::{self, File, Metadata, OpenFile};
use std::io::{self, Read};
use std::os::unix::fs::MetadataExt;
use std::rt::{Files, Stdin};

/// The name of standard input on a command line.
const STANDARD: &str = "-";

/// The file to which standard output goes.
const OUTPUT: &str = "/dev/stdout";

/// A text that a user names, while it is read, and what the system says of its file.
#[derive(Drop)]
pub struct Input<F> {
    source: Source<F>,
    about: Metadata,
}

/// Where the bytes of a text come from.
#[derive(Drop)]
enum Source<F> {
    File(F),
    /// From where it stands; opened anew it would begin at its front.
    Standard(Stdin),
}

impl<F> Input<F> {
    /// Whether the name can be opened a second time for the same bytes.
    pub fn is_regular(&self) -> bool {
        match &self.source {
            Source::File(_) => self.about.is_file(),
            Source::Standard(_) => false,
        }
    }

    /// How long its file is, in bytes; 0 where it isn't a regular one.
    pub fn length(&self) -> u64 {
        if self.about.is_file() {
            self.about.len()
        } else {
            0
        }
    }

    /// Whether a name is that of the same regular file.
    pub fn is_at<R: Files>(&self, rt: &R, name: &str) -> bool {
        is_named(rt, &self.about, name)
    }
}

/// Whether a name is that of the regular file to which standard output goes.
pub fn is_output<R: Files>(rt: &R, name: &str) -> bool {
    match fs::metadata(rt, OUTPUT) {
        Ok(about) => is_named(rt, &about, name),
        Err(_) => false,
    }
}

/// Whether a name is that of the regular file of which the system says this.
fn is_named<R: Files>(rt: &R, about: &Metadata, name: &str) -> bool {
    match fs::metadata(rt, name) {
        Ok(other) => about.is_file() && about.dev() == other.dev() && about.ino() == other.ino(),
        Err(_) => false,
    }
}

impl<F: Read> Read for Input<F> {
    fn read(&mut self, buf: &mut [u8]) -> io::Result<usize> {
        match &mut self.source {
            Source::File(file) => file.read(buf),
            Source::Standard(stdin) => stdin.read(buf),
        }
    }
}

/// Opens what a name of a command line is: `-` is standard input, where that isn't closed and wasn't opened before.
pub fn open_input<R: Files>(
    rt: &R,
    standard: &mut StandardInput,
    name: &str,
) -> io::Result<Input<R::File>> {
    if is_standard(name) {
        let (stdin, about) = standard.take()?;
        let source = Source::Standard(stdin);
        return Ok(Input { source, about });
    }
    let file = File::open(rt, name)?;
    let about = file.metadata()?;
    Ok(Input {
        source: Source::File(file),
        about,
    })
}

/// Whether a name of a command line is that of standard input.
pub fn is_standard(name: &str) -> bool {
    name == STANDARD
}
