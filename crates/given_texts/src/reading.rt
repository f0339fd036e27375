use crate::input::open_input;
use crate::standard_input::StandardInput;
use std::alloc::Global;
use std::io::{self, Read};
use std::rt::Files;

/// The bytes of what a name of a command line is. Of a regular file room is made for all of them first: moving a long
/// text as it grows takes longer than reading it.
pub fn read_input<R: Files>(
    rt: &R,
    alloc: Global,
    standard: &mut StandardInput,
    name: &str,
) -> io::Result<Vec<u8>> {
    let mut input = open_input(rt, standard, name)?;
    let length = input.length() as usize;
    let mut text = Vec::with_capacity(alloc, length.saturating_add(1))?;
    input.read_to_end(&mut text)?;
    Ok(text)
}
