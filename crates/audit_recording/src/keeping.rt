//! Stretches that are kept, with their companions.

use crate::ending::Ending;
use recording_audit::{Part, Told};
use std::alloc::Global;
use std::fs;
use std::rt::Files;

/// Writes each stretch and its companion into this folder.
pub(crate) fn keep<R: Files>(
    rt: &R,
    alloc: Global,
    folder: &str,
    parts: &[Part<'_>],
) -> Result<(), Ending> {
    let mut number = 0u64;
    for part in parts {
        if let Told::Stretch(stretch) = &part.told {
            number = number.saturating_add(1);
            write(rt, alloc, folder, number, "trace", part.text)?;
            write(
                rt,
                alloc,
                folder,
                number,
                "companion",
                stretch.companion.as_slice(),
            )?;
        }
    }
    Ok(())
}

/// Writes one of a stretch's two texts.
fn write<R: Files>(
    rt: &R,
    alloc: Global,
    folder: &str,
    number: u64,
    what: &str,
    text: &[u8],
) -> Result<(), Ending> {
    match format!(in alloc; "{folder}/stretch-{number}.{what}") {
        Ok(name) => fs::write(rt, name.as_str(), text).map_err(|_| Ending::NotKept),
        Err(_) => Err(Ending::Memory),
    }
}
