//! Writes a companion.

use crate::companion_text::CompanionText;
use crate::draft::Draft;
use crate::outset::Outset;
use crate::sayings::Sayings;
use crate::strategy::Strategy;
use cfs_model::{NANOSECONDS_PER_SECOND, NiceLine};
use rayon::prelude::*;
use std::alloc::{AllocError, Global};
use std::thread::Threads;

/// The text of a companion: of version 3 where it tells the kernel's charges, else of version 2. Several threads write
/// a long one by pieces.
pub(crate) fn text_of(
    rt: &(impl Threads + Sync),
    alloc: Global,
    outset: &Outset,
    draft: &Draft,
) -> Result<Vec<u8>, AllocError> {
    let candidate = &draft.candidate;
    let changes: Vec<NiceLine> = candidate.nices.values().copied().collect(alloc)?;
    let sayings = Sayings {
        claims: candidate.claims.as_slice(),
        charges: candidate.charges.as_slice(),
        nices: changes.as_slice(),
    };
    let pieces = sayings.cut(alloc)?;
    let parts = pieces
        .par_iter()
        .with_min_len(1)
        .map(|piece: &Sayings<'_>| -> Result<Vec<u8>, AllocError> { piece.text(alloc) })
        .collect::<Result<Vec<Vec<u8>>, AllocError>>(rt, alloc)??;
    let mut text = front_of(alloc, outset, draft)?;
    text.reserve(length_of(parts.as_slice()))?;
    for part in parts.as_slice() {
        text.extend_from_slice(part)?;
    }
    Ok(text)
}

/// How long these texts are together.
fn length_of(texts: &[Vec<u8>]) -> usize {
    let mut length: usize = 0;
    for text in texts {
        length = length.saturating_add(text.len());
    }
    length
}

/// The lines before those of the events.
fn front_of(alloc: Global, outset: &Outset, draft: &Draft) -> Result<Vec<u8>, AllocError> {
    let mut text = CompanionText::new(head_of(alloc, outset, draft)?);
    for task in draft.start.tasks.as_slice() {
        text.push_task(task)?;
    }
    Ok(text.into_bytes())
}

/// The lines before those of the tasks.
fn head_of(alloc: Global, outset: &Outset, draft: &Draft) -> Result<String, AllocError> {
    let mut text = String::new(alloc);
    let candidate = &draft.candidate;
    let strategy = candidate.strategy.name();
    let granularity = candidate.granularity();
    let cpus = outset.cpus;
    let (version, values) = match candidate.strategy {
        Strategy::Kernel => (3, "kernel"),
        _ => (2, "guessed"),
    };
    let seconds = outset.start / NANOSECONDS_PER_SECOND;
    let nanoseconds = outset.start % NANOSECONDS_PER_SECOND;
    writeln!(text, "cfs-companion {version}")?;
    writeln!(
        text,
        "# made from the trace alone, strategy {strategy}: picks lie within {granularity} ns of the least"
    )?;
    writeln!(text, "# values: {values}")?;
    writeln!(text, "cpus {cpus}")?;
    writeln!(text, "start {seconds}.{nanoseconds:09}")?;
    for cpu in 0..cpus {
        let floor = draft.start.floor(cpu);
        writeln!(text, "floor {cpu} {floor}")?;
    }
    Ok(text)
}
