//! Companions that one thread reads, and several.

use crate::answers::wants;
use crate::wide_readings::{COMMENT, Lines, text_of};
use companion_file::{
    Companion, CompanionCause, CompanionFault, read_companion, read_companion_wide,
};
use std::alloc::Global;
use std::test::Fail;
use std::thread::Threads;

// Five lines, up to the first task.
const HEAD: &[u8] = b"cfs-companion 3\ncpus 1\nstart 100.000000\nfloor 0 0\ntask 101 0 0 run 0\n";

const FIRST: &[u8] = b"at 1 101 0\n";

/// A companion's claims, changes of nice values and charges as several threads read it: how many there are, and whether
/// one thread reads the same.
type Reading = (usize, usize, usize, bool);

/// How a companion compares with its reading in one thread.
fn compared(alloc: Global, text: &[u8], wide: &Companion) -> Result<Reading, Fail> {
    let narrow = read_companion(alloc, text)?;
    Ok((
        wide.claims().len(),
        wide.nices().len(),
        wide.charges().len(),
        wide.claims() == narrow.claims()
            && wide.nices() == narrow.nices()
            && wide.charges() == narrow.charges(),
    ))
}

fn reading_of<R: Threads + Sync>(rt: &R, alloc: Global, lines: Lines<'_>) -> Result<Reading, Fail> {
    let text = text_of(alloc, lines)?;
    let companion = read_companion_wide(rt, alloc, &text)?;
    compared(alloc, &text, &companion)
}

#[test]
fn claims_changes_and_charges_of_all_pieces_are_kept(rt: HostRuntime) -> Result<(), Fail> {
    // Three pieces, with a claim each, a change of a nice value in the second, and a charge in the last two.
    let lines: [(&[u8], u32); 6] = [
        (HEAD, 1),
        (FIRST, 1),
        (COMMENT, 1100),
        (b"charge 2 101 400\nnice 2 101 5\nat 2 101 400\n", 1),
        (COMMENT, 1100),
        (b"charge 3 102 7\npass 3 101 7\n", 1),
    ];
    wants(&rt, &reading_of(&rt, rt.alloc(), &lines)?, &(3, 1, 2, true));
    Ok(())
}

/// Why several threads refuse a companion of these.
fn fault_of<R: Threads + Sync>(
    rt: &R,
    alloc: Global,
    lines: Lines<'_>,
) -> Result<Option<CompanionFault>, Fail> {
    let text = text_of(alloc, lines)?;
    Ok(read_companion_wide(rt, alloc, &text).err())
}

fn refused(line: u64, cause: CompanionCause) -> Option<CompanionFault> {
    Some(CompanionFault::Text { line, cause })
}

/// Lines that are bad in the second piece, behind a claim at line 1.
static REFUSED: [(&[u8], CompanionCause); 5] = [
    (FIRST, CompanionCause::LineOrder),
    (b"nice 1 101 5\n", CompanionCause::LineOrder),
    (b"charge 1 101 0\n", CompanionCause::LineOrder),
    (b"task 102 0 0 wait 0\n", CompanionCause::Order),
    (b"a\nat 1 101 0\n", CompanionCause::BadLine),
];

/// The first lines in the table that aren't refused so.
fn misread<R: Threads + Sync>(rt: &R, alloc: Global) -> Result<Option<&'static [u8]>, Fail> {
    for (bad, cause) in &REFUSED {
        let lines = [
            (HEAD, 1),
            (FIRST, 1),
            (COMMENT, 1100),
            (*bad, 1),
            (COMMENT, 1100),
        ];
        if fault_of(rt, alloc, &lines)? != refused(1107, *cause) {
            return Ok(Some(*bad));
        }
    }
    Ok(None)
}

#[test]
fn a_companion_is_refused_at_its_first_bad_line(rt: HostRuntime) -> Result<(), Fail> {
    wants(&rt, &misread(&rt, rt.alloc())?, &None);
    Ok(())
}

#[test]
fn a_companion_ends_before_its_floor(rt: HostRuntime) -> Result<(), Fail> {
    let lines: [(&[u8], u32); 2] = [
        (b"cfs-companion 2\ncpus 1\nstart 100.000000\n", 1),
        (COMMENT, 2200),
    ];
    let fault = refused(2204, CompanionCause::Short);
    wants(&rt, &fault_of(&rt, rt.alloc(), &lines)?, &fault);
    Ok(())
}
