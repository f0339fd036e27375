ghost use Rattle.std.specs.Prelude.{◌≡◌, ◌⊎◌, ◌+◌, ◌<◌, ◌≤◌, ◌||◌, ◌==◌, true, false, take, drop, length, is_err};
ghost use Rattle.std.specs.Prelude.{vec_len, IfOk, IfErr, OnOk, OnErr};
ghost use Rattle.std.specs.Io.KnownBytes.{Consumes, IsAtEnd};
ghost use Rattle.audit_input.specs.Known.{Agrees, one_more, most_reads, IsCutShort};

use crate::{Failed, Fault, Feed};
use std::alloc::{AllocError, Global};

/// How many bytes one read asks for, at most.
const CHUNK: usize = 64 * 1024;

/// How many reads are made on one input, at most.
const MOST_READS: u64 = 1 << 32;

/// All that an input still gives. Where a read fails, or the most reads don't reach the end, this fault.
pub fn read_all<F: Feed>(alloc: Global, feed: &mut F, fault: Fault) -> Result<Vec<u8>, Fault>
    requires { F.calls feed.old ≡ 0 }
    ensures all { IfOk result (λ bytes. Agrees (F.left feed.old) bytes.items) }
    ensures end { OnOk result (IsAtEnd (F.left feed.new)) }
    ensures ended { OnOk result (F.has_ended feed.new ≡ true) }
    ensures heard { OnOk result (F.has_failed feed.new ≡ false) }
    ensures cut_short { IfErr result (λ e. ((e ≡ Fault.Memory) × (F.has_failed feed.new ≡ false))
        ⊎ ((e ≡ fault) × IsCutShort (F.has_failed feed.new) (F.calls feed.new))) }
    ensures bounded { F.calls feed.new ≤ most_reads }
{
    let mut bytes = Vec::new(alloc);
    let mut filled = 0;
    for _ in 0..MOST_READS {
        let count = read_chunk(feed, &mut bytes, filled, fault)?;
        if count == 0 {
            bytes.truncate(filled);
            return Ok(bytes);
        }
        filled += count;
    }
    Err(fault)
}

/// Reads once, behind what is filled, and says how many bytes came. None is the end.
fn read_chunk<F: Feed>(
    feed: &mut F,
    bytes: &mut Vec<u8>,
    filled: usize,
    fault: Fault,
) -> Result<usize, Fault>
    requires unended { F.has_ended feed.old ≡ false }
    requires filled { filled ≤ vec_len bytes.old }
    ensures front { OnOk result (take filled bytes.new.items ≡ take filled bytes.old.items) }
    ensures fits { IfOk result (λ count. filled + count ≤ vec_len bytes.new) }
    ensures read { IfOk result (λ count. Consumes (F.left feed.old) (F.left feed.new)
        (take count (drop filled bytes.new.items))) }
    ensures end { IfOk result (λ count. count ≡ 0 → IsAtEnd (F.left feed.new)) }
    ensures ended { IfOk result (λ count. F.has_ended feed.new ≡ (count == 0)) }
    ensures counted { OnOk result (F.calls feed.new ≡ one_more (F.calls feed.old)) }
    ensures bounded { OnErr result (F.calls feed.new ≤ F.calls feed.old + 1) }
    ensures heard { OnOk result (F.has_failed feed.new ≡ F.has_failed feed.old) }
    ensures failed { IfErr result (λ e. ((e ≡ Fault.Memory) × (F.has_failed feed.new ≡ F.has_failed feed.old))
        ⊎ ((e ≡ fault) × (F.has_failed feed.new ≡ true))) }
{
    if make_room(bytes, filled).is_err() {
        return Err(Fault::Memory);
    }
    match read_behind(feed, bytes.as_mut_slice(), filled) {
        Ok(count) => Ok(count),
        Err(_) => Err(fault),
    }
}

/// Makes the bytes longer than what is filled.
fn make_room(bytes: &mut Vec<u8>, filled: usize) -> Result<(), AllocError>
    requires { filled ≤ vec_len bytes.old }
    ensures front { take filled bytes.new.items ≡ take filled bytes.old.items }
    ensures room { OnOk result (filled < vec_len bytes.new) }
{
    if filled == bytes.len() {
        bytes.reserve(CHUNK)?;
        let room = (bytes.capacity() - filled).min(CHUNK);
        bytes.resize(filled + room, 0)?;
    }
    Ok(())
}

fn read_behind<F: Feed>(feed: &mut F, bytes: &mut [u8], filled: usize) -> Result<usize, Failed>
    requires unended { F.has_ended feed.old ≡ false }
    requires room { filled < length bytes.old }
    ensures front { take filled bytes.new ≡ take filled bytes.old }
    ensures fits { IfOk result (λ count. filled + count ≤ length bytes.new) }
    ensures read { IfOk result (λ count. Consumes (F.left feed.old) (F.left feed.new)
        (take count (drop filled bytes.new))) }
    ensures end { IfOk result (λ count. count ≡ 0 → IsAtEnd (F.left feed.new)) }
    ensures ended { IfOk result (λ count. F.has_ended feed.new ≡ (count == 0)) }
    ensures counted { F.calls feed.new ≡ one_more (F.calls feed.old) }
    ensures failed { F.has_failed feed.new ≡ (F.has_failed feed.old || is_err result) }
{
    feed.read(&mut bytes[filled..])
}
