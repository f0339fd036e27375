ghost use Rattle.std.specs.Prelude.{◌≡◌, ◌⊎◌, ◌+◌, ◌<◌, ◌≤◌, ◌||◌, ◌==◌, true, false, take, drop, length, is_err};
ghost use Rattle.std.specs.Prelude.{vec_len, IfOk, IfErr, OnOk, OnErr};
ghost use Rattle.std.specs.Io.KnownBytes.{Consumes, IsAtEnd};
ghost use Rattle.audit_input.specs.Known.{one_more};

use audit_input::{Failed, Fault, Feed};
use std::alloc::AllocError;

/// Reads once, behind what is filled, at most so many bytes, and says how many came. None is the end. Where the read
/// fails, this fault.
pub(crate) fn read_block<F: Feed>(
    feed: &mut F,
    bytes: &mut Vec<u8>,
    filled: usize,
    size: usize,
    fault: Fault,
) -> Result<usize, Fault>
    requires unended { F.has_ended feed.old ≡ false }
    requires filled { filled ≤ vec_len bytes.old }
    requires some { 0 < size }
    ensures front { OnOk result (take filled bytes.new.items ≡ take filled bytes.old.items) }
    ensures still { filled ≤ vec_len bytes.new }
    ensures fits { IfOk result (λ count. filled + count ≤ vec_len bytes.new) }
    ensures few { IfOk result (λ count. count ≤ size) }
    ensures read { IfOk result (λ count. Consumes (F.left feed.old) (F.left feed.new)
        (take count (drop filled bytes.new.items))) }
    ensures end { IfOk result (λ count. count ≡ 0 → IsAtEnd (F.left feed.new)) }
    ensures ended { IfOk result (λ count. F.has_ended feed.new ≡ (count == 0)) }
    ensures counted { OnOk result (F.calls feed.new ≡ one_more (F.calls feed.old)) }
    ensures bounded { OnErr result (F.calls feed.new ≤ F.calls feed.old + 1) }
    ensures heard { OnOk result (F.has_failed feed.new ≡ F.has_failed feed.old) }
    ensures failed { IfErr result (λ e. ((e ≡ Fault.Memory) × (F.has_failed feed.new ≡ F.has_failed feed.old))
        ⊎ ((e ≡ fault) × (F.has_failed feed.new ≡ true))) }
    // Where memory is wanted, no read was made.
    ensures wanted { IfErr result (λ e. (e ≡ fault)
        ⊎ ((F.calls feed.new ≡ F.calls feed.old) × (F.has_ended feed.new ≡ F.has_ended feed.old))) }
{
    if make_room(bytes, filled, size).is_err() {
        return Err(Fault::Memory);
    }
    match read_behind(feed, bytes.as_mut_slice(), filled, size) {
        Ok(count) => Ok(count),
        Err(_) => Err(fault),
    }
}

/// Makes the bytes longer than what is filled, by at most so many.
fn make_room(bytes: &mut Vec<u8>, filled: usize, size: usize) -> Result<(), AllocError>
    requires filled { filled ≤ vec_len bytes.old }
    requires some { 0 < size }
    ensures front { take filled bytes.new.items ≡ take filled bytes.old.items }
    ensures still { filled ≤ vec_len bytes.new }
    ensures room { OnOk result (filled < vec_len bytes.new) }
{
    if filled == bytes.len() {
        bytes.reserve(size)?;
        let room = (bytes.capacity() - filled).min(size);
        bytes.resize(filled + room, 0)?;
    }
    Ok(())
}

/// Reads once behind what is filled, at most so many bytes.
fn read_behind<F: Feed>(
    feed: &mut F,
    bytes: &mut [u8],
    filled: usize,
    size: usize,
) -> Result<usize, Failed>
    requires unended { F.has_ended feed.old ≡ false }
    requires room { filled < length bytes.old }
    requires some { 0 < size }
    ensures front { take filled bytes.new ≡ take filled bytes.old }
    ensures fits { IfOk result (λ count. filled + count ≤ length bytes.new) }
    ensures few { IfOk result (λ count. count ≤ size) }
    ensures read { IfOk result (λ count. Consumes (F.left feed.old) (F.left feed.new)
        (take count (drop filled bytes.new))) }
    ensures end { IfOk result (λ count. count ≡ 0 → IsAtEnd (F.left feed.new)) }
    ensures ended { IfOk result (λ count. F.has_ended feed.new ≡ (count == 0)) }
    ensures counted { F.calls feed.new ≡ one_more (F.calls feed.old) }
    ensures failed { F.has_failed feed.new ≡ (F.has_failed feed.old || is_err result) }
{
    let room = (bytes.len() - filled).min(size);
    feed.read(&mut bytes[filled..filled + room])
}
