ghost use Rattle.std.specs.Prelude.{◌≤◌, vec_len};

use crate::reading::read_block;
use audit_input::{Fault, Feed};
use std::alloc::Global;

/// What was read of an input and not passed on yet: so many bytes at the front of a buffer, which is used again.
#[derive(Debug, Drop)]
pub(crate) struct Block {
    bytes: Vec<u8>,
    length: usize,
    pub ghost within: { length ≤ vec_len bytes },
}

impl Block {
    ghost use Rattle.std.specs.Prelude.{◌≡◌, ◌⊎◌, ◌+◌, ◌<◌, ◌==◌, [], true, false, length, IfErr, IfOk, OnErr, OnOk};
    ghost use Rattle.std.specs.Io.KnownBytes.{IsAtEnd};
    ghost use Rattle.audit_input.specs.Known.{one_more};
    ghost use Rattle.input_blocks.specs.Blocks.{IsReadBehind, filled};

    /// Nothing was read. It takes no memory.
    pub fn new(alloc: Global) -> Block
        ensures { filled result ≡ [] }
    {
        Block {
            bytes: Vec::new(alloc),
            length: 0,
        }
    }

    /// Whether nothing is there to be passed on.
    pub fn is_empty(&self) -> bool
        ensures { result ≡ (length (filled self.now) == 0) }
    {
        self.length == 0
    }

    /// What is to be passed on.
    pub fn filled(&self) -> &[u8]
        ensures { result.now ≡ filled self.now }
    {
        &self.bytes[..self.length]
    }

    /// All was passed on.
    pub fn clear(&mut self)
        ensures { filled self.new ≡ [] }
    {
        self.length = 0;
    }

    /// Reads once, at most so many bytes, behind those that are there, and says how many came. None is the end. Where
    /// the read fails, this fault.
    pub fn read<F: Feed>(&mut self, feed: &mut F, size: usize, fault: Fault) -> Result<usize, Fault>
        requires unended { F.has_ended feed.old ≡ false }
        requires some { 0 < size }
        ensures read { IfOk result (IsReadBehind (F.left feed.old) (F.left feed.new) self.old self.new) }
        ensures few { IfOk result (λ count. count ≤ size) }
        ensures end { IfOk result (λ count. count ≡ 0 → IsAtEnd (F.left feed.new)) }
        ensures ended { IfOk result (λ count. F.has_ended feed.new ≡ (count == 0)) }
        ensures counted { OnOk result (F.calls feed.new ≡ one_more (F.calls feed.old)) }
        ensures bounded { OnErr result (F.calls feed.new ≤ F.calls feed.old + 1) }
        ensures heard { OnOk result (F.has_failed feed.new ≡ F.has_failed feed.old) }
        ensures failed { IfErr result (λ e. ((e ≡ Fault.Memory) × (F.has_failed feed.new ≡ F.has_failed feed.old))
            ⊎ ((e ≡ fault) × (F.has_failed feed.new ≡ true))) }
        // Where memory is wanted, no read was made.
        ensures wanted { IfErr result (λ e. (e ≡ fault)
            ⊎ ((F.calls feed.new ≡ F.calls feed.old) × (F.has_ended feed.new ≡ F.has_ended feed.old))) }
    {
        let count = read_block(feed, &mut self.bytes, self.length, size, fault)?;
        self.length += count;
        Ok(count)
    }
}
