ghost use Rattle.std.specs.Prelude.{◌≡◌, ℕ, ◌==◌, ◌||◌, ◌%◌, ◌/◌, ◌⊎◌, false, true, OnErr, OnOk};
ghost use Rattle.pid_table.specs.Marks.{may_have, HasRoom};

use std::alloc::{AllocError, Global};
use std::fmt;
use std::fmt::{Debug, Formatter, Write};

/// How many pids have a bit of their own.
const MARKED: u32 = 16_384;

/// How many bits a word has.
const BITS: u32 = 64;

/// How many words have all bits.
const WORDS: usize = (MARKED / BITS) as usize;

/// Which pids were marked, in 2 KiB, which stay in the cache. Pids that have the same low bits have one bit here. So
/// once a table has many pids, a bit says little.
#[derive(Drop)]
pub(crate) struct PidMarks {
    /// None before room is made.
    words: Vec<u64>,
}

impl PidMarks {
    /// No room yet. Takes no memory.
    pub(crate) fn new(alloc: Global) -> PidMarks
        ensures { (pid : ℕ) → may_have result pid ≡ true }
    {
        PidMarks {
            words: Vec::new(alloc),
        }
    }

    /// Makes room for all bits, where there is none. No pid is marked in new room.
    pub(crate) fn make_room(&mut self) -> Result<(), AllocError>
        ensures room { OnOk result (HasRoom self.new) }
        ensures fresh { OnOk result (HasRoom self.old ⊎ ((pid : ℕ) → may_have self.new pid ≡ false)) }
        ensures kept { HasRoom self.old → self.new ≡ self.old }
        ensures err { OnErr result (self.new ≡ self.old) }
    {
        if self.words.len() == WORDS {
            return Ok(());
        }
        self.words = vec![in *self.words.allocator(); 0; WORDS]?;
        Ok(())
    }

    /// Marks a pid, where there is room. Takes no memory.
    #[inline(always)]
    pub(crate) fn mark(&mut self, pid: u32)
        ensures { (other : ℕ) → may_have self.new other
            ≡ (pid % MARKED == other % MARKED || may_have self.old other) }
    {
        let index = word_of(pid);
        if index < self.words.len() {
            self.words[index] |= 1 << (pid % BITS);
        }
    }

    /// Whether a pid may have been marked: false only where none with its low bits was. True where there is no room.
    #[inline(always)]
    pub(crate) fn may_have(&self, pid: u32) -> bool
        ensures { result ≡ may_have self.now pid }
    {
        match self.words.get(word_of(pid)) {
            Some(word) => *word >> (pid % BITS) & 1 == 1,
            None => true,
        }
    }
}

impl Debug for PidMarks {
    /// The bits aren't shown.
    fn fmt<W: Write>(&self, f: &mut Formatter<W>) -> fmt::Result {
        f.write_str("PidMarks")
    }
}

/// Which word has the bit of a pid.
#[inline(always)]
fn word_of(pid: u32) -> usize
    ensures { result ≡ pid % MARKED / BITS }
{
    (pid % MARKED / BITS) as usize
}
