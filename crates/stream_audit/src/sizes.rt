ghost use Rattle.std.specs.Prelude.{◌<◌};

/// How much of a recording is looked at at once.
#[derive(Clone, Copy, Debug)]
pub struct Sizes {
    /// How many bytes a read asks for, at most.
    block: u32,
    /// How many reads are audited together, at most.
    reads: u32,
    /// How many events a window has, at most.
    window: usize,
    /// Whether reads are made while those before them are audited.
    ahead: bool,
    pub ghost some_bytes: { 0 < block },
    pub ghost some_events: { 0 < window },
}

impl Sizes {
    /// A read is made while the one before it is audited.
    pub fn new(block: u32, window: usize) -> Sizes
        requires block { 0 < block }
        requires window { 0 < window }
    {
        Sizes {
            block,
            reads: 1,
            window,
            ahead: true,
        }
    }

    /// The same, where so many reads at most are audited together, one at least: a short read stays in the caches until
    /// its lines are read, and threads begin seldom.
    pub fn by_reads(self, reads: u32) -> Sizes {
        Sizes {
            block: self.block,
            reads,
            window: self.window,
            ahead: self.ahead,
        }
    }

    /// The same, where reads are made behind the audit of those before them, by one thread: for a single core.
    pub fn in_turn(self) -> Sizes {
        Sizes {
            block: self.block,
            reads: self.reads,
            window: self.window,
            ahead: false,
        }
    }

    /// The same by reads of at most so many bytes.
    pub fn with_block(self, block: u32) -> Sizes
        requires { 0 < block }
    {
        Sizes {
            block,
            reads: self.reads,
            window: self.window,
            ahead: self.ahead,
        }
    }

    /// How many bytes a read asks for, at most.
    pub fn block(self) -> u32
        ensures { 0 < result }
    {
        self.block
    }

    /// How many reads are audited together, at most.
    pub fn reads(self) -> u32 {
        self.reads
    }

    /// How many events a window has, at most.
    pub fn window(self) -> usize
        ensures { 0 < result }
    {
        self.window
    }

    /// Whether reads are made while those before them are audited.
    pub fn reads_ahead(self) -> bool {
        self.ahead
    }
}
