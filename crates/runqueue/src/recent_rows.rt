ghost use Rattle.std.specs.Prelude.{◌<◌};

/// How many rows are remembered.
const REMEMBERED: usize = 256;

/// Where a row was last, by the low bits of its pid. Nothing rests on it: whoever is told an index looks whether the
/// row there is that of the pid, and mostly need not hash the pid. Half a word each, since many processors have many.
#[derive(Clone, Copy)]
pub(crate) struct RecentRows {
    rows: [u32; REMEMBERED],
}

impl RecentRows {
    /// None yet: each pid is expected in the first row.
    pub fn none() -> RecentRows {
        RecentRows {
            rows: [0; REMEMBERED],
        }
    }

    /// Where the row of a pid is expected.
    #[inline(always)]
    pub fn expected(&self, pid: u32) -> usize {
        self.rows[place_of(pid)] as usize
    }

    /// Remembers where the row of a pid is.
    #[inline(always)]
    pub fn remember(&mut self, pid: u32, row: usize) {
        self.rows[place_of(pid)] = u32::try_from(row).unwrap_or(0);
    }
}

/// Where it is remembered of a pid.
#[inline(always)]
fn place_of(pid: u32) -> usize
    ensures { result < 256 }
{
    pid as usize % REMEMBERED
}
