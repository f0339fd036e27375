ghost use Rattle.std.specs.Prelude.{◌≡◌, ℕ, ◌<◌, ◌≤◌, true, Some, get_or, length, take};
ghost use Rattle.text_parts.specs.Unbroken.{IsUnbroken};
ghost use Rattle.ftrace_line.specs.Clock.{seconds_in};

/// So many bytes of a line are compared together.
pub(crate) const WIDTH: usize = 16;

/// The spaces behind a processor, a word of flags where there is one, and whole seconds.
#[derive(Clone, Copy, Debug, Drop)]
pub(crate) struct Clock {
    /// Its bytes, and zeros.
    bytes: [u8; WIDTH],
    /// All bits of those bytes, and zeros.
    mask: [u8; WIDTH],
    /// How many these bytes are.
    pub(crate) width: usize,
    pub(crate) seconds: u64,
    pub ghost few: { width ≤ 16 },
    pub ghost masked: { (index : ℕ) → index < width → get_or mask index 0 ≡ 255 },
    pub ghost unbroken: { IsUnbroken (take width bytes) },
    pub ghost read: { seconds_in (take width bytes) ≡ Some seconds },
}

impl Clock {
    /// A space and a zero.
    pub(crate) fn zero() -> Clock {
        let mut bytes = [0; WIDTH];
        bytes[0] = b' ';
        bytes[1] = b'0';
        let mut mask = [0; WIDTH];
        mask[0] = u8::MAX;
        mask[1] = u8::MAX;
        Clock {
            bytes,
            mask,
            width: 2,
            seconds: 0,
        }
    }

    /// That of so many bytes at the front of a text.
    pub(crate) fn of(text: &[u8], width: usize, seconds: u64) -> Clock
        requires long { 16 ≤ length text.now }
        requires few { width ≤ 16 }
        requires unbroken { IsUnbroken (take width text.now) }
        requires read { seconds_in (take width text.now) ≡ Some seconds }
    {
        let mut bytes = [0; WIDTH];
        let mut mask = [0; WIDTH];
        for index in 0..width {
            bytes[index] = text[index];
            mask[index] = u8::MAX;
        }
        Clock {
            bytes,
            mask,
            width,
            seconds,
        }
    }

    /// Whether this clock stands at the front of a text. Sixteen bytes are compared with no branch.
    #[inline(always)]
    pub(crate) fn stands_before(&self, text: &[u8]) -> bool
        requires { 16 ≤ length text.now }
        ensures { result ≡ true → take self.now.width text.now ≡ take self.now.width self.now.bytes }
    {
        let mut same = true;
        for index in 0..WIDTH {
            same &= text[index] & self.mask[index] == self.bytes[index];
        }
        same
    }
}
