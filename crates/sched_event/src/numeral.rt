ghost use Rattle.std.specs.Prelude.{◌≡◌, min};
ghost use Rattle.text_parts.specs.Numerals.{value_of, many};

/// One or more digits, with the number that they stand for.
#[derive(Clone, Copy)]
pub(crate) struct Numeral<'a> {
    pub(crate) digits: &'a [u8],
    /// The number, or `MANY` where it is larger.
    pub(crate) value: u64,
    pub(crate) ghost value_is: { value ≡ min (value_of digits.now) many },
}
