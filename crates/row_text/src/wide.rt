// Numbers that may be left out, in the widest type of a row.
ghost use Rattle.std.specs.Prelude.{◌≡◌};

/// The number of a byte.
pub fn wide_byte(number: Option<u8>) -> Option<u32>
    ensures { result ≡ number }
{
    number.map(u32::from)
}

/// The number of a word.
pub fn wide_word(number: Option<u16>) -> Option<u32>
    ensures { result ≡ number }
{
    number.map(u32::from)
}
