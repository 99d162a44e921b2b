// How the bytes of a volume are shown: as characters that print, or as hexadecimal digits.
ghost use Rattle.std.specs.Prelude.{◌≡◌, ◌<◌, ◌≤◌, Some, map};
ghost use Rattle.row_text.specs.Shown.{hex_digit, lower_hex, shown, upper_digit, upper_hex};

use std::fmt;

/// A byte of a text as it is shown: without its highest bit, and `?` for a control character.
pub fn shown_byte(byte: u8) -> u8
    ensures value { result ≡ shown byte }
    ensures printable { 32 ≤ result }
    ensures ascii { result ≤ 126 }
{
    match byte % 128 {
        low @ 0x20..=0x7e => low,
        _ => b'?',
    }
}

/// A hexadecimal digit, lower case.
pub fn hex_digit(n: u8) -> u8
    requires { n < 16 }
    ensures value { result ≡ hex_digit n }
    ensures ascii { result ≤ 126 }
{
    match n {
        0..=9 => b'0' + n,
        _ => b'a' + n - 10,
    }
}

// A hexadecimal digit, upper case.
fn upper_digit(n: u8) -> char
    requires { n < 16 }
    ensures { result ≡ upper_digit n }
{
    match n {
        0..=9 => char::from(b'0' + n),
        _ => char::from(b'A' + n - 10),
    }
}

/// The bytes of a text as they are shown.
#[derive(Clone, Copy)]
pub struct ShownBytes<'a>(pub &'a [u8]);

impl fmt::Display for ShownBytes<'_> {
    ghost output = { λ n. Some (map shown n.0.now) };

    fn fmt<W: fmt::Write>(&self, f: &mut fmt::Formatter<W>) -> fmt::Result {
        let text = self.0;
        for byte in text {
            write!(f, "{}", char::from(shown_byte(*byte)))?;
        }
        Ok(())
    }
}

/// Bytes in lower-case hexadecimal digits, two a byte.
#[derive(Clone, Copy)]
pub struct LowerHex<'a>(pub &'a [u8]);

impl fmt::Display for LowerHex<'_> {
    ghost output = { λ h. Some (lower_hex h.0.now) };

    fn fmt<W: fmt::Write>(&self, f: &mut fmt::Formatter<W>) -> fmt::Result {
        let bytes = self.0;
        for byte in bytes {
            let high = char::from(hex_digit(*byte / 16));
            let low = char::from(hex_digit(*byte % 16));
            write!(f, "{high}{low}")?;
        }
        Ok(())
    }
}

/// Bytes in upper-case hexadecimal digits, two a byte.
#[derive(Clone, Copy)]
pub struct UpperHex<'a>(pub &'a [u8]);

impl fmt::Display for UpperHex<'_> {
    ghost output = { λ h. Some (upper_hex h.0.now) };

    fn fmt<W: fmt::Write>(&self, f: &mut fmt::Formatter<W>) -> fmt::Result {
        let bytes = self.0;
        for byte in bytes {
            let high = upper_digit(*byte / 16);
            let low = upper_digit(*byte % 16);
            write!(f, "{high}{low}")?;
        }
        Ok(())
    }
}
