//! Words of hexadecimal digits.
ghost use Rattle.std.specs.Prelude.{◌≡◌, IfOk, option_map};
ghost use Rattle.shop_words.specs.Hexadecimal.{bytes_named, hex_byte, hex_number, hex_value};

use std::alloc::{AllocError, Global};

/// The value of a digit.
pub fn hex_value(digit: u8) -> Option<u8>
    ensures { result ≡ hex_value digit }
{
    match digit {
        b'0'..=b'9' => Some(digit - b'0'),
        b'A'..=b'F' => Some(digit - b'A' + 10),
        b'a'..=b'f' => Some(digit - b'a' + 10),
        _ => None,
    }
}

// The byte of two digits.
fn hex_byte(high: u8, low: u8) -> Option<u8>
    ensures { result ≡ hex_byte high low }
{
    Some(16 * hex_value(high)? + hex_value(low)?)
}

/// The bytes that a word of hexadecimal digits writes.
pub fn bytes_named(alloc: Global, word: &str) -> Result<Option<Vec<u8>>, AllocError>
    ensures { IfOk result (λ bytes. option_map (λ v. v.items) bytes ≡ bytes_named word.now) }
{
    let digits = word.as_bytes();
    let mut bytes = Vec::new(alloc);
    for at in 0..digits.len() / 2 {
        let Some(byte) = hex_byte(digits[2 * at], digits[2 * at + 1]) else {
            return Ok(None);
        };
        bytes.push(byte)?;
    }
    if digits.len() % 2 != 0 {
        return Ok(None);
    }
    Ok(Some(bytes))
}

/// The number that one to four digits write.
pub fn hex_number(digits: &[u8]) -> Option<u16>
    ensures { result ≡ hex_number digits.now }
{
    match digits {
        [d] => Some(u16::from(hex_value(*d)?)),
        [c, d] => Some(u16::from(hex_byte(*c, *d)?)),
        [b, c, d] => {
            let high = hex_value(*b)?;
            let low = hex_byte(*c, *d)?;
            Some(u16::from_be_bytes([high, low]))
        }
        [a, b, c, d] => {
            let high = hex_byte(*a, *b)?;
            let low = hex_byte(*c, *d)?;
            Some(u16::from_be_bytes([high, low]))
        }
        _ => None,
    }
}
