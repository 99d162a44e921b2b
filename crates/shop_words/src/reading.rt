//! Numbers and texts, as words write them.
ghost use Rattle.std.specs.Prelude.{
  ◌≡◌,
  ◌≤◌,
  if◌then◌else◌,
  IfOk,
  IfSome,
  nat_le,
  None,
  option_map,
  Some,
  string_bytes,
};
ghost use Rattle.std.specs.Char.{is_ascii_digit};
ghost use Rattle.std.specs.List.{list_all};
ghost use Rattle.shop_words.specs.Job.{most_bytes as bytes_said, number_named as number_of};
ghost use Rattle.shop_words.specs.Plain.{address_named};
ghost use Rattle.shop_words.specs.Gives.{Gives};

use crate::hexadecimal::hex_number;
use crate::misfit::Misfit;
use std::alloc::{AllocError, Global};

/// How many bytes files may have in all that are read or written, where the words say nothing.
const MOST_BYTES: u64 = 1 << 30;

/// A text of its own, of one that may be left out.
pub fn text_of(alloc: Global, text: Option<&str>) -> Result<Option<String>, AllocError>
    ensures { IfOk result (λ copy. option_map (λ s. string_bytes s) copy ≡ option_map (λ s. s.now) text.entry) }
{
    match text {
        Some(text) => Ok(Some(text.to_string(alloc)?)),
        None => Ok(None),
    }
}

/// The number that a word of decimal digits writes, up to the greatest.
pub fn number_named(word: &str, greatest: u64) -> Option<u64>
    ensures value { result ≡ number_of greatest word.now }
    ensures within { IfSome result (λ number. number ≤ greatest) }
{
    if !is_digits(word.as_bytes()) {
        return None;
    }
    match word.parse::<u64>() {
        Ok(number) => up_to(number, greatest),
        Err(_) => None,
    }
}

fn is_digits(word: &[u8]) -> bool
    ensures { result ≡ list_all is_ascii_digit word.now }
{
    word.iter().all(|byte| byte.is_ascii_digit())
}

fn up_to(number: u64, greatest: u64) -> Option<u64>
    ensures value { result ≡ (if nat_le number greatest then Some number else None) }
    ensures within { IfSome result (λ n. n ≤ greatest) }
{
    if number <= greatest {
        Some(number)
    } else {
        None
    }
}

/// The number that a word writes as the value of an option, up to the greatest.
pub fn number(name: &'static str, word: &str, greatest: u64) -> Result<u64, Misfit>
    ensures value { Gives (λ n. n) (number_of greatest word.now) result }
    ensures within { IfOk result (λ n. n ≤ greatest) }
{
    match number_named(word, greatest) {
        Some(number) => Ok(number),
        None => Err(Misfit::Value { name }),
    }
}

/// The number of two bytes that a word writes: in hexadecimal digits behind `$` or `0x`, else in decimal ones.
pub fn address_named(word: &str) -> Option<u16>
    ensures { result ≡ address_named word.now }
{
    match word.as_bytes() {
        [b'$', digits @ ..] => hex_number(digits),
        [b'0', b'x', digits @ ..] => hex_number(digits),
        _ => Some(number_named(word, 65535)? as u16),
    }
}

/// How many bytes files may have in all.
pub fn most_bytes(word: Option<&str>) -> Result<u64, Misfit>
    ensures { Gives (λ n. n) (bytes_said (option_map (λ s. s.now) word.entry)) result }
{
    match word {
        Some(digits) => number("most", digits, u64::MAX),
        None => Ok(MOST_BYTES),
    }
}
