// The bytes that a text is taken for.
ghost use Rattle.std.specs.Prelude.{
  ◌≡◌,
  ◌+◌,
  ◌<◌,
  ◌≤◌,
  ◌++◌,
  ℕ,
  length,
  map,
  vec_capacity,
  vec_len,
  IfNone,
  IfOk,
  IfSome,
};
ghost use Rattle.std.specs.List.{prefix_len};
ghost use Rattle.apple_text.specs.Reading.{
  BeginsWith,
  BeginsWithNoCode,
  IsFirstByte,
  IsStuck,
  behind_plain,
  is_plain,
  plain_bytes,
};
ghost use Rattle.apple_text.specs.Shown.{low, with_high};
ghost use Rattle.apple_text.specs.Taken.{CanBeTaken, IsBadLine, IsTaken};

use crate::character::first_character;
use crate::form::{HighBit, TakeError, TextForm};
use crate::plain::is_plain;
use std::alloc::Allocator;

const RETURN: u8 = 0x0d;

const TAB: u8 = 0x09;

impl HighBit {
    // The byte of a code of seven bits.
    fn byte_of(self, code: u8) -> u8
        requires { code < 128 }
        ensures { result ≡ with_high self code }
    {
        match self {
            HighBit::On => 0x80 + code,
            HighBit::Off => code,
        }
    }
}

// The code that what a text begins with shows, and the text behind that.
fn first_code(text: &[u8]) -> Option<(u8, &[u8])>
    ensures some { IfSome result (λ first. BeginsWith text.now first.0 first.1.now) }
    ensures none { IfNone result (BeginsWithNoCode text.now) }
{
    match text {
        [b'\n', rest @ ..] => Some((RETURN, rest)),
        [b'\r', b'\n', rest @ ..] => Some((RETURN, rest)),
        [b'\t', rest @ ..] => Some((TAB, rest)),
        _ => {
            let (code, rest) = first_character(text)?;
            if code == RETURN || code == TAB {
                return None;
            }
            Some((code, rest))
        }
    }
}

// The byte that a text begins with, and the text behind what shows it.
fn first_byte(form: TextForm, text: &[u8]) -> Option<(u8, &[u8])>
    ensures some { IfSome result (λ first. IsFirstByte form text.now first.0 first.1.now) }
    ensures none { IfNone result (IsStuck form text.now) }
{
    let (code, rest) = first_code(text)?;
    let byte = form.high.byte_of(code);
    if byte == 0 && !form.zeros {
        return None;
    }
    Some((byte, rest))
}

// How many plain characters a text begins with.
fn plain_len(text: &[u8]) -> usize
    ensures { result ≡ prefix_len is_plain text.now }
{
    text.iter().take_while(|c| is_plain(**c)).count()
}

// Puts the bytes of plain characters behind others, where there is room for them.
fn push_bytes<A: Allocator>(bytes: &mut Vec<u8, A>, high: HighBit, front: &[u8])
    requires { vec_len bytes.old + length front.now ≤ vec_capacity bytes.old }
    ensures taken { bytes.new.items ≡ bytes.old.items ++ map (λ c. with_high high (low c)) front.now }
    ensures room { vec_capacity bytes.new ≡ vec_capacity bytes.old }
{
    for c in front {
        bytes.push_reserved(high.byte_of(*c % 128));
    }
}

// Puts the bytes of the plain characters that a text begins with behind others, and gives the text behind them.
fn take_plain<'a, A: Allocator>(bytes: &mut Vec<u8, A>, high: HighBit, text: &'a [u8]) -> &'a [u8]
    requires { vec_len bytes.old + length text.now ≤ vec_capacity bytes.old }
    ensures taken { bytes.new.items ≡ bytes.old.items ++ plain_bytes high text.now }
    ensures left { result.now ≡ behind_plain text.now }
    ensures room { vec_len bytes.new + length result.now ≤ vec_capacity bytes.new }
{
    let (front, left) = text.split_at(plain_len(text));
    push_bytes(bytes, high, front);
    left
}

/// The bytes that are shown as a text, with their highest bits as the form says. A line ends with `\n` or `\r\n`.
///
/// # Errors
/// `BadLine` with the number of the first line that no bytes show, `Memory` for want of as much memory as the text is
/// long.
pub fn bytes_of<A: Allocator>(
    alloc: A,
    form: TextForm,
    text: &[u8],
) -> Result<Vec<u8, A>, TakeError>
    ensures taken { IfOk result (λ bytes. IsTaken form text.now bytes.items) }
    ensures refused { (number : ℕ) → result ≡ Err (TakeError.BadLine number) → ¬ CanBeTaken form text.now }
    ensures line { (number : ℕ) → result ≡ Err (TakeError.BadLine number) → IsBadLine form text.now number }
{
    let mut bytes = Vec::with_capacity(alloc, text.len())?;
    let mut line = 1u64;
    let mut rest = text;
    while let Some((byte, more)) = first_byte(form, rest) {
        bytes.push_reserved(byte);
        rest = take_plain(&mut bytes, form.high, more);
        if byte % 128 == RETURN {
            line += 1;
        }
    }
    if rest.is_empty() {
        Ok(bytes)
    } else {
        Err(TakeError::BadLine(line))
    }
}
