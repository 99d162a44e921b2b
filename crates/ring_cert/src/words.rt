//! Words and lines at the front of a text.

ghost use Rattle.std.specs.Prelude.{
  ◌≡◌,
  ℕ,
  ◌<◌,
  ◌≤◌,
  ◌∷◌,
  ◌++◌,
  [],
  List,
  IfSome,
  IfNone,
  IfOk,
  MatchOption,
  IsTrue,
  ◌↔◌,
  ◌≢◌,
  length,
  take,
  drop,
  slice_index,
};
ghost use Rattle.std.specs.Fmt.{decimal};
ghost use Rattle.std.specs.Str.Parse.{digits_value};
ghost use Rattle.ring_cert.specs.Certificates.{IsRingTold, IsSmall, line, ring_line, word};
ghost use Rattle.ring_cert.specs.Reading.{AreDigits, BeginsWithNoDigit, HasWords, Lacks, LacksTwo, LacksWord};

use crate::parts::Parts;
use std::alloc::{AllocError, Allocator};

/// The most digits of a number below 2^32.
pub const MOST_DIGITS: usize = 10;

/// The number that these bytes are in decimal, without a zero in front, if it is below 2^32.
fn number_of(digits: &[u8]) -> Option<u32>
    requires { AreDigits digits.now }
    ensures found { IfSome result (λ n. digits.now ≡ decimal n) }
    ensures small { IfSome result IsSmall }
    ensures none { IfNone result ((n : ℕ) → IsSmall n → digits.now ≡ decimal n → ⊥) }
{
    if digits.is_empty() {
        return None;
    }
    if digits.len() > MOST_DIGITS {
        return None;
    }
    if has_zero_in_front(digits) {
        return None;
    }
    let value = value_of(digits);
    if value > u64::from(u32::MAX) {
        return None;
    }
    Some(value as u32)
}

/// Whether a zero stands in front of other digits.
fn has_zero_in_front(digits: &[u8]) -> bool
    ensures { IsTrue result ↔ ((1 < length digits.now) × (slice_index digits.now 0 ≡ 48)) }
{
    digits.len() > 1 && digits[0] == b'0'
}

/// What these digits are worth.
fn value_of(digits: &[u8]) -> u64
    requires digits { AreDigits digits.now }
    requires few { length digits.now ≤ MOST_DIGITS }
    ensures { result ≡ digits_value 10 digits.now }
{
    let mut value = 0;
    for digit in digits {
        value = value * 10 + u64::from(*digit - b'0');
    }
    value
}

/// How many digits stand at the front.
fn digits_at(bytes: &[u8]) -> usize
    ensures within { result ≤ length bytes.now }
    ensures digits { AreDigits (take result bytes.now) }
    ensures end { BeginsWithNoDigit (drop result bytes.now) }
{
    let mut len = 0;
    while len < bytes.len() && bytes[len].is_ascii_digit() {
        len += 1;
    }
    len
}

/// What follows these bytes at the front.
pub fn after<'a>(bytes: &'a [u8], front: &[u8]) -> Option<&'a [u8]>
    ensures { MatchOption result
        ((rest : List ℕ) → bytes.now ≢ front.now ++ rest) (λ rest. bytes.now ≡ front.now ++ rest.now) }
{
    bytes.strip_prefix(front)
}

/// The word at the front, a space and a number, and what follows it.
fn word_at(bytes: &[u8]) -> Option<(u32, &[u8])>
    ensures found { IfSome result (λ x. bytes.now ≡ word x.0 ++ x.1.now) }
    ensures small { IfSome result (λ x. IsSmall x.0) }
    ensures end { IfSome result (λ x. BeginsWithNoDigit x.1.now) }
    ensures none { IfNone result (LacksWord bytes.now) }
{
    let spaced = after(bytes, b" ")?;
    let (digits, rest) = spaced.split_at(digits_at(spaced));
    let number = number_of(digits)?;
    Some((number, rest))
}

/// The line of this name and one number at the front, and what follows it.
pub fn one_number_at<'a>(bytes: &'a [u8], name: &[u8]) -> Option<(u32, &'a [u8])>
    ensures found { IfSome result (λ x. bytes.now ≡ line name.now (x.0 ∷ []) ++ x.1.now) }
    ensures small { IfSome result (λ x. IsSmall x.0) }
    ensures none { IfNone result (Lacks IsSmall (λ n. line name.now (n ∷ [])) bytes.now) }
{
    let named = after(bytes, name)?;
    let (number, rest) = word_at(named)?;
    let next = after(rest, b"\n")?;
    Some((number, next))
}

/// The line of two numbers at the front, with a name before each, and what follows it.
pub fn two_numbers_at<'a>(
    bytes: &'a [u8],
    name: &[u8],
    second_name: &[u8],
) -> Option<(u32, u32, &'a [u8])>
    requires { BeginsWithNoDigit second_name.now }
    ensures found { IfSome result (λ x.
        bytes.now ≡ name.now ++ (word x.0 ++ (line second_name.now (x.1 ∷ []) ++ x.2.now))) }
    ensures small { IfSome result (λ x. IsSmall x.0 × IsSmall x.1) }
    ensures none { IfNone result (LacksTwo name.now second_name.now bytes.now) }
{
    let named = after(bytes, name)?;
    let (first, rest) = word_at(named)?;
    let (second, next) = one_number_at(rest, second_name)?;
    Some((first, second, next))
}

/// The words at the front, as many as there are, and what follows them.
fn words_at<A: Allocator>(alloc: A, bytes: &[u8]) -> Result<(Vec<u32, A>, &[u8]), AllocError>
    ensures words { IfOk result (λ x. HasWords bytes.now x.0.items x.1.now) }
    ensures end { IfOk result (λ x. LacksWord x.1.now) }
{
    let mut numbers = Vec::new(alloc);
    let mut rest = bytes;
    while let Some((number, next)) = word_at(rest) {
        numbers.push(number)?;
        rest = next;
    }
    Ok((numbers, rest))
}

/// The line of a ring at the front, and what follows it.
pub fn ring_at<A: Allocator>(
    alloc: A,
    bytes: &[u8],
) -> Result<Option<(Parts<A>, &[u8])>, AllocError>
    ensures found { IfOk result (λ found. IfSome found (λ x. bytes.now ≡ ring_line x.0 ++ x.1.now)) }
    ensures told { IfOk result (λ found. IfSome found (λ x. IsRingTold x.0)) }
    ensures none { IfOk result (λ found. IfNone found (Lacks IsRingTold ring_line bytes.now)) }
{
    let Some(named) = after(bytes, b"RING") else {
        return Ok(None);
    };
    let (parts, rest) = words_at(alloc, named)?;
    let Some(next) = after(rest, b"\n") else {
        return Ok(None);
    };
    if parts.is_empty() {
        return Ok(None);
    }
    Ok(Some((Parts::new(parts), next)))
}
