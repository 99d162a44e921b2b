// A line of a program, read from a text and put behind others.
ghost use Rattle.std.specs.Prelude.{◌≢◌, ◌≤◌, ◌↔◌, ℕ, List, [], IfNone, IfOk, IfSome, IsTrue, length};
ghost use Rattle.applesoft.specs.Tokens.{IsBody, IsRead};

use crate::codes::{codes_of, without_spaces};
use crate::items::scan;
use crate::numbers::{number_of, split_digits};
use std::alloc::{AllocError, Allocator};

// The most bytes of a line: 255 from its link to its $00.
const MOST: usize = 250;

/// A line without its link.
#[derive(Drop)]
pub(crate) struct Numbered<A: Allocator> {
    pub(crate) number: u16,
    pub(crate) body: Vec<u8, A>,
}

// Whether a line may have these bytes.
fn fits(body: &[u8]) -> bool
    ensures { IsTrue result ↔ ((body.now ≢ []) × (length body.now ≤ 250)) }
{
    !body.is_empty() && body.len() <= MOST
}

// The bytes that the text behind a number is read as.
fn body_of<A: Allocator + Copy>(alloc: A, text: &[u8]) -> Result<Option<Vec<u8, A>>, AllocError>
    ensures some { IfOk result (λ read. IfSome read (λ body. IsBody text.now body.items)) }
    ensures none { IfOk result (λ read. IfNone read ((body : List ℕ) → ¬ IsBody text.now body)) }
{
    let Some(codes) = codes_of(alloc, text)? else {
        return Ok(None);
    };
    let Some(body) = scan(alloc, codes.as_slice())? else {
        return Ok(None);
    };
    if fits(body.as_slice()) {
        Ok(Some(body))
    } else {
        Ok(None)
    }
}

/// The line that a text is read as.
pub(crate) fn read_line<A: Allocator + Copy>(
    alloc: A,
    text: &[u8],
) -> Result<Option<Numbered<A>>, AllocError>
    ensures some { IfOk result (λ read. IfSome read (λ line. IsRead text.now line.number line.body.items)) }
    ensures none { IfOk result (λ read. IfNone read ((number : ℕ) (body : List ℕ) → ¬ IsRead text.now number body)) }
{
    let text = without_spaces(text);
    let (digits, rest) = split_digits(text);
    if digits.is_empty() {
        return Ok(None);
    }
    let Some(number) = number_of(digits) else {
        return Ok(None);
    };
    match body_of(alloc, rest)? {
        Some(body) => Ok(Some(Numbered { number, body })),
        None => Ok(None),
    }
}
