// A program as it is listed.
ghost use Rattle.std.specs.Prelude.{◌≡◌, ◌<◌, ◌++◌, ℕ, List, [], ◌∷◌, All, IfNone, IfOk, IfSome, OnOk};
ghost use Rattle.std.specs.Prelude.{flat_map, length};
ghost use Rattle.applesoft.specs.Program.{CanBeListed, IsCode, IsListed, Line, byte_text, line_text, two_bytes};
ghost use Rattle.applesoft.specs.Reading.{EndsAt, HasNoBody, IsBodyOf, IsFirst, line_view};

use crate::error::ListError;
use crate::words::push_word;
use apple_text::push_character;
use std::alloc::{AllocError, Allocator};

const LAST_TOKEN: u8 = 0xea;

// A line of a program.
#[derive(Clone, Copy)]
struct ListedLine<'a> {
    link: u16,
    number: u16,
    body: &'a [u8],
}

// Where the first $00 stands, with characters and tokens alone before it.
fn body_len(bytes: &[u8]) -> Option<usize>
    ensures some { IfSome result (EndsAt bytes.now) }
    ensures none { IfNone result (HasNoBody bytes.now) }
{
    for (index, byte) in bytes.iter().enumerate() {
        if *byte == 0 {
            return Some(index);
        }
        if *byte > LAST_TOKEN {
            return None;
        }
    }
    None
}

// The body that bytes begin with, and what stands behind its $00.
fn split_body(bytes: &[u8]) -> Option<(&[u8], &[u8])>
    ensures some { IfSome result (λ split. IsBodyOf bytes.now split.0.now split.1.now) }
    ensures none { IfNone result (HasNoBody bytes.now) }
{
    match body_len(bytes) {
        Some(end) => Some((&bytes[..end], &bytes[end + 1..])),
        None => None,
    }
}

// The number of two bytes, the low one first.
fn word(low: u8, high: u8) -> u16
    ensures { two_bytes result ≡ low ∷ high ∷ [] }
{
    u16::from(low) + 256 * u16::from(high)
}

// The link and the number that bytes begin with, and what stands behind them.
fn header(bytes: &[u8]) -> Option<(u16, u16, &[u8])>
    ensures some { IfSome result (λ head. bytes.now ≡ two_bytes head.0 ++ two_bytes head.1 ++ head.2.now) }
    ensures none { IfNone result (length bytes.now < 4) }
{
    match bytes {
        [link, high_link, number, high_number, rest @ ..] => {
            let link = word(*link, *high_link);
            let number = word(*number, *high_number);
            Some((link, number, rest))
        }
        _ => None,
    }
}

// The line that a program begins with, and what stands behind it.
fn first_line(program: &[u8]) -> Option<(ListedLine<'_>, &[u8])>
    ensures some { IfSome result (λ first. IsFirst program.now (line_view first.0) first.1.now) }
    ensures none { IfNone result ((line : Line) (rest : List ℕ) → ¬ IsFirst program.now line rest) }
{
    let Some((link, number, rest)) = header(program) else {
        return None;
    };
    let Some((body, behind)) = split_body(rest) else {
        return None;
    };
    if link == 0 {
        return None;
    }
    Some((ListedLine { link, number, body }, behind))
}

// What stands behind the link of 0 that ends a program.
fn behind_end(bytes: &[u8]) -> Option<&[u8]>
    ensures some { IfSome result (λ behind. bytes.now ≡ 0 ∷ 0 ∷ behind.now) }
    ensures none { IfNone result ((behind : List ℕ) → bytes.now ≡ 0 ∷ 0 ∷ behind → ⊥) }
{
    match bytes {
        [0, 0, behind @ ..] => Some(behind),
        _ => None,
    }
}

// Puts what a byte of a line is listed as behind a text.
fn push_byte<A: Allocator>(text: &mut Vec<u8, A>, byte: u8) -> Result<(), AllocError>
    requires { byte < 0xeb }
    ensures { OnOk result (text.new.items ≡ text.old.items ++ byte_text byte) }
{
    if byte < 0x80 {
        return push_character(text, byte);
    }
    text.push(b' ')?;
    push_word(text, byte - 0x80)?;
    text.push(b' ')?;
    Ok(())
}

// Puts the bytes of a line behind a text.
fn push_body<A: Allocator>(text: &mut Vec<u8, A>, body: &[u8]) -> Result<(), AllocError>
    requires { All IsCode body.now }
    ensures { OnOk result (text.new.items ≡ text.old.items ++ flat_map byte_text body.now) }
{
    for byte in body {
        push_byte(text, *byte)?;
    }
    Ok(())
}

// Puts a line and a newline behind a text.
fn push_line<A: Allocator + Copy>(
    alloc: A,
    text: &mut Vec<u8, A>,
    line: ListedLine,
) -> Result<(), AllocError>
    requires { All IsCode line.body.now }
    ensures { OnOk result (text.new.items ≡ text.old.items ++ (line_text (line_view line.entry) ++ 10 ∷ [])) }
{
    let number = line.number;
    let told = format!(in alloc; "{number} ")?;
    text.extend_from_slice(told.as_bytes())?;
    push_body(text, line.body)?;
    text.push(b'\n')?;
    Ok(())
}

/// A program as it is listed: UTF-8, with `\n` at the end of each line. What stands behind its end is not shown.
///
/// # Errors
/// `Form` where the bytes are no program, `Memory` for want of memory.
pub fn list<A: Allocator + Copy>(alloc: A, program: &[u8]) -> Result<Vec<u8, A>, ListError>
    ensures listed { IfOk result (λ text. IsListed program.now text.items) }
    ensures form { result ≡ Err ListError.Form → ¬ CanBeListed program.now }
{
    let mut text = Vec::new(alloc);
    let mut rest = program;
    while let Some((line, more)) = first_line(rest) {
        push_line(alloc, &mut text, line)?;
        rest = more;
    }
    match behind_end(rest) {
        Some(_) => Ok(text),
        None => Err(ListError::Form),
    }
}
