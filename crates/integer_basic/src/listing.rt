// A program as it is listed.
ghost use Rattle.std.specs.Prelude.{◌≡◌, ◌++◌, IfNone, IfOk, IfSome, OnOk, [], ◌∷◌, decimal};
ghost use Rattle.integer_basic.specs.Items.{CanBeShown};
ghost use Rattle.integer_basic.specs.Program.{CanBeListed, IsListed, is_end, right_in};
ghost use Rattle.integer_basic.specs.Reading.{HasNoLine, IsFirst, IsLinePut};

use crate::error::ListError;
use crate::items::push_body;
use std::alloc::{AllocError, Allocator};

// A line of a program.
#[derive(Clone, Copy)]
struct ListedLine<'a> {
    number: u16,
    body: &'a [u8],
}

// Whether a program ends there.
fn is_end(bytes: &[u8]) -> bool
    ensures { result ≡ is_end bytes.now }
{
    matches!(bytes, [] | [0, ..])
}

// The line that a program begins with, and what stands behind it.
fn first_line(program: &[u8]) -> Option<(ListedLine<'_>, &[u8])>
    ensures some { IfSome result (λ first. IsFirst program.now first.0.number first.0.body.now first.1.now) }
    ensures none { IfNone result (HasNoLine program.now) }
{
    let (length, _) = program.split_first()?;
    let (line, rest) = program.split_at_checked(usize::from(*length))?;
    match line {
        [_, low, high, body @ .., 1] => {
            let number = u16::from(*low) + 256 * u16::from(*high);
            Some((ListedLine { number, body }, rest))
        }
        _ => None,
    }
}

// Puts the number of a line and a space behind a text.
fn push_number<A: Allocator + Copy>(
    alloc: A,
    text: &mut Vec<u8, A>,
    number: u16,
) -> Result<(), AllocError>
    ensures { OnOk result (text.new.items ≡ text.old.items ++ (right_in 5 (decimal number) ++ 32 ∷ [])) }
{
    let told = format!(in alloc; "{number:5} ")?;
    text.extend_from_slice(told.as_bytes())
}

// Puts a line and a newline behind a text.
fn push_line<A: Allocator + Copy>(
    alloc: A,
    text: &mut Vec<u8, A>,
    line: ListedLine,
) -> Result<(), ListError>
    ensures put { OnOk result (IsLinePut text.old.items line.entry.number line.entry.body.now text.new.items) }
    ensures form { result ≡ Err ListError.Form → ¬ CanBeShown line.entry.body.now }
{
    push_number(alloc, text, line.number)?;
    push_body(alloc, text, line.body)?;
    text.push(b'\n')?;
    Ok(())
}

/// A program as it is listed: UTF-8, with `\n` at the end of each line. It ends with its bytes, or with a line of the
/// length 0, and what stands behind that is not shown.
///
/// # Errors
/// `Form` where the bytes are no program, `Memory` for want of memory.
pub fn list<A: Allocator + Copy>(alloc: A, program: &[u8]) -> Result<Vec<u8, A>, ListError>
    ensures listed { IfOk result (λ text. IsListed program.now text.items) }
    ensures form { result ≡ Err ListError.Form → ¬ CanBeListed program.now }
{
    let mut text = Vec::new(alloc);
    let mut rest = program;
    while !is_end(rest) {
        let Some((line, more)) = first_line(rest) else {
            return Err(ListError::Form);
        };
        push_line(alloc, &mut text, line)?;
        rest = more;
    }
    Ok(text)
}
