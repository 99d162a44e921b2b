// The program that a text is.
ghost use Rattle.std.specs.Prelude.{◌≡◌, ◌≤◌, ◌++◌, ℕ, List, IfNone, IfOk, IfSome, OnOk, length};
ghost use Rattle.applesoft.specs.Program.{Line, line_bytes};
ghost use Rattle.applesoft.specs.Reading.{line_at};
ghost use Rattle.applesoft.specs.Tokens.{IsBadLine, IsLineOf, IsPlaced, IsRead, IsTokenized};

use crate::codes::{first_line, without_spaces};
use crate::error::TokenError;
use crate::line::{Numbered, read_line};
use std::alloc::{AllocError, Allocator};

// The greatest link.
const LAST_LINK: u32 = 0xfffd;

// Where the next line lies, and the least number that it may have.
#[derive(Clone, Copy)]
struct Place {
    least: u32,
    address: u32,
}

impl Place {
    // Where a program begins.
    const START: Place = Place {
        least: 0,
        address: 0x0801,
    };

    // The link of a line that lies there, where it may.
    fn link_of<A: Allocator>(self, line: &Numbered<A>) -> Option<u16>
        requires address { self.address ≤ 0xfffd }
        requires short { length line.now.body.items ≤ 250 }
        ensures some { IfSome result (λ link. IsPlaced self.least self.address (line_at link line.now)) }
        ensures none { IfNone result ((link : ℕ) → ¬ IsPlaced self.least self.address (line_at link line.now)) }
    {
        let link = self.address + 5 + line.body.len() as u32;
        if u32::from(line.number) < self.least || link > LAST_LINK {
            return None;
        }
        Some(link as u16)
    }
}

// Puts a line behind a program.
fn push_line<A: Allocator>(
    program: &mut Vec<u8, A>,
    link: u16,
    line: &Numbered<A>,
) -> Result<(), AllocError>
    ensures { OnOk result (program.new.items ≡ program.old.items ++ line_bytes (line_at link line.now)) }
{
    program.extend_from_slice(&link.to_le_bytes())?;
    program.extend_from_slice(&line.number.to_le_bytes())?;
    program.extend_from_slice(line.body.as_slice())?;
    program.push(0)?;
    Ok(())
}

// A line with its link.
#[derive(Drop)]
struct Placed<A: Allocator> {
    link: u16,
    line: Numbered<A>,
}

// The line that a text is, where the next one lies.
fn placed_line<A: Allocator + Copy>(
    alloc: A,
    text: &[u8],
    place: Place,
) -> Result<Option<Placed<A>>, AllocError>
    requires { place.address ≤ 0xfffd }
    ensures read { IfOk result (λ placed. IfSome placed (λ some.
        IsRead text.now some.line.number some.line.body.items)) }
    ensures placed { IfOk result (λ placed. IfSome placed (λ some.
        IsPlaced place.least place.address (line_at some.link some.line))) }
    ensures none { IfOk result (λ placed. IfNone placed ((line : Line) → IsLineOf text.now line
        → ¬ IsPlaced place.least place.address line)) }
{
    let Some(line) = read_line(alloc, text)? else {
        return Ok(None);
    };
    match place.link_of(&line) {
        Some(link) => Ok(Some(Placed { link, line })),
        None => Ok(None),
    }
}

/// The program that a text is, as it lies in memory from $0801 on. A line ends with `\n` or `\r\n`, and one of spaces
/// alone is passed over.
///
/// # Errors
/// `BadLine` with the number of the first line with which the lines before it are no program, `Memory` for want of
/// memory.
pub fn tokens<A: Allocator + Copy>(alloc: A, text: &[u8]) -> Result<Vec<u8, A>, TokenError>
    ensures tokenized { IfOk result (λ program. IsTokenized text.now program.items) }
    ensures refused { (number : ℕ) → result ≡ Err (TokenError.BadLine number) → (program : List ℕ)
        → ¬ IsTokenized text.now program }
    ensures line { (number : ℕ) → result ≡ Err (TokenError.BadLine number) → IsBadLine text.now number }
{
    let mut program = Vec::new(alloc);
    let mut place = Place::START;
    let mut number = 0u64;
    let mut rest = text;
    while let Some((line, more)) = first_line(rest) {
        number += 1;
        if !without_spaces(line).is_empty() {
            let Some(placed) = placed_line(alloc, line, place)? else {
                return Err(TokenError::BadLine(number));
            };
            push_line(&mut program, placed.link, &placed.line)?;
            place = Place {
                least: u32::from(placed.line.number) + 1,
                address: u32::from(placed.link),
            };
        }
        rest = more;
    }
    program.extend_from_slice(&[0, 0])?;
    Ok(program)
}
