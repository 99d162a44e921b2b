//! The text of a certificate.

ghost use Rattle.std.specs.Prelude.{◌≡◌, ◌≢◌, ◌+◌, ◌^◌, ◌<◌, ◌++◌, [], All, OnOk, IfOk, length};
ghost use Rattle.std.specs.Fmt.{decimal};
ghost use Rattle.std.specs.List.{flat_map};
ghost use Rattle.ring_cert.specs.Certificates.{
  HasText,
  IsMoveTold,
  IsSmall,
  certificate_of,
  certificate_text,
  claim_text,
  layout_text,
  line,
  off_line,
  plan_text,
  ring_line,
  size_line,
  word,
};
ghost use Rattle.ring_cert.specs.Reading.{LayoutFits};

use crate::words::MOST_DIGITS;
use move_plan::{Plan, Ring};
use std::alloc::{AllocError, Allocator};
use vol_layout::{Layout, Move};

/// The text of the certificate of a plan: its misplaced parts and its rings as they stand in it, and their number as
/// the bound.
pub fn print<A: Allocator, B: Allocator, C: Allocator>(
    alloc: A,
    layout: &Layout<B>,
    plan: &Plan<C>,
) -> Result<Vec<u8, A>, AllocError>
    requires rings { All (λ ring. ring ≢ []) plan.now.rings.items }
    requires bound { length plan.now.misplaced.items + length plan.now.rings.items < 2 ^ 32 }
    ensures text { IfOk result (λ text. text.items
        ≡ certificate_text
        (certificate_of layout.now plan.now.misplaced.items plan.now.rings.items plan.now.moves.items)) }
    ensures fits { OnOk result
        (HasText (certificate_of layout.now plan.now.misplaced.items plan.now.rings.items plan.now.moves.items)) }
{
    let mut text = Vec::new(alloc);
    push_layout(&mut text, layout)?;
    push_claim(&mut text, plan.misplaced.as_slice(), plan.rings.as_slice())?;
    push_plan(&mut text, plan.moves.as_slice())?;
    Ok(text)
}

/// The lines of a layout.
fn push_layout<A: Allocator, B: Allocator>(
    text: &mut Vec<u8, A>,
    layout: &Layout<B>,
) -> Result<(), AllocError>
    ensures text { OnOk result (text.new.items ≡ text.old.items ++ layout_text layout.now.at layout.now.places) }
    ensures fits { OnOk result (LayoutFits (layout.now.at, layout.now.places)) }
{
    push_line(text, b"A2CERT", &[1])?;
    push_size(text, layout.at().len() as u32, layout.places())?;
    for place in layout.at() {
        push_line(text, b"AT", &[*place])?;
    }
    Ok(())
}

/// The lines that claim a bound: misplaced parts, rings, and their number.
fn push_claim<A: Allocator, B: Allocator>(
    text: &mut Vec<u8, A>,
    misplaced: &[u32],
    rings: &[Ring<B>],
) -> Result<(), AllocError>
    requires { length misplaced.now + length rings.now < 2 ^ 32 }
    ensures text { OnOk result (text.new.items
        ≡ text.old.items ++ claim_text misplaced.now rings.now (length misplaced.now + length rings.now)) }
    ensures small { OnOk result (All IsSmall misplaced.now) }
    ensures rings { OnOk result (All (All IsSmall) rings.now) }
{
    push_misplaced(text, misplaced)?;
    push_rings(text, rings)?;
    push_line(text, b"BOUND", &[(misplaced.len() + rings.len()) as u32])
}

/// The lines of misplaced parts.
fn push_misplaced<A: Allocator>(text: &mut Vec<u8, A>, misplaced: &[u32]) -> Result<(), AllocError>
    ensures text { OnOk result (text.new.items ≡ text.old.items ++ flat_map off_line misplaced.now) }
    ensures small { OnOk result (All IsSmall misplaced.now) }
{
    for part in misplaced {
        push_line(text, b"OFF", &[*part])?;
    }
    Ok(())
}

/// The lines of rings.
fn push_rings<A: Allocator, B: Allocator>(
    text: &mut Vec<u8, A>,
    rings: &[Ring<B>],
) -> Result<(), AllocError>
    ensures text { OnOk result (text.new.items ≡ text.old.items ++ flat_map ring_line rings.now) }
    ensures small { OnOk result (All (All IsSmall) rings.now) }
{
    for ring in rings {
        push_line(text, b"RING", ring.parts())?;
    }
    Ok(())
}

/// The lines of a plan, and the last line.
fn push_plan<A: Allocator>(text: &mut Vec<u8, A>, moves: &[Move]) -> Result<(), AllocError>
    ensures text { OnOk result (text.new.items ≡ text.old.items ++ plan_text moves.now) }
    ensures fits { OnOk result (All IsMoveTold moves.now) }
{
    for step in moves {
        push_line(text, b"MOVE", &[step.part, step.to])?;
    }
    push_line(text, b"END", &[])
}

/// The line of the size of a layout.
fn push_size<A: Allocator>(text: &mut Vec<u8, A>, parts: u32, places: u32) -> Result<(), AllocError>
    ensures { OnOk result (text.new.items ≡ text.old.items ++ size_line parts places) }
{
    text.extend_from_slice(b"PARTS")?;
    push_word(text, parts)?;
    push_line(text, b" PLACES", &[places])
}

/// A name, numbers, and a line feed.
fn push_line<A: Allocator>(
    text: &mut Vec<u8, A>,
    name: &[u8],
    numbers: &[u32],
) -> Result<(), AllocError>
    ensures text { OnOk result (text.new.items ≡ text.old.items ++ line name.now numbers.now) }
    ensures small { OnOk result (All IsSmall numbers.now) }
{
    text.extend_from_slice(name)?;
    for number in numbers {
        push_word(text, *number)?;
    }
    text.push(b'\n')?;
    Ok(())
}

/// A space and a number.
fn push_word<A: Allocator>(text: &mut Vec<u8, A>, number: u32) -> Result<(), AllocError>
    ensures { OnOk result (text.new.items ≡ text.old.items ++ word number) }
{
    text.push(b' ')?;
    push_number(text, number)
}

/// The decimal digits of a number, found from the last to the first.
fn push_number<A: Allocator>(text: &mut Vec<u8, A>, number: u32) -> Result<(), AllocError>
    ensures { OnOk result (text.new.items ≡ text.old.items ++ decimal number) }
{
    let mut digits = [0; MOST_DIGITS];
    let mut start = MOST_DIGITS;
    let mut rest = number;
    while rest >= 10 {
        start -= 1;
        digits[start] = b'0' + (rest % 10) as u8;
        rest /= 10;
    }
    start -= 1;
    digits[start] = b'0' + rest as u8;
    text.extend_from_slice(&digits[start..])?;
    Ok(())
}
