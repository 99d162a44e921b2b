//! The sections of a certificate at the front of a text: its layout, its claim of a bound, and its plan.

ghost use Rattle.std.specs.Prelude.{◌≡◌, ◌<◌, ◌≤◌, ◌∷◌, ◌++◌, [], All, IfOk, IfErr, length};
ghost use Rattle.std.specs.List.{flat_map};
ghost use Rattle.ring_cert.specs.Certificates.{
  IsMoveTold,
  IsRingTold,
  IsSmall,
  claim_text,
  layout_text,
  line,
  move_line,
  plan_text,
  ring_line,
};
ghost use Rattle.ring_cert.specs.declared.sections.Stop.TheVariants.{OutOfMemory};
ghost use Rattle.ring_cert.specs.Reading.{ClaimFits, Lacks, LayoutFits, PlanFits, StopsAt, claim_lines, layout_lines};

use crate::parts::Parts;
use crate::words::{after, one_number_at, ring_at, two_numbers_at};
use std::alloc::{AllocError, Allocator};
use vol_layout::Move;

/// Why reading stopped.
#[derive(Clone, Copy)]
pub enum Stop<'a> {
    /// The first line of this rest of the text cannot stand there.
    Fault(&'a [u8]),
    /// Memory ran out.
    OutOfMemory,
}

impl From<AllocError> for Stop<'_> {
    ghost from_gives = { λ _ e. e ≡ OutOfMemory };

    fn from(_: AllocError) -> Self {
        Stop::OutOfMemory
    }
}

/// The lines of a layout at the front: the places of its parts, how many places there are, and what follows.
pub fn layout_at<A: Allocator>(
    alloc: A,
    bytes: &[u8],
) -> Result<(Vec<u32, A>, u32, &[u8]), Stop<'_>>
    ensures found { IfOk result (λ x. bytes.now ≡ layout_text x.0.items x.1 ++ x.2.now) }
    ensures fits { IfOk result (λ x. LayoutFits (x.0.items, x.1)) }
    ensures stop { IfErr result (StopsAt LayoutFits layout_lines bytes.now) }
{
    let Some(sized) = after(bytes, b"A2CERT 1\n") else {
        return Err(Stop::Fault(bytes));
    };
    let Some((parts, places, placed)) = two_numbers_at(sized, b"PARTS", b" PLACES") else {
        return Err(Stop::Fault(sized));
    };
    let (at, rest) = numbers_at(alloc, placed, b"AT", parts as usize)?;
    if at.len() < parts as usize {
        return Err(Stop::Fault(rest));
    }
    Ok((at, places, rest))
}

/// The lines of a claim at the front: misplaced parts, rings, and the bound, and what follows.
pub fn claim_at<A: Allocator + Copy>(
    alloc: A,
    bytes: &[u8],
) -> Result<(Vec<u32, A>, Vec<Parts<A>, A>, u32, &[u8]), Stop<'_>>
    ensures found { IfOk result (λ x. bytes.now ≡ claim_text x.0.items x.1.items x.2 ++ x.3.now) }
    ensures fits { IfOk result (λ x. ClaimFits (x.0.items, x.1.items, x.2)) }
    ensures stop { IfErr result (StopsAt ClaimFits claim_lines bytes.now) }
{
    let (off, ringed) = numbers_at(alloc, bytes, b"OFF", usize::MAX)?;
    let (rings, bounded) = rings_at(alloc, ringed)?;
    let Some((bound, rest)) = one_number_at(bounded, b"BOUND") else {
        return Err(Stop::Fault(bounded));
    };
    Ok((off, rings, bound, rest))
}

/// The lines of a plan at the front, its end among them, and what follows.
pub fn plan_at<A: Allocator>(alloc: A, bytes: &[u8]) -> Result<(Vec<Move, A>, &[u8]), Stop<'_>>
    ensures found { IfOk result (λ x. bytes.now ≡ plan_text x.0.items ++ x.1.now) }
    ensures fits { IfOk result (λ x. PlanFits x.0.items) }
    ensures stop { IfErr result (StopsAt PlanFits plan_text bytes.now) }
{
    let (moves, ended) = moves_at(alloc, bytes)?;
    let Some(rest) = after(ended, b"END\n") else {
        return Err(Stop::Fault(ended));
    };
    Ok((moves, rest))
}

/// The numbers of the lines of this name at the front, at most so many, and what follows.
fn numbers_at<'a, A: Allocator>(
    alloc: A,
    bytes: &'a [u8],
    name: &[u8],
    most: usize,
) -> Result<(Vec<u32, A>, &'a [u8]), AllocError>
    ensures found { IfOk result (λ x. bytes.now ≡ flat_map (λ n. line name.now (n ∷ [])) x.0.items ++ x.1.now) }
    ensures small { IfOk result (λ x. All IsSmall x.0.items) }
    ensures few { IfOk result (λ x. length x.0.items ≤ most) }
    ensures end { IfOk result (λ x. length x.0.items < most → Lacks IsSmall (λ n. line name.now (n ∷ [])) x.1.now) }
{
    let mut numbers = Vec::new(alloc);
    let mut rest = bytes;
    while numbers.len() < most {
        let Some((number, next)) = one_number_at(rest, name) else {
            return Ok((numbers, rest));
        };
        numbers.push(number)?;
        rest = next;
    }
    Ok((numbers, rest))
}

/// The rings of the lines at the front, and what follows.
fn rings_at<A: Allocator + Copy>(
    alloc: A,
    bytes: &[u8],
) -> Result<(Vec<Parts<A>, A>, &[u8]), AllocError>
    ensures found { IfOk result (λ x. bytes.now ≡ flat_map ring_line x.0.items ++ x.1.now) }
    ensures told { IfOk result (λ x. All IsRingTold x.0.items) }
    ensures end { IfOk result (λ x. Lacks IsRingTold ring_line x.1.now) }
{
    let mut rings = Vec::new(alloc);
    let mut rest = bytes;
    while let Some((ring, next)) = ring_at(alloc, rest)? {
        rings.push(ring)?;
        rest = next;
    }
    Ok((rings, rest))
}

/// The moves of the lines at the front, and what follows.
fn moves_at<A: Allocator>(alloc: A, bytes: &[u8]) -> Result<(Vec<Move, A>, &[u8]), AllocError>
    ensures found { IfOk result (λ x. bytes.now ≡ flat_map move_line x.0.items ++ x.1.now) }
    ensures told { IfOk result (λ x. All IsMoveTold x.0.items) }
    ensures end { IfOk result (λ x. Lacks IsMoveTold move_line x.1.now) }
{
    let mut moves = Vec::new(alloc);
    let mut rest = bytes;
    while let Some((part, to, next)) = two_numbers_at(rest, b"MOVE", b"") {
        moves.push(Move { part, to })?;
        rest = next;
    }
    Ok((moves, rest))
}
