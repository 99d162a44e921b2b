//! Whether a certificate is good for a layout.

ghost use Rattle.std.specs.Prelude.{
  ◌≡◌,
  ℕ,
  ◌<◌,
  ◌≤◌,
  ◌↔◌,
  List,
  [],
  length,
  IsTrue,
  All,
  MatchOption,
  OnOk,
  IfOk,
  IfErr,
  IsOkUnless,
  slice_index,
};
ghost use Rattle.vol_layout.specs.Layouts.{AreDistinct, IsMisplaced, IsTarget};
ghost use Rattle.vol_layout.specs.Plans.{IsPlan, after};
ghost use Rattle.vol_layout.specs.Rings.{IsRing, turned};
ghost use Rattle.vol_layout.specs.declared.moves.Move.{Move};
ghost use Rattle.std.specs.List.{concat};
ghost use Rattle.ring_cert.specs.Good.{AddsUp, IsFirstFault, IsFirstNot, IsGood, IsOfLayout, IsRightSoFar};
ghost use Rattle.ring_cert.specs.MoveFaults.{IsFaultOfMove};
ghost use Rattle.ring_cert.specs.RingFaults.{IsFaultOfParts, IsFaultOfRings};
ghost use Rattle.ring_cert.specs.Seen.{HasMet};
ghost use Rattle.ring_cert.specs.Told.{told};

use crate::board::Board;
use crate::certificate::{Cert, CertFault};
use crate::parts::Parts;
use crate::seen::Seen;
use std::alloc::Allocator;
use vol_layout::{Layout, Move};

/// The fewest parts of a ring.
const SHORTEST_RING: usize = 2;

/// Whether a certificate is good for a layout: its parts are misplaced and distinct, its rings are rings without a
/// common part, its moves lead from the layout to the target, and its bound is the number of the parts and the rings,
/// and that of the moves. Then no plan to the target has fewer moves. A refusal names the first fault, in the order of
/// `CertFault`.
pub fn verify<A: Allocator + Copy, B: Allocator, C: Allocator>(
    alloc: A,
    layout: &Layout<B>,
    cert: &Cert<C>,
) -> Result<(), CertFault>
    ensures good { OnOk result (IsGood layout.now (told cert.now)) }
    ensures fault { IfErr result (IsFirstFault layout.now (told cert.now)) }
    ensures yes { IsGood layout.now (told cert.now) → IsOkUnless result CertFault.Memory }

    // No plan is shorter than the bound, and the certificate's has so many moves.
    ensures shortest { OnOk result ((plan : List Move)
        → IsPlan layout.now.at layout.now.places plan → IsTarget (after layout.now.at plan)
        → cert.now.bound ≤ length plan) }
    ensures moves { OnOk result (length cert.now.moves.items ≡ cert.now.bound) }
{
    weigh_claim(alloc, layout, cert)?;
    weigh_plan(alloc, layout, cert)
}

/// Whether the layout is the certificate's, and the parts and rings that it tells are what it says, each told once.
fn weigh_claim<A: Allocator + Copy, B: Allocator, C: Allocator>(
    alloc: A,
    layout: &Layout<B>,
    cert: &Cert<C>,
) -> Result<(), CertFault>
    ensures right { OnOk result (IsRightSoFar layout.now (told cert.now)) }
    ensures fault { IfErr result (IsFirstFault layout.now (told cert.now)) }
{
    if !is_of_layout(layout, cert) {
        return Err(CertFault::OtherLayout);
    }
    if let Some(part) = part_at_home(layout.at(), cert.off.as_slice()) {
        return Err(CertFault::NotMisplaced(part));
    }
    weigh_parts(
        alloc,
        layout.at(),
        cert.off.as_slice(),
        cert.rings.as_slice(),
    )
}

/// Whether no part is told twice, and the rings are rings.
fn weigh_parts<A: Allocator + Copy, B: Allocator>(
    alloc: A,
    at: &[u32],
    off: &[u32],
    rings: &[Parts<B>],
) -> Result<(), CertFault>
    ensures off { OnOk result (AreDistinct off.now) }
    ensures once { OnOk result (AreDistinct (concat rings.now)) }
    ensures rings { OnOk result (All (IsRing at.now) rings.now) }
    ensures fault { IfErr result (IsFaultOfParts at.now off.now rings.now) }
{
    let mut seen = Seen::new(alloc, at.len())?;
    if let Some(part) = seen.repeat_in(off)? {
        return Err(CertFault::Repeated(part));
    }
    weigh_rings(at, rings, &mut seen)
}

/// Whether the moves can be made and bring each part home, and the bound adds up.
fn weigh_plan<A: Allocator + Copy, B: Allocator, C: Allocator>(
    alloc: A,
    layout: &Layout<B>,
    cert: &Cert<C>,
) -> Result<(), CertFault>
    requires { IsRightSoFar layout.now (told cert.now) }
    ensures plan { OnOk result (IsPlan layout.now.at layout.now.places cert.now.moves.items) }
    ensures target { OnOk result (IsTarget (after layout.now.at cert.now.moves.items)) }
    ensures sum { OnOk result (AddsUp (told cert.now)) }
    ensures fault { IfErr result (IsFirstFault layout.now (told cert.now)) }
{
    let end = end_of(alloc, layout, cert.moves.as_slice())?;
    if !is_target(end.at()) {
        return Err(CertFault::NotAtTarget);
    }
    if !adds_up(cert) {
        return Err(CertFault::Sum);
    }
    Ok(())
}

/// Whether the certificate is one for this layout.
fn is_of_layout<A: Allocator, B: Allocator>(layout: &Layout<A>, cert: &Cert<B>) -> bool
    ensures { IsTrue result ↔ IsOfLayout layout.now (told cert.now) }
{
    cert.at.as_slice() == layout.at() && cert.places == layout.places()
}

/// Whether a number is that of a part that stands elsewhere than at home.
fn is_misplaced(at: &[u32], part: u32) -> bool
    ensures { IsTrue result ↔ IsMisplaced at.now part }
{
    let index = part as usize;
    index < at.len() && at[index] != part
}

/// The first of these numbers that is not that of a misplaced part.
fn part_at_home(at: &[u32], off: &[u32]) -> Option<u32>
    ensures { MatchOption result (All (IsMisplaced at.now) off.now) (λ part. (index : ℕ)
        × IsFirstNot (IsMisplaced at.now) off.now index × (slice_index off.now index ≡ part)) }
{
    for part in off {
        if !is_misplaced(at, *part) {
            return Some(*part);
        }
    }
    None
}

/// Whether distinct numbers are a ring.
fn is_ring(at: &[u32], ring: &[u32]) -> bool
    requires { AreDistinct ring.now }
    ensures { IsTrue result ↔ IsRing at.now ring.now }
{
    if ring.len() < SHORTEST_RING {
        return false;
    }
    for i in 0..ring.len() {
        let part = ring[i] as usize;
        if part >= at.len() || at[part] != next_in(ring, i) {
            return false;
        }
    }
    true
}

/// The number that follows the one at an index, where the first follows the last.
fn next_in(ring: &[u32], index: usize) -> u32
    requires { index < length ring.now }
    ensures { result ≡ slice_index (turned ring.now) index }
{
    if index + 1 < ring.len() {
        ring[index + 1]
    } else {
        ring[0]
    }
}

/// Whether these lists are rings of which no two have a part in common: in one pass, where the first number told twice
/// comes before the first list that is no ring.
fn weigh_rings<A: Allocator + Copy, B: Allocator>(
    at: &[u32],
    rings: &[Parts<B>],
    seen: &mut Seen<A>,
) -> Result<(), CertFault>
    requires { HasMet seen.old [] }
    ensures once { OnOk result (AreDistinct (concat rings.now)) }
    ensures rings { OnOk result (All (IsRing at.now) rings.now) }
    ensures fault { IfErr result (IsFaultOfRings at.now rings.now) }
{
    let mut broken = None;
    for (index, ring) in rings.iter().enumerate() {
        let numbers = ring.numbers();
        if let Some(part) = seen.insert_all(numbers)? {
            return Err(CertFault::Repeated(part));
        }
        if broken.is_none() && !is_ring(at, numbers) {
            broken = Some(index);
        }
    }
    match broken {
        Some(ring) => Err(CertFault::NotARing(ring)),
        None => Ok(()),
    }
}

/// Where the parts stand at the end of these moves, or the first that cannot be made.
fn end_of<A: Allocator + Copy, B: Allocator>(
    alloc: A,
    layout: &Layout<B>,
    moves: &[Move],
) -> Result<Board<A>, CertFault>
    ensures plan { OnOk result (IsPlan layout.now.at layout.now.places moves.now) }
    ensures end { IfOk result (λ end. end.at ≡ after layout.now.at moves.now) }
    ensures illegal { IfErr result (IsFaultOfMove layout.now moves.now) }
{
    let mut now = Board::new(alloc, layout)?;
    for (index, step) in moves.iter().enumerate() {
        if !now.make(*step) {
            return Err(CertFault::IllegalMove(index));
        }
    }
    Ok(now)
}

/// Whether each part stands at the place of its number.
fn is_target(at: &[u32]) -> bool
    ensures { IsTrue result ↔ IsTarget at.now }
{
    for part in 0..at.len() {
        if at[part] as usize != part {
            return false;
        }
    }
    true
}

/// Whether the bound is the number of the misplaced parts and the rings, and that of the moves.
fn adds_up<A: Allocator>(cert: &Cert<A>) -> bool
    ensures { IsTrue result ↔ AddsUp (told cert.now) }
{
    let bound = cert.bound as usize;
    bound == cert.moves.len() && bound.checked_sub(cert.off.len()) == Some(cert.rings.len())
}
