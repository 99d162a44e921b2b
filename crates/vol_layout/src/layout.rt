//! A layout: the place of each part, and beside it the part at each place.

ghost use Rattle.std.specs.Prelude.{
  ◌≡◌,
  ℕ,
  ◌≤◌,
  ◌↔◌,
  length,
  Contains,
  IsOk,
  OnOk,
  OnErr,
  IfOk,
  IsTrue,
  Err,
  Some,
  slice_get,
};
ghost use Rattle.vol_layout.specs.Layouts.{AreDistinct, IsLayout, IsInRange};
ghost use Rattle.vol_layout.specs.Plans.{IsLegal, LacksPart, LacksPlace, moved};
ghost use Rattle.vol_layout.specs.declared.layout.LayoutError.TheVariants.{Memory};

use crate::moves::{Move, MoveError};
use crate::table::{are_distinct, table_of};
use std::alloc::{AllocError, Allocator, Global};
use std::marker::Model;
use thiserror::Error;

/// The most places that a layout may have.
const MOST_PLACES: u32 = 1_000_000;

/// Why a list of places is no layout.
#[derive(Clone, Copy, PartialEq, Eq, Debug, Error)]
pub enum LayoutError {
    /// Two parts stand at one place.
    #[error("two parts stand at one place")]
    Repeat,
    /// A part stands at no place, or there are too many places.
    #[error("a part stands at no place, or there are too many places")]
    Range,
    /// Memory ran out.
    #[error("out of memory")]
    Memory,
}

impl From<AllocError> for LayoutError {
    ghost from_gives = { λ _ e. e ≡ Memory };

    fn from(_: AllocError) -> LayoutError {
        LayoutError::Memory
    }
}

/// Where each part stands: parts `0..at().len()`, each at a place of its own below `places()`, of
/// which there are at most a million.
#[derive(Drop)]
pub struct Layout<A: Allocator = Global> {
    at: Vec<u32, A>,
    part_at: Vec<Option<u32>, A>,
    places: u32,
}

impl<A: Allocator> Model for Layout<A> {
    ghost use Rattle.vol_layout.specs.Layouts.{Placement};

    ghost Value = { Placement };

    ghost use Rattle.vol_layout.specs.Inside.{placement, IsKept};

    ghost view = { placement };

    ghost invariant = { IsKept };
}

impl<A: Allocator> Layout<A> {
    /// The layout with part `k` at place `at[k]`, over the places below `places`. A refusal drops
    /// `at`, and is the first of these that holds: `Repeat` where two parts stand at one place,
    /// `Range` where a part stands at no place or there are more than a million.
    pub fn new(alloc: A, at: Vec<u32, A>, places: u32) -> Result<Layout<A>, LayoutError>
    where
        A: Copy,
        ensures ok { IfOk result (λ layout. layout ≡ record { at = at.items; places = places }) }
        ensures layout { OnOk result (AreDistinct at.items × IsInRange at.items places) }
        ensures parts { OnOk result (length at.items ≤ places) }

        // The first of these that holds.
        ensures repeat { result ≡ Err LayoutError.Repeat → AreDistinct at.items → ⊥ }
        ensures distinct { result ≡ Err LayoutError.Range → AreDistinct at.items }
        ensures range { result ≡ Err LayoutError.Range → IsInRange at.items places → ⊥ }
    {
        if !are_in_range(at.as_slice(), places) {
            return Err(fault_out_of_range(alloc, at.as_slice())?);
        }
        match table_of(alloc, at.as_slice(), places)? {
            Some(part_at) => Ok(Layout {
                at,
                part_at,
                places,
            }),
            None => Err(LayoutError::Repeat),
        }
    }

    /// A copy, whose blocks come from `alloc`.
    pub fn copy<B: Allocator + Copy>(&self, alloc: B) -> Result<Layout<B>, AllocError>
        ensures { IfOk result (λ copy. copy ≡ self.now) }
    {
        let at = Vec::from_slice(alloc, self.at.as_slice())?;
        let part_at = Vec::from_slice(alloc, self.part_at.as_slice())?;
        Ok(Layout {
            at,
            part_at,
            places: self.places,
        })
    }

    /// Where each part stands, in the order of their numbers.
    pub fn at(&self) -> &[u32]
        ensures value { result.now ≡ self.now.at }
        ensures layout { IsLayout self.now.at self.now.places }
        ensures few { length self.now.at ≤ self.now.places }
        ensures small { length self.now.at ≤ 1000000 }
    {
        self.at.as_slice()
    }

    /// How many places there are.
    pub fn places(&self) -> u32
        ensures value { result ≡ self.now.places }
        ensures few { self.now.places ≤ 1000000 }
    {
        self.places
    }

    /// The part at a place, if there is one.
    pub fn part_at(&self, place: u32) -> Option<u32>
        ensures { (k : ℕ) → (result ≡ Some k) ↔ (slice_get self.now.at k ≡ Some place) }
    {
        if place >= self.places {
            return None;
        }
        self.part_at[place as usize]
    }

    /// Whether some part stands at a place.
    pub fn is_taken(&self, place: u32) -> bool
        ensures { IsTrue result ↔ Contains self.now.at place }
    {
        self.part_at(place).is_some()
    }

    /// Moves a part to a place where none stands. A refusal changes nothing, and is the first of
    /// these that holds: `Taken` where some part stands at that place, the moved one too, `NoPart`
    /// where there is no such part, `Range` where there is no such place.
    pub fn apply(&mut self, step: Move) -> Result<(), MoveError>
        ensures ok { OnOk result
            (self.new ≡ record { at = moved self.old.at step; places = self.old.places }) }
        ensures legal { IsOk result ↔ IsLegal self.old.at self.old.places step }
        ensures err { OnErr result (self.new ≡ self.old) }
        ensures layout { IsLayout self.new.at self.new.places }

        // The first of these that holds.
        ensures taken { (result ≡ Err MoveError.Taken) ↔ Contains self.old.at step.to }
        ensures no_part { (result ≡ Err MoveError.NoPart) ↔ LacksPart self.old.at step }
        ensures range { (result ≡ Err MoveError.Range)
            ↔ LacksPlace self.old.at self.old.places step }
    {
        if self.is_taken(step.to) {
            return Err(MoveError::Taken);
        }
        if step.part as usize >= self.at.len() {
            return Err(MoveError::NoPart);
        }
        if step.to >= self.places {
            return Err(MoveError::Range);
        }
        self.put(step);
        Ok(())
    }

    /// Makes a move.
    fn put(&mut self, step: Move)
        requires { IsLegal self.old.at self.old.places step }
        ensures { self.new ≡ record { at = moved self.old.at step; places = self.old.places } }
    {
        let left = self.at[step.part as usize];
        self.part_at[left as usize] = None;
        self.part_at[step.to as usize] = Some(step.part);
        self.at[step.part as usize] = step.to;
    }
}

/// Whether each of these numbers is a place, and there are not too many places.
fn are_in_range(at: &[u32], places: u32) -> bool
    ensures { IsTrue result ↔ IsInRange at.now places }
{
    places <= MOST_PLACES && at.iter().all(|place| *place < places)
}

/// What is wrong with numbers that are no places: two that are equal come first.
fn fault_out_of_range<A: Allocator + Copy>(alloc: A, at: &[u32]) -> Result<LayoutError, AllocError>
    ensures repeat { IfOk result (λ fault. fault ≡ LayoutError.Repeat → AreDistinct at.now → ⊥) }
    ensures range { IfOk result (λ fault. fault ≡ LayoutError.Range → AreDistinct at.now) }
    ensures found { IfOk result (λ fault. fault ≡ LayoutError.Memory → ⊥) }
{
    Ok(if are_distinct(alloc, at)? {
        LayoutError::Range
    } else {
        LayoutError::Repeat
    })
}
