//! The search for a number that was told before.

ghost use Rattle.std.specs.Prelude.{◌≡◌, ℕ, ◌==◌, ◌||◌, ◌++◌, not, List, [], IfOk, OnOk, MatchOption};
ghost use Rattle.vol_layout.specs.Layouts.{AreDistinct};
ghost use Rattle.ring_cert.specs.Good.{IsFirstRepeat};

use std::alloc::{AllocError, Allocator};
use std::collections::BTreeSet;

/// The numbers met so far: a table of those that are parts, and a set of the others, which are few in a good
/// certificate.
#[derive(Drop)]
pub struct Seen<A: Allocator> {
    pub parts: Vec<bool, A>,
    pub others: BTreeSet<u32, A>,
}

impl<A: Allocator + Copy> Seen<A> {
    ghost use Rattle.ring_cert.specs.Seen.{HasMet, is_seen};

    /// No number yet, with room for so many parts.
    pub fn new(alloc: A, parts: usize) -> Result<Seen<A>, AllocError>
        ensures { IfOk result (λ seen. HasMet seen []) }
    {
        Ok(Seen {
            parts: vec![in alloc; false; parts]?,
            others: BTreeSet::new(alloc),
        })
    }

    /// Adds a number, and tells whether it is new.
    fn insert(&mut self, number: u32) -> Result<bool, AllocError>
        ensures new { IfOk result (λ new. new ≡ not (is_seen self.old number)) }
        ensures seen { OnOk result ((k : ℕ) → is_seen self.new k ≡ (is_seen self.old k || number == k)) }
    {
        let index = number as usize;
        if index >= self.parts.len() {
            return Ok(self.others.insert(number)?);
        }
        let new = !self.parts[index];
        self.parts[index] = true;
        Ok(new)
    }

    /// Adds numbers, up to the first that was met before.
    pub fn insert_all(&mut self, numbers: &[u32]) -> Result<Option<u32>, AllocError>
        ensures { IfOk result (λ found. (front : List ℕ) → HasMet self.old front
            → MatchOption found (HasMet self.new (front ++ numbers.now)) (IsFirstRepeat (front ++ numbers.now))) }
    {
        for number in numbers {
            if !self.insert(*number)? {
                return Ok(Some(*number));
            }
        }
        Ok(None)
    }

    /// The first number that already stands before in its list. All are forgotten again.
    pub fn repeat_in(&mut self, numbers: &[u32]) -> Result<Option<u32>, AllocError>
        requires { HasMet self.old [] }
        ensures found { IfOk result (λ found. MatchOption found (AreDistinct numbers.now) (IsFirstRepeat numbers.now)) }
        ensures forgotten { OnOk result (HasMet self.new []) }
    {
        let found = self.insert_all(numbers)?;
        self.clear();
        Ok(found)
    }

    /// Forgets all numbers.
    fn clear(&mut self)
        ensures { HasMet self.new [] }
    {
        self.parts.as_mut_slice().fill(false);
        self.others.clear();
    }
}
