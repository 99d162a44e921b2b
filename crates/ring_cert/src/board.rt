//! Where parts stand while moves are made.

ghost use Rattle.std.specs.Prelude.{◌≡◌, ◌<◌, ◌↔◌, All, IfOk, IsTrue, length, true, false};
ghost use Rattle.vol_layout.specs.Plans.{IsLegal, moved};
ghost use Rattle.ring_cert.specs.Boards.{TellsTaken};

use std::alloc::{AllocError, Allocator};
use std::marker::Model;
use vol_layout::{Layout, Move};

/// The place of each part, and which places are taken: of a layout no more than making moves needs, in less than half
/// its memory.
#[derive(Drop)]
pub struct Board<A: Allocator> {
    at: Vec<u32, A>,
    taken: Vec<bool, A>,
}

impl<A: Allocator> Model for Board<A> {
    ghost use Rattle.vol_layout.specs.Layouts.{Placement};

    ghost Value = { Placement };

    ghost use Rattle.ring_cert.specs.Boards.{standing, IsKept};

    ghost view = { standing };

    ghost invariant = { IsKept };
}

impl<A: Allocator> Board<A> {
    /// The parts of a layout, none moved yet.
    pub fn new<B: Allocator>(alloc: A, layout: &Layout<B>) -> Result<Board<A>, AllocError>
    where
        A: Copy,
        ensures { IfOk result (λ board. board ≡ layout.now) }
    {
        let at = Vec::from_slice(alloc, layout.at())?;
        let taken = taken_places(alloc, layout.at(), layout.places())?;
        Ok(Board { at, taken })
    }

    /// Where each part stands.
    pub fn at(&self) -> &[u32]
        ensures { result.now ≡ self.now.at }
    {
        self.at.as_slice()
    }

    /// Makes a move where it can be made, and tells whether it could.
    pub fn make(&mut self, step: Move) -> bool
        ensures legal { IsTrue result ↔ IsLegal self.old.at self.old.places step }
        ensures made { result ≡ true
            → self.new ≡ record { at = moved self.old.at step; places = self.old.places } }
        ensures kept { result ≡ false → self.new ≡ self.old }
    {
        let legal = self.is_legal(step);
        if legal {
            self.put(step);
        }
        legal
    }

    /// Whether a move can be made.
    fn is_legal(&self, step: Move) -> bool
        ensures { IsTrue result ↔ IsLegal self.now.at self.now.places step }
    {
        let to = step.to as usize;
        (step.part as usize) < self.at.len() && to < self.taken.len() && !self.taken[to]
    }

    /// Makes a move.
    fn put(&mut self, step: Move)
        requires { IsLegal self.old.at self.old.places step }
        ensures { self.new ≡ record { at = moved self.old.at step; places = self.old.places } }
    {
        let left = self.at[step.part as usize];
        self.taken[left as usize] = false;
        self.taken[step.to as usize] = true;
        self.at[step.part as usize] = step.to;
    }
}

/// For each of so many places whether it is one of these.
fn taken_places<A: Allocator>(alloc: A, at: &[u32], places: u32) -> Result<Vec<bool, A>, AllocError>
    requires { All (λ place. place < places) at.now }
    ensures size { IfOk result (λ taken. length taken.items ≡ places) }
    ensures taken { IfOk result (λ taken. TellsTaken at.now taken.items) }
{
    let mut taken = vec![in alloc; false; places as usize]?;
    for place in at {
        taken[*place as usize] = true;
    }
    Ok(taken)
}
