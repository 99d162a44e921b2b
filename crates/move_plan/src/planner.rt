//! A plan in the making: the moves so far, and the layout to which they lead.

ghost use Rattle.std.specs.Prelude.{◌<◌, ◌≤◌, length, All, Contains, OnOk, IfOk, vec_capacity};
ghost use Rattle.vol_layout.specs.Layouts.{IsLayout};
ghost use Rattle.vol_layout.specs.Plans.{IsLegal};
ghost use Rattle.vol_layout.specs.Rings.{IsRing};

use crate::ring::{Ring, ring_from};
use std::alloc::{AllocError, Allocator};
use vol_layout::{Layout, Move};

/// The layout after the moves so far, these moves, the rings that they turned, and the spare place.
#[derive(Drop)]
pub struct Planner<A: Allocator> {
    pub now: Layout<A>,
    pub moves: Vec<Move, A>,
    pub rings: Vec<Ring<A>, A>,
    pub spare: u32,
}

impl<A: Allocator> Planner<A> {
    ghost use Rattle.move_plan.specs.Runs.{FillsHole, IsFilled, IsFresh, MakesMove};
    ghost use Rattle.move_plan.specs.Turns.{IsDone, TurnsRing};

    /// No move yet, and room for this many. Until a run leaves a place, the first place past the
    /// parts is the spare one.
    pub fn new<B: Allocator>(
        alloc: A,
        layout: &Layout<B>,
        moves: usize,
    ) -> Result<Planner<A>, AllocError>
    where
        A: Copy,
        ensures fresh { IfOk result (IsFresh layout.now) }
        ensures room { IfOk result (λ planner. moves ≤ vec_capacity planner.moves) }
    {
        let now = layout.copy(alloc)?;
        Ok(Planner {
            now,
            moves: Vec::with_capacity(alloc, moves)?,
            rings: Vec::new(alloc),
            spare: layout.at().len() as u32,
        })
    }

    /// Adds a move.
    fn step(&mut self, part: u32, to: u32) -> Result<(), AllocError>
        requires { IsLegal self.old.now.at self.old.now.places (record { part = part; to = to }) }
        ensures { OnOk result (MakesMove part to self.old self.new) }
    {
        self.moves.push(Move { part, to })?;
        self.now.apply(Move { part, to }).unwrap();
        Ok(())
    }

    /// Fills each hole of the layout at the start.
    pub fn fill_holes<B: Allocator>(&mut self, layout: &Layout<B>) -> Result<(), AllocError>
        requires fresh { IsFresh layout.now self.old }
        requires room { length layout.now.at < layout.now.places }
        ensures { OnOk result (IsFilled layout.now self.new) }
    {
        for hole in 0..layout.at().len() as u32 {
            if !layout.is_taken(hole) {
                self.run_from(hole)?;
            }
        }
        Ok(())
    }

    /// Fills a hole with its part, and then each place of a part that this leaves free.
    fn run_from(&mut self, hole: u32) -> Result<(), AllocError>
        requires target { hole < length self.old.now.at }
        requires free { Contains self.old.now.at hole → ⊥ }
        ensures { OnOk result (FillsHole hole self.old self.new) }
    {
        let parts = self.now.at().len();
        let mut place = hole;
        while (place as usize) < parts {
            let left = self.now.at()[place as usize];
            self.step(place, place)?;
            place = left;
        }
        self.spare = place;
        Ok(())
    }

    /// Turns each ring, by its least part.
    pub fn turn_rings<B: Allocator>(
        &mut self,
        alloc: A,
        layout: &Layout<B>,
    ) -> Result<(), AllocError>
    where
        A: Copy,
        requires { IsFilled layout.now self.old }
        ensures { OnOk result (IsDone layout.now self.new) }
    {
        for least in 0..layout.at().len() as u32 {
            if self.now.at()[least as usize] != least {
                let ring = ring_from(alloc, self.now.at(), least)?;
                self.turn(ring)?;
            }
        }
        Ok(())
    }

    /// Moves the first part of a ring to the spare place, each other one home, and then the first.
    fn turn(&mut self, ring: Ring<A>) -> Result<(), AllocError>
        requires ring { IsRing self.old.now.at ring }
        requires within { All (λ place. place < length self.old.now.at) self.old.now.at }
        requires layout { IsLayout self.old.now.at self.old.now.places }
        requires past { length self.old.now.at ≤ self.old.spare }
        requires room { self.old.spare < self.old.now.places }
        ensures { OnOk result (TurnsRing ring self.old self.new) }
    {
        let first = ring.parts()[0];
        self.step(first, self.spare)?;
        for part in &ring.parts()[1..] {
            self.step(*part, *part)?;
        }
        self.step(first, first)?;
        self.rings.push(ring)?;
        Ok(())
    }
}
