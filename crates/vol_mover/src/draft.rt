// An agenda that is being made.
ghost use Rattle.std.specs.Prelude.{◌≡◌, [], ◌∷◌, ◌++◌, All, IfOk, OnOk};
ghost use Rattle.vol_mover.specs.Entries.{tasks_of, HasMarks};
ghost use Rattle.vol_mover.specs.Tasks.{Map, Copy, Pointer};

use crate::entry::Entry;
use std::alloc::{AllocError, Allocator};
use std::marker::Model;
use vol_laws::Mark;
use vol_layout::Move;

/// The writes so far, and the marks so far of the next write of the map.
#[derive(Drop)]
pub struct Draft<A: Allocator> {
    entries: Vec<Entry, A>,
    marks: Vec<Mark, A>,
    first: usize,
}

impl<A: Allocator> Model for Draft<A> {
    ghost use Rattle.vol_mover.specs.Drafts.{Drafted};

    ghost Value = { Drafted };

    ghost use Rattle.vol_mover.specs.Drafts.{drafted, IsDraft};

    ghost view = { drafted };

    ghost invariant = { IsDraft };
}

impl<A: Allocator> Draft<A> {
    /// No write. It takes no memory.
    pub fn new(alloc: A) -> Draft<A>
    where
        A: Copy,
        ensures { result ≡ record { tasks = []; marks = [] } }
    {
        Draft {
            entries: Vec::new(alloc),
            marks: Vec::new(alloc),
            first: 0,
        }
    }

    /// One more mark of the next write of the map.
    pub fn mark(&mut self, mark: Mark) -> Result<(), AllocError>
        ensures { OnOk result (self.new ≡ record self.old { marks = self.old.marks ++ mark ∷ [] }) }
    {
        self.marks.push(mark)?;
        Ok(())
    }

    /// The write of the map's unit at a place, with the marks so far.
    pub fn map(&mut self, at: u32) -> Result<(), AllocError>
        ensures { OnOk result (self.new ≡ record { tasks = self.old.tasks ++ Map at self.old.marks ∷ []; marks = [] }) }
    {
        let end = self.marks.len();
        self.entries.push(Entry::Map {
            at,
            first: self.first,
            end,
        })?;
        self.first = end;
        Ok(())
    }

    /// The two writes of a move.
    pub fn make(&mut self, step: Move) -> Result<(), AllocError>
        ensures { OnOk result (self.new ≡ record self.old { tasks = self.old.tasks ++ Copy step ∷ Pointer step ∷ [] }) }
    {
        self.entries.push(Entry::Copy(step))?;
        self.entries.push(Entry::Pointer(step))?;
        Ok(())
    }

    /// The writes, and the marks of which they have ranges.
    pub fn into_parts(self) -> (Vec<Entry, A>, Vec<Mark, A>)
        ensures tasks { tasks_of result.1.items result.0.items ≡ self.tasks }
        ensures marks { All (HasMarks result.1.items) result.0.items }
    {
        let Draft { entries, marks, .. } = self;
        (entries, marks)
    }
}
