// The writes that bring the parts of a volume to their places.
ghost use Rattle.std.specs.Prelude.{◌≡◌, ◌≢◌, ◌<◌, [], length, drop, IfOk};
ghost use Rattle.vol_mover.specs.Agenda.{next_write, next_marks};
ghost use Rattle.vol_mover.specs.Entries.{moves_ended};
ghost use Rattle.vol_mover.specs.Tasks.{IsAgenda, at_first, moves_of};
ghost use Rattle.vol_mover.specs.Work.{LeadsToTarget, AreSpare, IsWork};
ghost use Rattle.vol_mover.specs.Writes.{writes_of};

use crate::Write;
use crate::entry::{Entry, entry_at};
use crate::making::draft_of;
use std::alloc::{AllocError, Allocator, Global};
use std::marker::Model;
use vol_format::WritableFormat;
use vol_laws::Mark;
use vol_layout::Move;

/// The writes that are still to be made, in order.
#[derive(Drop)]
pub struct Agenda<A: Allocator = Global> {
    entries: Vec<Entry, A>,
    marks: Vec<Mark, A>,
    next: usize,
    moves_left: u32,
}

impl<A: Allocator> Model for Agenda<A> {
    ghost use Rattle.std.specs.Prelude.{List};
    ghost use Rattle.vol_mover.specs.Tasks.{Task};

    ghost Value = { List Task };

    ghost use Rattle.vol_mover.specs.Entries.{tasks_left, IsKept};

    ghost view = { tasks_left };

    ghost invariant = { IsKept };
}

impl<A: Allocator> Agenda<A> {
    /// The writes that make a plan's moves, of a volume whose parts stand at the available places of the numbers `at`,
    /// with these places lost: at the end each part stands at its target and no place is lost. Linear in the parts, the
    /// lost places and the moves.
    ///
    /// # Errors
    /// Want of memory alone.
    pub fn new<F: WritableFormat>(
        alloc: A,
        format: &F,
        volume: &F::Volume,
        at: &[u32],
        lost: &[u32],
        moves: &[Move],
    ) -> Result<Agenda<A>, AllocError>
    where
        A: Copy,
        requires plan { LeadsToTarget (F.directory format.now volume.now) at.now moves.now }
        requires spare { AreSpare (F.directory format.now volume.now) at.now lost.now }
        requires few { length moves.now < 4294967296 }

        ensures agenda { IfOk result
            (IsAgenda (F.directory format.now volume.now) (length lost.now) (at_first at.now lost.now)) }
        ensures moves { IfOk result (λ agenda. moves_of agenda ≡ moves.now) }
        ensures writes { IfOk result (λ agenda.
            IsWork (length (F.directory format.now volume.now).map_units) at.now lost.now moves.now (length agenda)) }
        ensures order { IfOk result (λ agenda.
            agenda ≡ writes_of (F.directory format.now volume.now) at.now lost.now moves.now) }
    {
        let draft = draft_of(alloc, format, volume, at, lost, moves)?;
        let (entries, marks) = draft.into_parts();
        Ok(Agenda {
            entries,
            marks,
            next: 0,
            moves_left: moves.len() as u32,
        })
    }

    /// How many writes are left.
    pub fn len(&self) -> usize
        ensures { result ≡ length self.now }
    {
        self.entries.len() - self.next
    }

    /// How many moves are left: those whose pointers are still to be written.
    pub fn moves_left(&self) -> u32
        ensures { result ≡ length (moves_of self.now) }
    {
        self.moves_left
    }

    /// The write that comes next; `None` at the end.
    pub fn next(&self) -> Option<Write>
        ensures { result ≡ next_write self.now }
    {
        match entry_at(&self.entries, self.next) {
            Some(entry) => Some(entry.write()),
            None => None,
        }
    }

    /// The marks that the next write makes, in order, if it is one of the map; else none.
    pub fn marks(&self) -> &[Mark]
        ensures { result.now ≡ next_marks self.now }
    {
        match entry_at(&self.entries, self.next) {
            Some(entry) => entry.marks_in(&self.marks),
            None => &[],
        }
    }

    // How many moves the next write ends.
    fn moves_ended(&self) -> u32
        ensures { result ≡ moves_ended (next_write self.now) }
    {
        match self.next() {
            Some(Write::Pointer(_)) => 1,
            _ => 0,
        }
    }

    /// Passes over the next write, once it is made.
    pub fn advance(&mut self)
        requires { self.old ≢ [] }
        ensures { self.new ≡ drop 1 self.old }
    {
        self.moves_left -= self.moves_ended();
        self.next += 1;
    }
}
