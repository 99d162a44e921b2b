// The writes of an agenda as they are kept.
ghost use Rattle.std.specs.Prelude.{◌≡◌, slice_get};
ghost use Rattle.vol_mover.specs.Entries.{write_of, marks_of, HasMarks};

use crate::Write;
use vol_laws::Mark;
use vol_layout::Move;

/// A write of an agenda. That of the map has a range of the agenda's marks.
#[derive(Clone, Copy)]
pub enum Entry {
    Map { at: u32, first: usize, end: usize },
    Copy(Move),
    Pointer(Move),
}

impl Entry {
    /// The write without its marks.
    pub fn write(&self) -> Write
        ensures { result ≡ write_of self.now }
    {
        match self {
            Entry::Map { at, .. } => Write::Map(*at),
            Entry::Copy(step) => Write::Copy(*step),
            Entry::Pointer(step) => Write::Pointer(*step),
        }
    }

    /// Its marks, out of those of the agenda.
    pub fn marks_in<'m>(&self, marks: &'m [Mark]) -> &'m [Mark]
        requires { HasMarks marks.now self.now }
        ensures { result.now ≡ marks_of marks.now self.now }
    {
        match self {
            Entry::Map { first, end, .. } => &marks[*first..*end],
            Entry::Copy(_) | Entry::Pointer(_) => &[],
        }
    }
}

/// The entry at an index, if there is one.
pub fn entry_at(entries: &[Entry], index: usize) -> Option<Entry>
    ensures { result ≡ slice_get entries.now index }
{
    match entries.get(index) {
        Some(entry) => Some(*entry),
        None => None,
    }
}
