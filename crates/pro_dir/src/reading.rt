// One directory as far as it was read.
ghost use Rattle.std.specs.Prelude.{◌≡◌, ◌<◌, ℕ, None};
ghost use Rattle.std.specs.Option.{option_or};
ghost use Rattle.pro_dir.specs.Walk.{first_free_of};
ghost use Rattle.pro_dir.specs.Within.{IsReadWithin};

use crate::entry::{BLOCK_BYTES, ENTRIES, Entry};

/// A slot that has no entry: the key block of its directory, the block that has it, and its number there.
#[derive(Clone, Copy)]
pub struct FreeSlot {
    pub directory: u16,
    pub place: u16,
    pub number: u8,
}

/// A directory by its key block, and the place and the number of its first slot without an entry, as far as it was
/// read.
#[derive(Clone, Copy)]
pub struct Reading {
    pub key: u16,
    pub free: Option<(u16, u8)>,
}

// The first slot of one block that has no entry.
#[tactic(auto, unfolding(crate::specs::Walk::first_free_of))]
fn first_free(directory: u16, place: u16, unit: &[u8; BLOCK_BYTES]) -> Option<(u16, u8)>
    ensures { result ≡ first_free_of directory place unit.now }
{
    for number in 0..ENTRIES {
        if Entry::at(directory, place, unit, number).is_inactive() {
            return Some((place, number));
        }
    }
    None
}

impl Reading {
    /// A directory of which nothing was read.
    pub fn new(key: u16) -> Reading
        ensures key { result.key ≡ key }
        ensures free { result.free ≡ None }
    {
        Reading { key, free: None }
    }

    /// Takes one of its blocks.
    pub fn take(&mut self, place: u16, unit: &[u8; BLOCK_BYTES])
        ensures key { self.new.key ≡ self.old.key }
        ensures free { self.new.free ≡ option_or self.old.free (first_free_of self.old.key place unit.now) }
        ensures within { (places : ℕ) → place < places → IsReadWithin places self.old.key self.old.free
            → IsReadWithin places self.old.key self.new.free }
    {
        self.free = self.free.or(first_free(self.key, place, unit));
    }
}
