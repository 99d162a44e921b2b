// Which blocks are refused, and how many were asked.
ghost use Rattle.std.specs.Prelude.{◌≡◌};

use std::cell::Cell;

/// Blocks are numbered from 0 as they are asked, and those from `first` on and below `end` are
/// refused.
#[derive(Drop)]
pub struct Rule {
    asked: Cell<u64>,
    first: u64,
    end: u64,
}

impl Rule {
    /// The rule before any block is asked.
    pub fn new(first: u64, end: u64) -> Rule
        ensures first { result.first ≡ first }
        ensures end { result.end ≡ end }
    {
        Rule {
            asked: Cell::new(0),
            first,
            end,
        }
    }

    /// How many blocks were asked.
    pub fn asked(&self) -> u64 {
        self.asked.get()
    }

    /// Counts one more block, and tells whether it is refused.
    pub fn refuses_next(&self) -> bool {
        let number = self.asked.get();
        self.asked.set(number.wrapping_add(1));
        self.first <= number && number < self.end
    }
}
