//! Lists of parts.

ghost use Rattle.std.specs.Prelude.{◌≡◌};

use std::alloc::{Allocator, Global};
use std::marker::Model;

/// Numbers of parts, in the order in which a certificate tells them.
#[derive(Drop)]
pub struct Parts<A: Allocator = Global> {
    numbers: Vec<u32, A>,
}

impl<A: Allocator> Model for Parts<A> {
    ghost use Rattle.std.specs.Prelude.{ℕ, List};

    ghost Value = { List ℕ };

    ghost view = { λ parts. parts.numbers.items };
}

impl<A: Allocator> Parts<A> {
    /// The list of these numbers.
    pub fn new(numbers: Vec<u32, A>) -> Parts<A>
        ensures { result ≡ numbers.items }
    {
        Parts { numbers }
    }

    /// The numbers, in order.
    pub fn numbers(&self) -> &[u32]
        ensures { result.now ≡ self.now }
    {
        self.numbers.as_slice()
    }
}
