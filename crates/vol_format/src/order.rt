// Places in an order, and the number of each.
ghost use Rattle.std.specs.Prelude.{
  ◌≡◌,
  ◌<◌,
  ℕ,
  Some,
  length,
  slice_get,
  All,
  AllPairs,
  Contains,
  IfOk,
  IfSome,
  IfNone,
};
ghost use Rattle.vol_format.specs.Ordered.{AreNumbers};

use std::alloc::{AllocError, Allocator, Global};
use std::marker::Model;

/// Some places of a volume in an order, each with its number.
#[derive(Drop)]
pub struct PlaceOrder<A: Allocator = Global> {
    order: Vec<u32, A>,
    numbers: Vec<Option<u32>, A>,
}

impl<A: Allocator> Model for PlaceOrder<A> {
    ghost use Rattle.std.specs.Prelude.{ℕ, List, length};
    ghost use Rattle.vol_format.specs.Ordered.{AreNumbers};

    ghost Value = { List ℕ };

    ghost view = { λ o. o.order.items };

    ghost invariant = { λ o. AreNumbers o.order.items (length o.order.items) o.numbers.items };
}

// For each place its number in an order.
fn numbers_of<A: Allocator + Copy>(
    alloc: A,
    order: &[u32],
    places: u32,
) -> Result<Vec<Option<u32>, A>, AllocError>
    requires below { All (λ place. place < places) order.now }
    requires few { length order.now < 4294967296 }
    ensures { IfOk result (λ numbers. AreNumbers order.now (length order.now) numbers.items) }
{
    let mut numbers = vec![in alloc; None; places as usize]?;
    for number in 0..order.len() {
        numbers[order[number] as usize] = Some(number as u32);
    }
    Ok(numbers)
}

impl<A: Allocator + Copy> PlaceOrder<A> {
    /// These places, which are below `places`, in their order.
    ///
    /// # Errors
    /// Want of memory alone.
    pub fn new(alloc: A, order: Vec<u32, A>, places: u32) -> Result<PlaceOrder<A>, AllocError>
        requires below { All (λ place. place < places) order.items }
        requires few { length order.items < 4294967296 }
        ensures { IfOk result (λ made. made ≡ order.items) }
    {
        let numbers = numbers_of(alloc, order.as_slice(), places)?;
        Ok(PlaceOrder { order, numbers })
    }

    /// The place of a number.
    pub fn place(&self, number: u32) -> Option<u32>
        ensures { result ≡ slice_get self.now number }
    {
        match self.order.get(number as usize) {
            Some(place) => Some(*place),
            None => None,
        }
    }

    /// The number of a place, if it is one of them.
    pub fn number(&self, place: u32) -> Option<u32>
        ensures some { IfSome result (λ number. slice_get self.now number ≡ Some place) }
        ensures none { IfNone result (Contains self.now place → ⊥) }
    {
        if place as usize >= self.numbers.len() {
            return None;
        }
        self.numbers[place as usize]
    }
}
