// Reserved places.
ghost use Rattle.std.specs.Prelude.{◌≡◌, ◌↔◌, ◌<◌, ℕ, List, [], All, IfOk, IfErr, IsTrue};
ghost use Rattle.vol_layout.specs.declared.reserve_error.ReserveError.TheVariants.{Syntax};
ghost use Rattle.vol_layout.specs.Reserved.{is_reserved, HasPlaces, IsPlaceList, Reserves};

use crate::words::places_of;
use crate::{PlaceForm, ReserveError};
use std::alloc::{AllocError, Allocator, Global};
use std::marker::Model;

/// The places that are kept for the system beside its own.
#[derive(Drop)]
pub struct Reserved<A: Allocator = Global> {
    table: Vec<bool, A>,
}

impl<A: Allocator> Model for Reserved<A> {
    ghost use Rattle.std.specs.Prelude.{Bool, List};

    ghost Value = { List Bool };

    ghost view = { λ r. r.table.items };
}

impl<A: Allocator> Reserved<A> {
    /// No place.
    pub fn none(alloc: A) -> Reserved<A>
        ensures { result ≡ [] }
    {
        Reserved {
            table: Vec::new(alloc),
        }
    }

    /// Whether this is the table of no place, `none`.
    pub fn is_empty(&self) -> bool
        ensures { IsTrue result ↔ (self.now ≡ []) }
    {
        self.table.is_empty()
    }

    /// Whether a place is reserved.
    pub fn contains(&self, place: u32) -> bool
        ensures { result ≡ is_reserved self.now place }
    {
        match self.table.get(place as usize) {
            Some(reserved) => *reserved,
            None => false,
        }
    }
}

// The table that has some places, which are below `count`.
fn table_of<A: Allocator>(
    alloc: A,
    places: &[u32],
    count: usize,
) -> Result<Vec<bool, A>, AllocError>
    requires { All (λ place. place < count) places.now }
    ensures { IfOk result (λ table. HasPlaces table.items places.now) }
{
    let mut table = vec![in alloc; false; count]?;
    for place in places {
        table[*place as usize] = true;
    }
    Ok(table)
}

impl<A: Allocator + Copy> Reserved<A> {
    /// The places that a text names, in words between commas. A place may be named again, to no further effect.
    ///
    /// # Errors
    /// `Syntax` exactly where some word names no place, `Memory`.
    pub fn read(alloc: A, text: &str, form: PlaceForm) -> Result<Reserved<A>, ReserveError>
        ensures read { IfOk result (λ reserved. Reserves form text.now reserved) }
        ensures syntax { IfErr result (λ e. e ≡ Syntax → (places : List ℕ) → ¬ IsPlaceList form text.now places) }
    {
        let places = places_of(alloc, text, form)?;
        let table = table_of(alloc, places.as_slice(), form.places())?;
        Ok(Reserved { table })
    }
}
