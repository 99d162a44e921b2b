// What is at each place of a volume.
ghost use Rattle.std.specs.Prelude.{◌≡◌, ◌<◌, length, map, All, IfOk};
ghost use Rattle.std.specs.List.{range_with_len};
ghost use Rattle.vol_format.specs.Directory.{is_system};
ghost use Rattle.shop_reads.specs.MapSteps.{PutsParts, TellsReserved, part_state, reserved_state, vacant_state};

use crate::place_state::PlaceState;
use a2_device::Part;
use std::alloc::{AllocError, Global};
use vol_format::Format;

// The state of a place at which no part stands.
fn vacant_state<F: Format>(format: &F, volume: &F::Volume, place: u32) -> PlaceState
    requires { place < (F.directory format.now volume.now).places }
    ensures { result ≡ vacant_state (F.directory format.now volume.now) place }
{
    match format.index(volume, place) {
        None => PlaceState::System,
        Some(_) if format.is_free(volume, place) => PlaceState::Free,
        Some(_) => PlaceState::Lost,
    }
}

/// The states of the places of a volume of which nothing is known but its directory.
///
/// # Errors
/// Want of memory alone.
pub fn vacant_states<F: Format>(
    alloc: Global,
    format: &F,
    volume: &F::Volume,
    places: u32,
) -> Result<Vec<PlaceState>, AllocError>
    requires { places ≡ (F.directory format.now volume.now).places }
    ensures { IfOk result (λ table. table.items
        ≡ map (vacant_state (F.directory format.now volume.now)) (range_with_len 0 places)) }
{
    let mut table = Vec::new(alloc);
    table.reserve(places as usize)?;
    for place in 0..places {
        table.push(vacant_state(format, volume, place))?;
    }
    Ok(table)
}

// The state of the place of part k, which is the available one of this number.
fn part_state(k: usize, number: u32) -> PlaceState
    ensures { result ≡ part_state k number }
{
    if number as usize == k {
        PlaceState::InOrder
    } else {
        PlaceState::Elsewhere
    }
}

/// A table of places with parts put in, where each stands at the available place of a number.
pub fn put_parts(parts: &[Part], at: &[u32], mut table: Vec<PlaceState>) -> Vec<PlaceState>
    requires numbers { length at.now ≡ length parts.now }
    requires places { All (λ (part : Part). part.place < length table.items) parts.now }
    ensures { PutsParts (length parts.now) parts.now at.now table.items result.items }
{
    for k in 0..parts.len() {
        table[parts[k].place as usize] = part_state(k, at[k]);
    }
    table
}

// The state of a place, once it is known whether it is the system's where nothing is reserved.
fn reserved_state(own: bool, state: PlaceState) -> PlaceState
    ensures { result ≡ reserved_state own state }
{
    match state {
        PlaceState::System if !own => PlaceState::Reserved,
        _ => state,
    }
}

// Whether a place is the system's.
fn is_system<F: Format>(format: &F, volume: &F::Volume, place: u32) -> bool
    requires { place < (F.directory format.now volume.now).places }
    ensures { result ≡ is_system (F.directory format.now volume.now) place }
{
    match format.index(volume, place) {
        None => true,
        Some(_) => false,
    }
}

/// A table of places that tells which are reserved, by a volume that was read where nothing is.
pub fn tell_reserved<F: Format>(
    format: &F,
    volume: &F::Volume,
    places: u32,
    mut table: Vec<PlaceState>,
) -> Vec<PlaceState>
    requires places { places ≡ (F.directory format.now volume.now).places }
    requires size { length table.items ≡ places }
    ensures { TellsReserved places (F.directory format.now volume.now) table.items result.items }
{
    for place in 0..places {
        let own = is_system(format, volume, place);
        table[place as usize] = reserved_state(own, table[place as usize]);
    }
    table
}
