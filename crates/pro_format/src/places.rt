// Which places of a volume are the system's, and which are available.
ghost use Rattle.std.specs.Prelude.{◌≡◌, ◌<◌, ◌+◌, length, map, All, IfOk};
ghost use Rattle.std.specs.List.{range_with_len};
ghost use Rattle.pro_dir.specs.Listed.{directory_of};
ghost use Rattle.pro_dir.specs.Volume.{map_first, total_blocks};
ghost use Rattle.pro_format.specs.Pro.{is_fixed, is_fixed_from, available_in};
ghost use Rattle.pro_format.specs.Tables.{IsMarked};

use pro_dir::VolumeDir;
use std::alloc::{AllocError, Allocator};
use vol_layout::Reserved;

/// How many blocks have their bits in one block of the map.
pub(crate) const BITS: u32 = 4096;

// Whether a place is the loader's, one of the map's blocks or reserved.
fn is_fixed<A: Allocator>(first: u32, behind: u32, reserved: &Reserved<A>, place: u32) -> bool
    ensures { result ≡ is_fixed_from first behind reserved.now place }
{
    place < 2 || first <= place && place < behind || reserved.contains(place)
}

/// For each place whether it is the loader's, one of the map's blocks or reserved.
pub(crate) fn fixed_places<A: Allocator, B: Allocator>(
    alloc: A,
    directory: &VolumeDir<A>,
    reserved: &Reserved<B>,
) -> Result<Vec<bool, A>, AllocError>
    requires total { total_blocks (directory_of directory.now).header < 65536 }
    requires first { map_first (directory_of directory.now).header < 65536 }
    ensures { IfOk result (λ table. table.items ≡ map (is_fixed reserved.now (directory_of directory.now))
        (range_with_len 0 (total_blocks (directory_of directory.now).header))) }
{
    let first = directory.bitmap();
    let behind = first + directory.total().div_ceil(BITS);
    let mut table = Vec::new(alloc);
    for place in 0..directory.total() {
        table.push(is_fixed(first, behind, reserved, place))?;
    }
    Ok(table)
}

/// The table with some blocks given to the system.
pub(crate) fn with_blocks<A: Allocator>(mut table: Vec<bool, A>, blocks: &[u16]) -> Vec<bool, A>
    requires { All (λ block. block < length table.items) blocks.now }
    ensures { IsMarked blocks.now table.items result.items }
{
    for block in blocks {
        table[*block as usize] = true;
    }
    table
}

/// The places that are not the system's, upward.
pub(crate) fn available_places<A: Allocator>(
    alloc: A,
    system: &[bool],
) -> Result<Vec<u32, A>, AllocError>
    requires { length system.now < 65536 }
    ensures { IfOk result (λ places. places.items ≡ available_in system.now) }
{
    let mut available = Vec::new(alloc);
    for place in 0..system.len() {
        if !system[place] {
            available.push(place as u32)?;
        }
    }
    Ok(available)
}
