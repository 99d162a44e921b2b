// The parts of a ProDOS file.
ghost use Rattle.std.specs.Prelude.{◌≡◌, ◌<◌, ◌↔◌, ◌*◌, ◌++◌, length, IfOk, IsErrOf, OnOk};
ghost use Rattle.edit_formats.specs.Parts.{any_stored, index_with_bodies, pro_parts_of, storage_type, tree_parts};

use crate::taking::{is_stored, take, take_bodies};
use crate::{NewFileError, NewPart};
use a2_device::PartKind;
use std::alloc::{AllocError, Allocator};

/// The units of the longest file: a master index has 128 pointers.
const UNITS: usize = 32768;

const INDEXES: u32 = 128;

/// How many units an index names.
const POINTERS: u32 = 256;

/// The storage type of a file of so many units: 1 for a seedling, 2 for a sapling, 3 for a tree.
pub fn pro_storage(units: usize) -> u8
    ensures { result ≡ storage_type units }
{
    match units {
        0 | 1 => 1,
        2..=256 => 2,
        _ => 3,
    }
}

// Whether one of the units that an index names is stored.
fn has_units(stored: &[bool], index: u32) -> bool
    requires { index < 128 }
    ensures { result ≡ any_stored stored.now (256 * index) 256 }
{
    let first = POINTERS * index;
    for number in first..first + POINTERS {
        if is_stored(stored, number) {
            return true;
        }
    }
    false
}

// Takes one index, and the units of its pointers that are stored.
fn take_index<A: Allocator>(
    parts: &mut Vec<NewPart, A>,
    stored: &[bool],
    number: u32,
) -> Result<(), AllocError>
    requires { number < 128 }
    ensures { OnOk result (parts.new.items ≡ parts.old.items ++ index_with_bodies stored.now number) }
{
    take(parts, PartKind::Index, number)?;
    take_bodies(parts, stored, POINTERS * number, POINTERS)
}

// Takes the master index, and each index that has a unit to name.
fn take_tree<A: Allocator>(parts: &mut Vec<NewPart, A>, stored: &[bool]) -> Result<(), AllocError>
    ensures { OnOk result (parts.new.items ≡ parts.old.items ++ tree_parts stored.now) }
{
    take(parts, PartKind::Master, 0)?;
    for number in 0..INDEXES {
        if has_units(stored, number) {
            take_index(parts, stored, number)?;
        }
    }
    Ok(())
}

/// The parts of a ProDOS file of which these units are stored. A file of one unit or none is a seedling, its one unit
/// stored in any case; one of up to 256 units a sapling, an index and the units that are stored; a longer one a tree, a
/// master index, and each index that has a unit to name, with its units.
///
/// # Errors
/// `TooLong` where the file has more than 32,768 units, before memory is taken; `Memory`.
#[tactic(auto, unfolding(crate::specs::Parts::pro_parts_of))]
pub fn pro_parts<A: Allocator>(alloc: A, stored: &[bool]) -> Result<Vec<NewPart, A>, NewFileError>
    ensures parts { IfOk result (λ parts. parts.items ≡ pro_parts_of stored.now) }
    ensures too_long { IsErrOf result NewFileError.TooLong ↔ (32768 < length stored.now) }
{
    if stored.len() > UNITS {
        return Err(NewFileError::TooLong);
    }
    let mut parts = Vec::new(alloc);
    match pro_storage(stored.len()) {
        1 => take(&mut parts, PartKind::Body, 0)?,
        2 => take_index(&mut parts, stored, 0)?,
        _ => take_tree(&mut parts, stored)?,
    }
    Ok(parts)
}
