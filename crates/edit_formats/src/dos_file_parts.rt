// The parts of a DOS 3.3 file.
ghost use Rattle.std.specs.Prelude.{◌≡◌, ◌<◌, ◌↔◌, ◌++◌, length, IfOk, IsErrOf, OnOk};
ghost use Rattle.edit_formats.specs.Parts.{dos_parts_of, list_with_bodies};

use crate::taking::{take, take_bodies};
use crate::{NewFileError, NewPart};
use a2_device::PartKind;
use std::alloc::{AllocError, Allocator};

/// The units of the longest file: a disk has as many sectors.
const UNITS: usize = 560;

/// How many units a list names.
const PAIRS: u32 = 122;

// Takes one list, and the units of its pairs that are stored.
fn take_list<A: Allocator>(
    parts: &mut Vec<NewPart, A>,
    stored: &[bool],
    number: u32,
) -> Result<(), AllocError>
    requires { number < 5 }
    ensures { OnOk result (parts.new.items ≡ parts.old.items ++ list_with_bodies stored.now number) }
{
    take(parts, PartKind::List, number)?;
    take_bodies(parts, stored, PAIRS * number, PAIRS)
}

/// The parts of a DOS 3.3 file of which these units are stored: each track/sector list, and behind it the units of its
/// pairs. A file has a list for each 122 units, and one at least.
///
/// # Errors
/// `TooLong` where the file has more than 560 units, before memory is taken; `Memory`.
#[tactic(auto, unfolding(crate::specs::Parts::dos_parts_of))]
pub fn dos_parts<A: Allocator>(alloc: A, stored: &[bool]) -> Result<Vec<NewPart, A>, NewFileError>
    ensures parts { IfOk result (λ parts. parts.items ≡ dos_parts_of stored.now) }
    ensures too_long { IsErrOf result NewFileError.TooLong ↔ (560 < length stored.now) }
{
    if stored.len() > UNITS {
        return Err(NewFileError::TooLong);
    }
    let lists = (stored.len() as u32).div_ceil(PAIRS).max(1);
    let mut parts = Vec::new(alloc);
    for number in 0..lists {
        take_list(&mut parts, stored, number)?;
    }
    Ok(parts)
}
