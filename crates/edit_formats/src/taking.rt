// Parts taken one after another.
ghost use Rattle.std.specs.Prelude.{◌≡◌, ◌<◌, ◌+◌, ◌++◌, [], ◌∷◌, OnOk};
ghost use Rattle.edit_formats.specs.Parts.{bodies, is_stored, new_part};

use crate::NewPart;
use a2_device::PartKind;
use std::alloc::{AllocError, Allocator};

/// Takes one part.
pub fn take<A: Allocator>(
    parts: &mut Vec<NewPart, A>,
    kind: PartKind,
    number: u32,
) -> Result<(), AllocError>
    ensures { OnOk result (parts.new.items ≡ parts.old.items ++ new_part kind number ∷ []) }
{
    parts.push(NewPart { kind, number })?;
    Ok(())
}

/// Whether the unit of a number is stored; behind the end of the file none is.
pub fn is_stored(stored: &[bool], number: u32) -> bool
    ensures { result ≡ is_stored stored.now number }
{
    match stored.get(number as usize) {
        Some(stored) => *stored,
        None => false,
    }
}

/// Takes the units of the body that are stored, of so many from a first one on.
pub fn take_bodies<A: Allocator>(
    parts: &mut Vec<NewPart, A>,
    stored: &[bool],
    first: u32,
    count: u32,
) -> Result<(), AllocError>
    requires { first + count < 4294967296 }
    ensures { OnOk result (parts.new.items ≡ parts.old.items ++ bodies stored.now first count) }
{
    for number in first..first + count {
        if is_stored(stored, number) {
            take(parts, PartKind::Body, number)?;
        }
    }
    Ok(())
}
