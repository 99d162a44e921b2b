// A list of writes that is made whole before the first of them, and its writing.
ghost use Rattle.std.specs.Prelude.{◌≡◌, ◌<◌, List, [], ◌∷◌, ◌++◌, length, map, All, IfErr, IfOk};
ghost use Rattle.edit_formats.specs.declared.writes.Prepared.{Prepared};
ghost use Rattle.vol_laws.specs.Writes.{Write};
ghost use Rattle.edit_formats.specs.Prepared.{AreOfSize, GoBelow, write_of};
ghost use Rattle.edit_formats.specs.Writes.{HasEdited};

use crate::EditError;
use crate::units::write_unit;
use a2_device::Device;
use std::alloc::{AllocError, Allocator, Global};

/// A unit that is made, and the place that it is for.
#[derive(Drop)]
pub struct Prepared<A: Allocator = Global> {
    pub place: u32,
    pub unit: Vec<u8, A>,
}

/// One write alone.
///
/// # Errors
/// Want of memory alone.
pub fn alone<A: Allocator + Copy>(
    alloc: A,
    write: Prepared<A>,
) -> Result<Vec<Prepared<A>, A>, AllocError>
    ensures { IfOk result (λ all. all.items ≡ write ∷ []) }
{
    behind(Vec::new(alloc), write)
}

/// A write behind others.
///
/// # Errors
/// Want of memory alone.
pub fn behind<A: Allocator>(
    mut writes: Vec<Prepared<A>, A>,
    write: Prepared<A>,
) -> Result<Vec<Prepared<A>, A>, AllocError>
    ensures { IfOk result (λ all. all.items ≡ writes.items ++ write ∷ []) }
{
    match writes.push(write) {
        Ok(()) => Ok(writes),
        Err(error) => Err(AllocError::from(error)),
    }
}

/// Writes units one after another, up to the first that is refused.
///
/// # Errors
/// `Device` where a write fails; those before it stand.
pub fn write_all<D: Device, A: Allocator>(
    device: &mut D,
    writes: &[Prepared<A>],
) -> Result<(), EditError>
    requires places { GoBelow (D.state device.old).places writes.now }
    requires units { AreOfSize (D.state device.old).unit_size writes.now }
    ensures refused { IfErr result (λ error. error ≡ EditError.Device) }
    ensures edited { HasEdited (λ (made : List Write). made ≡ map write_of writes.now) result (D.state device.old)
        (D.state device.new) }
{
    for write in writes {
        write_unit(device, write.place, write.unit.as_slice())?;
    }
    Ok(())
}
