// The writes that mark places free, or used, one for each unit of the map that has marks of them.
ghost use Rattle.std.specs.Prelude.{
  ◌≡◌,
  ◌<◌,
  ◌≤◌,
  ℕ,
  List,
  All,
  None,
  OnOk,
  IfOk,
  IfErr,
  IsErr,
  IsTrue,
  length,
  is_err,
  map,
  Err,
  ◌++◌,
  ◌∷◌,
  [],
};
ghost use Rattle.a2_device.specs.Device.{OnlyReads};
ghost use Rattle.a2_device.specs.Device.{unit_at};
ghost use Rattle.vol_format.specs.Directory.{map_place};
ghost use Rattle.vol_laws.specs.Marked.{with_marks};
ghost use Rattle.vol_laws.specs.Markings.{mark_as, marking_write};
ghost use Rattle.edit_formats.specs.declared.writes.Prepared.{Prepared};
ghost use Rattle.edit_formats.specs.Prepared.{write_of};
ghost use Rattle.edit_formats.specs.Refusal.{told_device, IsPrepareRefusal};
ghost use Rattle.edit_formats.specs.Markings.{marked_in, nearest, nearer, AreMarked};

use crate::EditError;
use crate::units::read_unit;
use crate::writes::{Prepared, behind};
use a2_device::Device;
use std::alloc::Allocator;
use vol_format::WritableFormat;

// The nearer of two units of the map from a number on.
fn nearer(from: u64, best: Option<u32>, at: u32) -> Option<u32>
    ensures { result ≡ nearer from best at }
{
    match best {
        _ if u64::from(at) < from => best,
        Some(best) if at >= best => Some(best),
        _ => Some(at),
    }
}

/// The first unit of the map, from a number on, that has the mark of one of some places.
pub fn next_unit<F: WritableFormat>(
    format: &F,
    volume: &F::Volume,
    places: &[u32],
    from: u64,
) -> Option<u32>
    requires places { All (λ place. place < (F.directory format.now volume.now).places) places.now }
    ensures { result ≡ nearest (F.directory format.now volume.now) from None places.now }
{
    let mut best = None;
    for place in places {
        best = nearer(from, best, format.map_unit(volume, *place));
    }
    best
}

// Marks those of some places free, or used, that have their marks in a unit of the map.
fn mark_in<F: WritableFormat>(
    format: &F,
    volume: &F::Volume,
    places: &[u32],
    at: u32,
    free: bool,
    unit: &mut [u8],
)
    requires takes { (F.meaning format.now).Takes (F.directory format.now volume.now).places }
    requires places { All (λ place. place < (F.directory format.now volume.now).places) places.now }
    requires unit { length unit.old ≡ (F.meaning format.now).unit_size }
    ensures { unit.new ≡ with_marks (F.meaning format.now) unit.old
        (map (mark_as free) (marked_in (F.directory format.now volume.now) at places.now)) }
{
    for place in places {
        if format.map_unit(volume, *place) != at {
            continue;
        }
        if free {
            format.release(unit, *place);
        } else {
            format.mark(unit, *place);
        }
    }
}

/// The write that marks those of some places free, or used, that have their marks in a unit of the map.
///
/// # Errors
/// `Device` where the unit can't be read; `Memory`.
pub fn mark_unit<D: Device, F: WritableFormat, A: Allocator>(
    alloc: A,
    device: &mut D,
    format: &F,
    volume: &F::Volume,
    places: &[u32],
    at: u32,
    free: bool,
) -> Result<Prepared<A>, EditError>
    requires size { (D.state device.old).unit_size ≡ (F.meaning format.now).unit_size }
    requires count { (F.directory format.now volume.now).places ≡ (D.state device.old).places }
    requires takes { (F.meaning format.now).Takes (F.directory format.now volume.now).places }
    requires places { All (λ place. place < (F.directory format.now volume.now).places) places.now }
    requires at { at < (F.directory format.now volume.now).places }
    ensures device { OnlyReads (told_device result) (D.state device.old) (D.state device.new) }
    ensures refused { IfErr result IsPrepareRefusal }
    ensures place { IfOk result (λ write. write.place ≡ at) }
    ensures size { IfOk result (λ write. length write.unit.items ≡ (D.state device.old).unit_size) }
    ensures prepared { IsTrue (D.state device.old).honest
        → IfOk result (λ write. write_of write ≡ marking_write (F.meaning format.now) free (D.state device.old).store
        (record { at = at; places = marked_in (F.directory format.now volume.now) at places.now })) }
{
    let mut unit = vec![in alloc; 0; device.unit()]?;
    read_unit(device, at, &mut unit)?;
    mark_in(format, volume, places, at, free, &mut unit);
    Ok(Prepared { place: at, unit })
}

/// The writes that mark places free, or used, behind others: one for each unit of the map that has marks of them, in
/// rising order.
///
/// # Errors
/// `Device` where a unit can't be read; `Memory`.
pub fn mark_all<D: Device, F: WritableFormat, A: Allocator + Copy>(
    alloc: A,
    device: &mut D,
    format: &F,
    volume: &F::Volume,
    places: &[u32],
    free: bool,
    mut writes: Vec<Prepared<A>, A>,
) -> Result<Vec<Prepared<A>, A>, EditError>
    requires size { (D.state device.old).unit_size ≡ (F.meaning format.now).unit_size }
    requires count { (F.directory format.now volume.now).places ≡ (D.state device.old).places }
    requires takes { (F.meaning format.now).Takes (F.directory format.now volume.now).places }
    requires places { All (λ place. place < (F.directory format.now volume.now).places) places.now }
    ensures device { OnlyReads (told_device result) (D.state device.old) (D.state device.new) }
    ensures refused { IfErr result IsPrepareRefusal }
    ensures marked { IfOk result (λ all. AreMarked (F.meaning format.now) free
        (F.directory format.now volume.now) places.now (D.state device.old) writes.items all.items) }
{
    let mut from = 0;
    while let Some(at) = next_unit(format, volume, places, from) {
        let write = mark_unit(alloc, device, format, volume, places, at, free)?;
        writes = behind(writes, write)?;
        from = u64::from(at) + 1;
    }
    Ok(writes)
}
