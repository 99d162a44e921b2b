// The write of a new unit, and that of the mark of its place.
ghost use Rattle.std.specs.Prelude.{◌≡◌, ◌<◌, [], ◌∷◌, false, length, map, IfErr, IfOk, IsTrue};
ghost use Rattle.a2_device.specs.Device.{OnlyReads, unit_at};
ghost use Rattle.vol_format.specs.Directory.{map_place};
ghost use Rattle.vol_format.specs.Fits.{Fits};
ghost use Rattle.edit_formats.specs.Prepared.{AreOfSize, GoBelow, write_of};
ghost use Rattle.edit_formats.specs.Refusal.{told_device, IsPrepareRefusal};

use a2_device::Device;
use edit_formats::{EditError, Prepared, alone, behind, mark_unit};
use std::alloc::Allocator;
use vol_format::WritableFormat;

/// The write of a unit to a place, and behind it that of the unit of the map in which the place is marked used.
///
/// # Errors
/// `Device` where the unit of the map can't be read; `Memory`.
pub(crate) fn marked_writes<D: Device, F: WritableFormat, A: Allocator + Copy>(
    alloc: A,
    device: &mut D,
    format: &F,
    volume: &F::Volume,
    write: Prepared<A>,
) -> Result<Vec<Prepared<A>, A>, EditError>
    requires fits { Fits (F.meaning format.now) (D.state device.old) }
    requires volume { (F.directory format.now volume.now).places ≡ (D.state device.old).places }
    requires place { write.place < (D.state device.old).places }
    requires unit { length write.unit.items ≡ (D.state device.old).unit_size }

    ensures device { OnlyReads (told_device result) (D.state device.old) (D.state device.new) }
    ensures refused { IfErr result IsPrepareRefusal }
    ensures inside { IfOk result (λ writes. GoBelow (D.state device.old).places writes.items) }
    ensures sizes { IfOk result (λ writes. AreOfSize (D.state device.old).unit_size writes.items) }
    ensures marked { IsTrue (D.state device.old).honest → IfOk result (λ writes. map write_of writes.items
        ≡ write_of write ∷ (record {
          place = map_place (F.directory format.now volume.now) write.place;
          unit = (F.meaning format.now).with_free (unit_at (D.state device.old).store
              (map_place (F.directory format.now volume.now) write.place)) write.place false;
        }) ∷ []) }
{
    let place = write.place;
    let at = format.map_unit(volume, place);
    let marked = mark_unit(alloc, device, format, volume, &[place], at, false)?;
    let writes = alone(alloc, write)?;
    Ok(behind(writes, marked)?)
}
