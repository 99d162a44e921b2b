// The free slot in which a new file is entered.
ghost use Rattle.std.specs.Prelude.{◌≡◌, ◌≢◌, Err, IfErr, IfOk, IsTrue};
ghost use Rattle.a2_device.specs.Device.{OnlyReads};
ghost use Rattle.vol_format.specs.Directory.{Directory};
ghost use Rattle.vol_format.specs.Fits.{Fits};
ghost use Rattle.edit_formats.specs.Refusal.{told_device};
ghost use Rattle.edit_formats.specs.Saves.{IsSlotWithin};
ghost use Rattle.file_edits.specs.Slots.{slot_or_refusal, IsEnterable, IsSlotRefusal, IsSlotTold};

use crate::given::NewFile;
use a2_device::Device;
use edit_formats::{EditError, SavableFormat, Slot, Target};
use std::alloc::Allocator;

// The slot that a path leads to, for a file that is not too long.
fn slot_or_refusal(target: Target, is_too_long: bool) -> Result<Slot, EditError>
    ensures { result ≡ slot_or_refusal target is_too_long }
{
    match target {
        Target::NoDirectory => Err(EditError::NotFound),
        Target::NoName => Err(EditError::Name),
        Target::InUse => Err(EditError::Exists),
        _ if is_too_long => Err(EditError::TooLong),
        Target::Full => Err(EditError::DirFull),
        Target::At(slot) => Ok(slot),
    }
}

// The first free slot of the directory to which the path of a new file leads.
pub(crate) fn free_file_slot<D: Device, F: SavableFormat, A: Allocator + Copy>(
    alloc: A,
    device: &mut D,
    format: &F,
    file: &NewFile<'_>,
) -> Result<Slot, EditError>
    requires fits { Fits (F.meaning format.now) (D.state device.old) }

    // every device
    ensures device { OnlyReads (told_device result) (D.state device.old) (D.state device.new) }
    ensures refused { IfErr result IsSlotRefusal }
    ensures inside { IfOk result (IsSlotWithin (F.meaning format.now) (D.state device.old).places) }
    ensures enterable { IfOk result (λ slot. IsEnterable (F.saves format.now) file.now) }

    // an honest device that has the directory
    ensures told { (directory : Directory) → IsTrue (D.state device.old).honest
        → (F.meaning format.now).Describes (D.state device.old).store directory
        → IsSlotTold (F.saves format.now) (D.state device.old).store file.now result }
    ensures described { (directory : Directory) → IsTrue (D.state device.old).honest
        → (F.meaning format.now).Describes (D.state device.old).store directory
        → result ≢ Err EditError.Check }
{
    let target = format.target(alloc, device, file.path)?;
    slot_or_refusal(
        target,
        format.is_too_long(file.attributes.eof, file.stored.len()),
    )
}
