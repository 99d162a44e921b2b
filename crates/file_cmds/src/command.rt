// The catalog command.
ghost use Rattle.std.specs.Prelude.{◌≡◌, ◌≢◌, IfOk, IsTrue, map};
ghost use Rattle.a2_device.specs.Device.{OnlyReads};
ghost use Rattle.file_cmds.specs.Refusal.{told_device};
ghost use Rattle.file_formats.specs.Listing.{ShowsDirectory, IsListingOf, HasHeaderFault};
ghost use Rattle.vol_format.specs.Fits.{Fits};

use crate::CmdError;
use a2_device::Device;
use file_formats::{FileFormat, ListEntry, Listing};
use std::alloc::{AllocError, Allocator};

// The entries of a directory, in its order.
fn list_entries<F: FileFormat, A: Allocator + Copy>(
    alloc: A,
    format: &F,
    volume: &F::Volume,
) -> Result<Vec<ListEntry<A>, A>, AllocError>
    ensures { IfOk result (λ listed.
        listed.items ≡ map (F.files format.now).shown (F.directory format.now volume.now).listed) }
{
    let mut listed = Vec::new(alloc);
    for file in 0..format.entries(volume) {
        listed.push(format.list_entry(alloc, volume, file)?)?;
    }
    Ok(listed)
}

/// What is shown of a volume that was read.
///
/// # Errors
/// Want of memory alone.
pub fn listing_of<F: FileFormat, A: Allocator + Copy>(
    alloc: A,
    format: &F,
    volume: &F::Volume,
) -> Result<Listing<A>, AllocError>
    ensures { IfOk result (ShowsDirectory (F.files format.now) (F.directory format.now volume.now)) }
{
    let name = format.name(alloc, volume)?;
    let entries = list_entries(alloc, format, volume)?;
    let free = format.free_count(volume);
    Ok(Listing {
        volume: name,
        entries,
        free,
    })
}

/// Reads what a listing shows of a volume.
///
/// # Errors
/// `Check` where the header, the directory or the map's pointer has a fault; `Device` where a read fails; `Memory`.
pub fn read_volume<D: Device, F: FileFormat>(
    device: &mut D,
    format: &F,
) -> Result<F::Volume, CmdError>
    requires fits { Fits (F.meaning format.now) (D.state device.old) }

    ensures device { OnlyReads (told_device result) (D.state device.old) (D.state device.new) }
    ensures found { result ≢ Err CmdError.NotFound }
    ensures places { IfOk result (λ volume.
        (F.directory format.now volume).places ≡ (D.state device.old).places) }
    ensures described { IsTrue (D.state device.old).honest
        → IfOk result (λ volume. (F.meaning format.now).Describes (D.state device.old).store
        (F.directory format.now volume)) }
    ensures check { IsTrue (D.state device.old).honest → result ≡ Err CmdError.Check
        → HasHeaderFault (F.meaning format.now) (D.state device.old).store }
{
    Ok(format.volume(device)?)
}

/// The listing of a volume: its name, its entries in directory order, those of directories among them, and how many of
/// all places are marked free.
///
/// # Errors
/// `Check` where the header, the directory or the map's pointer has a fault; `Device` where a read fails; `Memory`.
pub fn catalog<D: Device, F: FileFormat, A: Allocator + Copy>(
    alloc: A,
    device: &mut D,
    format: &F,
) -> Result<Listing<A>, CmdError>
    requires fits { Fits (F.meaning format.now) (D.state device.old) }

    ensures device { OnlyReads (told_device result) (D.state device.old) (D.state device.new) }
    ensures found { result ≢ Err CmdError.NotFound }
    ensures listed { IsTrue (D.state device.old).honest
        → IfOk result (IsListingOf (F.meaning format.now) (F.files format.now) (D.state device.old).store) }
    ensures check { IsTrue (D.state device.old).honest → result ≡ Err CmdError.Check
        → HasHeaderFault (F.meaning format.now) (D.state device.old).store }
{
    let volume = read_volume(device, format)?;
    Ok(listing_of(alloc, format, &volume)?)
}
