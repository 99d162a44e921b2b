// Reading an image in one way.
ghost use Rattle.std.specs.Prelude.{◌≡◌, ◌≤◌, IsTrue, OnOk, IfOk, IfErr, Some, length};
ghost use Rattle.a2_device.specs.Device.{unit_at};
ghost use Rattle.a2_image.specs.Image.{IsOfDisk};
ghost use Rattle.shop_jobs.specs.declared.input.FileSystem.TheVariants.{Dos as OfDos, Prodos as OfProdos};
ghost use Rattle.shop_replies.specs.Volume.{HasUnitsOf, TakesBytes, device_of};
ghost use Rattle.image_readings.specs.Found.{Stops};
ghost use Rattle.image_readings.specs.Readings.{
  HasEntries,
  HasUnits,
  IsFound,
  IsReadingOf,
  IsToldOf,
  Stands,
  plain_meaning,
};
ghost use Rattle.vol_format.specs.Fits.{Fits};

use crate::reading::{Finding, Found, Reading, Standing};
use crate::stop::finding_at;
use a2_device::{Device, WalkError};
use a2_image::Image;
use a2_media::LentDevice;
use dos_catalog::Catalog;
use dos_format::Dos33;
use dos_vtoc::{VTOC_PLACE, Vtoc};
use pro_dir::VolumeDir;
use pro_format::Prodos;
use shop_jobs::FileSystem;
use std::alloc::{AllocError, Global};
use vol_check::{CheckError, check};
use vol_format::Format;
use vol_layout::Reserved;

// The VTOC of a DOS 3.3 volume.
fn read_vtoc<D: Device>(device: &mut D) -> Result<Vtoc, WalkError>
    requires unit { (D.state device.old).unit_size ≡ 256 }
    requires places { (D.state device.old).places ≡ 560 }
    requires honest { IsTrue (D.state device.old).honest }
    requires never { (D.state device.old).read_failures ≡ Some 0 }
    ensures kept { OnOk result (D.state device.new ≡ D.state device.old) }
    ensures value { IfOk result (λ vtoc. vtoc ≡ unit_at (D.state device.old).store 272) }
    ensures refused { IfErr result (Stops (plain_meaning OfDos) (D.state device.old)) }
{
    let mut unit = [0; 256];
    if device.read(VTOC_PLACE, &mut unit).is_err() {
        return Err(WalkError::Device);
    }
    Vtoc::read(&unit).map_err(WalkError::Fault)
}

// How many sectors the catalog of a DOS 3.3 volume has.
fn count_sectors<D: Device>(alloc: Global, device: &mut D) -> Result<usize, WalkError>
    requires unit { (D.state device.old).unit_size ≡ 256 }
    requires places { (D.state device.old).places ≡ 560 }
    requires honest { IsTrue (D.state device.old).honest }
    requires never { (D.state device.old).read_failures ≡ Some 0 }
    ensures kept { OnOk result (D.state device.new ≡ D.state device.old) }
    ensures count { IfOk result (HasUnits OfDos (D.state device.old).store) }
    ensures refused { IfErr result (Stops (plain_meaning OfDos) (D.state device.old)) }
{
    let vtoc = read_vtoc(device)?;
    let catalog = Catalog::walk(alloc, device, &vtoc)?;
    Ok(catalog.sectors().len())
}

// How many blocks the directories of a ProDOS volume have.
fn count_blocks<D: Device>(alloc: Global, device: &mut D) -> Result<usize, WalkError>
    requires unit { (D.state device.old).unit_size ≡ 512 }
    requires places { 16 ≤ (D.state device.old).places }
    requires honest { IsTrue (D.state device.old).honest }
    requires never { (D.state device.old).read_failures ≡ Some 0 }
    ensures kept { OnOk result (D.state device.new ≡ D.state device.old) }
    ensures count { IfOk result (HasUnits OfProdos (D.state device.old).store) }
    ensures refused { IfErr result (Stops (plain_meaning OfProdos) (D.state device.old)) }
{
    let directory = VolumeDir::walk(alloc, device)?;
    Ok(directory.blocks().len())
}

// How many entries of a volume's directory are in use.
fn count_entries<D: Device, F: Format>(device: &mut D, format: &F) -> Result<u32, WalkError>
    requires fits { Fits (F.meaning format.now) (D.state device.old) }
    requires honest { IsTrue (D.state device.old).honest }
    requires never { (D.state device.old).read_failures ≡ Some 0 }
    ensures kept { OnOk result (D.state device.new ≡ D.state device.old) }
    ensures count { IfOk result (HasEntries (F.meaning format.now) (D.state device.old).store) }
    ensures refused { IfErr result (Stops (F.meaning format.now) (D.state device.old)) }
{
    let volume = format.volume(device)?;
    Ok(format.entries(&volume))
}

// What the checker says of a volume.
fn standing_of<D: Device, F: Format>(
    alloc: Global,
    device: &mut D,
    format: &F,
) -> Result<Standing, WalkError>
    requires fits { Fits (F.meaning format.now) (D.state device.old) }
    requires honest { IsTrue (D.state device.old).honest }
    requires never { (D.state device.old).read_failures ≡ Some 0 }
    ensures standing { IfOk result (Stands (F.meaning format.now) (D.state device.old)) }
    ensures memory { IfErr result (λ stop. stop ≡ WalkError.Memory) }
{
    match check(alloc, device, format) {
        Ok(checked) => Ok(Standing::Accepted {
            files: checked.files(),
            lost: checked.lost().len(),
        }),
        Err(CheckError::Memory) => Err(WalkError::Memory),
        Err(_) => Ok(Standing::Refused),
    }
}

// What is found on a disk that is read as DOS 3.3.
fn dos_found<D: Device>(alloc: Global, device: &mut D) -> Result<Found, WalkError>
    requires units { HasUnitsOf OfDos (D.state device.old) }
    requires honest { IsTrue (D.state device.old).honest }
    requires never { (D.state device.old).read_failures ≡ Some 0 }
    ensures found { IfOk result (IsFound OfDos (D.state device.old)) }
    ensures refused { IfErr result (Stops (plain_meaning OfDos) (D.state device.old)) }
{
    let format = Dos33::new(alloc, false, Reserved::none(alloc))?;
    let units = count_sectors(alloc, device)?;
    let entries = count_entries(device, &format)?;
    let standing = standing_of(alloc, device, &format)?;
    Ok(Found {
        entries,
        units,
        standing,
    })
}

// What is found in an image that is read as ProDOS.
fn prodos_found<D: Device>(alloc: Global, device: &mut D) -> Result<Found, WalkError>
    requires units { HasUnitsOf OfProdos (D.state device.old) }
    requires honest { IsTrue (D.state device.old).honest }
    requires never { (D.state device.old).read_failures ≡ Some 0 }
    ensures found { IfOk result (IsFound OfProdos (D.state device.old)) }
    ensures refused { IfErr result (Stops (plain_meaning OfProdos) (D.state device.old)) }
{
    let format = Prodos::new(alloc, Reserved::none(alloc));
    let units = count_blocks(alloc, device)?;
    let entries = count_entries(device, &format)?;
    let standing = standing_of(alloc, device, &format)?;
    Ok(Found {
        entries,
        units,
        standing,
    })
}

// What is told of a disk that is read as DOS 3.3.
fn dos_finding(alloc: Global, disk: &Image) -> Result<Finding, AllocError>
    requires { IsOfDisk disk.now }
    ensures { IfOk result (IsToldOf OfDos (device_of OfDos disk.now)) }
{
    let mut device = LentDevice::dos(disk);
    match dos_found(alloc, &mut device) {
        Ok(found) => Ok(Finding::Volume(found)),
        Err(stop) => finding_at(FileSystem::Dos, stop),
    }
}

// What is told of an image that is read as ProDOS.
fn prodos_finding(alloc: Global, image: &Image) -> Result<Finding, AllocError>
    ensures { IfOk result (IsToldOf OfProdos (device_of OfProdos image.now)) }
{
    // Called for what its contract says: an image has 16 to 65,535 blocks.
    let _blocks = image.blocks();
    let mut device = LentDevice::prodos(image);
    match prodos_found(alloc, &mut device) {
        Ok(found) => Ok(Finding::Volume(found)),
        Err(stop) => finding_at(FileSystem::Prodos, stop),
    }
}

/// What is found in an image of a length that allows it to be read as this file system: by the default rules, where no
/// place is reserved and tracks 1 and 2 of a DOS 3.3 disk are the system's. The image is only read.
///
/// # Errors
/// Want of memory alone.
pub fn reading_of(
    alloc: Global,
    image: &Image,
    file_system: FileSystem,
) -> Result<Reading, AllocError>
    requires { TakesBytes file_system image.now.order (length image.now.bytes) }
    ensures file_system { IfOk result (λ reading. reading.file_system ≡ file_system) }
    ensures order { IfOk result (λ reading. reading.order ≡ image.now.order) }
    ensures found { IfOk result (IsReadingOf image.now.bytes) }
{
    let order = image.order();
    let finding = match file_system {
        FileSystem::Dos => dos_finding(alloc, image)?,
        FileSystem::Prodos => prodos_finding(alloc, image)?,
    };
    Ok(Reading {
        file_system,
        order,
        finding,
    })
}
