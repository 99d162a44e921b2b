// What is told of the volume on a device.
ghost use Rattle.std.specs.Prelude.{◌≡◌, IfOk, IsTrue, Some, length};
ghost use Rattle.file_cmds.specs.ReadingOn.{ReadsOn};
ghost use Rattle.image_readings.specs.Readings.{Stands};
ghost use Rattle.image_survey.specs.Facts.{AreFacts, lost_in};
ghost use Rattle.vol_format.specs.Directory.{files};
ghost use Rattle.vol_format.specs.Fits.{Fits};

use crate::content::{Content, content_of};
use a2_device::Device;
use file_cmds::read_volume;
use file_formats::{FileFormat, StoredName};
use image_readings::Standing;
use std::alloc::{AllocError, Global};
use vol_check::{CheckError, check};
use vol_format::{Format, Link};
use vol_layout::PlaceForm;

/// What is told of a volume.
#[derive(Drop)]
pub struct VolumeFacts {
    /// The bytes of its name, as they are stored; of DOS 3.3 the one byte of its number.
    pub name: StoredName,
    /// How many files it has, without directories.
    pub files: u32,
    /// How many places are lost, where the volume is accepted.
    pub lost: Option<usize>,
    /// How many places are marked free.
    pub free: u32,
    pub content: Content,
}

// How many entries are files'.
fn count_files<F: Format>(format: &F, volume: &F::Volume) -> u32
    ensures { result ≡ length (files (F.directory format.now volume.now)) }
{
    let mut count = 0;
    for file in 0..format.entries(volume) {
        if !matches!(format.root(volume, file), Link::Directory) {
            count += 1;
        }
    }
    count
}

// What the checker says of a volume.
fn standing_of<D: Device, F: Format>(
    alloc: Global,
    device: &mut D,
    format: &F,
) -> Result<Standing, AllocError>
    requires fits { Fits (F.meaning format.now) (D.state device.old) }
    requires honest { IsTrue (D.state device.old).honest }
    requires never { (D.state device.old).read_failures ≡ Some 0 }
    ensures { IfOk result (Stands (F.meaning format.now) (D.state device.old)) }
{
    match check(alloc, device, format) {
        Ok(checked) => Ok(Standing::Accepted {
            files: checked.files(),
            lost: checked.lost().len(),
        }),
        Err(CheckError::Memory) => Err(AllocError),
        Err(_) => Ok(Standing::Refused),
    }
}

// How many places are lost, where the volume is accepted.
fn lost_in(standing: Standing) -> Option<usize>
    ensures { result ≡ lost_in standing }
{
    match standing {
        Standing::Accepted { lost, .. } => Some(lost),
        Standing::Refused => None,
    }
}

/// What is told of the volume on a device that has no failure to come.
///
/// # Errors
/// Want of memory; or that the volume can't be read, which it can where a reading of it was chosen.
pub(crate) fn facts_on<D: Device, F: FileFormat>(
    alloc: Global,
    device: &mut D,
    format: &F,
    form: PlaceForm,
) -> Result<VolumeFacts, AllocError>
    requires fits { Fits (F.meaning format.now) (D.state device.old) }
    requires honest { IsTrue (D.state device.old).honest }
    requires never { (D.state device.old).read_failures ≡ Some 0 }
    ensures { IfOk result (AreFacts form (F.files format.now) (F.meaning format.now) (D.state device.old)) }
{
    let volume = match read_volume(device, format) {
        Ok(volume) => volume,
        Err(_) => return Err(AllocError),
    };
    let name = format.name(alloc, &volume)?;
    let content = content_of(alloc, device, format, form, &volume)?;
    let standing = standing_of(alloc, device, format)?;
    Ok(VolumeFacts {
        name,
        files: count_files(format, &volume),
        lost: lost_in(standing),
        free: format.free_count(&volume),
        content,
    })
}
