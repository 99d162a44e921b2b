// The format of a volume, by its file system.
ghost use Rattle.std.specs.Prelude.{IfOk};
ghost use Rattle.shop_volumes.specs.VolumeFormat.{IsFormatOf};

use dos_format::Dos33;
use pro_format::Prodos;
use shop_jobs::{FileSystem, VolumeOptions};
use std::alloc::{AllocError, Global};
use vol_layout::Reserved;

/// The format of a volume, as a job's words say it.
#[derive(Drop)]
pub enum VolumeFormat {
    Dos(Dos33),
    Prodos(Prodos),
}

/// The format of a volume, where these places are reserved.
///
/// # Errors
/// Want of memory.
pub fn format_of(
    alloc: Global,
    options: VolumeOptions,
    reserved: Reserved,
) -> Result<VolumeFormat, AllocError>
    ensures { IfOk result (IsFormatOf options reserved) }
{
    match options.file_system {
        FileSystem::Dos => {
            let format = Dos33::new(alloc, options.data_disk, reserved)?;
            Ok(VolumeFormat::Dos(format))
        }
        FileSystem::Prodos => Ok(VolumeFormat::Prodos(Prodos::new(alloc, reserved))),
    }
}
