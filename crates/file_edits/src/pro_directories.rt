// ProDOS as a format whose volumes have directories.
use crate::Acceptance;
use crate::directory_format::DirectoryFormat;
use crate::making::make_directory;
use a2_device::Device;
use edit_formats::{EditError, directory_at};
use pro_dir::ProDate;
use pro_format::Prodos;
use std::alloc::Allocator;

impl<A: Allocator + Copy> DirectoryFormat for Prodos<A> {
    ghost use Rattle.file_edits.specs.Directories.{pro_directories};
    ghost use Rattle.file_edits.specs.lemmas.ProKeeps.{pro_keeps_files};

    ghost directories = { λ f. pro_directories f };

    fn has_directory<D: Device, B: Allocator + Copy>(
        &self,
        alloc: B,
        device: &mut D,
        path: &[u8],
    ) -> Result<bool, EditError> {
        match directory_at(alloc, device, path) {
            Ok(Some(_)) => Ok(true),
            Ok(None) => Ok(false),
            Err(error) => Err(error),
        }
    }

    fn make_directory<D: Device, B: Allocator + Copy>(
        &self,
        alloc: B,
        device: &mut D,
        acceptance: Acceptance,
        path: &[u8],
        date: ProDate,
    ) -> Result<(), EditError> {
        make_directory(alloc, device, self, acceptance, path, date)
    }

    ghost keeps = { λ f. pro_keeps_files f };
}
