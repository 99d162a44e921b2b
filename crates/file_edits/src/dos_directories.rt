// DOS 3.3 as a format whose volumes have no directories.
use crate::Acceptance;
use crate::directory_format::DirectoryFormat;
use a2_device::Device;
use dos_format::Dos33;
use edit_formats::EditError;
use pro_dir::ProDate;
use std::alloc::Allocator;

impl<A: Allocator + Copy> DirectoryFormat for Dos33<A> {
    ghost use Rattle.file_edits.specs.Directories.{dos_directories};
    ghost use Rattle.file_edits.specs.lemmas.DosKeeps.{dos_keeps_files};

    ghost directories = { λ f. dos_directories };

    fn has_directory<D: Device, B: Allocator + Copy>(
        &self,
        _: B,
        _: &mut D,
        _: &[u8],
    ) -> Result<bool, EditError> {
        Ok(false)
    }

    fn make_directory<D: Device, B: Allocator + Copy>(
        &self,
        _: B,
        _: &mut D,
        _: Acceptance,
        _: &[u8],
        _: ProDate,
    ) -> Result<(), EditError> {
        Err(EditError::NotFound)
    }

    ghost keeps = { λ f. dos_keeps_files f.data_disk f.reserved };
}
