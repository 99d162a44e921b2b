// The trait of formats whose volumes may have directories.
use crate::Acceptance;
use a2_device::Device;
use edit_formats::{EditError, SavableFormat};
use pro_dir::ProDate;
use std::alloc::Allocator;

/// A format of volumes that have directories of a tree, or have none.
pub trait DirectoryFormat: SavableFormat {
    ghost use Rattle.std.specs.Prelude.{◌≡◌, ◌≢◌, Err, IfErr, IfOk, IsTrue, OnOk};
    ghost use Rattle.a2_device.specs.Device.{OnlyReads};
    ghost use Rattle.vol_format.specs.Accepted.{IsVolume};
    ghost use Rattle.vol_format.specs.Directory.{Directory};
    ghost use Rattle.vol_format.specs.Fits.{Fits};
    ghost use Rattle.edit_formats.specs.Refusal.{told_device};
    ghost use Rattle.edit_formats.specs.Renamed.{IsReadRefusal};
    ghost use Rattle.edit_formats.specs.Writes.{HasEdited};
    ghost use Rattle.file_edits.specs.Directories.{DirectoryMeaning, IsDirectoryEdit, KeepsFiles};
    ghost use Rattle.file_edits.specs.Made.{IsMakingRefusal};

    ghost directories: { Self → DirectoryMeaning };

    /// Whether a directory has a path.
    ///
    /// # Errors
    /// `Device` where a read fails; `Memory`; `Check` where a device tells of directories that are none.
    fn has_directory<D: Device, A: Allocator + Copy>(
        &self,
        alloc: A,
        device: &mut D,
        path: &[u8],
    ) -> Result<bool, EditError>
        requires fits { Fits (Self.meaning self.now) (D.state device.old) }

        // every device
        ensures device { OnlyReads (told_device result) (D.state device.old) (D.state device.new) }
        ensures refused { IfErr result IsReadRefusal }

        // an honest device that has the directory
        ensures there { IsTrue (D.state device.old).honest
            → IfOk result (λ there. (directories self.now).IsThere there (D.state device.old).store path.now) }
        ensures described { (directory : Directory) → IsTrue (D.state device.old).honest
            → (Self.meaning self.now).Describes (D.state device.old).store directory
            → result ≢ Err EditError.Check };

    /// Makes an empty directory under a path that no entry has. All writes are prepared before the first is made. Where
    /// it is known that the volume is accepted, the parts of its files are not walked first.
    ///
    /// # Errors
    /// `Check` where the volume is not accepted; of an accepted one the first cause that `IsTold` has of `NotFound`,
    /// `Name`, `Exists`, `DirFull` and `VolumeFull`; `Device` where a read or a write fails; `Memory`, before the first
    /// write alone.
    fn make_directory<D: Device, A: Allocator + Copy>(
        &self,
        alloc: A,
        device: &mut D,
        acceptance: Acceptance,
        path: &[u8],
        date: ProDate,
    ) -> Result<(), EditError>
        requires fits { Fits (Self.meaning self.now) (D.state device.old) }
        requires accepted { acceptance ≡ Acceptance.Known → IsTrue (D.state device.old).honest
            → IsVolume (Self.meaning self.now) (D.state device.old).store }

        // every device
        ensures edited { HasEdited (IsDirectoryEdit (directories self.now) (D.state device.old).store path.now date)
            result (D.state device.old) (D.state device.new) }
        ensures refusals { IfErr result IsMakingRefusal }

        // an honest device
        ensures made { IsTrue (D.state device.old).honest
            → OnOk result ((directories self.now).HasMade (D.state device.old).store path.now date
            (D.state device.new).store) }
        ensures stopped { IsTrue (D.state device.old).honest → result ≡ Err EditError.Device
            → (directories self.now).IsOldOrMade (D.state device.old).store path.now date (D.state device.new).store }
        ensures check { IsTrue (D.state device.old).honest → result ≡ Err EditError.Check
            → IsVolume (Self.meaning self.now) (D.state device.old).store → ⊥ }
        ensures told { IsTrue (D.state device.old).honest
            → IfErr result ((directories self.now).IsTold (D.state device.old).store path.now date) };

    ghost keeps: { (format : Self) → KeepsFiles (Self.meaning format) (directories format) };
}
