// The trait of formats whose files can be changed.
use crate::{EditError, Prepared};
use a2_device::Device;
use file_formats::FileFormat;
use std::alloc::Allocator;
use vol_format::WritableFormat;

/// A format of volumes whose entries can be changed one by one.
pub trait EditableFormat: WritableFormat + FileFormat {
    ghost use Rattle.std.specs.Prelude.{◌≡◌, ◌≢◌, ◌<◌, true, length, map, All, Err, IfErr, IfOk, IsTrue};
    ghost use Rattle.a2_device.specs.Device.{OnlyReads};
    ghost use Rattle.vol_format.specs.Fits.{Fits};
    ghost use Rattle.vol_format.specs.Directory.{entries, entry_of};
    ghost use Rattle.vol_laws.specs.EditLaws.{IsFileFree};
    ghost use Rattle.edit_formats.specs.declared.writes.Prepared.{Prepared};
    ghost use Rattle.edit_formats.specs.Edits.{EditMeaning, IsLockable};
    ghost use Rattle.edit_formats.specs.Erasing.{EraseMeaning, IsErasable};
    ghost use Rattle.edit_formats.specs.Names.{NameMeaning, IsNamable};
    ghost use Rattle.edit_formats.specs.Prepared.{AreOfSize, GoBelow, write_of};
    ghost use Rattle.edit_formats.specs.Refusal.{told_device};
    ghost use Rattle.edit_formats.specs.Renamed.{IsAnswer, IsReadRefusal};

    ghost edits: { Self → EditMeaning };

    /// Writes into the unit of a directory that the file of an entry which stands there is locked or unlocked.
    fn put_lock(&self, volume: &Self::Volume, file: u32, unit: &mut [u8], on: bool)
        requires file { file < entries (Self.directory self.now volume.now) }
        requires slot { (Self.meaning self.now).HasSlot true (entry_of (Self.directory self.now volume.now) file).slot }
        requires unit { length unit.old ≡ (Self.meaning self.now).unit_size }
        ensures { unit.new
            ≡ (edits self.now).with_lock on (entry_of (Self.directory self.now volume.now) file) unit.old };

    // names

    ghost names: { Self → NameMeaning };

    /// Whether a file may get a name.
    fn may_have(&self, name: &[u8]) -> bool
        ensures { result ≡ (names self.now).may_have name.now };

    /// Whether an entry of the directory in which an entry stands has a name, which a file may get.
    ///
    /// # Errors
    /// `Device` where a read fails; `Memory`; `Check` where a device tells of directories that are none.
    fn has_beside<D: Device, A: Allocator + Copy>(
        &self,
        alloc: A,
        device: &mut D,
        volume: &Self::Volume,
        file: u32,
        name: &[u8],
    ) -> Result<bool, EditError>
        requires fits { Fits (Self.meaning self.now) (D.state device.old) }
        requires file { file < entries (Self.directory self.now volume.now) }
        requires name { (names self.now).may_have name.now ≡ true }
        ensures device { OnlyReads (told_device result) (D.state device.old) (D.state device.new) }
        ensures refused { IfErr result IsReadRefusal }
        ensures told { IsTrue (D.state device.old).honest
            → (Self.meaning self.now).Describes (D.state device.old).store (Self.directory self.now volume.now)
            → IsAnswer ((names self.now).HasBeside (D.state device.old).store
            (Self.directory self.now volume.now) file name.now) result };

    /// Whether an entry keeps its name.
    fn keeps_name(&self, volume: &Self::Volume, file: u32) -> bool
        requires { file < entries (Self.directory self.now volume.now) }
        ensures { result ≡ (names self.now).keeps (entry_of (Self.directory self.now volume.now) file).bytes };

    /// Writes a name, which a file may get, into the unit of a directory for the entry that stands there.
    fn put_name(&self, volume: &Self::Volume, file: u32, unit: &mut [u8], name: &[u8])
        requires file { file < entries (Self.directory self.now volume.now) }
        requires slot { (Self.meaning self.now).HasSlot true (entry_of (Self.directory self.now volume.now) file).slot }
        requires unit { length unit.old ≡ (Self.meaning self.now).unit_size }
        requires name { (names self.now).may_have name.now ≡ true }
        ensures { unit.new
            ≡ (names self.now).with_name name.now (entry_of (Self.directory self.now volume.now) file) unit.old };

    // erasing

    ghost erasures: { Self → EraseMeaning };

    /// Whether an entry does not let its file be deleted.
    fn protects_file(&self, volume: &Self::Volume, file: u32) -> bool
        requires { file < entries (Self.directory self.now volume.now) }
        ensures { result ≡ (erasures self.now).protects (entry_of (Self.directory self.now volume.now) file).bytes };

    /// The writes that erase the entry of a file; none of them is made.
    ///
    /// # Errors
    /// `Device` where a read fails; `Memory`; `Check` where a device tells of directories that are none.
    fn erase<D: Device, A: Allocator + Copy>(
        &self,
        alloc: A,
        device: &mut D,
        volume: &Self::Volume,
        file: u32,
    ) -> Result<Vec<Prepared<A>, A>, EditError>
        requires fits { Fits (Self.meaning self.now) (D.state device.old) }
        requires file { file < entries (Self.directory self.now volume.now) }
        requires place { (entry_of (Self.directory self.now volume.now) file).place < (D.state device.old).places }
        requires slot { (Self.meaning self.now).HasSlot true (entry_of (Self.directory self.now volume.now) file).slot }

        // every device
        ensures device { OnlyReads (told_device result) (D.state device.old) (D.state device.new) }
        ensures refused { IfErr result IsReadRefusal }
        ensures inside { IfOk result (λ writes. GoBelow (D.state device.old).places writes.items) }
        ensures sizes { IfOk result (λ writes. AreOfSize (D.state device.old).unit_size writes.items) }

        // an honest device that has the directory
        ensures erases { IsTrue (D.state device.old).honest
            → (Self.meaning self.now).Describes (D.state device.old).store (Self.directory self.now volume.now)
            → IfOk result (λ writes. (erasures self.now).Erases (D.state device.old).store
            (Self.directory self.now volume.now) file (map write_of writes.items)) }
        ensures described { IsTrue (D.state device.old).honest
            → (Self.meaning self.now).Describes (D.state device.old).store (Self.directory self.now volume.now)
            → result ≢ Err EditError.Check };

    ghost file_free: { (format : Self) → IsFileFree (Self.meaning format) };

    ghost lockable: { (format : Self) → IsLockable (Self.meaning format) (edits format) };

    ghost namable: { (format : Self) → IsNamable (Self.meaning format) (names format) };

    ghost erasable: { (format : Self) → IsErasable (Self.meaning format) (erasures format) };
}
