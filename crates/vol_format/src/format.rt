// The trait of formats.
use crate::{Holder, Link};
use a2_device::{Device, Part, WalkError};

/// A format of volumes. It says what a volume's units mean; each reader is exact over the directory that `volume` read.
pub trait Format {
    ghost use Rattle.std.specs.Prelude.{
      ◌≡◌,
      ◌<◌,
      true,
      false,
      length,
      slice_get,
      IsTrue,
      IfOk,
      IfErr,
      IfSome,
      IfNone,
      List,
      ℕ,
    };
    ghost use Rattle.a2_device.specs.Device.{OnlyReads};
    ghost use Rattle.a2_device.specs.Reading.{met_device};
    ghost use Rattle.a2_device.specs.declared.fault.Fault.{Fault};
    ghost use Rattle.a2_device.specs.declared.fault.WalkError.TheVariants.{Fault as AFault};
    ghost use Rattle.vol_format.specs.Fits.{Fits};
    ghost use Rattle.vol_format.specs.Directory.{Directory, entries, entry_of, root_of, is_system, is_free};
    ghost use Rattle.vol_format.specs.Meaning.{Meaning};
    ghost use Rattle.vol_format.specs.Laws.{IsReadable, IsDirectory};

    /// The header, the directory and the map of a volume, as they were read.
    type Volume: Drop;

    ghost meaning: { Self → Meaning };

    ghost directory: { Self → Self.Volume → Directory };

    /// Reads the header, the directory and the map's pointer of a volume.
    ///
    /// # Errors
    /// `Fault` with the first of these that is broken, `Device` where a read fails, `Memory`.
    fn volume<D: Device>(&self, device: &mut D) -> Result<Self::Volume, WalkError>
        requires fits { Fits (meaning self.now) (D.state device.old) }

        ensures device { OnlyReads (met_device result) (D.state device.old) (D.state device.new) }
        ensures places { IfOk result (λ volume. (directory self.now volume).places ≡ (D.state device.old).places) }
        ensures described { IsTrue (D.state device.old).honest
            → IfOk result (λ volume. (meaning self.now).Describes (D.state device.old).store
            (directory self.now volume)) }
        ensures refused { IsTrue (D.state device.old).honest
            → IfErr result (λ e. (fault : Fault) → e ≡ AFault fault
            → (meaning self.now).HeaderFaultAt (D.state device.old).store fault) };

    /// How many entries are in use, those of directories among them.
    fn entries(&self, volume: &Self::Volume) -> u32
        ensures { result ≡ entries (directory self.now volume.now) };

    /// What an entry points to.
    fn root(&self, volume: &Self::Volume, file: u32) -> Link
        requires { file < entries (directory self.now volume.now) }
        ensures { result ≡ root_of (directory self.now volume.now) file };

    /// Where an entry stands.
    fn entry_at(&self, volume: &Self::Volume, file: u32) -> Holder
        requires { file < entries (directory self.now volume.now) }
        ensures entry { result.entry ≡ true }
        ensures place { result.place ≡ (entry_of (directory self.now volume.now) file).place }
        ensures slot { result.slot ≡ (entry_of (directory self.now volume.now) file).slot };

    /// Whether a place is marked free.
    fn is_free(&self, volume: &Self::Volume, place: u32) -> bool
        requires { place < (directory self.now volume.now).places }
        ensures { result ≡ is_free (directory self.now volume.now) place };

    /// The available place of a number.
    fn available(&self, volume: &Self::Volume, number: u32) -> Option<u32>
        ensures { result ≡ slice_get (directory self.now volume.now).available number };

    /// The number of an available place; `None` for a place of the system.
    fn index(&self, volume: &Self::Volume, place: u32) -> Option<u32>
        requires { place < (directory self.now volume.now).places }
        ensures some { IfSome result (λ number.
            slice_get (directory self.now volume.now).available number ≡ Some place) }
        ensures none { IfNone result (is_system (directory self.now volume.now) place ≡ true) };

    /// How many pointers the unit of a part has.
    fn pointers(&self, part: &Part) -> u32
        ensures { result ≡ (meaning self.now).pointers part.now };

    /// What a pointer of a part's unit names.
    fn child(&self, volume: &Self::Volume, part: &Part, unit: &[u8], pointer: u32) -> Link
        requires unit { length unit.now ≡ (meaning self.now).unit_size }
        requires depth { (meaning self.now).depth part.now < 65536 }
        requires pointer { pointer < (meaning self.now).pointers part.now }
        ensures { result ≡ (meaning self.now).child (directory self.now volume.now).places part.now unit.now pointer };

    ghost readable: { (format : Self) → IsReadable (meaning format) };

    ghost rooted: { (format : Self) (volume : Self.Volume) → IsDirectory (meaning format) (directory format volume) };
}
