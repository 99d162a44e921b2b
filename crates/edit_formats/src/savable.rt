// The trait of formats to which files are saved.
use crate::{
    Attributes, EditError, EditableFormat, Extent, NewFileError, NewPart, Prepared, Slot, Target,
};
use a2_device::Device;
use std::alloc::Allocator;

/// A format of volumes into whose directories new files are entered.
pub trait SavableFormat: EditableFormat {
    ghost use Rattle.std.specs.Prelude.{
      ◌≡◌,
      ◌≢◌,
      ◌<◌,
      ◌≤◌,
      ◌↔◌,
      ℕ,
      Bool,
      List,
      true,
      false,
      length,
      map,
      All,
      Err,
      IfErr,
      IfOk,
      IsErrOf,
      IsTrue,
    };
    ghost use Rattle.a2_device.specs.Device.{OnlyReads};
    ghost use Rattle.a2_device.specs.declared.part.PartKind.TheVariants.{Body};
    ghost use Rattle.vol_format.specs.Fits.{Fits};
    ghost use Rattle.vol_format.specs.Directory.{Directory};
    ghost use Rattle.edit_formats.specs.Order.{part_at};
    ghost use Rattle.edit_formats.specs.declared.writes.Prepared.{Prepared};
    ghost use Rattle.edit_formats.specs.Prepared.{AreOfSize, GoBelow, write_of};
    ghost use Rattle.edit_formats.specs.Refusal.{told_device};
    ghost use Rattle.edit_formats.specs.Renamed.{IsReadRefusal};
    ghost use Rattle.edit_formats.specs.Saves.{SaveMeaning, IsSavable, IsSlotWithin, IsTargetOf, IsTargetWithin};

    ghost saves: { Self → SaveMeaning };

    /// What the path of a new file leads to.
    ///
    /// # Errors
    /// `Device` where a read fails; `Memory`; `Check` where a device tells of directories that are none.
    fn target<D: Device, A: Allocator + Copy>(
        &self,
        alloc: A,
        device: &mut D,
        path: &[u8],
    ) -> Result<Target, EditError>
        requires fits { Fits (Self.meaning self.now) (D.state device.old) }

        // every device
        ensures device { OnlyReads (told_device result) (D.state device.old) (D.state device.new) }
        ensures refused { IfErr result IsReadRefusal }
        ensures inside { IfOk result (IsTargetWithin (Self.meaning self.now) (D.state device.old).places) }
        ensures name { IfOk result (IsTargetOf (saves self.now) path.now) }

        // an honest device that has the directory
        ensures told { (directory : Directory) → IsTrue (D.state device.old).honest
            → (Self.meaning self.now).Describes (D.state device.old).store directory
            → IfOk result ((saves self.now).IsTarget (D.state device.old).store path.now) }
        ensures described { (directory : Directory) → IsTrue (D.state device.old).honest
            → (Self.meaning self.now).Describes (D.state device.old).store directory
            → result ≢ Err EditError.Check };

    /// Whether a file of so many units, and of so many bytes, is longer than a file can be.
    fn is_too_long(&self, eof: u32, units: usize) -> bool
        ensures { result ≡ (saves self.now).too_long eof units };

    /// The parts of a file of which these units are stored, each table before the units that it names.
    ///
    /// # Errors
    /// `TooLong` where the file has more units than a file can have; `Memory`.
    fn parts<A: Allocator>(
        &self,
        alloc: A,
        stored: &[bool],
    ) -> Result<Vec<NewPart, A>, NewFileError>
        ensures parts { IfOk result (λ parts. parts.items ≡ (saves self.now).parts stored.now) }
        ensures too_long { IsErrOf result NewFileError.TooLong
            → (saves self.now).too_long 0 (length stored.now) ≢ false };

    /// Builds the unit of a table of a new file, from the places of the file's parts.
    fn build(&self, parts: &[NewPart], places: &[u32], at: usize, unit: &mut [u8])
        requires parts { (stored : List Bool) × ((saves self.now).too_long 0 (length stored) ≡ false)
            × (parts.now ≡ (saves self.now).parts stored) }
        requires at { at < length parts.now }
        requires table { (part_at parts.now at).kind ≢ Body }
        requires count { length places.now ≡ length parts.now }
        requires places { (count : ℕ) × All ((Self.meaning self.now).CanName count) places.now }
        requires unit { length unit.old ≡ (Self.meaning self.now).unit_size }
        ensures { (saves self.now).IsTable parts.now places.now at unit.new };

    /// The writes that enter a new file into a slot that `target` answered for its path; none of them is made.
    ///
    /// # Errors
    /// `Device` where a read fails; `Memory`.
    fn enter<D: Device, A: Allocator + Copy>(
        &self,
        alloc: A,
        device: &mut D,
        path: &[u8],
        slot: Slot,
        attributes: &Attributes,
        extent: &Extent,
    ) -> Result<Vec<Prepared<A>, A>, EditError>
        requires fits { Fits (Self.meaning self.now) (D.state device.old) }
        requires slot { IsSlotWithin (Self.meaning self.now) (D.state device.old).places slot }
        requires name { (saves self.now).may_have path.now ≡ true }
        requires first { (count : ℕ) × (Self.meaning self.now).CanName count extent.now.first }
        requires length { (saves self.now).too_long attributes.now.eof extent.now.units ≡ false }

        ensures device { OnlyReads (told_device result) (D.state device.old) (D.state device.new) }
        ensures refused { IfErr result IsReadRefusal }
        ensures checked { result ≢ Err EditError.Check }
        ensures inside { IfOk result (λ writes. GoBelow (D.state device.old).places writes.items) }
        ensures sizes { IfOk result (λ writes. AreOfSize (D.state device.old).unit_size writes.items) }
        ensures enters { IsTrue (D.state device.old).honest
            → IfOk result (λ writes. map write_of writes.items
            ≡ (saves self.now).entering (D.state device.old).store path.now slot attributes.now extent.now) };

    ghost savable: { (format : Self) → IsSavable (Self.meaning format) (saves format) };
}
