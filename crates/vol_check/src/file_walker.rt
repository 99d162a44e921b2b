// Walks over single files, one after the other, on the same tables.
ghost use Rattle.std.specs.Prelude.{
  ◌≡◌,
  ◌<◌,
  ℕ,
  IfOk,
  IsFalse,
  IsTrue,
  OnOk,
  All,
};
ghost use Rattle.a2_device.specs.Device.{OnlyReads};
ghost use Rattle.a2_device.specs.Stop.{is_device_stop};
ghost use Rattle.a2_device.specs.declared.part.Part.{Part};
ghost use Rattle.vol_format.specs.Directory.{entries};
ghost use Rattle.vol_format.specs.Fits.{Fits};
ghost use Rattle.vol_check.specs.Answer.{AreFaults};
ghost use Rattle.vol_check.specs.Failures.{FailsInFile};
ghost use Rattle.vol_check.specs.FileWalker.{HasOneRoot, HasTables, IsFaultlessFile, faults_of, parts_of};
ghost use Rattle.vol_check.specs.Marks.{HasOwnMarks};
ghost use Rattle.vol_check.specs.Walk.{lists, unseen};

use crate::tables::{forget_faults, forget_parts};
use crate::walk::{Walk, start, walk_file};
use a2_device::{Device, Fault, Part, Stop};
use std::alloc::{AllocError, Allocator, Global};
use vol_format::Format;

/// Walks over the parts of single files of a volume. Its tables have room for all places, and are cleared at the cost
/// of what the last walk met.
#[derive(Drop)]
pub struct FileWalker<A: Allocator = Global> {
    walk: Walk<A>,
    unit: Vec<u8, A>,
}

// Clears all that a walk has, at the cost of its parts and faults.
fn forget<A: Allocator>(walk: &mut Walk<A>)
    ensures { (places : ℕ) → HasOwnMarks places (lists walk.old) → lists walk.new ≡ unseen places }
{
    forget_parts(walk.visited.as_mut_slice(), walk.parts.as_slice());
    forget_faults(walk.known.as_mut_slice(), walk.faults.as_slice());
    walk.parts.clear();
    walk.pending.clear();
    walk.faults.clear();
}

impl<A: Allocator + Copy> FileWalker<A> {
    /// A walker for the volumes of a device.
    ///
    /// # Errors
    /// Want of memory alone.
    pub fn new<D: Device>(alloc: A, device: &D) -> Result<FileWalker<A>, AllocError>
        ensures { IfOk result (HasTables (D.state device.now)) }
    {
        Ok(FileWalker {
            walk: start(alloc, device.places())?,
            unit: vec![in alloc; 0; device.unit()]?,
        })
    }

    /// The parts of the file that was walked last, in their order.
    pub fn parts(&self) -> &[Part]
        ensures { result.now ≡ parts_of self.now }
    {
        self.walk.parts.as_slice()
    }

    /// The faults of the file that was walked last, in the order of its parts.
    pub fn faults(&self) -> &[Fault]
        ensures { result.now ≡ faults_of self.now }
    {
        self.walk.faults.as_slice()
    }

    /// Walks over the file of an entry, of a volume that was read and in which no other entry points to anything, and
    /// tells whether it has no fault. It makes no write, and reads the unit of each part that has pointers once.
    ///
    /// # Errors
    /// `Device` where the read of a unit of the file fails; `Memory`.
    pub fn walk<D: Device, F: Format>(
        &mut self,
        device: &mut D,
        format: &F,
        volume: &F::Volume,
        file: u32,
    ) -> Result<bool, Stop>
        requires fits { Fits (F.meaning format.now) (D.state device.old) }
        requires places { (F.directory format.now volume.now).places ≡ (D.state device.old).places }
        requires described { IsTrue (D.state device.old).honest
            → (F.meaning format.now).Describes (D.state device.old).store (F.directory format.now volume.now) }
        requires file { file < entries (F.directory format.now volume.now) }
        requires alone { HasOneRoot (F.directory format.now volume.now) file }
        requires tables { HasTables (D.state device.old) self.old }

        ensures device { OnlyReads (is_device_stop result) (D.state device.old) (D.state device.new) }
        ensures tables { HasTables (D.state device.new) self.new }
        ensures within { OnOk result (All (λ (part : Part). part.place < (D.state device.new).places)
            (parts_of self.new)) }
        ensures faultless { IsTrue (D.state device.old).honest → IfOk result (λ faultless. IsTrue faultless
            → IsFaultlessFile (F.meaning format.now) (F.directory format.now volume.now) (D.state device.old).store
            (parts_of self.new)) }
        ensures refused { IsTrue (D.state device.old).honest → IfOk result (λ faultless. IsFalse faultless
            → AreFaults (F.meaning format.now) (D.state device.old).store (faults_of self.new)) }
        ensures failed { IsTrue (D.state device.old).honest → IsTrue (is_device_stop result)
            → FailsInFile (F.meaning format.now) (F.directory format.now volume.now)
            (D.state device.old) (D.state device.new) file }
    {
        forget(&mut self.walk);
        walk_file(
            device,
            format,
            volume,
            file,
            self.unit.as_mut_slice(),
            &mut self.walk,
        )?;
        Ok(self.walk.faults.is_empty())
    }
}
