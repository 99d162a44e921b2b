// The walk over the directories of a volume: their entries, each before what is inside it.
ghost use Rattle.std.specs.Prelude.{
  ◌≡◌,
  ◌≤◌,
  ◌<◌,
  ◌++◌,
  [],
  ◌∷◌,
  ◌+◌,
  ◌*◌,
  ℕ,
  List,
  true,
  length,
  drop,
  map,
  All,
  OnOk,
  IfOk,
  IfErr,
  IfSome,
  IsTrue,
  reverse,
};
ghost use Rattle.a2_device.specs.Device.{OnlyReads};
ghost use Rattle.a2_device.specs.Reading.{met_device};
ghost use Rattle.a2_device.specs.declared.fault.Fault.{Fault};
ghost use Rattle.a2_device.specs.declared.fault.Fault.TheVariants.{DirLink as ADirLink};
ghost use Rattle.a2_device.specs.declared.fault.WalkError.TheVariants.{Fault as AFault};
ghost use Rattle.pro_dir.specs.declared.entry.Entry.{Entry as AnEntry};
ghost use Rattle.pro_dir.specs.Entry.{is_directory};
ghost use Rattle.pro_dir.specs.Tree.{HasBadLink, IsCutOff, TreeFaultAt};
ghost use Rattle.pro_dir.specs.Walk.{
  kept_slots,
  FewListed,
  IsListing,
  IsStop,
  IsVolumeKey,
  all_waiting,
  entries_from,
  left_behind,
  left_in,
  waiting_in,
  whole_block,
  work,
};
ghost use Rattle.pro_dir.specs.Reading.{HasTable, KeepsFree};
ghost use Rattle.pro_dir.specs.Within.{IsInSlot, IsKeptWithin, IsWaitingWithin};

use crate::entry::{BLOCK_BYTES, ENTRIES, Entry};
use crate::reading::{FreeSlot, Reading};
use crate::tree::{Tree, VOLUME_KEY};
use crate::waiting::Waiting;
use a2_device::{Device, WalkError};
use std::alloc::{AllocError, Allocator};

impl<A: Allocator> Tree<A> {
    // Lets the blocks of a directory wait, those from a number on, the first of them last.
    fn wait_from(&mut self, key: u16, first: usize) -> Result<(), AllocError>
        requires { first ≤ length self.old.blocks.items }
        ensures pending { OnOk result (self.new.pending.items ≡ self.old.pending.items
            ++ reverse (map (whole_block key) (drop first self.old.blocks.items))) }
        ensures same { (self.new.blocks ≡ self.old.blocks) × (self.new.met ≡ self.old.met)
            × (self.new.entries ≡ self.old.entries) × (self.new.free ≡ self.old.free) }
    {
        for number in (first..self.blocks.len()).rev() {
            self.pending.push(Waiting {
                directory: key,
                place: self.blocks[number],
                slot: 0,
            })?;
        }
        Ok(())
    }

    // Keeps the first slot without an entry of a directory that was read; its blocks, from a number on, wait from then
    // on.
    fn wait(&mut self, first: usize, reading: Reading) -> Result<(), AllocError>
        requires { first ≤ length self.old.blocks.items }
        ensures pending { OnOk result (self.new.pending.items ≡ self.old.pending.items
            ++ reverse (map (whole_block reading.key) (drop first self.old.blocks.items))) }
        ensures free { OnOk result (self.new.free.items ≡ self.old.free.items ++ kept_slots reading.key reading.free) }
        ensures same { (self.new.blocks ≡ self.old.blocks) × (self.new.met ≡ self.old.met)
            × (self.new.entries ≡ self.old.entries) }
    {
        if let Some((place, number)) = reading.free {
            self.free.push(FreeSlot {
                directory: reading.key,
                place,
                number,
            })?;
        }
        self.wait_from(reading.key, first)
    }

    // Lets the slots behind that of an entry wait.
    fn wait_behind(&mut self, slots: Waiting, entry: &Entry) -> Result<(), AllocError>
        requires { entry.now.slot < 13 }
        ensures pending { OnOk result
            (self.new.pending.items ≡ self.old.pending.items ++ record slots { slot = entry.now.slot + 1 } ∷ []) }
        ensures same { (self.new.blocks ≡ self.old.blocks) × (self.new.met ≡ self.old.met)
            × (self.new.entries ≡ self.old.entries) × (self.new.free ≡ self.old.free) }
    {
        self.pending.push(Waiting {
            slot: entry.slot + 1,
            ..slots
        })?;
        Ok(())
    }

    // Notes that an entry is listed.
    fn add(&mut self, entry: Entry) -> Result<(), AllocError>
        ensures entries { OnOk result (self.new.entries.items ≡ self.old.entries.items ++ entry ∷ []) }
        ensures same { (self.new.blocks ≡ self.old.blocks) × (self.new.met ≡ self.old.met)
            × (self.new.pending ≡ self.old.pending) × (self.new.free ≡ self.old.free) }
    {
        self.entries.push(entry)?;
        Ok(())
    }

    // Lists the entry of a subdirectory; what is inside it waits from then on.
    fn list_directory<D: Device>(&mut self, device: &mut D, entry: Entry) -> Result<(), WalkError>
        requires size { (D.state device.old).unit_size ≡ 512 }
        requires table { HasTable (D.state device.old).places self.old }
        requires directory { is_directory entry ≡ true }

        ensures device { OnlyReads (met_device result) (D.state device.old) (D.state device.new) }
        ensures table { OnOk result (HasTable (D.state device.old).places self.new) }
        ensures work { OnOk result
            (work self.new.met.items self.new.pending.items ≤ work self.old.met.items self.old.pending.items) }
        ensures entries { OnOk result (self.new.entries.items ≡ self.old.entries.items ++ entry ∷ []) }
        ensures waiting { All (IsWaitingWithin (D.state device.old).places) self.old.pending.items
            → OnOk result (All (IsWaitingWithin (D.state device.old).places) self.new.pending.items) }
        ensures kept { KeepsFree (D.state device.old).places self.old self.new result }
        ensures listed { IsTrue (D.state device.old).honest
            → IsListing (D.state device.old).store self.old.blocks.items self.old.entries.items
            (entry ∷ all_waiting (D.state device.old).store self.old.pending.items) self.old.free.items
            → OnOk result (IsListing (D.state device.old).store self.new.blocks.items self.new.entries.items
            (all_waiting (D.state device.old).store self.new.pending.items) self.new.free.items) }
        ensures refused { IsTrue (D.state device.old).honest
            → IsListing (D.state device.old).store self.old.blocks.items self.old.entries.items
            (entry ∷ all_waiting (D.state device.old).store self.old.pending.items) self.old.free.items
            → IfErr result (λ e. (fault : Fault) → e ≡ AFault fault → IsCutOff (D.state device.old).store fault) }
    {
        self.add(entry)?;
        let first = self.blocks.len();
        let reading = self.open(device, &entry)?;
        self.wait(first, reading)?;
        Ok(())
    }

    // Lists the entries of files in slots that wait, up to the first entry of a subdirectory.
    fn list_files(
        &mut self,
        slots: Waiting,
        unit: &[u8; BLOCK_BYTES],
    ) -> Result<Option<Entry>, AllocError>
        requires { slots.slot ≤ 13 }
        ensures stopped { IfOk result (λ found. IfSome found (IsStop slots unit.now)) }
        ensures inside { (places : ℕ) → IsWaitingWithin places slots
            → IfOk result (λ found. IfSome found (IsInSlot places)) }
        ensures few { IfOk result (FewListed slots self.old.entries.items self.new.entries.items) }
        ensures within { (places : ℕ) → IsWaitingWithin places slots → All (IsInSlot places) self.old.entries.items
            → OnOk result (All (IsInSlot places) self.new.entries.items) }
        ensures listed { (store : List (List ℕ)) (others : List AnEntry)
            → IsListing store self.old.blocks.items self.old.entries.items
            (entries_from slots.directory slots.place unit.now slots.slot ++ others) self.old.free.items
            → IfOk result (λ found. IsListing store self.old.blocks.items self.new.entries.items
            (left_behind slots unit.now found ++ others) self.old.free.items) }
        ensures same { (self.new.blocks ≡ self.old.blocks) × (self.new.met ≡ self.old.met)
            × (self.new.pending ≡ self.old.pending) × (self.new.free ≡ self.old.free) }
    {
        for slot in slots.slot..ENTRIES {
            let entry = Entry::at(slots.directory, slots.place, unit, slot);
            if entry.is_listed() {
                if entry.is_directory() {
                    return Ok(Some(entry));
                }
                self.add(entry)?;
            }
        }
        Ok(None)
    }

    // Lists the entries of slots that wait; where one is of a subdirectory, the slots behind it wait behind what is
    // inside it.
    fn list<D: Device>(&mut self, device: &mut D, slots: Waiting) -> Result<(), WalkError>
        requires size { (D.state device.old).unit_size ≡ 512 }
        requires table { HasTable (D.state device.old).places self.old }
        requires waiting { IsWaitingWithin (D.state device.old).places slots }

        ensures device { OnlyReads (met_device result) (D.state device.old) (D.state device.new) }
        ensures table { OnOk result (HasTable (D.state device.old).places self.new) }
        ensures work { OnOk result (work self.new.met.items self.new.pending.items
            < work self.old.met.items self.old.pending.items + left_in slots) }
        ensures few { OnOk result (length self.new.entries.items + work self.new.met.items self.new.pending.items
            ≤ length self.old.entries.items + work self.old.met.items self.old.pending.items + left_in slots) }
        ensures within { All (IsInSlot (D.state device.old).places) self.old.entries.items
            → OnOk result (All (IsInSlot (D.state device.old).places) self.new.entries.items) }
        ensures waiting { All (IsWaitingWithin (D.state device.old).places) self.old.pending.items
            → OnOk result (All (IsWaitingWithin (D.state device.old).places) self.new.pending.items) }
        ensures kept { KeepsFree (D.state device.old).places self.old self.new result }
        ensures listed { IsTrue (D.state device.old).honest
            → IsListing (D.state device.old).store self.old.blocks.items self.old.entries.items
            (waiting_in (D.state device.old).store slots
            ++ all_waiting (D.state device.old).store self.old.pending.items) self.old.free.items
            → OnOk result (IsListing (D.state device.old).store self.new.blocks.items self.new.entries.items
            (all_waiting (D.state device.old).store self.new.pending.items) self.new.free.items) }
        ensures refused { IsTrue (D.state device.old).honest
            → IsListing (D.state device.old).store self.old.blocks.items self.old.entries.items
            (waiting_in (D.state device.old).store slots
            ++ all_waiting (D.state device.old).store self.old.pending.items) self.old.free.items
            → IfErr result (λ e. (fault : Fault) → e ≡ AFault fault → IsCutOff (D.state device.old).store fault) }
    {
        let mut unit = [0; BLOCK_BYTES];
        if device.read(slots.place as u32, &mut unit).is_err() {
            return Err(WalkError::Device);
        }
        let Some(entry) = self.list_files(slots, &unit)? else {
            return Ok(());
        };
        self.wait_behind(slots, &entry)?;
        self.list_directory(device, entry)
    }

    // Lists the entries that wait, and all that is inside them.
    fn list_all<D: Device>(&mut self, device: &mut D) -> Result<(), WalkError>
        requires size { (D.state device.old).unit_size ≡ 512 }
        requires table { HasTable (D.state device.old).places self.old }
        requires waiting { All (IsWaitingWithin (D.state device.old).places) self.old.pending.items }

        ensures device { OnlyReads (met_device result) (D.state device.old) (D.state device.new) }
        ensures table { OnOk result (HasTable (D.state device.old).places self.new) }
        ensures within { All (IsInSlot (D.state device.old).places) self.old.entries.items
            → OnOk result (All (IsInSlot (D.state device.old).places) self.new.entries.items) }
        ensures kept { KeepsFree (D.state device.old).places self.old self.new result }
        ensures few { OnOk result (length self.new.entries.items
            ≤ length self.old.entries.items + work self.old.met.items self.old.pending.items) }
        ensures listed { IsTrue (D.state device.old).honest
            → IsListing (D.state device.old).store self.old.blocks.items self.old.entries.items
            (all_waiting (D.state device.old).store self.old.pending.items) self.old.free.items
            → OnOk result (IsListing
            (D.state device.old).store self.new.blocks.items self.new.entries.items [] self.new.free.items) }
        ensures refused { IsTrue (D.state device.old).honest
            → IsListing (D.state device.old).store self.old.blocks.items self.old.entries.items
            (all_waiting (D.state device.old).store self.old.pending.items) self.old.free.items
            → IfErr result (λ e. (fault : Fault) → e ≡ AFault fault → IsCutOff (D.state device.old).store fault) }
    {
        while let Some(slots) = self.pending.pop() {
            self.list(device, slots)?;
        }
        Ok(())
    }

    // Reads the volume's directory, whose key block is at hand; its blocks wait.
    fn open_volume<D: Device>(
        alloc: A,
        device: &mut D,
        unit: &mut [u8; BLOCK_BYTES],
    ) -> Result<Tree<A>, WalkError>
    where
        A: Copy,
        requires size { (D.state device.old).unit_size ≡ 512 }
        requires places { 2 < (D.state device.old).places }

        ensures device { OnlyReads (met_device result) (D.state device.old) (D.state device.new) }
        ensures table { IfOk result (λ tree. HasTable (D.state device.old).places tree) }
        ensures within { IfOk result (λ tree. All (IsInSlot (D.state device.old).places) tree.entries.items) }
        ensures waiting { IfOk result (λ tree. All (IsWaitingWithin (D.state device.old).places) tree.pending.items) }
        ensures kept { IfOk result (λ tree. All (IsKeptWithin (D.state device.old).places) tree.free.items) }
        ensures few { IfOk result (λ tree.
            length tree.entries.items + work tree.met.items tree.pending.items ≤ 14 * (D.state device.old).places) }
        ensures listed { IsTrue (D.state device.old).honest → IsVolumeKey (D.state device.old).store unit.old
            → IfOk result (λ tree. IsListing (D.state device.old).store tree.blocks.items tree.entries.items
            (all_waiting (D.state device.old).store tree.pending.items) tree.free.items) }
        ensures refused { IsTrue (D.state device.old).honest → IsVolumeKey (D.state device.old).store unit.old
            → IfErr result (λ e. (fault : Fault) → e ≡ AFault fault
            → (holder : ℕ) × (fault ≡ ADirLink holder) × HasBadLink (D.state device.old).store [] 2 holder) }
    {
        let mut tree = Tree::start(alloc, device.places())?;
        let mut reading = Reading::new(VOLUME_KEY);
        tree.take(VOLUME_KEY, unit, &mut reading)?;
        tree.follow(device, unit, &mut reading)?;
        tree.wait(0, reading)?;
        Ok(tree)
    }

    /// Walks over the directories of a volume whose key block is at hand.
    ///
    /// # Errors
    /// `Fault` with `DirLink` or `Geometry` of a subdirectory; `Device` where a read fails; `Memory`.
    pub(crate) fn walk<D: Device>(
        alloc: A,
        device: &mut D,
        unit: &mut [u8; BLOCK_BYTES],
    ) -> Result<Tree<A>, WalkError>
    where
        A: Copy,
        requires size { (D.state device.old).unit_size ≡ 512 }
        requires places { 2 < (D.state device.old).places }

        ensures device { OnlyReads (met_device result) (D.state device.old) (D.state device.new) }
        ensures table { IfOk result (λ tree. HasTable (D.state device.old).places tree) }
        ensures within { IfOk result (λ tree. All (IsInSlot (D.state device.old).places) tree.entries.items) }
        ensures kept { IfOk result (λ tree. All (IsKeptWithin (D.state device.old).places) tree.free.items) }
        ensures few { IfOk result (λ tree. length tree.entries.items ≤ 14 * (D.state device.old).places) }
        ensures listed { IsTrue (D.state device.old).honest → IsVolumeKey (D.state device.old).store unit.old
            → IfOk result (λ tree.
            IsListing (D.state device.old).store tree.blocks.items tree.entries.items [] tree.free.items) }
        ensures refused { IsTrue (D.state device.old).honest → IsVolumeKey (D.state device.old).store unit.old
            → IfErr result (λ e. (fault : Fault) → e ≡ AFault fault → TreeFaultAt (D.state device.old).store fault) }
    {
        let mut tree = Tree::open_volume(alloc, device, unit)?;
        tree.list_all(device)?;
        Ok(tree)
    }
}
