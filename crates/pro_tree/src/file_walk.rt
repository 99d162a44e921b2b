// The parts of one file.
ghost use Rattle.std.specs.Prelude.{
  ◌≡◌,
  ◌≢◌,
  ◌<◌,
  ◌+◌,
  ◌*◌,
  ◌++◌,
  [],
  ◌∷◌,
  ℕ,
  List,
  true,
  false,
  length,
  OnOk,
  IfOk,
  IfErr,
  IsTrue,
  All,
  AllPairs,
  Contains,
  slice_set,
  vec_items,
  replicate,
};
ghost use Rattle.a2_device.specs.Device.{OnlyReads, unit_at};
ghost use Rattle.a2_device.specs.Reading.{met_device};
ghost use Rattle.a2_device.specs.declared.part.Part.{Part};
ghost use Rattle.a2_device.specs.declared.part.PartKind.TheVariants.{Master as AMaster, Index as AnIndex};
ghost use Rattle.a2_device.specs.declared.fault.Fault.{Fault};
ghost use Rattle.a2_device.specs.declared.fault.WalkError.TheVariants.{Fault as AFault, Device as ADevice};
ghost use Rattle.vol_format.specs.declared.link.Link.TheVariants.{To};
ghost use Rattle.pro_tree.specs.Parts.{IsPartsOf, HasNoWild, FileFaultAt, rank};
ghost use Rattle.pro_tree.specs.Walk.{IsTame, IsRefusedAt, IsReached, IsTaking, KeepsTable, part_named, parts_named};

use crate::links::{child, root};
use a2_device::{Device, Fault, Part, PartKind, WalkError};
use std::alloc::{AllocError, Allocator, Global};
use vol_format::Link;

const BLOCK: usize = 512;

const MASTER_POINTERS: u32 = 128;

const INDEX_POINTERS: u32 = 256;

// The parts of a file so far, and the places of the volume where they stand.
#[derive(Drop)]
struct FileWalk<A: Allocator = Global> {
    places: u32,
    met: Vec<bool, A>,
    parts: Vec<Part, A>,
}

impl<A: Allocator + Copy> FileWalk<A> {
    // No part so far.
    fn new(alloc: A, places: u32) -> Result<Self, AllocError>
        ensures places { IfOk result (λ found. found.places ≡ places) }
        ensures met { IfOk result (λ found. found.met.items ≡ replicate places false) }
        ensures parts { IfOk result (λ found. found.parts.items ≡ []) }
    {
        Ok(FileWalk {
            places,
            met: vec![in alloc; false; places as usize]?,
            parts: Vec::new(alloc),
        })
    }
}

impl<A: Allocator> FileWalk<A> {
    // Takes a part at a place that was not met.
    fn take(&mut self, part: Part) -> Result<(), AllocError>
        requires { part.place < length self.old.met.items }
        ensures places { self.new.places ≡ self.old.places }
        ensures met { self.new.met.items ≡ slice_set self.old.met.items part.place true }
        ensures parts { OnOk result (self.new.parts.items ≡ self.old.parts.items ++ part ∷ []) }
    {
        self.met[part.place as usize] = true;
        self.parts.push(part)?;
        Ok(())
    }

    // Takes the part that a pointer of the unit at `holder` names, and answers it.
    fn follow(&mut self, holder: u32, link: Link) -> Result<Option<Part>, WalkError>
        requires place { (part : Part) → link ≡ To part → part.place < length self.old.met.items }
        ensures places { self.new.places ≡ self.old.places }
        ensures size { length self.new.met.items ≡ length self.old.met.items }
        ensures no_device { IfErr result (λ e. e ≢ ADevice) }
        ensures tame { IfOk result (λ _. IsTame link) }
        ensures named { IfOk result (λ part. part ≡ part_named link) }
        ensures parts { IfOk result (λ _. self.new.parts.items ≡ self.old.parts.items ++ parts_named link) }
        ensures table { IfOk result (λ _. KeepsTable self.old self.new) }
        ensures refused { IfErr result (λ e. (fault : Fault) → e ≡ AFault fault
            → IsRefusedAt self.old.met.items holder link fault) }
    {
        let part = match link {
            Link::Null => return Ok(None),
            Link::Wild => return Err(WalkError::Fault(Fault::OutOfRange(holder))),
            Link::Directory | Link::OtherType => {
                return Err(WalkError::Fault(Fault::StorageType(holder)));
            }
            Link::To(part) => part,
        };
        if self.met[part.place as usize] {
            return Err(WalkError::Fault(Fault::Shared(part.place)));
        }
        self.take(part)?;
        Ok(Some(part))
    }

    // Takes the units of the body that the pointers of an index name.
    fn take_bodies(&mut self, index: &Part, unit: &[u8; BLOCK]) -> Result<(), WalkError>
        requires size { length self.old.met.items ≡ self.old.places }
        requires kind { index.now.kind ≡ AnIndex }
        requires number { index.now.number < 128 }
        ensures places { self.new.places ≡ self.old.places }
        ensures size { length self.new.met.items ≡ length self.old.met.items }
        ensures no_device { IfErr result (λ e. e ≢ ADevice) }
        ensures table { OnOk result (KeepsTable self.old self.new) }
        ensures taken { (store : List (List ℕ)) → length store ≡ self.old.places
            → unit_at store index.now.place ≡ unit.now
            → OnOk result (IsTaking store index.now self.old.parts.items self.new.parts.items 256
            (rank index.now + 1 + 256)) }
        ensures refused { (store : List (List ℕ)) (file storage key entry : ℕ) → length store ≡ self.old.places
            → unit_at store index.now.place ≡ unit.now
            → IsReached store file storage key index.now self.old.met.items self.old.parts.items
            → IfErr result (λ e. (fault : Fault) → e ≡ AFault fault → FileFaultAt store file storage key entry fault) }
    {
        for number in 0..INDEX_POINTERS {
            self.follow(index.place, child(self.places, index, unit, number))?;
        }
        Ok(())
    }

    // Reads an index, and takes the units of the body that it names.
    fn take_index<D: Device>(&mut self, device: &mut D, index: &Part) -> Result<(), WalkError>
        requires unit { (D.state device.old).unit_size ≡ 512 }
        requires places { (D.state device.old).places ≡ self.old.places }
        requires size { length self.old.met.items ≡ self.old.places }
        requires place { index.now.place < self.old.places }
        requires kind { index.now.kind ≡ AnIndex }
        requires number { index.now.number < 128 }
        ensures places { self.new.places ≡ self.old.places }
        ensures size { length self.new.met.items ≡ length self.old.met.items }
        ensures device { OnlyReads (met_device result) (D.state device.old) (D.state device.new) }
        ensures table { OnOk result (KeepsTable self.old self.new) }
        ensures taken { IsTrue (D.state device.old).honest
            → OnOk result (IsTaking (D.state device.old).store index.now self.old.parts.items self.new.parts.items 256
            (rank index.now + 1 + 256)) }
        ensures refused { (file storage key entry : ℕ) → IsTrue (D.state device.old).honest
            → IsReached (D.state device.old).store file storage key index.now self.old.met.items self.old.parts.items
            → IfErr result (λ e. (fault : Fault) → e ≡ AFault fault
            → FileFaultAt (D.state device.old).store file storage key entry fault) }
    {
        let mut unit = [0; BLOCK];
        read_index(device, index.place, &mut unit)?;
        self.take_bodies(index, &unit)
    }

    // Reads a master index, and takes the indexes that it names, each with its units of the body.
    fn take_tree<D: Device>(&mut self, device: &mut D, master: &Part) -> Result<(), WalkError>
        requires unit { (D.state device.old).unit_size ≡ 512 }
        requires places { (D.state device.old).places ≡ self.old.places }
        requires size { length self.old.met.items ≡ self.old.places }
        requires place { master.now.place < self.old.places }
        requires kind { master.now.kind ≡ AMaster }
        requires number { master.now.number ≡ 0 }
        ensures places { self.new.places ≡ self.old.places }
        ensures size { length self.new.met.items ≡ length self.old.met.items }
        ensures device { OnlyReads (met_device result) (D.state device.old) (D.state device.new) }
        ensures table { OnOk result (KeepsTable self.old self.new) }
        ensures taken { IsTrue (D.state device.old).honest
            → OnOk result (IsTaking
            (D.state device.old).store master.now self.old.parts.items self.new.parts.items 128 (1 + 257 * 128)) }
        ensures refused { (file storage key entry : ℕ) → IsTrue (D.state device.old).honest
            → IsReached (D.state device.old).store file storage key master.now self.old.met.items self.old.parts.items
            → IfErr result (λ e. (fault : Fault) → e ≡ AFault fault
            → FileFaultAt (D.state device.old).store file storage key entry fault) }
    {
        let mut unit = [0; BLOCK];
        read_index(device, master.place, &mut unit)?;
        for number in 0..MASTER_POINTERS {
            let link = child(self.places, master, &unit, number);
            if let Some(index) = self.follow(master.place, link)? {
                self.take_index(device, &index)?;
            }
        }
        Ok(())
    }

    // Takes all parts below the one that the key pointer names.
    fn take_below<D: Device>(&mut self, device: &mut D, part: &Part) -> Result<(), WalkError>
        requires unit { (D.state device.old).unit_size ≡ 512 }
        requires places { (D.state device.old).places ≡ self.old.places }
        requires size { length self.old.met.items ≡ self.old.places }
        requires place { part.now.place < self.old.places }
        requires number { part.now.number ≡ 0 }
        ensures size { length self.new.met.items ≡ length self.old.met.items }
        ensures device { OnlyReads (met_device result) (D.state device.old) (D.state device.new) }
        ensures table { OnOk result (KeepsTable self.old self.new) }
        ensures taken { IsTrue (D.state device.old).honest
            → OnOk result ((below : ℕ)
            × IsTaking (D.state device.old).store part.now self.old.parts.items self.new.parts.items 256 below) }
        ensures refused { (file storage key entry : ℕ) → IsTrue (D.state device.old).honest
            → IsReached (D.state device.old).store file storage key part.now self.old.met.items self.old.parts.items
            → IfErr result (λ e. (fault : Fault) → e ≡ AFault fault
            → FileFaultAt (D.state device.old).store file storage key entry fault) }
    {
        match part.kind {
            PartKind::Master => self.take_tree(device, part),
            PartKind::Index => self.take_index(device, part),
            _ => Ok(()),
        }
    }
}

// Reads the block of an index.
fn read_index<D: Device>(
    device: &mut D,
    place: u32,
    unit: &mut [u8; BLOCK],
) -> Result<(), WalkError>
    requires unit { (D.state device.old).unit_size ≡ 512 }
    requires place { place < (D.state device.old).places }
    ensures device { OnlyReads (met_device result) (D.state device.old) (D.state device.new) }
    ensures no_fault { IfErr result (λ e. (fault : Fault) → e ≢ AFault fault) }
    ensures unit { IsTrue (D.state device.old).honest
        → OnOk result (unit.new ≡ unit_at (D.state device.old).store place) }
{
    if device.read(place, unit).is_err() {
        return Err(WalkError::Device);
    }
    Ok(())
}

/// The parts of one file in order: the block that its key pointer names, then what the pointers of that block name,
/// each index before the units of the body below it. `file` is the number that the parts get, `storage` the storage
/// type of the file's entry, `key` its key pointer, and `entry` the block of the directory that the entry stands in.
///
/// # Errors
/// `Fault` with `OutOfRange`, which names the block with a pointer to no block of the volume (for the key pointer, the
/// entry's block), `Shared`, which names a block that the file reaches twice, or `StorageType`, which names the entry's
/// block where the file is no seedling, sapling or tree; `Device` where a read fails; `Memory`.
pub fn walk<A: Allocator + Copy, D: Device>(
    alloc: A,
    device: &mut D,
    file: u32,
    storage: u8,
    key: u32,
    entry: u32,
) -> Result<Vec<Part, A>, WalkError>
    requires unit { (D.state device.old).unit_size ≡ 512 }

    ensures device { OnlyReads (met_device result) (D.state device.old) (D.state device.new) }
    ensures parts { IsTrue (D.state device.old).honest
        → IfOk result (λ parts. IsPartsOf (D.state device.old).store file storage key (vec_items parts)) }
    ensures tame { IsTrue (D.state device.old).honest
        → IfOk result (λ _. HasNoWild (D.state device.old).store file storage key) }
    ensures once { IfOk result (λ parts. AllPairs (λ part later. part.place ≢ later.place) (vec_items parts)) }
    ensures within { IfOk result (λ parts.
        All (λ (part : Part). part.place < (D.state device.old).places) (vec_items parts)) }
    ensures refused { IsTrue (D.state device.old).honest → IfErr result (λ e. (fault : Fault) → e ≡ AFault fault
        → FileFaultAt (D.state device.old).store file storage key entry fault) }
{
    let places = device.places();
    let mut found = FileWalk::new(alloc, places)?;
    let first = root(places, file, storage, key);
    if let Some(part) = found.follow(entry, first)? {
        found.take_below(device, &part)?;
    }
    let FileWalk { parts, .. } = found;
    Ok(parts)
}
