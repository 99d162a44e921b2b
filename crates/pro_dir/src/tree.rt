// The blocks of the directories of a volume, as their links lead.
ghost use Rattle.std.specs.Prelude.{
  ◌≡◌,
  ◌≢◌,
  ◌≤◌,
  ◌<◌,
  ◌++◌,
  [],
  ◌∷◌,
  ◌+◌,
  ℕ,
  List,
  set,
  true,
  false,
  length,
  OnOk,
  IfOk,
  IfErr,
  IsTrue,
  ◌↔◌,
  replicate,
};
ghost use Rattle.std.specs.Option.{option_or};
ghost use Rattle.a2_device.specs.Device.{OnlyReads, unit_at};
ghost use Rattle.a2_device.specs.Reading.{met_device};
ghost use Rattle.a2_device.specs.declared.fault.Fault.{Fault};
ghost use Rattle.a2_device.specs.declared.fault.Fault.TheVariants.{DirLink as ADirLink};
ghost use Rattle.a2_device.specs.declared.fault.WalkError.TheVariants.{Fault as AFault};
ghost use Rattle.pro_dir.specs.Entry.{key_of};
ghost use Rattle.pro_dir.specs.Tree.{next_of, HasKind, HasSizes, HasBadLink, SubdirectoryFaultAt};
ghost use Rattle.pro_dir.specs.Walk.{is_met, first_free_of, HasMetMore, IsFollowing, IsReadOut};
ghost use Rattle.pro_dir.specs.Reading.{HasTable, KeepsEntries};
ghost use Rattle.pro_dir.specs.Within.{IsReadWithin};

use crate::entry::{BLOCK_BYTES, Entry};
use crate::reading::{FreeSlot, Reading};
use crate::waiting::Waiting;
use a2_device::{Device, Fault, WalkError};
use byteorder::{ByteOrder, LittleEndian};
use std::alloc::{AllocError, Allocator, Global};

/// The key block of the volume's directory.
pub(crate) const VOLUME_KEY: u16 = 2;

/// The storage type in a subdirectory's header.
const SUBDIRECTORY: u8 = 0x0e;

/// Where the storage type, the entry length and the entries per block stand in a key block.
const KIND: usize = 0x04;

const ENTRY_LENGTH: usize = 0x23;

const ENTRIES_PER_BLOCK: usize = 0x24;

const NEXT: usize = 0x02;

/// The directories of a volume so far: their blocks, their entries in order, the slots whose entries wait with the next
/// of them last, the first slot without an entry of each directory that has one, and which blocks were met.
#[derive(Drop)]
pub struct Tree<A: Allocator = Global> {
    pub blocks: Vec<u16, A>,
    pub entries: Vec<Entry, A>,
    pub pending: Vec<Waiting, A>,
    pub free: Vec<FreeSlot, A>,
    pub met: Vec<bool, A>,
}

fn next_block(unit: &[u8; BLOCK_BYTES]) -> u16
    ensures { result ≡ next_of unit.now }
{
    LittleEndian::read_u16(&unit[NEXT..])
}

/// Whether a key block has a header of this type.
pub(crate) fn has_kind(unit: &[u8; BLOCK_BYTES], kind: u8) -> bool
    ensures { IsTrue result ↔ HasKind kind unit.now }
{
    unit[KIND] / 16 == kind
}

/// Whether a header tells entries of 39 bytes, thirteen in a block.
pub(crate) fn has_sizes(unit: &[u8; BLOCK_BYTES]) -> bool
    ensures { IsTrue result ↔ HasSizes unit.now }
{
    unit[ENTRY_LENGTH] == 39 && unit[ENTRIES_PER_BLOCK] == 13
}

impl<A: Allocator> Tree<A> {
    // A tree with no block yet.
    pub(crate) fn start(alloc: A, places: u32) -> Result<Tree<A>, AllocError>
    where
        A: Copy,
        ensures lists { IfOk result (λ tree. (tree.blocks.items ≡ []) × (tree.entries.items ≡ [])
            × (tree.pending.items ≡ []) × (tree.free.items ≡ [])) }
        ensures met { IfOk result (λ tree. tree.met.items ≡ replicate places false) }
    {
        Ok(Tree {
            blocks: Vec::new(alloc),
            entries: Vec::new(alloc),
            pending: Vec::new(alloc),
            free: Vec::new(alloc),
            met: vec![in alloc; false; places as usize]?,
        })
    }

    /// Whether a link can name a block, and it was not met.
    pub(crate) fn is_new(&self, places: u32, block: u32) -> bool
        requires { length self.now.met.items ≡ places }
        ensures { IsTrue result ↔ ((2 ≤ block) × (block < places) × (is_met self.now.met.items block ≡ false)) }
    {
        block >= 2 && block < places && !self.met[block as usize]
    }

    // Takes one block of a directory.
    pub(crate) fn take(
        &mut self,
        block: u16,
        unit: &[u8; BLOCK_BYTES],
        reading: &mut Reading,
    ) -> Result<(), AllocError>
        requires { block < length self.old.met.items }
        ensures blocks { OnOk result (self.new.blocks.items ≡ self.old.blocks.items ++ block ∷ []) }
        ensures met { OnOk result (self.new.met.items ≡ set self.old.met.items block true) }
        ensures key { reading.new.key ≡ reading.old.key }
        ensures first { OnOk result
            (reading.new.free ≡ option_or reading.old.free (first_free_of reading.old.key block unit.now)) }
        ensures within { (places : ℕ) → block < places → IsReadWithin places reading.old.key reading.old.free
            → OnOk result (IsReadWithin places reading.old.key reading.new.free) }
        ensures same { KeepsEntries self.old self.new }
    {
        self.blocks.push(block)?;
        self.met[block as usize] = true;
        reading.take(block, unit);
        Ok(())
    }

    // Reads one block of a directory and takes it.
    fn read<D: Device>(
        &mut self,
        device: &mut D,
        block: u16,
        unit: &mut [u8; BLOCK_BYTES],
        reading: &mut Reading,
    ) -> Result<(), WalkError>
        requires size { (D.state device.old).unit_size ≡ 512 }
        requires met { length self.old.met.items ≡ (D.state device.old).places }
        requires block { block < (D.state device.old).places }

        ensures device { OnlyReads (met_device result) (D.state device.old) (D.state device.new) }
        ensures no_fault { IfErr result (λ e. (fault : Fault) → e ≢ AFault fault) }
        ensures blocks { OnOk result (self.new.blocks.items ≡ self.old.blocks.items ++ block ∷ []) }
        ensures met { OnOk result (self.new.met.items ≡ set self.old.met.items block true) }
        ensures key { reading.new.key ≡ reading.old.key }
        ensures first { OnOk result
            (reading.new.free ≡ option_or reading.old.free (first_free_of reading.old.key block unit.new)) }
        ensures within { (places : ℕ) → block < places → IsReadWithin places reading.old.key reading.old.free
            → OnOk result (IsReadWithin places reading.old.key reading.new.free) }
        ensures unit { IsTrue (D.state device.old).honest
            → OnOk result (unit.new ≡ unit_at (D.state device.old).store block) }
        ensures same { KeepsEntries self.old self.new }
    {
        if device.read(block as u32, unit).is_err() {
            return Err(WalkError::Device);
        }
        self.take(block, unit, reading)?;
        Ok(())
    }

    // Follows the links from the key block of a directory, whose unit is at hand.
    pub(crate) fn follow<D: Device>(
        &mut self,
        device: &mut D,
        unit: &mut [u8; BLOCK_BYTES],
        reading: &mut Reading,
    ) -> Result<(), WalkError>
        requires size { (D.state device.old).unit_size ≡ 512 }
        requires table { HasTable (D.state device.old).places self.old }

        ensures device { OnlyReads (met_device result) (D.state device.old) (D.state device.new) }
        ensures table { OnOk result (HasTable (D.state device.old).places self.new) }
        ensures more { OnOk result
            (HasMetMore self.old.met.items self.new.met.items self.old.blocks.items self.new.blocks.items) }
        ensures within { IsReadWithin (D.state device.old).places reading.old.key reading.old.free
            → OnOk result (IsReadWithin (D.state device.old).places reading.old.key reading.new.free) }
        ensures key { reading.new.key ≡ reading.old.key }
        ensures found { IsTrue (D.state device.old).honest → (before : List ℕ)
            → IsFollowing (D.state device.old).store reading.old.key before self.old.blocks.items
            reading.old.free reading.old.key unit.old
            → OnOk result (IsReadOut
            (D.state device.old).store reading.old.key before self.new.blocks.items reading.new.free) }
        ensures refused { IsTrue (D.state device.old).honest → (before : List ℕ)
            → IsFollowing (D.state device.old).store reading.old.key before self.old.blocks.items
            reading.old.free reading.old.key unit.old
            → IfErr result (λ e. (fault : Fault) → e ≡ AFault fault → (holder : ℕ) × (fault ≡ ADirLink holder)
            × HasBadLink (D.state device.old).store before reading.old.key holder) }
        ensures same { KeepsEntries self.old self.new }
    {
        let mut holder = reading.key;
        let mut next = next_block(unit);
        while next != 0 {
            if !self.is_new(device.places(), next as u32) {
                return Err(WalkError::Fault(Fault::DirLink(holder as u32)));
            }
            self.read(device, next, unit, reading)?;
            holder = next;
            next = next_block(unit);
        }
        Ok(())
    }

    // Reads the subdirectory that an entry names.
    pub(crate) fn open<D: Device>(
        &mut self,
        device: &mut D,
        entry: &Entry,
    ) -> Result<Reading, WalkError>
        requires size { (D.state device.old).unit_size ≡ 512 }
        requires table { HasTable (D.state device.old).places self.old }

        ensures device { OnlyReads (met_device result) (D.state device.old) (D.state device.new) }
        ensures table { IfOk result (λ reading.
            HasTable (D.state device.old).places self.new) }
        ensures more { IfOk result (λ reading.
            HasMetMore self.old.met.items self.new.met.items self.old.blocks.items self.new.blocks.items) }
        ensures within { IfOk result (λ reading. IsReadWithin (D.state device.old).places reading.key reading.free) }
        ensures key { IfOk result (λ reading. reading.key ≡ key_of entry.now) }
        ensures found { IsTrue (D.state device.old).honest → IfOk result (λ reading.
            IsReadOut (D.state device.old).store
            (key_of entry.now) self.old.blocks.items self.new.blocks.items reading.free
            × HasKind 14 (unit_at (D.state device.old).store (key_of entry.now))
            × HasSizes (unit_at (D.state device.old).store (key_of entry.now))) }
        ensures refused { IsTrue (D.state device.old).honest → IfErr result (λ e. (fault : Fault) → e ≡ AFault fault
            → SubdirectoryFaultAt (D.state device.old).store self.old.blocks.items entry.now.place
            (key_of entry.now) fault) }
        ensures same { KeepsEntries self.old self.new }
    {
        let key = entry.key_block();
        if !self.is_new(device.places(), key as u32) {
            return Err(WalkError::Fault(Fault::DirLink(entry.place as u32)));
        }
        let mut unit = [0; BLOCK_BYTES];
        let mut reading = Reading::new(key);
        self.read(device, key, &mut unit, &mut reading)?;
        if !has_kind(&unit, SUBDIRECTORY) {
            return Err(WalkError::Fault(Fault::DirLink(entry.place as u32)));
        }
        if !has_sizes(&unit) {
            return Err(WalkError::Fault(Fault::Geometry(key as u32)));
        }
        self.follow(device, &mut unit, &mut reading)?;
        Ok(reading)
    }
}
