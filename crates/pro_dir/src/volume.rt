// The header, the directories and the map's pointer of a volume.
ghost use Rattle.std.specs.Prelude.{
  ◌≡◌,
  ◌≤◌,
  ◌<◌,
  ◌+◌,
  ◌↔◌,
  ℕ,
  List,
  false,
  length,
  slice_get,
  IfSome,
  IfOk,
  IfErr,
  IsTrue,
};
ghost use Rattle.a2_device.specs.Device.{OnlyReads, unit_at};
ghost use Rattle.a2_device.specs.Reading.{met_device};
ghost use Rattle.a2_device.specs.declared.fault.Fault.{Fault};
ghost use Rattle.a2_device.specs.declared.fault.WalkError.TheVariants.{Fault as AFault};
ghost use Rattle.pro_dir.specs.Entry.{name_of, slot_bytes, free_slots_in};
ghost use Rattle.pro_dir.specs.Parents.{KnowsDirectories};
ghost use Rattle.pro_dir.specs.Tree.{HasKind, HasSizes, IsRun};
ghost use Rattle.pro_dir.specs.Volume.{Directory, Describes, VolumeFaultAt, map_blocks, map_first, total_blocks};
ghost use Rattle.pro_dir.specs.Walk.{IsKeyOf, IsTable, is_met};

use crate::entry::{BLOCK_BYTES, ENTRY_BYTES, Entry, NAME};
use crate::parents::directories_of;
use crate::reading::FreeSlot;
use crate::tree::{Tree, VOLUME_KEY, has_kind, has_sizes};
use a2_device::{Device, Fault, WalkError};
use byteorder::{ByteOrder, LittleEndian};
use std::alloc::{Allocator, Global};

/// The storage type in the header of the volume's directory.
const VOLUME: u8 = 0x0f;

/// Where the first block of the map and the total of blocks stand in the header, which begins at 04 of its block.
const BITMAP: usize = 0x23;

const TOTAL: usize = 0x25;

/// How many blocks have their bits in one block of the map.
const BITS: u32 = 4096;

// The header of the volume's directory, its 39 bytes.
#[derive(Clone, Copy)]
struct Header {
    bytes: [u8; ENTRY_BYTES],
}

impl Header {
    // The header in block 2.
    fn of(unit: &[u8; BLOCK_BYTES]) -> Header
        ensures bytes { result.bytes ≡ slot_bytes unit.now 0 }
        ensures size { length result.bytes ≡ 39 }
    {
        let bytes = Entry::at(VOLUME_KEY, VOLUME_KEY, unit, 0).bytes;
        Header { bytes }
    }

    // The first block of the map.
    fn bitmap(&self) -> u32
        ensures value { result ≡ map_first self.now.bytes }
        ensures within { result < 65536 }
    {
        LittleEndian::read_u16(&self.bytes[BITMAP..]) as u32
    }

    // The total of blocks.
    fn total(&self) -> u32
        ensures value { result ≡ total_blocks self.now.bytes }
        ensures within { result < 65536 }
    {
        LittleEndian::read_u16(&self.bytes[TOTAL..]) as u32
    }
}

/// The header of a volume, its directory blocks, all entries in directory order, those inside a subdirectory after its
/// own entry, for each key block the entry of its directory, and the first slot without an entry of each directory that
/// has one.
pub struct VolumeDir<A: Allocator = Global> {
    header: Header,
    blocks: Vec<u16, A>,
    pub(crate) entries: Vec<Entry, A>,
    pub(crate) directories: Vec<Option<u32>, A>,
    free: Vec<FreeSlot, A>,
    ghost related: { KnowsDirectories entries.items directories.items },
    ghost few: { length entries.items < 4294967296 },
}

impl<A: Allocator> Drop for VolumeDir<A> {
    fn drop(self) {
        let VolumeDir {
            header: _,
            blocks: _,
            entries: _,
            directories: _,
            free: _,
        } = self;
    }
}

// Whether block 2 has the header of a volume of so many blocks.
fn has_geometry(unit: &[u8; BLOCK_BYTES], header: &Header, places: u32) -> bool
    ensures value { IsTrue result
        ↔ (HasKind 15 unit.now × HasSizes unit.now × (total_blocks header.now.bytes ≡ places)) }
    ensures low { IsTrue result → places < 65536 }
{
    has_kind(unit, VOLUME) && has_sizes(unit) && header.total() == places
}

// Whether the map's blocks are blocks that a link could name, and none is a directory's.
fn has_map<A: Allocator>(tree: &Tree<A>, first: u32, places: u32) -> bool
    requires first { first < 65536 }
    requires table { IsTable places tree.now.met.items tree.now.blocks.items }
    ensures { IsTrue result ↔ ((place : ℕ) → first ≤ place → place < first + map_blocks places
        → (2 ≤ place) × (place < places) × (is_met tree.now.met.items place ≡ false)) }
{
    for place in first..first + places.div_ceil(BITS) {
        if !tree.is_new(places, place) {
            return false;
        }
    }
    true
}

impl<A: Allocator> VolumeDir<A> {
    ghost use Rattle.pro_dir.specs.Listed.{directory_of, free_slot_of};
    ghost use Rattle.pro_dir.specs.Within.{IsFreeWithin, IsWithin};

    /// Walks over the directories of a volume.
    ///
    /// # Errors
    /// `Fault` with `Geometry` of block 2, where it has no header of a volume of so many blocks, or of a subdirectory's
    /// key block; with `DirLink`, which names the block with a link or a key pointer that leads to no block for it, to
    /// one already met or to no subdirectory's header; with `MapPointer` of block 2, where a block of the map would be
    /// below 2, past the end or a directory's. `Device` where a read fails; `Memory`.
    pub fn walk<D: Device>(alloc: A, device: &mut D) -> Result<VolumeDir<A>, WalkError>
    where
        A: Copy,
        requires unit { (D.state device.old).unit_size ≡ 512 }
        requires places { 16 ≤ (D.state device.old).places }

        ensures device { OnlyReads (met_device result) (D.state device.old) (D.state device.new) }
        ensures within { IfOk result (λ volume. IsWithin (D.state device.old).places (directory_of volume)) }
        ensures slots { IfOk result (λ volume. (key : ℕ)
            → IfSome (free_slot_of volume key) (IsFreeWithin (D.state device.old).places key)) }
        ensures described { IsTrue (D.state device.old).honest
            → IfOk result (λ volume. Describes (D.state device.old).store (directory_of volume)) }
        ensures free { IsTrue (D.state device.old).honest
            → IfOk result (λ volume. (key : ℕ) (own : List ℕ) → IsKeyOf (directory_of volume).entries key
            → IsRun (D.state device.old).store key own
            → free_slot_of volume key ≡ slice_get (free_slots_in (D.state device.old).store key own) 0) }
        ensures refused { IsTrue (D.state device.old).honest → IfErr result (λ e. (fault : Fault) → e ≡ AFault fault
            → VolumeFaultAt (D.state device.old).store fault
            × ((directory : Directory) → ¬ Describes (D.state device.old).store directory)) }
    {
        let mut unit = [0; BLOCK_BYTES];
        if device.read(VOLUME_KEY as u32, &mut unit).is_err() {
            return Err(WalkError::Device);
        }
        let places = device.places();
        let header = Header::of(&unit);
        if !has_geometry(&unit, &header, places) {
            return Err(WalkError::Fault(Fault::Geometry(VOLUME_KEY as u32)));
        }
        let tree = Tree::walk(alloc, device, &mut unit)?;
        if !has_map(&tree, header.bitmap(), places) {
            return Err(WalkError::Fault(Fault::MapPointer(VOLUME_KEY as u32)));
        }
        let Tree {
            blocks,
            entries,
            free,
            ..
        } = tree;
        let directories = directories_of(alloc, entries.as_slice())?;
        Ok(VolumeDir {
            header,
            blocks,
            entries,
            directories,
            free,
        })
    }

    /// The bytes of the volume's name, as many as its length says.
    pub fn name(&self) -> &[u8]
        ensures { result.now ≡ name_of (directory_of self.now).header }
    {
        let len = (self.header.bytes[0] % 16) as usize;
        &self.header.bytes[NAME..NAME + len]
    }

    /// The total of blocks.
    pub fn total(&self) -> u32
        ensures { result ≡ total_blocks (directory_of self.now).header }
    {
        self.header.total()
    }

    /// The first block of the map.
    pub fn bitmap(&self) -> u32
        ensures { result ≡ map_first (directory_of self.now).header }
    {
        self.header.bitmap()
    }

    /// All directory blocks, in the order in which the walk met them.
    pub fn blocks(&self) -> &[u16]
        ensures { result.now ≡ (directory_of self.now).blocks }
    {
        self.blocks.as_slice()
    }

    /// All entries, in directory order.
    pub fn entries(&self) -> &[Entry]
        ensures { result.now ≡ (directory_of self.now).entries }
    {
        self.entries.as_slice()
    }

    /// The block and the number of the first slot without an entry of the directory with this key block.
    pub fn free_slot(&self, dir: u32) -> Option<(u32, u32)>
        ensures { result ≡ free_slot_of self.now dir }
    {
        let slot = self.free.iter().find(|slot| slot.directory as u32 == dir)?;
        Some((slot.place as u32, slot.number as u32))
    }
}
