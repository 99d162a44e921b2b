// The blocks that say what is free.
ghost use Rattle.std.specs.Prelude.{
  ◌≡◌,
  ◌≢◌,
  ◌≤◌,
  ◌<◌,
  ◌+◌,
  ◌-◌,
  ◌/◌,
  ◌%◌,
  ◌^◌,
  ℕ,
  length,
  true,
  false,
  IfOk,
  IfErr,
  IfSome,
  IfNone,
  IsTrue,
};
ghost use Rattle.a2_device.specs.Device.{OnlyReads, unit_at};
ghost use Rattle.a2_device.specs.Reading.{met_device};
ghost use Rattle.a2_device.specs.declared.fault.Fault.{Fault};
ghost use Rattle.a2_device.specs.declared.fault.WalkError.TheVariants.{Fault as AFault};
ghost use Rattle.pro_bitmap.specs.Bitmap.{
  FreeMap,
  IsWhole,
  IsFreeFrom,
  IsNextFree,
  units_of,
  units_in,
  unit_in,
  place_of,
  is_free,
  is_free_in,
  free_count_of,
  byte_of,
  with_byte,
  marked,
  released,
};

use crate::count::free_in_unit;
use a2_device::{Device, WalkError};
use std::alloc::{Allocator, Global};
use std::marker::Model;

/// The bytes of a block.
pub(crate) const BLOCK_BYTES: usize = 512;

/// How many blocks have their bits in one unit.
pub(crate) const BLOCKS: u32 = 4096;

/// The bitmap of a volume, which has a bit for each block (ProDOS 8 Technical Reference Manual, Appendix B).
#[derive(Drop)]
pub struct Bitmap<A: Allocator = Global> {
    first: u32,
    total: u32,
    units: Vec<[u8; BLOCK_BYTES], A>,
}

impl<A: Allocator> Model for Bitmap<A> {
    ghost use Rattle.pro_bitmap.specs.Bitmap.{FreeMap, IsWhole};

    ghost Value = { FreeMap };

    ghost view = { λ m. record { first = m.first; total = m.total; units = m.units.items } };

    ghost invariant = { λ m. IsWhole m.first m.total m.units.items };
}

// How many units have the bits of so many blocks.
fn units_of(total: u32) -> u32
    ensures { result ≡ units_of total }
{
    total.div_ceil(BLOCKS)
}

// The bit of a block in the byte that has it.
fn bit_of(block: u32) -> u8
    ensures { result ≡ 2 ^ (7 - block % 8) }
{
    1 << (7 - block % 8)
}

// Whether the block with this number among the 4,096 of a unit is free there.
pub(crate) fn is_free_in(unit: &[u8; BLOCK_BYTES], number: u32) -> bool
    requires { number < 4096 }
    ensures { result ≡ is_free_in unit.now number }
{
    (unit[(number / 8) as usize] >> (7 - number % 8)) % 2 == 1
}

impl<A: Allocator> Bitmap<A> {
    /// Reads the bitmap of a volume of `total` blocks: consecutive blocks from `first` on.
    ///
    /// # Errors
    /// `Device` where a read fails; `Memory`.
    pub fn read<D: Device>(
        alloc: A,
        device: &mut D,
        first: u32,
        total: u32,
    ) -> Result<Bitmap<A>, WalkError>
        requires unit { (D.state device.old).unit_size ≡ 512 }
        requires blocks { first + units_of total ≤ (D.state device.old).places }

        ensures device { OnlyReads (met_device result) (D.state device.old) (D.state device.new) }
        ensures no_fault { IfErr result (λ e. (fault : Fault) → e ≢ AFault fault) }
        ensures blocks { IfOk result (λ map. (map.first ≡ first) × (map.total ≡ total)) }
        ensures whole { IfOk result (λ map. IsWhole map.first map.total map.units) }
        ensures units { IsTrue (D.state device.old).honest
            → IfOk result (λ map. map.units ≡ units_in (D.state device.old).store first (units_of total)) }
    {
        // Called for what its contract says: the places of a device fit their type.
        let _places = device.places();
        let count = units_of(total);
        let mut units = vec![in alloc; [0; BLOCK_BYTES]; count as usize]?;
        for number in 0..count {
            if device
                .read(first + number, &mut units[number as usize])
                .is_err()
            {
                return Err(WalkError::Device);
            }
        }
        Ok(Bitmap {
            first,
            total,
            units,
        })
    }

    // The byte that has the bit of a block.
    fn byte_of(&self, block: u32) -> u8
        requires { block < self.now.total }
        ensures { result ≡ byte_of self.now block }
    {
        self.units[(block / BLOCKS) as usize][(block % BLOCKS / 8) as usize]
    }

    // Writes the byte that has the bit of a block.
    fn put_byte(&mut self, block: u32, byte: u8)
        requires { block < self.old.total }
        ensures value { self.new ≡ with_byte self.old block byte }
        ensures unit { (block / 4096 < length self.old.units) × (length (unit_at self.old.units (block / 4096)) ≡ 512) }
    {
        self.units[(block / BLOCKS) as usize][(block % BLOCKS / 8) as usize] = byte;
    }

    /// Whether a block is free.
    pub fn is_free(&self, block: u32) -> bool
        requires { block < self.now.total }
        ensures { result ≡ is_free self.now block }
    {
        is_free_in(&self.units[(block / BLOCKS) as usize], block % BLOCKS)
    }

    /// Marks a block used.
    pub fn mark(&mut self, block: u32)
        requires { block < self.old.total }
        ensures value { self.new ≡ marked self.old block }
        ensures used { is_free self.new block ≡ false }
        ensures others { (other : ℕ) → other ≢ block → is_free self.new other ≡ is_free self.old other }
    {
        let byte = self.byte_of(block) & !bit_of(block);
        self.put_byte(block, byte);
    }

    /// Marks a block free.
    pub fn release(&mut self, block: u32)
        requires { block < self.old.total }
        ensures value { self.new ≡ released self.old block }
        ensures free { is_free self.new block ≡ true }
        ensures others { (other : ℕ) → other ≢ block → is_free self.new other ≡ is_free self.old other }
    {
        let byte = self.byte_of(block) | bit_of(block);
        self.put_byte(block, byte);
    }

    /// How many blocks of the volume are free.
    pub fn free_count(&self) -> u32
        ensures { result ≡ free_count_of self.now }
    {
        let mut free = 0;
        let mut left = self.total;
        for unit in self.units.as_slice() {
            free += free_in_unit(unit, left.min(BLOCKS));
            left = left.saturating_sub(BLOCKS);
        }
        free
    }

    /// The first free block at or after `from`. `None` where there is none, or `from` is no block of the volume.
    pub fn next_free(&self, from: u32) -> Option<u32>
        ensures some { IfSome result (IsNextFree self.now from) }
        ensures none { IfNone result ((block : ℕ) → IsFreeFrom self.now from block → ⊥) }
    {
        for block in from..self.total {
            if self.is_free(block) {
                return Some(block);
            }
        }
        None
    }

    /// The place of the unit that has the bit of a block.
    pub fn unit_of(&self, block: u32) -> u32
        requires { block < self.now.total }
        ensures value { result ≡ place_of self.now block }
        ensures within { (self.now.first ≤ result) × (result < self.now.first + units_of self.now.total) }
    {
        self.first + block / BLOCKS
    }

    /// The 512 bytes of the unit at a place.
    pub fn bytes(&self, unit: u32) -> &[u8]
        requires { (self.now.first ≤ unit) × (unit < self.now.first + units_of self.now.total) }
        ensures value { result.now ≡ unit_in self.now unit }
        ensures size { length result.now ≡ 512 }
    {
        &self.units[(unit - self.first) as usize]
    }
}
