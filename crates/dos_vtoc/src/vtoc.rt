// The sector that says what is free.
ghost use Rattle.std.specs.Prelude.{
  ◌≡◌,
  ◌≢◌,
  ◌<◌,
  ◌↔◌,
  ◌^◌,
  ◌%◌,
  ℕ,
  true,
  false,
  IsOk,
  IfOk,
  IfErr,
  IfSome,
  IfNone,
  IsTrue,
  slice_index,
};
ghost use Rattle.dos_vtoc.specs.Vtoc.{
  HasGeometry,
  IsFreeFrom,
  IsNextFree,
  link_of,
  volume_number,
  byte_of_place,
  is_free,
  free_count_of,
  marked,
  released,
  order_of,
};

use crate::count::free_in_map;
use crate::marks::{FREE_BITS, set_free, set_used};
use a2_device::Fault;
use std::marker::Model;

/// The place of the VTOC: track 17, sector 0.
pub const VTOC_PLACE: u32 = 272;

/// The places of a volume: 35 tracks of 16 sectors.
const PLACES: u32 = 560;

const VOLUME_NUMBER: usize = 0x06;

/// The volume table of contents of a volume of 35 tracks of 16 sectors (Beneath Apple DOS, chapter 4).
#[derive(Drop)]
pub struct Vtoc {
    bytes: [u8; 256],
}

impl Model for Vtoc {
    ghost use Rattle.std.specs.Prelude.{ℕ, List};
    ghost use Rattle.dos_vtoc.specs.Vtoc.{HasGeometry};

    ghost Value = { List ℕ };

    ghost view = { λ v. v.bytes };

    ghost invariant = { λ v. HasGeometry v.bytes };
}

// The place with a number in the order of rising tracks and falling sectors, and the number of that place.
fn place_at(number: u32) -> u32
    requires { number < 560 }
    ensures { result ≡ order_of number }
{
    16 * (number / 16) + 15 - number % 16
}

// Whether a VTOC has 35 tracks of 16 sectors of 256 bytes, the low byte first.
fn has_geometry(unit: &[u8; 256]) -> bool
    ensures { IsTrue result ↔ HasGeometry unit.now }
{
    unit[0x34] == 35 && unit[0x35] == 16 && unit[0x36] == 0 && unit[0x37] == 1
}

impl Vtoc {
    /// The VTOC in a sector.
    ///
    /// # Errors
    /// `Geometry`, which names the place of the VTOC, for another geometry than 35 tracks of 16 sectors of 256 bytes.
    pub fn read(unit: &[u8; 256]) -> Result<Vtoc, Fault>
        ensures takes { IsOk result ↔ HasGeometry unit.now }
        ensures value { IfOk result (λ vtoc. vtoc ≡ unit.now) }
        ensures err { IfErr result (λ fault. fault ≡ Fault.Geometry VTOC_PLACE) }
    {
        if !has_geometry(unit) {
            return Err(Fault::Geometry(VTOC_PLACE));
        }
        Ok(Vtoc { bytes: *unit })
    }

    /// Whether the sector at a place is free.
    pub fn is_free(&self, place: u32) -> bool
        requires { place < 560 }
        ensures { result ≡ is_free self.now place }
    {
        let track = (place / 16) as usize;
        let sector = place % 16;
        let byte = self.bytes[FREE_BITS + 4 * track + 1 - (sector / 8) as usize];
        (byte >> (sector % 8)) % 2 == 1
    }

    /// Marks the sector at a place used.
    pub fn mark(&mut self, place: u32)
        requires { place < 560 }
        ensures value { self.new ≡ marked self.old place }
        ensures used { is_free self.new place ≡ false }
        ensures others { (other : ℕ) → other < 560 → other ≢ place → is_free self.new other ≡ is_free self.old other }
        ensures rest { (at : ℕ) → at ≢ byte_of_place place → slice_index self.new at ≡ slice_index self.old at }
    {
        set_used(&mut self.bytes, place);
    }

    /// Marks the sector at a place free.
    pub fn release(&mut self, place: u32)
        requires { place < 560 }
        ensures value { self.new ≡ released self.old place }
        ensures free { is_free self.new place ≡ true }
        ensures others { (other : ℕ) → other < 560 → other ≢ place → is_free self.new other ≡ is_free self.old other }
        ensures rest { (at : ℕ) → at ≢ byte_of_place place → slice_index self.new at ≡ slice_index self.old at }
    {
        set_free(&mut self.bytes, place);
    }

    /// How many sectors of the volume are free.
    pub fn free_count(&self) -> u32
        ensures { result ≡ free_count_of self.now }
    {
        free_in_map(&self.bytes)
    }

    /// The first free place at or after `from` where tracks go upward and the sectors of a track from 15 down to 0.
    /// No place is left out. `None` where there is none, or `from` is no place.
    pub fn next_free(&self, from: u32) -> Option<u32>
        ensures some { IfSome result (λ place. (from < 560) × IsNextFree self.now from place) }
        ensures none { IfNone result (from < 560 → (place : ℕ) → IsFreeFrom self.now from place → ⊥) }
    {
        if from >= PLACES {
            return None;
        }
        for number in place_at(from)..PLACES {
            let place = place_at(number);
            if self.is_free(place) {
                return Some(place);
            }
        }
        None
    }

    /// The track and sector of the first catalog sector, if there is one.
    pub fn first_catalog(&self) -> Option<(u8, u8)>
        ensures { result ≡ link_of self.now }
    {
        match self.bytes[1] {
            0 => None,
            track => Some((track, self.bytes[2])),
        }
    }

    /// The volume number.
    pub fn volume(&self) -> u8
        ensures { result ≡ volume_number self.now }
    {
        self.bytes[VOLUME_NUMBER]
    }

    /// The sector.
    pub fn bytes(&self) -> &[u8; 256]
        ensures value { result.now ≡ self.now }
        ensures geometry { HasGeometry self.now }
    {
        &self.bytes
    }
}
