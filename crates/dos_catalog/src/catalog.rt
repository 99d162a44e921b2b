// The chain of catalog sectors.
ghost use Rattle.std.specs.Prelude.{
  ◌≡◌,
  ◌≢◌,
  ◌⊎◌,
  ◌<◌,
  ◌++◌,
  [],
  ◌∷◌,
  ◌+◌,
  ℕ,
  List,
  true,
  false,
  length,
  slice_get,
  OnOk,
  IfOk,
  IfErr,
  IfSome,
  IfNone,
  IsTrue,
};
ghost use Rattle.std.specs.Option.{option_or};
ghost use Rattle.a2_device.specs.Device.{OnlyReads, unit_at};
ghost use Rattle.a2_device.specs.Reading.{met_device};
ghost use Rattle.a2_device.specs.declared.fault.Fault.{Fault};
ghost use Rattle.a2_device.specs.declared.fault.WalkError.TheVariants.{Fault as AFault};
ghost use Rattle.dos_catalog.specs.Entry.{entries_of, entries_in, free_slots_in};
ghost use Rattle.dos_catalog.specs.Catalog.{IsLink, IsCatalog, CatalogFaultAt, linked};
ghost use Rattle.dos_catalog.specs.Walk.{is_met, first_free_of};

use crate::Entry;
use crate::entry::ENTRIES;
use a2_device::{Device, Fault, WalkError};
use dos_vtoc::{VTOC_PLACE, Vtoc};
use std::alloc::{AllocError, Allocator, Global};

/// The track of the VTOC and of the catalog.
const CATALOG_TRACK: u8 = 17;

/// The sectors of a catalog, its entries in use and its first slot that has none, in catalog order.
#[derive(Drop)]
pub struct Catalog<A: Allocator = Global> {
    sectors: Vec<u32, A>,
    entries: Vec<Entry, A>,
    free: Option<(u32, u32)>,
}

// Takes the entries in use of one sector.
fn take_entries<A: Allocator>(
    place: u32,
    unit: &[u8; 256],
    entries: &mut Vec<Entry, A>,
) -> Result<(), AllocError>
    ensures { OnOk result (entries.new.items ≡ entries.old.items ++ entries_of place unit.now) }
{
    for slot in 0..ENTRIES {
        let entry = Entry::at(place, unit, slot);
        if entry.is_in_use() {
            entries.push(entry)?;
        }
    }
    Ok(())
}

// The first slot of a sector that has no entry in use.
#[tactic(auto, unfolding(crate::specs::Walk::first_free_of))]
fn first_free(place: u32, unit: &[u8; 256]) -> Option<(u32, u32)>
    ensures { result ≡ first_free_of place unit.now }
{
    for number in 0..ENTRIES {
        if !Entry::at(place, unit, number).is_in_use() {
            return Some((place, number));
        }
    }
    None
}

// The sector that a link names, unless it is none of the catalog's or was met before.
fn next_sector(unit: &[u8; 256], met: &[bool; 16]) -> Option<u8>
    ensures some { IfSome result (λ sector. IsLink unit.now × (272 + sector ≡ linked unit.now) × (sector < 16)
        × (is_met met.now sector ≡ false)) }
    ensures none { IfNone result ((¬ IsLink unit.now)
        ⊎ (IsLink unit.now × (sector : ℕ) × (linked unit.now ≡ 272 + sector) × (is_met met.now sector ≡ true))) }
{
    let sector = unit[2];
    if unit[1] != CATALOG_TRACK || sector == 0 || sector > 15 || met[sector as usize] {
        return None;
    }
    Some(sector)
}

impl<A: Allocator> Catalog<A> {
    ghost use Rattle.dos_catalog.specs.Found.{AreOnTrack, IsSlotOnTrack};
    ghost use Rattle.dos_catalog.specs.Listed.{sectors_of_catalog, entries_of_catalog, free_slot_of_catalog};

    // Takes one sector with its entries.
    fn take(&mut self, place: u32, unit: &[u8; 256]) -> Result<(), AllocError>
        ensures sectors { OnOk result (self.new.sectors.items ≡ self.old.sectors.items ++ place ∷ []) }
        ensures entries { OnOk result (self.new.entries.items ≡ self.old.entries.items ++ entries_of place unit.now) }
        ensures free { OnOk result (self.new.free ≡ option_or self.old.free (first_free_of place unit.now)) }
    {
        self.sectors.push(place)?;
        take_entries(place, unit, &mut self.entries)?;
        self.free = self.free.or(first_free(place, unit));
        Ok(())
    }

    // Reads one sector and takes it.
    fn read<D: Device>(
        &mut self,
        device: &mut D,
        place: u32,
        unit: &mut [u8; 256],
    ) -> Result<(), WalkError>
        requires unit { (D.state device.old).unit_size ≡ 256 }
        requires place { place < (D.state device.old).places }

        ensures device { OnlyReads (met_device result) (D.state device.old) (D.state device.new) }
        ensures no_fault { IfErr result (λ e. (fault : Fault) → e ≢ AFault fault) }
        ensures sectors { OnOk result (self.new.sectors.items ≡ self.old.sectors.items ++ place ∷ []) }
        ensures entries { OnOk result (self.new.entries.items ≡ self.old.entries.items ++ entries_of place unit.new) }
        ensures free { OnOk result (self.new.free ≡ option_or self.old.free (first_free_of place unit.new)) }
        ensures unit { IsTrue (D.state device.old).honest
            → OnOk result (unit.new ≡ unit_at (D.state device.old).store place) }
    {
        if device.read(place, unit).is_err() {
            return Err(WalkError::Device);
        }
        self.take(place, unit)?;
        Ok(())
    }

    /// Walks over the catalog of the volume that has this VTOC.
    ///
    /// # Errors
    /// `Fault` with `CatalogLink`, which names the sector with a link that is none of track 17, sectors 1 to 15, or
    /// leads to a sector already met; `Device` where a read fails; `Memory`.
    pub fn walk<D: Device>(alloc: A, device: &mut D, vtoc: &Vtoc) -> Result<Catalog<A>, WalkError>
    where
        A: Copy,
        requires unit { (D.state device.old).unit_size ≡ 256 }
        requires places { (D.state device.old).places ≡ 560 }

        ensures device { OnlyReads (met_device result) (D.state device.old) (D.state device.new) }
        ensures found { IfOk result (λ catalog. AreOnTrack (entries_of_catalog catalog)) }
        ensures free_found { IfOk result (λ catalog. IfSome (free_slot_of_catalog catalog) IsSlotOnTrack) }
        ensures listed { IsTrue (D.state device.old).honest → vtoc.now ≡ unit_at (D.state device.old).store 272
            → IfOk result (λ catalog. IsCatalog (D.state device.old).store (sectors_of_catalog catalog)
            × (entries_of_catalog catalog ≡ entries_in (D.state device.old).store (sectors_of_catalog catalog))) }
        ensures free { IsTrue (D.state device.old).honest → vtoc.now ≡ unit_at (D.state device.old).store 272
            → IfOk result (λ catalog. free_slot_of_catalog catalog
            ≡ slice_get (free_slots_in (D.state device.old).store (sectors_of_catalog catalog)) 0) }
        ensures refused { IsTrue (D.state device.old).honest → vtoc.now ≡ unit_at (D.state device.old).store 272
            → IfErr result (λ e. (fault : Fault) → e ≡ AFault fault
            → CatalogFaultAt (D.state device.old).store fault
            × ((sectors : List ℕ) → ¬ IsCatalog (D.state device.old).store sectors)) }
    {
        let mut unit = *vtoc.bytes();
        let mut holder = VTOC_PLACE;
        let mut met = [false; 16];
        let mut catalog = Catalog {
            sectors: Vec::new(alloc),
            entries: Vec::new(alloc),
            free: None,
        };
        while unit[1] != 0 {
            let Some(sector) = next_sector(&unit, &met) else {
                return Err(WalkError::Fault(Fault::CatalogLink(holder)));
            };
            holder = VTOC_PLACE + sector as u32;
            met[sector as usize] = true;
            catalog.read(device, holder, &mut unit)?;
        }
        Ok(catalog)
    }

    /// The places of the catalog's sectors, in the order of their links.
    pub fn sectors(&self) -> &[u32]
        ensures { result.now ≡ sectors_of_catalog self.now }
    {
        self.sectors.as_slice()
    }

    /// The entries in use, in catalog order.
    pub fn entries(&self) -> &[Entry]
        ensures { result.now ≡ entries_of_catalog self.now }
    {
        self.entries.as_slice()
    }

    /// The place of a sector and the number of a slot there: the first slot in catalog order whose entry was never used
    /// or is deleted.
    pub fn free_slot(&self) -> Option<(u32, u32)>
        ensures { result ≡ free_slot_of_catalog self.now }
    {
        self.free
    }
}
