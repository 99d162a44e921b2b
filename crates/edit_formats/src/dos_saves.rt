// DOS 3.3 as a format to which files are saved.
ghost use Rattle.std.specs.Prelude.{◌≡◌, ◌≢◌, ◌<◌, ℕ, true, List, length, Err, IfErr, IfOk, IfSome, IsTrue};
ghost use Rattle.a2_device.specs.Device.{OnlyReads, unit_at};
ghost use Rattle.dos_vtoc.specs.Vtoc.{HasGeometry};
ghost use Rattle.dos_catalog.specs.Catalog.{IsCatalog};
ghost use Rattle.dos_catalog.specs.Found.{IsSlotOnTrack};
ghost use Rattle.dos_catalog.specs.Listed.{free_slot_of_catalog};
ghost use Rattle.dos_catalog.specs.Writes.{slot_offset, with_bytes, entry_bytes};
ghost use Rattle.dos_catalog.specs.declared.slot.NewEntry.{NewEntry};
ghost use Rattle.edit_formats.specs.DosNames.{is_dos_name};
ghost use Rattle.edit_formats.specs.Refusal.{told_device};
ghost use Rattle.edit_formats.specs.Renamed.{IsReadRefusal};
ghost use Rattle.edit_formats.specs.DosSaves.{new_entry, HasWalked};

use crate::{
    Attributes, EditError, Extent, NewFileError, NewPart, Prepared, SavableFormat, Slot, Target,
    alone, build_list, copy_unit, dos_name, dos_parts, has_name, is_dos_name, refusal,
};
use a2_device::Device;
use dos_catalog::{Catalog, NewEntry, encode};
use dos_format::{Dos33, read_vtoc};
use dos_vtoc::Vtoc;
use std::alloc::Allocator;

/// Where the VTOC stands, which leads to the catalog.
const VTOC_PLACE: u32 = 272;

/// The units of the longest file.
const UNITS: usize = 560;

// The catalog to which a VTOC leads.
fn walk_from<D: Device, A: Allocator + Copy>(
    alloc: A,
    device: &mut D,
    vtoc: &Vtoc,
) -> Result<Catalog<A>, EditError>
    requires unit { (D.state device.old).unit_size ≡ 256 }
    requires places { (D.state device.old).places ≡ 560 }
    ensures device { OnlyReads (told_device result) (D.state device.old) (D.state device.new) }
    ensures refused { IfErr result IsReadRefusal }
    ensures slot { IfOk result (λ catalog. IfSome (free_slot_of_catalog catalog) IsSlotOnTrack) }
    ensures walked { IsTrue (D.state device.old).honest → vtoc.now ≡ unit_at (D.state device.old).store 272
        → IfOk result (HasWalked (D.state device.old).store) }
    ensures described { IsTrue (D.state device.old).honest → vtoc.now ≡ unit_at (D.state device.old).store 272
        → ((sectors : List ℕ) × IsCatalog (D.state device.old).store sectors) → result ≢ Err EditError.Check }
{
    match Catalog::walk(alloc, device, vtoc) {
        Ok(catalog) => Ok(catalog),
        Err(error) => Err(refusal(error)),
    }
}

// The catalog, as it stands on the device.
fn walk_catalog<D: Device, A: Allocator + Copy>(
    alloc: A,
    device: &mut D,
) -> Result<Catalog<A>, EditError>
    requires unit { (D.state device.old).unit_size ≡ 256 }
    requires places { (D.state device.old).places ≡ 560 }
    ensures device { OnlyReads (told_device result) (D.state device.old) (D.state device.new) }
    ensures refused { IfErr result IsReadRefusal }
    ensures slot { IfOk result (λ catalog. IfSome (free_slot_of_catalog catalog) IsSlotOnTrack) }
    ensures walked { IsTrue (D.state device.old).honest → IfOk result (HasWalked (D.state device.old).store) }
    ensures described { IsTrue (D.state device.old).honest → HasGeometry (unit_at (D.state device.old).store 272)
        → ((sectors : List ℕ) × IsCatalog (D.state device.old).store sectors) → result ≢ Err EditError.Check }
{
    match read_vtoc(device) {
        Ok(vtoc) => walk_from(alloc, device, &vtoc),
        Err(error) => Err(refusal(error)),
    }
}

// The entry of a new file.
fn new_entry(path: &[u8], attributes: &Attributes, extent: &Extent) -> NewEntry
    requires { is_dos_name path.now ≡ true }
    ensures { result ≡ new_entry path.now attributes.now extent.now }
{
    NewEntry {
        pointer: extent.first,
        kind: attributes.kind,
        name: dos_name(path),
        sectors: extent.parts,
    }
}

// A sector of the catalog with a new entry in a slot.
fn with_entry<A: Allocator>(mut sector: Vec<u8, A>, slot: u32, entry: &NewEntry) -> Vec<u8, A>
    requires sector { length sector.items ≡ 256 }
    requires slot { slot < 7 }
    requires pointer { entry.now.pointer < 560 }
    ensures value { result.items ≡ with_bytes (slot_offset slot) (entry_bytes entry.now) sector.items }
    ensures size { length result.items ≡ 256 }
{
    encode(&mut sector, slot, entry);
    sector
}

impl<A: Allocator + Copy> SavableFormat for Dos33<A> {
    ghost use Rattle.edit_formats.specs.DosSaves.{dos_saves};
    ghost use Rattle.edit_formats.specs.lemmas.DosSavable.{dos_is_savable};

    ghost saves = { λ f. dos_saves };

    fn target<D: Device, B: Allocator + Copy>(
        &self,
        alloc: B,
        device: &mut D,
        path: &[u8],
    ) -> Result<Target, EditError> {
        if !is_dos_name(path) {
            return Ok(Target::NoName);
        }
        let catalog = walk_catalog(alloc, device)?;
        if has_name(catalog.entries(), &dos_name(path)) {
            return Ok(Target::InUse);
        }
        match catalog.free_slot() {
            None => Ok(Target::Full),
            Some((place, number)) => Ok(Target::At(Slot {
                directory: VTOC_PLACE,
                place,
                number,
            })),
        }
    }

    fn is_too_long(&self, _: u32, units: usize) -> bool {
        units > UNITS
    }

    fn parts<B: Allocator>(
        &self,
        alloc: B,
        stored: &[bool],
    ) -> Result<Vec<NewPart, B>, NewFileError> {
        dos_parts(alloc, stored)
    }

    fn build(&self, parts: &[NewPart], places: &[u32], at: usize, unit: &mut [u8]) {
        build_list(parts, places, at, unit);
    }

    fn enter<D: Device, B: Allocator + Copy>(
        &self,
        alloc: B,
        device: &mut D,
        path: &[u8],
        slot: Slot,
        attributes: &Attributes,
        extent: &Extent,
    ) -> Result<Vec<Prepared<B>, B>, EditError> {
        let sector = copy_unit(alloc, device, slot.place)?;
        let entry = new_entry(path, attributes, extent);
        let unit = with_entry(sector, slot.number, &entry);
        let place = slot.place;
        Ok(alone(alloc, Prepared { place, unit })?)
    }

    ghost savable = { λ f. dos_is_savable f.data_disk f.reserved };
}
