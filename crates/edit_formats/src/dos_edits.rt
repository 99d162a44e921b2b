// DOS 3.3 as a format whose files are changed.
ghost use Rattle.std.specs.Prelude.{◌≡◌, ◌<◌, length};
ghost use Rattle.dos_catalog.specs.Writes.{erased};
ghost use Rattle.edit_formats.specs.DosEdits.{dos_locked};

use crate::dos_naming::{dos_name, has_name, is_dos_name, is_locked};
use crate::{EditError, EditableFormat, Prepared, alone, copy_unit};
use a2_device::Device;
use dos_catalog::{erase, set_kind, set_name};
use dos_format::{Dos33, DosVolume};
use std::alloc::Allocator;

/// Where an entry has its kind.
const KIND: usize = 0x02;

/// The bit of the kind that locks a file.
const LOCKED: u8 = 0x80;

// A kind with the bit that locks on or off.
fn locked_kind(kind: u8, on: bool) -> u8
    ensures { result ≡ dos_locked on kind }
{
    if on { kind | LOCKED } else { kind % LOCKED }
}

// A sector of the catalog whose entry in a slot is deleted.
fn erased<A: Allocator>(mut sector: Vec<u8, A>, slot: u32) -> Vec<u8, A>
    requires sector { length sector.items ≡ 256 }
    requires slot { slot < 7 }
    ensures value { result.items ≡ erased slot sector.items }
    ensures size { length result.items ≡ 256 }
{
    erase(&mut sector, slot);
    sector
}

impl<A: Allocator + Copy> EditableFormat for Dos33<A> {
    ghost use Rattle.dos_format.specs.lemmas.FileFree.{dos_is_file_free};
    ghost use Rattle.edit_formats.specs.DosEdits.{dos_edits};
    ghost use Rattle.edit_formats.specs.DosErasing.{dos_erasures};
    ghost use Rattle.edit_formats.specs.DosNames.{dos_names};
    ghost use Rattle.edit_formats.specs.lemmas.DosErasable.{dos_is_erasable};
    ghost use Rattle.edit_formats.specs.lemmas.DosLocking.{dos_is_lockable};
    ghost use Rattle.edit_formats.specs.lemmas.DosNaming.{dos_is_namable};

    ghost edits = { λ f. dos_edits };

    fn put_lock(&self, volume: &DosVolume<A>, file: u32, unit: &mut [u8], on: bool) {
        let entry = &volume.catalog().entries()[file as usize];
        set_kind(unit, entry.slot, locked_kind(entry.bytes[KIND], on));
    }

    ghost file_free = { λ f. dos_is_file_free f.data_disk f.reserved };

    ghost lockable = { λ f. dos_is_lockable f.data_disk f.reserved };

    ghost names = { λ f. dos_names };

    fn may_have(&self, name: &[u8]) -> bool {
        is_dos_name(name)
    }

    fn has_beside<D: Device, B: Allocator + Copy>(
        &self,
        _: B,
        _: &mut D,
        volume: &DosVolume<A>,
        _: u32,
        name: &[u8],
    ) -> Result<bool, EditError> {
        Ok(has_name(volume.catalog().entries(), &dos_name(name)))
    }

    fn keeps_name(&self, volume: &DosVolume<A>, file: u32) -> bool {
        is_locked(&volume.catalog().entries()[file as usize])
    }

    fn put_name(&self, volume: &DosVolume<A>, file: u32, unit: &mut [u8], name: &[u8]) {
        let entry = &volume.catalog().entries()[file as usize];
        set_name(unit, entry.slot, &dos_name(name));
    }

    ghost namable = { λ f. dos_is_namable f.data_disk f.reserved };

    ghost erasures = { λ f. dos_erasures };

    fn protects_file(&self, volume: &DosVolume<A>, file: u32) -> bool {
        is_locked(&volume.catalog().entries()[file as usize])
    }

    fn erase<D: Device, B: Allocator + Copy>(
        &self,
        alloc: B,
        device: &mut D,
        volume: &DosVolume<A>,
        file: u32,
    ) -> Result<Vec<Prepared<B>, B>, EditError> {
        let entry = &volume.catalog().entries()[file as usize];
        let sector = copy_unit(alloc, device, entry.place)?;
        let unit = erased(sector, entry.slot);
        let place = entry.place;
        Ok(alone(alloc, Prepared { place, unit })?)
    }

    ghost erasable = { λ f. dos_is_erasable f.data_disk f.reserved };
}
