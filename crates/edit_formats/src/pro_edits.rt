// ProDOS as a format whose files are changed.
ghost use Rattle.std.specs.Prelude.{◌≡◌};
ghost use Rattle.edit_formats.specs.ProEdits.{pro_locked};

use crate::pro_erasing::{entry_of, erase_entry};
use crate::pro_naming::{has_name_beside, is_pro_name, pro_name, refusal};
use crate::{EditError, EditableFormat, Prepared};
use a2_device::Device;
use bitflags::Flags;
use pro_dir::{Access, VolumeDir, set_access, set_name};
use pro_format::{ProVolume, Prodos};
use std::alloc::Allocator;

// The access bits of a file that is locked or unlocked.
fn locked_access(access: Access, on: bool) -> u8
    ensures { result ≡ pro_locked on access.0 }
{
    if on {
        access.lock().bits()
    } else {
        access.unlock().bits()
    }
}

impl<A: Allocator + Copy> EditableFormat for Prodos<A> {
    ghost use Rattle.pro_format.proofs.FileFree.{pro_is_file_free};
    ghost use Rattle.edit_formats.specs.ProEdits.{pro_edits};
    ghost use Rattle.edit_formats.specs.ProErasing.{pro_erasures};
    ghost use Rattle.edit_formats.specs.ProNames.{pro_names};
    ghost use Rattle.edit_formats.specs.lemmas.ProErasable.{pro_is_erasable};
    ghost use Rattle.edit_formats.specs.lemmas.ProLocking.{pro_is_lockable};
    ghost use Rattle.edit_formats.specs.lemmas.ProNaming.{pro_is_namable};

    ghost edits = { λ f. pro_edits };

    fn put_lock(&self, volume: &ProVolume<A>, file: u32, unit: &mut [u8], on: bool) {
        let entry = &volume.directory().entries()[file as usize];
        set_access(unit, entry.slot as u32, locked_access(entry.access(), on));
    }

    ghost file_free = { λ f. pro_is_file_free f };

    ghost lockable = { λ f. pro_is_lockable f };

    ghost names = { λ f. pro_names };

    fn may_have(&self, name: &[u8]) -> bool {
        is_pro_name(name)
    }

    fn has_beside<D: Device, B: Allocator + Copy>(
        &self,
        alloc: B,
        device: &mut D,
        _: &ProVolume<A>,
        file: u32,
        name: &[u8],
    ) -> Result<bool, EditError> {
        let walked = match VolumeDir::walk(alloc, device) {
            Ok(walked) => walked,
            Err(error) => return Err(refusal(error)),
        };
        Ok(has_name_beside(walked.entries(), file, name))
    }

    fn keeps_name(&self, volume: &ProVolume<A>, file: u32) -> bool {
        let entry = &volume.directory().entries()[file as usize];
        !entry.access().can_rename()
    }

    fn put_name(&self, volume: &ProVolume<A>, file: u32, unit: &mut [u8], name: &[u8]) {
        let entry = &volume.directory().entries()[file as usize];
        set_name(unit, entry.slot as u32, &pro_name(name), name.len() as u8);
    }

    ghost namable = { λ f. pro_is_namable f };

    ghost erasures = { λ f. pro_erasures };

    fn protects_file(&self, volume: &ProVolume<A>, file: u32) -> bool {
        let entry = &volume.directory().entries()[file as usize];
        !entry.access().can_destroy()
    }

    fn erase<D: Device, B: Allocator + Copy>(
        &self,
        alloc: B,
        device: &mut D,
        _: &ProVolume<A>,
        file: u32,
    ) -> Result<Vec<Prepared<B>, B>, EditError> {
        let walked = match VolumeDir::walk(alloc, device) {
            Ok(walked) => walked,
            Err(error) => return Err(refusal(error)),
        };
        match entry_of(walked.entries(), file) {
            Some(entry) => erase_entry(alloc, device, &entry),
            None => Err(EditError::Check),
        }
    }

    ghost erasable = { λ f. pro_is_erasable f };
}
