// ProDOS as a format to which files are saved.
ghost use Rattle.std.specs.Prelude.{
  ◌≡◌,
  ◌≢◌,
  ◌<◌,
  ◌≤◌,
  ℕ,
  true,
  List,
  length,
  slice_get,
  Err,
  IfErr,
  IfOk,
  IfSome,
  IsTrue,
};
ghost use Rattle.a2_device.specs.Device.{OnlyReads};
ghost use Rattle.pro_dir.specs.Entry.{free_slots_in};
ghost use Rattle.pro_dir.specs.Listed.{directory_of, free_slot_of};
ghost use Rattle.pro_dir.specs.Tree.{IsRun};
ghost use Rattle.pro_dir.specs.Volume.{Directory as Tree, Describes};
ghost use Rattle.pro_dir.specs.Walk.{IsKeyOf};
ghost use Rattle.pro_dir.specs.Within.{IsFreeWithin};
ghost use Rattle.pro_dir.specs.Writes.{entry_bytes, slot_offset, with_bytes};
ghost use Rattle.edit_formats.specs.ProNames.{is_pro_name};
ghost use Rattle.edit_formats.specs.Refusal.{told_device};
ghost use Rattle.edit_formats.specs.Renamed.{IsReadRefusal};
ghost use Rattle.edit_formats.specs.ProSaves.{last_name, new_file, IsDirectoryAt};

use crate::paths::{directory_above, find_directory, is_in_use, last_name};
use crate::{
    Attributes, EditError, Extent, FileCount, NewFileError, NewPart, Prepared, SavableFormat, Slot,
    Target, build_index, build_master, copy_unit, counted_writes, is_pro_name, pro_name, pro_parts,
    pro_storage, refusal,
};
use a2_device::{Device, PartKind};
use pro_dir::{NewFile, VolumeDir, encode};
use pro_format::Prodos;
use std::alloc::Allocator;

/// The units of the longest file, and its bytes.
const UNITS: usize = 32768;

const BYTES: u32 = 0xff_ffff;

/// The access bits of a new file: it may be destroyed, renamed, written and read, and is to be backed up.
const ACCESS: u8 = 0xe3;

// The directories, as they stand on the device.
fn walk_directories<D: Device, A: Allocator + Copy>(
    alloc: A,
    device: &mut D,
) -> Result<VolumeDir<A>, EditError>
    requires unit { (D.state device.old).unit_size ≡ 512 }
    requires places { 16 ≤ (D.state device.old).places }
    ensures device { OnlyReads (told_device result) (D.state device.old) (D.state device.new) }
    ensures refused { IfErr result IsReadRefusal }
    ensures slots { IfOk result (λ walked. (key : ℕ)
        → IfSome (free_slot_of walked key) (IsFreeWithin (D.state device.old).places key)) }
    ensures walked { IsTrue (D.state device.old).honest
        → IfOk result (λ walked. Describes (D.state device.old).store (directory_of walked)) }
    ensures free { IsTrue (D.state device.old).honest
        → IfOk result (λ walked. (key : ℕ) (own : List ℕ) → IsKeyOf (directory_of walked).entries key
        → IsRun (D.state device.old).store key own
        → free_slot_of walked key ≡ slice_get (free_slots_in (D.state device.old).store key own) 0) }
    ensures described { (tree : Tree) → IsTrue (D.state device.old).honest → Describes (D.state device.old).store tree
        → result ≢ Err EditError.Check }
{
    match VolumeDir::walk(alloc, device) {
        Ok(walked) => Ok(walked),
        Err(error) => Err(refusal(error)),
    }
}

/// The key block of the first directory of a ProDOS volume that has a path, if one has. The letters of the given path
/// are taken as capitals.
///
/// # Errors
/// `Device` where a read fails; `Memory`; `Check` where a device tells of directories that are none.
pub fn directory_at<D: Device, A: Allocator + Copy>(
    alloc: A,
    device: &mut D,
    path: &[u8],
) -> Result<Option<u32>, EditError>
    requires unit { (D.state device.old).unit_size ≡ 512 }
    requires places { 16 ≤ (D.state device.old).places }

    // every device
    ensures device { OnlyReads (told_device result) (D.state device.old) (D.state device.new) }
    ensures refused { IfErr result IsReadRefusal }

    // an honest device
    ensures found { IsTrue (D.state device.old).honest
        → IfOk result (IsDirectoryAt (D.state device.old).store path.now) }
    ensures described { (tree : Tree) → IsTrue (D.state device.old).honest → Describes (D.state device.old).store tree
        → result ≢ Err EditError.Check }
{
    match walk_directories(alloc, device) {
        Ok(walked) => Ok(find_directory(&walked, path)),
        Err(error) => Err(error),
    }
}

// The entry of a new file.
fn new_file(path: &[u8], slot: &Slot, attributes: &Attributes, extent: &Extent) -> NewFile
    requires { is_pro_name (last_name path.now) ≡ true }
    ensures { result ≡ new_file path.now slot.now attributes.now extent.now }
{
    let name = last_name(path);
    NewFile {
        storage: pro_storage(extent.units as usize),
        name: pro_name(name),
        len: name.len() as u8,
        kind: attributes.kind,
        key: extent.first,
        blocks: extent.parts,
        eof: attributes.eof,
        aux: attributes.aux,
        access: ACCESS,
        date: attributes.date,
        dir: slot.directory,
    }
}

// A block of a directory with the entry of a new file in a slot.
fn with_entry<A: Allocator>(mut block: Vec<u8, A>, slot: u32, file: &NewFile) -> Vec<u8, A>
    requires block { length block.items ≡ 512 }
    requires slot { slot < 13 }
    requires storage { file.now.storage < 16 }
    requires len { file.now.len ≤ 15 }
    requires key { file.now.key < 65536 }
    requires eof { file.now.eof < 16777216 }
    requires dir { file.now.dir < 65536 }
    ensures value { result.items ≡ with_bytes (slot_offset slot) (entry_bytes file.now) block.items }
    ensures size { length result.items ≡ 512 }
{
    encode(&mut block, slot, file);
    block
}

impl<A: Allocator + Copy> SavableFormat for Prodos<A> {
    ghost use Rattle.edit_formats.specs.ProSaves.{pro_saves};
    ghost use Rattle.edit_formats.specs.lemmas.ProSavable.{pro_is_savable};

    ghost saves = { λ f. pro_saves };

    fn target<D: Device, B: Allocator + Copy>(
        &self,
        alloc: B,
        device: &mut D,
        path: &[u8],
    ) -> Result<Target, EditError> {
        let places = device.places();
        let walked = walk_directories(alloc, device)?;
        let Some(directory) = directory_above(&walked, path) else {
            return Ok(Target::NoDirectory);
        };
        if directory >= places {
            return Err(EditError::Check);
        }
        let name = last_name(path);
        if !is_pro_name(name) {
            return Ok(Target::NoName);
        }
        if is_in_use(walked.entries(), directory, name) {
            return Ok(Target::InUse);
        }
        match walked.free_slot(directory) {
            None => Ok(Target::Full),
            Some((place, number)) => Ok(Target::At(Slot {
                directory,
                place,
                number,
            })),
        }
    }

    fn is_too_long(&self, eof: u32, units: usize) -> bool {
        units > UNITS || eof > BYTES
    }

    fn parts<B: Allocator>(
        &self,
        alloc: B,
        stored: &[bool],
    ) -> Result<Vec<NewPart, B>, NewFileError> {
        pro_parts(alloc, stored)
    }

    fn build(&self, parts: &[NewPart], places: &[u32], at: usize, unit: &mut [u8]) {
        match parts[at].kind {
            PartKind::Index => build_index(parts, places, at, unit),
            _ => build_master(parts, places, unit),
        }
    }

    fn enter<D: Device, B: Allocator + Copy>(
        &self,
        alloc: B,
        device: &mut D,
        path: &[u8],
        slot: Slot,
        attributes: &Attributes,
        extent: &Extent,
    ) -> Result<Vec<Prepared<B>, B>, EditError> {
        let block = copy_unit(alloc, device, slot.place)?;
        let file = new_file(path, &slot, attributes, extent);
        let unit = with_entry(block, slot.number, &file);
        let place = slot.place;
        let entered = Prepared { place, unit };
        counted_writes(alloc, device, FileCount::More, entered, slot.directory)
    }

    ghost savable = { λ f. pro_is_savable f };
}
