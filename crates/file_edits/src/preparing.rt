// The writes that save a new file or make a directory, made ready before the first of them.
ghost use Rattle.std.specs.Prelude.{◌≡◌, ◌≢◌, ◌<◌, ◌*◌, ◌++◌, ℕ, [], false, length, map, true};
ghost use Rattle.std.specs.Prelude.{All, Err, IfErr, IfOk, IsTrue};
ghost use Rattle.a2_device.specs.Device.{OnlyReads};
ghost use Rattle.vol_format.specs.Accepted.{IsAccepted};
ghost use Rattle.vol_format.specs.Fits.{Fits};
ghost use Rattle.pro_format.specs.Pro.{pro_meaning};
ghost use Rattle.edit_formats.specs.Prepared.{write_of, AreOfSize, GoBelow};
ghost use Rattle.edit_formats.specs.Refusal.{told_device, IsPrepareRefusal};
ghost use Rattle.edit_formats.specs.declared.target.Target.TheVariants.{At};
ghost use Rattle.edit_formats.specs.Saves.{IsSlotWithin};
ghost use Rattle.edit_formats.specs.ProNames.{is_pro_name};
ghost use Rattle.edit_formats.specs.ProSaves.{last_name, IsProTarget};
ghost use Rattle.file_edits.specs.Fitting.{AreWritesFor};
ghost use Rattle.file_edits.specs.Given.{HasUnitsOf};
ghost use Rattle.file_edits.specs.Placing.{placed_extent, read_volume, HasFirstPlaces, HasPlacedWrites};
ghost use Rattle.file_edits.specs.Saved.{IsSaveRefusal};
ghost use Rattle.file_edits.specs.Saving.{saving_of, AreWritesOf, IsToldOf};
ghost use Rattle.file_edits.specs.Slots.{IsEnterable};
ghost use Rattle.file_edits.specs.Places.{free_places};
ghost use Rattle.file_edits.specs.Making.{making, making_writes, placing_writes};
ghost use Rattle.file_edits.specs.DirectorySlots.{IsPlaceRefusal};
ghost use Rattle.file_edits.specs.Made.{IsMaking, IsMakingRefusal, IsTold};
ghost use Rattle.file_edits.specs.Preparing.{read_directory, IsPlacedWithin};

use crate::block_marking::marked_writes;
use crate::building::part_writes;
use crate::directory_entering::{PlacedDirectory, directory_entry_writes};
use crate::directory_slots::free_directory_slot;
use crate::free_block::first_place;
use crate::given::NewFile;
use crate::new_block::directory_block;
use crate::places::first_places;
use crate::slots::free_file_slot;
use a2_device::Device;
use edit_formats::{
    EditError, Extent, NewFileError, NewPart, Prepared, SavableFormat, Slot, mark_all,
};
use pro_dir::ProDate;
use pro_format::{ProVolume, Prodos};
use std::alloc::{AllocError, Allocator};

// A new file, and where it goes: its entry into a slot, and each of its parts to a place.
#[derive(Clone, Copy)]
struct PlacedFile<'a> {
    file: NewFile<'a>,
    slot: Slot,
    parts: &'a [NewPart],
    places: &'a [u32],
}

// Writes behind others.
fn joined<A: Allocator>(
    mut first: Vec<Prepared<A>, A>,
    mut then: Vec<Prepared<A>, A>,
) -> Result<Vec<Prepared<A>, A>, AllocError>
    ensures items { IfOk result (λ all. all.items ≡ first.items ++ then.items) }
    ensures few { IfOk result (λ all. length (map write_of all.items) < 18446744073709551616) }
{
    first.append(&mut then)?;
    Ok(first)
}

// A date has four bytes, as its type says; what a format promises of an entry asks for it.
fn measure_date(date: &ProDate)
    ensures { length date.now.0 ≡ 4 }
{
    let bytes: &[u8] = &date.0;
    prove!(bytes.len() == 4);
}

// The parts of a file that is not too long.
fn parts_of<F: SavableFormat, A: Allocator>(
    alloc: A,
    format: &F,
    stored: &[bool],
) -> Result<Vec<NewPart, A>, EditError>
    requires { (F.saves format.now).too_long 0 (length stored.now) ≡ false }
    ensures parts { IfOk result (λ parts. parts.items ≡ (F.saves format.now).parts stored.now) }
    ensures refused { IfErr result (λ error. error ≡ EditError.Memory) }
{
    match format.parts(alloc, stored) {
        Ok(parts) => Ok(parts),
        Err(NewFileError::TooLong) => Err(EditError::TooLong),
        Err(NewFileError::Memory) => Err(EditError::Memory),
    }
}

// The writes of the parts, and behind them those that mark their places used.
fn placed_file_writes<D: Device, F: SavableFormat, A: Allocator + Copy>(
    alloc: A,
    device: &mut D,
    format: &F,
    volume: &F::Volume,
    placed: &PlacedFile<'_>,
) -> Result<Vec<Prepared<A>, A>, EditError>
    requires fits { Fits (F.meaning format.now) (D.state device.old) }
    requires volume { (F.directory format.now volume.now).places ≡ (D.state device.old).places }
    requires short { (F.saves format.now).too_long 0 (length placed.now.file.stored.now) ≡ false }
    requires places { HasFirstPlaces (F.saves format.now) (F.directory format.now volume.now) placed.now }
    requires units { HasUnitsOf (F.meaning format.now) placed.now.file }

    ensures device { OnlyReads (told_device result) (D.state device.old) (D.state device.new) }
    ensures refused { IfErr result IsPrepareRefusal }
    ensures fit { IfOk result (λ writes. AreWritesFor (D.state device.old) writes.items) }
    ensures placed { IfOk result (λ writes. HasPlacedWrites (read_volume (F.meaning format.now) (F.saves format.now)
        (F.directory format.now volume.now) (D.state device.old)) placed.now writes.items) }
{
    let start = part_writes(
        alloc,
        device.unit(),
        format,
        placed.parts,
        placed.places,
        placed.file.stored,
        placed.file.units,
    )?;
    mark_all(alloc, device, format, volume, placed.places, false, start)
}

// The writes that enter a file.
fn file_entry_writes<D: Device, F: SavableFormat, A: Allocator + Copy>(
    alloc: A,
    device: &mut D,
    format: &F,
    placed: &PlacedFile<'_>,
) -> Result<Vec<Prepared<A>, A>, EditError>
    requires fits { Fits (F.meaning format.now) (D.state device.old) }
    requires slot { IsSlotWithin (F.meaning format.now) (D.state device.old).places placed.now.slot }
    requires enterable { IsEnterable (F.saves format.now) placed.now.file }
    requires parts { length placed.now.parts.now < 65536 }
    requires some { 0 < length placed.now.places.now }
    requires places { (count : ℕ) × All ((F.meaning format.now).CanName count) placed.now.places.now }

    ensures device { OnlyReads (told_device result) (D.state device.old) (D.state device.new) }
    ensures refused { IfErr result IsPrepareRefusal }
    ensures fit { IfOk result (λ writes. AreWritesFor (D.state device.old) writes.items) }
    ensures enters { IsTrue (D.state device.old).honest → IfOk result (λ writes. map write_of writes.items
        ≡ (F.saves format.now).entering (D.state device.old).store placed.now.file.path.now placed.now.slot
        placed.now.file.attributes.now (placed_extent placed.now)) }
{
    let extent = Extent {
        units: placed.file.stored.len() as u32,
        parts: placed.parts.len() as u16,
        first: placed.places[0],
    };
    format.enter(
        alloc,
        device,
        placed.file.path,
        placed.slot,
        placed.file.attributes,
        &extent,
    )
}

// The writes that save a file whose parts have the first free places of the volume.
fn file_writes_at<D: Device, F: SavableFormat, A: Allocator + Copy>(
    alloc: A,
    device: &mut D,
    format: &F,
    volume: &F::Volume,
    placed: &PlacedFile<'_>,
) -> Result<Vec<Prepared<A>, A>, EditError>
    requires fits { Fits (F.meaning format.now) (D.state device.old) }
    requires volume { (F.directory format.now volume.now).places ≡ (D.state device.old).places }
    requires slot { IsSlotWithin (F.meaning format.now) (D.state device.old).places placed.now.slot }
    requires enterable { IsEnterable (F.saves format.now) placed.now.file }
    requires date { length placed.now.file.attributes.now.date.0 ≡ 4 }
    requires places { HasFirstPlaces (F.saves format.now) (F.directory format.now volume.now) placed.now }
    requires units { HasUnitsOf (F.meaning format.now) placed.now.file }

    // every device
    ensures device { OnlyReads (told_device result) (D.state device.old) (D.state device.new) }
    ensures refused { IfErr result IsPrepareRefusal }
    ensures fit { IfOk result (λ writes. AreWritesFor (D.state device.old) writes.items) }

    // an honest device with an accepted volume, on which the path leads to the slot
    ensures saves { IsTrue (D.state device.old).honest
        → IsAccepted (F.meaning format.now) (F.directory format.now volume.now) (D.state device.old).store
        → (F.saves format.now).IsTarget (D.state device.old).store placed.now.file.path.now (At placed.now.slot)
        → IfOk result (λ writes. AreWritesOf (saving_of (F.meaning format.now) (F.saves format.now)
        (D.state device.old).store placed.now.file) (map write_of writes.items)) }
{
    let placing = placed_file_writes(alloc, device, format, volume, placed)?;
    let entering = file_entry_writes(alloc, device, format, placed)?;
    Ok(joined(placing, entering)?)
}

/// The writes that save a file to an accepted volume.
pub(crate) fn prepare_file<D: Device, F: SavableFormat, A: Allocator + Copy>(
    alloc: A,
    device: &mut D,
    format: &F,
    volume: &F::Volume,
    file: &NewFile<'_>,
) -> Result<Vec<Prepared<A>, A>, EditError>
    requires fits { Fits (F.meaning format.now) (D.state device.old) }
    requires volume { (F.directory format.now volume.now).places ≡ (D.state device.old).places }
    requires units { HasUnitsOf (F.meaning format.now) file.now }

    // every device
    ensures device { OnlyReads (told_device result) (D.state device.old) (D.state device.new) }
    ensures refused { IfErr result IsSaveRefusal }
    ensures fit { IfOk result (λ writes. AreWritesFor (D.state device.old) writes.items) }

    // an honest device with an accepted volume
    ensures saves { IsTrue (D.state device.old).honest
        → IsAccepted (F.meaning format.now) (F.directory format.now volume.now) (D.state device.old).store
        → IfOk result (λ writes. AreWritesOf (saving_of (F.meaning format.now) (F.saves format.now)
        (D.state device.old).store file.now) (map write_of writes.items)) }
    ensures told { IsTrue (D.state device.old).honest
        → IsAccepted (F.meaning format.now) (F.directory format.now volume.now) (D.state device.old).store
        → IsToldOf (saving_of (F.meaning format.now) (F.saves format.now) (D.state device.old).store file.now) result }
    ensures described { IsTrue (D.state device.old).honest
        → (F.meaning format.now).Describes (D.state device.old).store (F.directory format.now volume.now)
        → result ≢ Err EditError.Check }
{
    measure_date(&file.attributes.date);
    let slot = free_file_slot(alloc, device, format, file)?;
    let parts = parts_of(alloc, format, file.stored)?;
    let places = first_places(alloc, format, volume, parts.len())?;
    let placed = PlacedFile {
        file: *file,
        slot,
        parts: parts.as_slice(),
        places: places.as_slice(),
    };
    file_writes_at(alloc, device, format, volume, &placed)
}

// The writes of the new block and of the mark of its place.
fn block_writes<D: Device, B: Allocator + Copy, A: Allocator + Copy>(
    alloc: A,
    device: &mut D,
    format: &Prodos<B>,
    volume: &ProVolume<B>,
    placed: &PlacedDirectory<'_>,
) -> Result<Vec<Prepared<A>, A>, EditError>
    requires fits { Fits (pro_meaning format.now) (D.state device.old) }
    requires volume { (read_directory volume.now).places ≡ (D.state device.old).places }
    requires placed { IsPlacedWithin (D.state device.old).places placed.now }

    ensures device { OnlyReads (told_device result) (D.state device.old) (D.state device.new) }
    ensures refused { IfErr result IsPrepareRefusal }
    ensures inside { IfOk result (λ writes. GoBelow (D.state device.old).places writes.items) }
    ensures sizes { IfOk result (λ writes. AreOfSize (D.state device.old).unit_size writes.items) }
    ensures made { IsTrue (D.state device.old).honest → IfOk result (λ writes. map write_of writes.items
        ≡ placing_writes (making format.now (D.state device.old).store placed.now.path.now placed.now.date)
        (read_directory volume.now) placed.now.slot placed.now.place) }
{
    let unit = directory_block(alloc, placed.path, &placed.slot, &placed.date)?;
    let place = placed.place;
    marked_writes(alloc, device, format, volume, Prepared { place, unit })
}

// The writes that make a directory whose slot and whose place are known.
fn placed_directory_writes<D: Device, B: Allocator + Copy, A: Allocator + Copy>(
    alloc: A,
    device: &mut D,
    format: &Prodos<B>,
    volume: &ProVolume<B>,
    placed: &PlacedDirectory<'_>,
) -> Result<Vec<Prepared<A>, A>, EditError>
    requires fits { Fits (pro_meaning format.now) (D.state device.old) }
    requires volume { (read_directory volume.now).places ≡ (D.state device.old).places }
    requires placed { IsPlacedWithin (D.state device.old).places placed.now }

    ensures device { OnlyReads (told_device result) (D.state device.old) (D.state device.new) }
    ensures refused { IfErr result IsPrepareRefusal }
    ensures fit { IfOk result (λ writes. AreWritesFor (D.state device.old) writes.items) }
    ensures few { IfOk result (λ writes. length (map write_of writes.items) < 18446744073709551616) }
    ensures made { IsTrue (D.state device.old).honest → IfOk result (λ writes. map write_of writes.items
        ≡ making_writes (making format.now (D.state device.old).store placed.now.path.now placed.now.date)
        (read_directory volume.now) placed.now.slot placed.now.place) }
{
    let block = block_writes(alloc, device, format, volume, placed)?;
    let entry = directory_entry_writes(alloc, device, placed)?;
    Ok(joined(block, entry)?)
}

// The writes that make a directory whose entry gets a slot: its block gets the first free place.
fn directory_writes_at<D: Device, B: Allocator + Copy, A: Allocator + Copy>(
    alloc: A,
    device: &mut D,
    format: &Prodos<B>,
    volume: &ProVolume<B>,
    path: &[u8],
    date: ProDate,
    slot: Slot,
) -> Result<Vec<Prepared<A>, A>, EditError>
    requires fits { Fits (pro_meaning format.now) (D.state device.old) }
    requires volume { (read_directory volume.now).places ≡ (D.state device.old).places }
    requires slot { IsSlotWithin (pro_meaning format.now) (D.state device.old).places slot }
    requires name { is_pro_name (last_name path.now) ≡ true }

    // every device
    ensures device { OnlyReads (told_device result) (D.state device.old) (D.state device.new) }
    ensures refused { IfErr result IsPlaceRefusal }
    ensures fit { IfOk result (λ writes. AreWritesFor (D.state device.old) writes.items) }

    // an honest device with an accepted volume, on which the path leads to the slot
    ensures made { IsTrue (D.state device.old).honest
        → IsAccepted (pro_meaning format.now) (read_directory volume.now) (D.state device.old).store
        → IsProTarget (D.state device.old).store path.now (At slot)
        → IfOk result (λ writes. IsMaking (making format.now (D.state device.old).store path.now date)
        (map write_of writes.items)) }
    ensures full { result ≡ Err EditError.VolumeFull → free_places (read_directory volume.now) ≡ [] }
{
    measure_date(&date);
    match first_place(alloc, format, volume) {
        Err(error) => Err(error),
        Ok(place) => {
            let placed = PlacedDirectory {
                path,
                date,
                slot,
                place,
            };
            placed_directory_writes(alloc, device, format, volume, &placed)
        }
    }
}

/// The writes that make a directory on an accepted volume.
///
/// # Errors
/// `NotFound`, `Name`, `Exists`, `DirFull` and `VolumeFull`, each on its cause; `Device` where a read fails; `Memory`.
pub(crate) fn prepare_directory<D: Device, B: Allocator + Copy, A: Allocator + Copy>(
    alloc: A,
    device: &mut D,
    format: &Prodos<B>,
    volume: &ProVolume<B>,
    path: &[u8],
    date: ProDate,
) -> Result<Vec<Prepared<A>, A>, EditError>
    requires fits { Fits (pro_meaning format.now) (D.state device.old) }
    requires volume { (read_directory volume.now).places ≡ (D.state device.old).places }

    // every device
    ensures device { OnlyReads (told_device result) (D.state device.old) (D.state device.new) }
    ensures refused { IfErr result IsMakingRefusal }
    ensures fit { IfOk result (λ writes. AreWritesFor (D.state device.old) writes.items) }

    // an honest device with an accepted volume
    ensures made { IsTrue (D.state device.old).honest
        → IsAccepted (pro_meaning format.now) (read_directory volume.now) (D.state device.old).store
        → IfOk result (λ writes. IsMaking (making format.now (D.state device.old).store path.now date)
        (map write_of writes.items)) }
    ensures told { IsTrue (D.state device.old).honest
        → IsAccepted (pro_meaning format.now) (read_directory volume.now) (D.state device.old).store
        → IfErr result (IsTold (making format.now (D.state device.old).store path.now date)) }
    ensures described { IsTrue (D.state device.old).honest
        → (pro_meaning format.now).Describes (D.state device.old).store (read_directory volume.now)
        → result ≢ Err EditError.Check }
{
    match free_directory_slot(alloc, device, format, path) {
        Err(error) => Err(error),
        Ok(slot) => directory_writes_at(alloc, device, format, volume, path, date, slot),
    }
}
