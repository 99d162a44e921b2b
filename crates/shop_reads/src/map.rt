// The job that draws where the parts of a volume stand.
ghost use Rattle.std.specs.Prelude.{◌≡◌, ◌≢◌, Err, IfOk, IsTrue, length};
ghost use Rattle.a2_device.specs.Device.{OnlyReads};
ghost use Rattle.vol_format.specs.Fits.{Fits};
ghost use Rattle.vol_check.specs.Told.{IsToldOf, told_of, volume_of};
ghost use Rattle.file_cmds.specs.Refusal.{told_device};
ghost use Rattle.shop_reads.specs.MapReply.{HasFaults, IsMapped, TellsMap};
ghost use Rattle.shop_reads.specs.MapStates.{IsMap};
ghost use Rattle.shop_reads.specs.MapSteps.{IsBareMap, IsPutOn};
ghost use Rattle.shop_volumes.specs.TellingFailures.{FailsForLack, tells_device};

use crate::listing::{ShownFormat, refusal_reply};
use crate::map_lines::map_text;
use crate::map_states::{put_parts, tell_reserved, vacant_states};
use crate::place_state::PlaceState;
use a2_device::Device;
use file_cmds::{CmdError, read_volume};
use shop_replies::{Failure, Reply};
use std::alloc::{AllocError, Global};
use vol_check::{Checked, check};
use vol_format::Format;
use vol_layout::PlaceForm;

/// The states of the places of a volume, and how many parts its files have.
#[derive(Drop)]
struct VolumeMap {
    parts: usize,
    places: Vec<PlaceState>,
}

// The map of a volume that was checked.
fn map_of<F: Format>(
    alloc: Global,
    format: &F,
    checked: &Checked<F::Volume>,
    places: u32,
) -> Result<VolumeMap, AllocError>
    requires places { places ≡ (F.directory format.now (volume_of checked.now)).places }
    requires told { IsToldOf (F.directory format.now (volume_of checked.now)) (told_of checked.now) }

    ensures parts { IfOk result (λ map. map.parts ≡ length (told_of checked.now).parts) }
    ensures size { IfOk result (λ map. length map.places.items ≡ places) }
    ensures places { IfOk result (λ map.
        IsPutOn (F.directory format.now (volume_of checked.now)) (told_of checked.now).parts map.places.items) }
{
    let vacant = vacant_states(alloc, format, checked.volume(), places)?;
    let parts = checked.parts();
    Ok(VolumeMap {
        parts: parts.len(),
        places: put_parts(parts, checked.layout().at(), vacant),
    })
}

// The map of the volume on a device, where it is accepted. What is reserved is told of as the system's own.
fn checked_map<D: Device, F: Format>(
    alloc: Global,
    device: &mut D,
    format: &F,
) -> Result<VolumeMap, CmdError>
    requires fits { Fits (F.meaning format.now) (D.state device.old) }

    ensures device { OnlyReads (told_device result) (D.state device.old) (D.state device.new) }
    ensures found { result ≢ Err CmdError.NotFound }
    ensures size { IfOk result (λ map. length map.places.items ≡ (D.state device.old).places) }
    ensures map { IsTrue (D.state device.old).honest → IfOk result (λ map.
        IsBareMap (F.meaning format.now) (D.state device.old).store map.parts map.places.items) }
    ensures check { IsTrue (D.state device.old).honest → result ≡ Err CmdError.Check
        → HasFaults (F.meaning format.now) (D.state device.old).store }
{
    let checked = check(alloc, device, format)?;
    Ok(map_of(alloc, format, &checked, device.places())?)
}

// A map that tells of what is reserved. Where nothing is, no more is read.
fn with_reserved<D: Device, F: ShownFormat>(
    device: &mut D,
    format: &F,
    map: VolumeMap,
) -> Result<VolumeMap, CmdError>
    requires fits { Fits (F.meaning format.now) (D.state device.old) }
    requires size { length map.places.items ≡ (D.state device.old).places }

    ensures device { OnlyReads (told_device result) (D.state device.old) (D.state device.new) }
    ensures found { result ≢ Err CmdError.NotFound }
    ensures map { IsTrue (D.state device.old).honest
        → IsBareMap (F.meaning format.now) (D.state device.old).store map.parts map.places.items
        → IfOk result (λ full. IsMap (F.meaning format.now) (F.meaning (F.unreserved format.now))
        (D.state device.old).store full.parts full.places.items) }
    ensures check { IsTrue (D.state device.old).honest
        → IsBareMap (F.meaning format.now) (D.state device.old).store map.parts map.places.items
        → result ≢ Err CmdError.Check }
{
    let Some(plain) = format.unreserved()? else {
        return Ok(map);
    };
    let volume = read_volume(device, &plain)?;
    Ok(VolumeMap {
        places: tell_reserved(&plain, &volume, device.places(), map.places),
        ..map
    })
}

// The map of the volume on a device, where it is accepted.
fn read_map<D: Device, F: ShownFormat>(
    alloc: Global,
    device: &mut D,
    format: &F,
) -> Result<VolumeMap, CmdError>
    requires fits { Fits (F.meaning format.now) (D.state device.old) }

    ensures device { OnlyReads (told_device result) (D.state device.old) (D.state device.new) }
    ensures found { result ≢ Err CmdError.NotFound }
    ensures map { IsTrue (D.state device.old).honest → IfOk result (λ map.
        IsMap (F.meaning format.now) (F.meaning (F.unreserved format.now)) (D.state device.old).store
        map.parts map.places.items) }
    ensures check { IsTrue (D.state device.old).honest → result ≡ Err CmdError.Check
        → HasFaults (F.meaning format.now) (D.state device.old).store }
{
    let map = checked_map(alloc, device, format)?;
    with_reserved(device, format, map)
}

// The reply with a map.
fn drawn_reply(alloc: Global, form: PlaceForm, map: &VolumeMap) -> Reply
    ensures { TellsMap form map.now.parts map.now.places.items result }
{
    match map_text(alloc, form, map.parts, map.places.as_slice()) {
        Ok(text) => Reply::done(text),
        Err(_) => Reply::failed(Failure::Memory),
    }
}

/// The map of the volume on a device: what is at each of its places. Where places are reserved, the header, the
/// directory and the map are read once more, as they are where nothing is.
pub fn map_reply<D: Device, F: ShownFormat>(alloc: Global, device: &mut D, format: &F) -> Reply
    requires fits { Fits (F.meaning format.now) (D.state device.old) }
    ensures reads { OnlyReads (tells_device result) (D.state device.old) (D.state device.new) }
    ensures told { IsTrue (D.state device.old).honest → FailsForLack (D.state device.old) result
        → IsMapped (F.form format.now) (F.meaning format.now) (F.meaning (F.unreserved format.now))
        (D.state device.old) result }
{
    match read_map(alloc, device, format) {
        Ok(map) => drawn_reply(alloc, format.form(), &map),
        Err(error) => refusal_reply(error),
    }
}
