//! ProDOS as a format: what it answers of a volume that was read, and what it writes.
ghost use Rattle.std.specs.Prelude.{◌≡◌, ◌<◌, ◌≤◌};

use a2_device::Device;
use pro_format::{ProVolume, Prodos};
use std::alloc::{AllocError, Global};
use std::test::Fail;
use test_volumes::{block_device, seedlings_far_out, tree_and_subdirectory};
use vol_check::check;
use vol_format::{Format, Holder, WritableFormat};
use vol_layout::Reserved;

// Where the pointers to the parts of a volume stand; of one that is refused, nowhere.
fn holders(alloc: Global, image: Vec<u8>) -> Result<Vec<Holder>, AllocError> {
    let mut holders = Vec::new(alloc);
    let Some(mut device) = block_device(image) else {
        return Ok(holders);
    };
    let format = Prodos::new(alloc, Reserved::none(alloc));
    let Ok(checked) = check(alloc, &mut device, &format) else {
        return Ok(holders);
    };
    for k in 0..checked.parts().len() {
        holders.push(format.holder(
            checked.volume(),
            checked.parts(),
            checked.layout(),
            k as u32,
        ))?;
    }
    Ok(holders)
}

fn holder(entry: bool, place: u32, slot: u32) -> Holder {
    Holder { entry, place, slot }
}

#[test]
fn where_pointers_stand(rt: HostRuntime) -> Result<(), Fail> {
    let found = holders(rt.alloc(), tree_and_subdirectory(rt.alloc())?)?;
    let stated = [
        holder(true, 2, 1),
        holder(false, 7, 1),
        holder(false, 9, 0),
        holder(true, 10, 1),
    ];
    assert!(rt; found.as_slice() == stated.as_slice());
    Ok(())
}

// A unit of zeros in which a pointer is set to block 5,000.
fn pointed(alloc: Global, entry: bool, slot: u32) -> [u8; 512]
    requires { slot < 13 }
{
    let mut unit = [0; 512];
    let holder = Holder {
        entry,
        place: 0,
        slot,
    };
    Prodos::new(alloc, Reserved::none(alloc)).put_pointer(&mut unit, holder, 5000);
    unit
}

// A unit of zeros but for two bytes.
fn unit_with(low: usize, high: usize) -> [u8; 512]
    requires low { low < 512 }
    requires high { high < 512 }
{
    let mut unit = [0; 512];
    unit[low] = 0x88;
    unit[high] = 0x13;
    unit
}

#[test]
fn writes_pointers(rt: HostRuntime) {
    assert!(rt; pointed(rt.alloc(), true, 1) == unit_with(0x3c, 0x3d));
    assert!(rt; pointed(rt.alloc(), false, 1) == unit_with(0x01, 0x101));
}

// Bytes 70 to 72 of a unit after blocks 5,000 and 5,001 are marked used in it, and after block 5,000 is free again.
fn marked(alloc: Global) -> ([u8; 3], [u8; 3]) {
    let format = Prodos::new(alloc, Reserved::none(alloc));
    let mut unit = [0xff; 512];
    format.mark(&mut unit, 5000);
    format.mark(&mut unit, 5001);
    let marked = [unit[0x70], unit[0x71], unit[0x72]];
    format.release(&mut unit, 5000);
    (marked, [unit[0x70], unit[0x71], unit[0x72]])
}

#[test]
fn writes_marks(rt: HostRuntime) {
    let (marked, released) = marked(rt.alloc());
    assert!(rt; marked == [0xff, 0x3f, 0xff]);
    assert!(rt; released == [0xff, 0xbf, 0xff]);
}

// What is asked of a volume of 8,192 blocks.
#[derive(Clone, Copy, PartialEq, Eq)]
struct Asked {
    free: [bool; 2],
    map_units: [u32; 2],
    available: [Option<u32>; 2],
    numbers: [Option<u32>; 2],
}

fn answers(format: &Prodos, volume: &ProVolume) -> Asked
    requires { 5000 < (⟦<Prodos<Global> as Format>⟧.directory format.now volume.now).places }
{
    Asked {
        free: [format.is_free(volume, 4999), format.is_free(volume, 5000)],
        map_units: [format.map_unit(volume, 5000), format.map_unit(volume, 8)],
        available: [format.available(volume, 0), format.available(volume, 8184)],
        numbers: [format.index(volume, 5000), format.index(volume, 7)],
    }
}

// The same of the volume of an image, if it is read.
fn answers_of(alloc: Global, image: Vec<u8>) -> Option<Asked> {
    let mut device = block_device(image)?;
    if device.places() <= 5000 {
        return None;
    }
    let format = Prodos::new(alloc, Reserved::none(alloc));
    let Ok(volume) = format.volume(&mut device) else {
        return None;
    };
    Some(answers(&format, &volume))
}

#[test]
fn what_is_asked_of_a_volume(rt: HostRuntime) -> Result<(), Fail> {
    let stated = Asked {
        free: [true, false],
        map_units: [7, 6],
        available: [Some(8), None],
        numbers: [Some(4992), None],
    };
    assert!(rt; answers_of(rt.alloc(), seedlings_far_out(rt.alloc())?) == Some(stated));
    Ok(())
}
