//! DOS 3.3 as a format: where pointers stand, and what is written.
ghost use Rattle.std.specs.Prelude.{◌≡◌, ◌<◌, ◌≤◌};
ghost use Rattle.dos_format.specs.Dos.{HasDosSlot};

use crate::formats::dos_gaps::gaps;
use a2_device::{Part, PartKind};
use dos_format::Dos33;
use std::alloc::{AllocError, Global};
use std::test::Fail;
use test_volumes::{dos_device, hello};
use vol_format::{Format, Holder, WritableFormat};
use vol_layout::{Layout, Reserved};

// A part of the first file.
fn part(kind: PartKind, number: u32) -> Part
    ensures { result ≡ record { file = 0; kind = kind; number = number; place = 0 } }
{
    Part {
        file: 0,
        kind,
        number,
        place: 0,
    }
}

fn holder(entry: bool, place: u32, slot: u32) -> Holder {
    Holder { entry, place, slot }
}

#[test]
fn where_pointers_stand(rt: HostRuntime) -> Result<(), Fail> {
    let format = Dos33::new(rt.alloc(), false, Reserved::none(rt.alloc()))?;
    let volume = format.volume(&mut dos_device(gaps(rt.alloc())?))?;
    assert!(rt; format.entries(&volume) == 1);
    let layout = Layout::new(rt.alloc(), vec![in rt.alloc(); 3, 2, 1, 0]?, 496)?;
    let parts = [
        part(PartKind::List, 0),
        part(PartKind::Body, 0),
        part(PartKind::List, 1),
        part(PartKind::Body, 122),
    ];
    let stated = [
        holder(true, 287, 0),
        holder(false, 60, 0),
        holder(false, 60, 122),
        holder(false, 62, 0),
    ];
    for k in 0..4u32 {
        assert!(rt; format.holder(&volume, &parts, &layout, k) == stated[k as usize]);
    }
    Ok(())
}

// A unit of zeros with one pointer, to track 3 sector 13, from an offset on, with the bytes around it.
fn pointed(alloc: Global, entry: bool, slot: u32, at: usize) -> Result<[u8; 4], AllocError>
    requires slot { HasDosSlot entry slot }
    requires inside { (1 ≤ at) × (at < 254) }
{
    let format = Dos33::new(alloc, false, Reserved::none(alloc))?;
    let mut unit = [0; 256];
    format.put_pointer(
        &mut unit,
        Holder {
            entry,
            place: 0,
            slot,
        },
        61,
    );
    Ok([unit[at - 1], unit[at], unit[at + 1], unit[at + 2]])
}

#[test]
fn writes_pointers(rt: HostRuntime) -> Result<(), Fail> {
    let pointer = [0, 3, 13, 0];
    assert!(rt; pointed(rt.alloc(), true, 0, 0x0b)? == pointer);
    assert!(rt; pointed(rt.alloc(), true, 6, 0xdd)? == pointer);
    assert!(rt; pointed(rt.alloc(), false, 0, 0x0c)? == pointer);
    assert!(rt; pointed(rt.alloc(), false, 122, 0x01)? == pointer);
    Ok(())
}

// The place of the map's unit with the mark of place 61.
fn map_unit(alloc: Global) -> Result<u32, Fail> {
    let format = Dos33::new(alloc, false, Reserved::none(alloc))?;
    let volume = format.volume(&mut dos_device(hello(alloc)?))?;
    Ok(format.map_unit(&volume, 61))
}

// Bytes 43 to 45 of a unit after place 61 is marked used in it, and after it is free again.
fn marked(alloc: Global) -> Result<([u8; 3], [u8; 3]), AllocError> {
    let format = Dos33::new(alloc, false, Reserved::none(alloc))?;
    let mut unit = [0xff; 256];
    format.mark(&mut unit, 61);
    let marked = [unit[0x43], unit[0x44], unit[0x45]];
    format.release(&mut unit, 61);
    Ok((marked, [unit[0x43], unit[0x44], unit[0x45]]))
}

#[test]
fn writes_marks(rt: HostRuntime) -> Result<(), Fail> {
    assert!(rt; map_unit(rt.alloc())? == 272);
    let (marked, released) = marked(rt.alloc())?;
    assert!(rt; marked == [0xff, 0xdf, 0xff]);
    assert!(rt; released == [0xff, 0xff, 0xff]);
    Ok(())
}
