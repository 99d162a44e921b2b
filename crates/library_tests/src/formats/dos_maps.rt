//! The map of free sectors.
use a2_device::Fault;
use dos_vtoc::Vtoc;
use std::alloc::{AllocError, Global};
use std::test::Fail;
use test_volumes::{VTOC, dos_volume};

// The VTOC of volume 254, whose catalog begins at track 17, sector 15: tracks 0, 1, 2 and 17 are used, and of track 3
// two sectors.
fn sample(alloc: Global) -> Result<[u8; 256], AllocError> {
    let image = dos_volume(alloc, [0x3f, 0xff])?;
    let mut unit = [0; 256];
    unit.copy_from_slice(&image[256 * VTOC..256 * VTOC + 256]);
    Ok(unit)
}

// That VTOC as it is read.
fn vtoc(alloc: Global) -> Result<Vtoc, Fail> {
    Ok(Vtoc::read(&sample(alloc)?).ok().ok_or("no VTOC")?)
}

#[test]
fn reads_a_vtoc(rt: HostRuntime) -> Result<(), Fail> {
    let vtoc = vtoc(rt.alloc())?;
    assert!(rt; vtoc.first_catalog() == Some((17, 15)));
    assert!(rt; vtoc.volume() == 254);
    assert!(rt; vtoc.free_count() == 494);
    assert!(rt; vtoc.bytes() == &sample(rt.alloc())?);
    Ok(())
}

#[test]
fn tells_what_is_free(rt: HostRuntime) -> Result<(), Fail> {
    let vtoc = vtoc(rt.alloc())?;
    assert!(rt; vtoc.is_free(61) && vtoc.is_free(48));
    assert!(rt; !vtoc.is_free(62) && !vtoc.is_free(63));
    Ok(())
}

#[test]
fn refuses_another_geometry(rt: HostRuntime) -> Result<(), Fail> {
    let mut unit = sample(rt.alloc())?;
    unit[0x34] = 0x28;
    assert!(rt; Vtoc::read(&unit).err() == Some(Fault::Geometry(272)));
    Ok(())
}

// The bytes of track 3 in a map.
fn track_3(vtoc: &Vtoc) -> [u8; 2] {
    [vtoc.bytes()[0x44], vtoc.bytes()[0x45]]
}

#[test]
fn marks_sectors(rt: HostRuntime) -> Result<(), Fail> {
    let mut vtoc = vtoc(rt.alloc())?;
    vtoc.mark(61);
    assert!(rt; track_3(&vtoc) == [0x1f, 0xff]);
    vtoc.mark(48);
    assert!(rt; track_3(&vtoc) == [0x1f, 0xfe] && vtoc.free_count() == 492);
    Ok(())
}

#[test]
fn releases_a_sector_once(rt: HostRuntime) -> Result<(), Fail> {
    let mut vtoc = vtoc(rt.alloc())?;
    vtoc.release(63);
    assert!(rt; track_3(&vtoc) == [0xbf, 0xff]);
    vtoc.release(63);
    assert!(rt; track_3(&vtoc) == [0xbf, 0xff]);
    Ok(())
}

/// Where a free sector is sought, and the first one.
static NEXT_FREE: [(u32, Option<u32>); 8] = [
    (63, Some(61)),
    (0, Some(61)),
    (61, Some(61)),
    (48, Some(48)),
    (272, Some(303)),
    (544, Some(544)),
    (560, None),
    (u32::MAX, None),
];

#[test]
fn next_free_takes_sectors_downward(rt: HostRuntime) -> Result<(), Fail> {
    let vtoc = vtoc(rt.alloc())?;
    for (from, next) in &NEXT_FREE {
        assert!(rt; vtoc.next_free(*from) == *next, "from {from}");
    }
    Ok(())
}

#[test]
fn the_last_sector_is_used(rt: HostRuntime) -> Result<(), Fail> {
    let mut vtoc = vtoc(rt.alloc())?;
    vtoc.mark(544);
    assert!(rt; vtoc.next_free(544).is_none());
    assert!(rt; vtoc.next_free(545) == Some(545));
    Ok(())
}

#[test]
fn counts_the_last_three_tracks(rt: HostRuntime) {
    let mut unit = [0; 256];
    unit[0x34..0x38].copy_from_slice(&[0x23, 0x10, 0x00, 0x01]);
    unit[0xb8] = 0x80;
    unit[0xc1..0xc5].copy_from_slice(&[0x01, 0xff, 0xff, 0xff]);
    let count = Vtoc::read(&unit).ok().map(|vtoc| vtoc.free_count());
    assert!(rt; count == Some(2));
}
