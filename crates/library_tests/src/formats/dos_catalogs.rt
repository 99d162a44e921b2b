//! The catalog: its walk, its slots, and writes into them.
ghost use Rattle.std.specs.Prelude.{◌≡◌, length, vec_len};

use a2_device::{Device, WalkError};
use dos_catalog::{Catalog, NewEntry, encode, erase, set_kind, set_name, set_pointer};
use dos_vtoc::{VTOC_PLACE, Vtoc};
use std::alloc::{Allocator, Global};
use std::test::Fail;
use test_volumes::{FIRST_CATALOG, VTOC, dos_device, dos_volume, hello, put};

// The catalog of a volume, with memory of its own.
pub fn catalog_of<A: Allocator + Copy>(alloc: A, image: Vec<u8>) -> Result<Catalog<A>, WalkError>
    requires { vec_len image ≡ 143360 }
{
    let mut device = dos_device(image);
    let mut unit = [0; 256];
    if device.read(VTOC_PLACE, &mut unit).is_err() {
        return Err(WalkError::Device);
    }
    match Vtoc::read(&unit) {
        Ok(vtoc) => Catalog::walk(alloc, &mut device, &vtoc),
        Err(fault) => Err(WalkError::Fault(fault)),
    }
}

#[test]
fn walks_over_one_file(rt: HostRuntime) -> Result<(), Fail> {
    let catalog = catalog_of(rt.alloc(), hello(rt.alloc())?)?;
    assert!(rt; catalog.sectors().len() == 15 && catalog.entries().len() == 1);
    assert!(rt; catalog.entries()[0].pointer() == (3, 14));
    assert!(rt; catalog.free_slot() == Some((287, 1)));
    Ok(())
}

/// Where the entries of a catalog sector begin.
static ENTRIES: [usize; 7] = [0x0b, 0x2e, 0x51, 0x74, 0x97, 0xba, 0xdd];

// Fills the first catalog sector.
fn fill_sector(image: &mut [u8])
    requires { length image.old ≡ 143360 }
    ensures { length image.new ≡ 143360 }
{
    for offset in &ENTRIES {
        if *offset < 256 {
            put(image, FIRST_CATALOG, *offset, &[3]);
        }
    }
}

// The first free slot of a volume whose first catalog sector is full but for an entry that may begin with another byte.
fn free_slot(alloc: Global, second: u8) -> Result<Option<(u32, u32)>, Fail> {
    let mut image = dos_volume(alloc, [0xff, 0xff])?;
    fill_sector(&mut image);
    put(&mut image, FIRST_CATALOG, 0x2e, &[second]);
    Ok(catalog_of(alloc, image)?.free_slot())
}

#[test]
fn first_free_slot(rt: HostRuntime) -> Result<(), Fail> {
    assert!(rt; free_slot(rt.alloc(), 3)? == Some((286, 0)));
    assert!(rt; free_slot(rt.alloc(), 0xff)? == Some((287, 1)));
    Ok(())
}

#[test]
fn no_slot_in_an_empty_chain(rt: HostRuntime) -> Result<(), Fail> {
    let mut image = hello(rt.alloc())?;
    put(&mut image, VTOC, 0x01, &[0]);
    assert!(rt; catalog_of(rt.alloc(), image)?.free_slot().is_none());
    Ok(())
}

// A sector of bytes AA.
fn sector() -> [u8; 256] {
    [0xaa; 256]
}

// Slot 1 of such a sector after an entry is written there, with the byte before it and the one behind it.
fn encoded() -> [u8; 37] {
    let mut unit = sector();
    let mut name = [0xa0; 30];
    name[0] = 0xc8;
    name[1] = 0xc9;
    let entry = NewEntry {
        pointer: 61,
        kind: 0x04,
        name,
        sectors: 0x0302,
    };
    encode(&mut unit, 1, &entry);
    let mut slot = [0; 37];
    slot.copy_from_slice(&unit[0x2d..0x52]);
    slot
}

#[test]
fn writes_a_new_entry(rt: HostRuntime) {
    let mut slot = [0xa0; 37];
    slot[..6].copy_from_slice(&[0xaa, 0x03, 0x0d, 0x04, 0xc8, 0xc9]);
    slot[34..].copy_from_slice(&[0x02, 0x03, 0xaa]);
    assert!(rt; encoded() == slot);
}

// The pointer of slot 0 after it is written, with the bytes around it.
fn pointer_set() -> [u8; 4] {
    let mut unit = sector();
    set_pointer(&mut unit, 0, 61);
    [unit[0x0a], unit[0x0b], unit[0x0c], unit[0x0d]]
}

// The same of the kind.
fn kind_set() -> [u8; 3] {
    let mut unit = sector();
    set_kind(&mut unit, 0, 0x84);
    [unit[0x0c], unit[0x0d], unit[0x0e]]
}

// The same of the beginning and the end of the name.
fn name_set() -> [u8; 4] {
    let mut unit = sector();
    set_name(&mut unit, 0, &[0xc2; 30]);
    [unit[0x0d], unit[0x0e], unit[0x2b], unit[0x2c]]
}

#[test]
fn writes_fields_of_a_slot(rt: HostRuntime) {
    assert!(rt; pointer_set() == [0xaa, 0x03, 0x0d, 0xaa]);
    assert!(rt; kind_set() == [0xaa, 0x84, 0xaa]);
    assert!(rt; name_set() == [0xaa, 0xc2, 0xc2, 0xaa]);
}

// The beginning and the end of the last slot after its pointer is written and it is erased.
fn erased() -> ([u8; 3], [u8; 3]) {
    let mut unit = sector();
    set_pointer(&mut unit, 6, 62);
    erase(&mut unit, 6);
    (
        [unit[0xdd], unit[0xde], unit[0xdf]],
        [unit[0xfc], unit[0xfd], unit[0xfe]],
    )
}

#[test]
fn erases_the_last_slot(rt: HostRuntime) {
    assert!(rt; erased() == ([0xff, 0x0e, 0xaa], [0xaa, 0x03, 0xaa]));
}
