//! Directories, their entries and their faults.
ghost use Rattle.std.specs.Prelude.{◌≡◌, ◌<◌, length};

use a2_device::{Fault, FaultDevice, WalkError};
use bitflags::Flags;
use pro_dates::to_civil;
use pro_dir::{Entry, ProDate, VolumeDir};
use std::alloc::{AllocError, Allocator, Global};
use std::test::Fail;
use test_volumes::{block_device, put_in_block, tree, tree_and_subdirectory};

// The directories of a volume, with memory of their own.
pub fn volume_of<A: Allocator + Copy>(alloc: A, image: Vec<u8>) -> Result<VolumeDir<A>, WalkError> {
    match block_device(image) {
        Some(mut device) => VolumeDir::walk(alloc, &mut device),
        None => Err(WalkError::Device),
    }
}

// Where an entry stands: its directory, its block and its slot there.
fn stands_at(entry: &Entry, directory: u16, place: u16, slot: u8) -> bool {
    entry.directory == directory && entry.place == place && entry.slot == slot
}

// Whether the fields of an entry are those of `BIG`.
fn is_big(entry: &Entry) -> bool {
    entry.name() == b"BIG".as_slice()
        && !entry.is_directory()
        && (entry.storage(), entry.kind(), entry.key()) == (3, 0x06, 7)
        && (entry.blocks_used(), entry.eof(), entry.aux()) == (3, 131_075, 0)
        && (entry.access().bits(), entry.header()) == (0xe3, 2)
        && entry.modified() == ProDate([0xa1, 0xac, 0x1e, 0x0c])
}

#[test]
fn the_header_of_a_volume(rt: HostRuntime) -> Result<(), Fail> {
    let volume = volume_of(rt.alloc(), tree(rt.alloc())?)?;
    assert!(rt; volume.name() == b"WORK".as_slice());
    assert!(rt; (volume.total(), volume.bitmap()) == (280, 6));
    assert!(rt; volume.blocks() == [2, 3, 4, 5].as_slice());
    assert!(rt; volume.free_slot(2) == Some((2, 2)));
    Ok(())
}

#[test]
fn walks_over_one_file(rt: HostRuntime) -> Result<(), Fail> {
    let volume = volume_of(rt.alloc(), tree(rt.alloc())?)?;
    assert!(rt; volume.entries().len() == 1);
    let entry = &volume.entries()[0];
    assert!(rt; stands_at(entry, 2, 2, 1) && is_big(entry));
    Ok(())
}

// Whether an entry is that of the seedling `A`, which has no date.
fn is_a(entry: &Entry) -> bool {
    entry.name() == b"A".as_slice() && to_civil(entry.modified()).is_none()
}

#[test]
fn walks_into_a_subdirectory(rt: HostRuntime) -> Result<(), Fail> {
    let volume = volume_of(rt.alloc(), tree_and_subdirectory(rt.alloc())?)?;
    assert!(rt; volume.blocks() == [2, 3, 4, 5, 10].as_slice());
    assert!(rt; volume.entries().len() == 3);
    assert!(rt; volume.entries()[1].is_directory());
    let inside = &volume.entries()[2];
    assert!(rt; stands_at(inside, 10, 10, 1) && is_a(inside));
    Ok(())
}

/// Key blocks of directories, and the block and the number of the first free slot of each.
static FREE_SLOTS: [(u32, Option<(u32, u32)>); 3] = [
    (2, Some((2, 3))),
    (10, Some((10, 2))),
    (11, None),
];

#[test]
fn free_slots_of_a_subdirectory(rt: HostRuntime) -> Result<(), Fail> {
    let volume = volume_of(rt.alloc(), tree_and_subdirectory(rt.alloc())?)?;
    for (directory, slot) in &FREE_SLOTS {
        assert!(rt; volume.free_slot(*directory) == *slot);
    }
    Ok(())
}

// The fault of the volume with a subdirectory where one byte is changed.
fn fault_of(
    alloc: Global,
    place: usize,
    offset: usize,
    byte: u8,
) -> Result<Option<WalkError>, AllocError> {
    let mut image = tree_and_subdirectory(alloc)?;
    if place < 280 && offset < 512 {
        put_in_block(&mut image, place, offset, &[byte]);
    }
    Ok(volume_of(alloc, image).err())
}

/// Bytes of blocks, and the faults that they make.
static FAULTS: [(usize, usize, u8, Option<Fault>); 19] = [
    // Of the volume.
    (2, 0x04, 0xe4, Some(Fault::Geometry(2))),
    (2, 0x23, 0x26, Some(Fault::Geometry(2))),
    (2, 0x24, 0x0c, Some(Fault::Geometry(2))),
    (2, 0x29, 0x17, Some(Fault::Geometry(2))),
    (2, 0x02, 0x02, Some(Fault::DirLink(2))),
    (3, 0x02, 0x01, Some(Fault::DirLink(3))),
    (5, 0x03, 0x80, Some(Fault::DirLink(5))),
    (2, 0x27, 0x03, Some(Fault::MapPointer(2))),
    (2, 0x27, 0x01, Some(Fault::MapPointer(2))),
    (2, 0x28, 0x80, Some(Fault::MapPointer(2))),
    // Of its subdirectory.
    (2, 0x63, 0, Some(Fault::DirLink(2))),
    (2, 0x63, 1, Some(Fault::DirLink(2))),
    (2, 0x63, 5, Some(Fault::DirLink(2))),
    (10, 0x04, 0xd3, Some(Fault::DirLink(2))),
    (10, 0x23, 0x28, Some(Fault::Geometry(10))),
    (10, 0x24, 0x0e, Some(Fault::Geometry(10))),
    (10, 0x02, 10, Some(Fault::DirLink(10))),
    (10, 0x2b, 0xd1, Some(Fault::DirLink(10))),
    (10, 0x00, 7, None),
];

#[test]
fn tells_faults(rt: HostRuntime) -> Result<(), Fail> {
    for (place, offset, byte, fault) in &FAULTS {
        let error = fault_of(rt.alloc(), *place, *offset, *byte)?;
        assert!(rt;
            error == fault.map(WalkError::Fault),
            "{place} {offset} {byte}"
        );
    }
    Ok(())
}

// Why two walks end over a device whose next read fails.
fn failed(alloc: Global) -> Result<[Option<WalkError>; 2], AllocError> {
    let Some(inner) = block_device(tree(alloc)?) else {
        return Ok([None; 2]);
    };
    let mut device = FaultDevice::new(inner);
    device.fail_read();
    let first = VolumeDir::walk(alloc, &mut device).err();
    let then = VolumeDir::walk(alloc, &mut device).err();
    Ok([first, then])
}

#[test]
fn a_failed_read_is_told(rt: HostRuntime) -> Result<(), Fail> {
    assert!(rt; failed(rt.alloc())? == [Some(WalkError::Device), None]);
    Ok(())
}

// A directory block with one entry, of the directory in the next block where there is one.
fn put_directory(image: &mut [u8], block: usize)
    requires whole { length image.old ≡ 143360 }
    requires block { block < 280 }
{
    put_in_block(image, block, 0x00, &[0; 512]);
    put_in_block(image, block, 0x04, &[0xe1]);
    put_in_block(image, block, 0x23, &[0x27, 0x0d]);
    if block < 279 {
        let next = ((block + 1) as u16).to_le_bytes();
        put_in_block(image, block, 0x2b, &[0xd1]);
        put_in_block(image, block, 0x3c, &next);
    }
}

// The volume WORK with a subdirectory in place of its file, and in that another one, down to the last block.
fn nested(alloc: Global) -> Result<Vec<u8>, AllocError> {
    let mut image = tree(alloc)?;
    for block in 7..280 {
        put_directory(&mut image, block);
    }
    put_in_block(&mut image, 2, 0x2b, &[0xd3]);
    Ok(image)
}

#[test]
fn walks_into_deep_nesting(rt: HostRuntime) -> Result<(), Fail> {
    let volume = volume_of(rt.alloc(), nested(rt.alloc())?)?;
    assert!(rt; volume.entries().len() == 273 && volume.blocks().len() == 277);
    assert!(rt; volume.free_slot(200) == Some((200, 2)));
    Ok(())
}
