//! Walks over the parts of one file.
ghost use Rattle.std.specs.Prelude.{◌≡◌, vec_len, IfOk};

use a2_device::{Device, Fault, FaultDevice, Part, PartKind, WalkError};
use pro_tree::walk;
use std::alloc::{AllocError, Allocator, Global};
use std::test::Fail;
use test_volumes::{IMAGE_BYTES, block_device, put_in_block};

// A disk of 140K with a master index in block 7, whose indexes 0 and 2 are blocks 8 and 10.
pub fn tree(alloc: Global) -> Result<Vec<u8>, AllocError>
    ensures { IfOk result (λ image. vec_len image ≡ 143360) }
{
    let mut image = vec![in alloc; 0; IMAGE_BYTES]?;
    put_in_block(&mut image, 7, 0, &[8, 0, 10]);
    put_in_block(&mut image, 8, 0, &[9, 0, 0x17]);
    put_in_block(&mut image, 8, 256, &[0, 0, 0x01]);
    put_in_block(&mut image, 10, 255, &[11]);
    Ok(image)
}

// The parts of file 3, whose entry stands in block 2, with memory of their own.
pub fn walked<A: Allocator + Copy>(
    alloc: A,
    image: Vec<u8>,
    storage: u8,
    key: u32,
) -> Result<Vec<Part, A>, WalkError> {
    match block_device(image) {
        Some(mut device) => walk(alloc, &mut device, 3, storage, key, 2),
        None => Err(WalkError::Device),
    }
}

// Whether a walk over that disk gives these parts.
fn gives(alloc: Global, storage: u8, key: u32, parts: &[Part]) -> Result<bool, Fail> {
    let found = walked(alloc, tree(alloc)?, storage, key)?;
    Ok(found.as_slice() == parts)
}

fn part(kind: PartKind, number: u32, place: u32) -> Part {
    Part {
        file: 3,
        kind,
        number,
        place,
    }
}

#[test]
fn parts_of_a_seedling(rt: HostRuntime) -> Result<(), Fail> {
    assert!(rt; gives(rt.alloc(), 1, 9, &[part(PartKind::Body, 0, 9)])?);
    assert!(rt; gives(rt.alloc(), 1, 0, &[])?);
    Ok(())
}

#[test]
fn parts_of_a_sapling(rt: HostRuntime) -> Result<(), Fail> {
    let parts = [
        part(PartKind::Index, 0, 8),
        part(PartKind::Body, 0, 9),
        part(PartKind::Body, 2, 279),
    ];
    assert!(rt; gives(rt.alloc(), 2, 8, &parts)?);
    Ok(())
}

#[test]
fn parts_of_a_tree(rt: HostRuntime) -> Result<(), Fail> {
    let parts = [
        part(PartKind::Master, 0, 7),
        part(PartKind::Index, 0, 8),
        part(PartKind::Body, 0, 9),
        part(PartKind::Body, 2, 279),
        part(PartKind::Index, 2, 10),
        part(PartKind::Body, 767, 11),
    ];
    assert!(rt; gives(rt.alloc(), 3, 7, &parts)?);
    Ok(())
}

// The fault of a walk over that disk where a byte of a block is changed.
fn fault_of(
    alloc: Global,
    (block, at, byte): (usize, usize, u8),
    (storage, key): (u8, u32),
) -> Result<Option<WalkError>, AllocError> {
    let mut image = tree(alloc)?;
    if block < 280 && at < 512 {
        put_in_block(&mut image, block, at, &[byte]);
    }
    Ok(walked(alloc, image, storage, key).err())
}

/// A byte of a block that is changed, the storage type and the key of the file, and the fault.
static FAULTS: [((usize, usize, u8), (u8, u32), Fault); 8] = [
    ((7, 3, 8), (3, 7), Fault::Shared(8)),
    ((7, 5, 9), (3, 7), Fault::Shared(9)),
    ((10, 0, 7), (3, 7), Fault::Shared(7)),
    ((10, 256, 2), (3, 7), Fault::OutOfRange(10)),
    ((7, 257, 3), (3, 7), Fault::OutOfRange(7)),
    ((0, 0, 0), (1, 280), Fault::OutOfRange(2)),
    ((0, 0, 0), (4, 9), Fault::StorageType(2)),
    ((0, 0, 0), (13, 9), Fault::StorageType(2)),
];

#[test]
fn names_the_fault(rt: HostRuntime) -> Result<(), Fail> {
    for (change, root, fault) in &FAULTS {
        let found = fault_of(rt.alloc(), *change, *root)?;
        assert!(rt; found == Some(WalkError::Fault(*fault)), "{fault:?}");
    }
    Ok(())
}

// Why two walks over a device whose next read fails end, and how many calls the device has refused. The first is over a
// seedling, of which no block is read, the second over a sapling.
fn failed(alloc: Global) -> Result<([Option<WalkError>; 2], u64), AllocError> {
    let Some(inner) = block_device(tree(alloc)?) else {
        return Ok(([None; 2], 0));
    };
    let mut device = FaultDevice::new(inner);
    device.fail_read();
    let seedling = walk(alloc, &mut device, 3, 1, 9, 2).err();
    let sapling = walk(alloc, &mut device, 3, 2, 8, 2).err();
    Ok(([seedling, sapling], device.faults()))
}

#[test]
fn failed_read_is_told(rt: HostRuntime) -> Result<(), Fail> {
    let (errors, faults) = failed(rt.alloc())?;
    assert!(rt; errors == [None, Some(WalkError::Device)] && faults == 1);
    Ok(())
}
