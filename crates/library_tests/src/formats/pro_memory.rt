//! Refused memory: each call that takes memory answers want of it, whichever of its blocks is refused.
use crate::formats::pro_directories::volume_of;
use crate::formats::pro_files::{self, walked};
use crate::formats::pro_maps::bitmap_of;
use a2_device::WalkError;
use pro_format::Prodos;
use std::alloc::{AllocError, Allocator, Global};
use std::test::Fail;
use test_volumes::{Refusing, block_device, tree, tree_and_subdirectory};
use vol_format::Format;
use vol_layout::Reserved;

#[derive(Clone, Copy, Debug)]
enum Call {
    Map,
    File,
    Directories,
    Volume,
}

// Why a volume is not read.
fn reading_error<A: Allocator + Copy>(alloc: A, image: Vec<u8>) -> Option<WalkError> {
    let mut device = block_device(image)?;
    Prodos::new(alloc, Reserved::none(alloc))
        .volume(&mut device)
        .err()
}

// The volume that a call is made on.
fn image_for(alloc: Global, call: Call) -> Result<Vec<u8>, AllocError> {
    match call {
        Call::Map | Call::Volume => tree(alloc),
        Call::File => pro_files::tree(alloc),
        Call::Directories => tree_and_subdirectory(alloc),
    }
}

// Why a call over a heap fails.
fn error_of(call: Call, heap: &Refusing<Global>, image: Vec<u8>) -> Option<WalkError> {
    match call {
        Call::Map => bitmap_of(heap, image).err(),
        Call::File => walked(heap, image, 3, 7).err(),
        Call::Directories => volume_of(heap, image).err(),
        Call::Volume => reading_error(heap, image),
    }
}

// Why a call over a heap fails, and how many blocks it asks for.
fn outcome(
    alloc: Global,
    call: Call,
    heap: Refusing<Global>,
) -> Result<(Option<WalkError>, u64), AllocError> {
    let error = error_of(call, &heap, image_for(alloc, call)?);
    Ok((error, heap.asked()))
}

/// Calls, and more blocks than each of them asks for at the least.
static CALLS: [(Call, u64); 4] = [
    (Call::Map, 0),
    (Call::File, 0),
    (Call::Directories, 0),
    (Call::Volume, 4),
];

#[test]
fn each_refused_block_is_told(rt: HostRuntime) -> Result<(), Fail> {
    for (call, fewer) in &CALLS {
        let (error, asked) = outcome(rt.alloc(), *call, Refusing::none(rt.alloc()))?;
        assert!(rt; error.is_none() && asked > *fewer, "{call:?}");
        for before in 0..asked {
            let (error, _) = outcome(rt.alloc(), *call, Refusing::one(rt.alloc(), before))?;
            assert!(rt; error == Some(WalkError::Memory), "{call:?} {before}");
        }
    }
    Ok(())
}
