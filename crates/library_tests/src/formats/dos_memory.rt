//! Refused memory: each call that takes memory answers want of it, whichever of its blocks is refused.
use crate::formats::dos_catalogs::catalog_of;
use crate::formats::dos_gaps::gaps;
use crate::formats::dos_lists::parts_of;
use a2_device::WalkError;
use std::alloc::{AllocError, Global};
use std::test::Fail;
use test_volumes::{Refusing, hello};

#[derive(Clone, Copy, Debug)]
enum Call {
    Catalog,
    Lists,
}

// Why a call over a heap fails, and how many blocks it asks for.
fn outcome(
    alloc: Global,
    call: Call,
    heap: Refusing<Global>,
) -> Result<(Option<WalkError>, u64), AllocError> {
    let error = match call {
        Call::Catalog => catalog_of(&heap, hello(alloc)?).err(),
        Call::Lists => parts_of(&heap, gaps(alloc)?, 3, 12).err(),
    };
    Ok((error, heap.asked()))
}

#[test]
fn each_refused_block_is_told(rt: HostRuntime) -> Result<(), Fail> {
    for call in [Call::Catalog, Call::Lists] {
        let (error, asked) = outcome(rt.alloc(), call, Refusing::none(rt.alloc()))?;
        assert!(rt; error.is_none() && asked > 0, "{call:?}");
        for before in 0..asked {
            let (error, _) = outcome(rt.alloc(), call, Refusing::one(rt.alloc(), before))?;
            assert!(rt; error == Some(WalkError::Memory), "{call:?} {before}");
        }
    }
    Ok(())
}
