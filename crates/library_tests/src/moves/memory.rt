//! Refused memory: each call that takes memory answers want of it, whichever of its blocks is refused.
ghost use Rattle.std.specs.Prelude.{◌≡◌, vec_len};

use crate::moves::volumes::{ALL, KEEP, dos33};
use a2_device::Device;
use dos_format::Dos33;
use std::alloc::{AllocError, Global};
use std::test::Fail;
use test_volumes::{Refusing, dos_device, hello};
use vol_check::{CheckError, check};
use vol_mover::{OpenError, Opening, OptError, optimize};

#[derive(Clone, Copy, Debug)]
enum Call {
    Check,
    Open,
    Optimize,
}

// Whether a check answers want of memory.
fn check_wants(heap: &Refusing<Global>, image: Vec<u8>, format: &Dos33) -> bool
    requires { vec_len image ≡ 143360 }
{
    matches!(
        &check(heap, &mut dos_device(image), format),
        Err(CheckError::Memory)
    )
}

// Whether an opening does.
fn opening_wants(heap: &Refusing<Global>, image: Vec<u8>, format: &Dos33) -> bool
    requires { vec_len image ≡ 143360 }
{
    matches!(
        &Opening::read(heap, &mut dos_device(image), format, KEEP),
        Err(OpenError::Memory)
    )
}

// Whether an optimizer does, and has written nothing.
fn optimizer_wants(heap: &Refusing<Global>, image: Vec<u8>, format: &Dos33) -> bool
    requires { vec_len image ≡ 143360 }
{
    match optimize(heap, dos_device(image), format, KEEP, ALL) {
        Err((OptError::Open(OpenError::Memory) | OptError::Memory, device)) => device.writes() == 0,
        _ => false,
    }
}

// Whether a call on an image answers want of memory.
fn wants_on(call: Call, heap: &Refusing<Global>, image: Vec<u8>, format: &Dos33) -> bool
    requires { vec_len image ≡ 143360 }
{
    match call {
        Call::Check => check_wants(heap, image, format),
        Call::Open => opening_wants(heap, image, format),
        Call::Optimize => optimizer_wants(heap, image, format),
    }
}

// Whether a call on the volume with `HELLO` answers want of memory, and how many blocks it asks.
fn wants_memory(
    alloc: Global,
    call: Call,
    heap: Refusing<Global>,
) -> Result<(bool, u64), AllocError> {
    let format = dos33(alloc, false)?;
    let wants = wants_on(call, &heap, hello(alloc)?, &format);
    Ok((wants, heap.asked()))
}

#[test]
fn each_refused_block_is_told(rt: HostRuntime) -> Result<(), Fail> {
    for call in [Call::Check, Call::Open, Call::Optimize] {
        let (wants, asked) = wants_memory(rt.alloc(), call, Refusing::none(rt.alloc()))?;
        assert!(rt; !wants && asked > 0, "{call:?}");
        for before in 0..asked {
            let (wants, _) = wants_memory(rt.alloc(), call, Refusing::one(rt.alloc(), before))?;
            assert!(rt; wants, "{call:?} {before}");
        }
    }
    Ok(())
}
