//! Files that are locked and unlocked: `lock`, `unlock`.
ghost use Rattle.std.specs.Prelude.{◌≡◌, ◌<◌, ◌≤◌, vec_len, IfOk};
ghost use Rattle.a2_device.specs.Device.{DeviceState};

use crate::files::dos_listings::dos_33;
use a2_device::{Device, FaultDevice};
use edit_formats::EditError;
use file_edits::{lock, unlock};
use file_formats::FileName;
use pro_format::Prodos;
use std::alloc::{AllocError, Allocator, Global};
use std::test::Fail;
use test_volumes::{
    FIRST_CATALOG, Refusing, block_device, dos_device, hello, hello_with, sub_with,
    tree_and_subdirectory,
};
use vol_layout::Reserved;

/// Why a file of a DOS 3.3 volume is not locked; `None` where it is.
fn lock_on<A: Allocator + Copy, D: Device>(
    alloc: A,
    device: &mut D,
    path: &[u8],
) -> Option<EditError>
    requires unit { (D.state device.old).unit_size ≡ 256 }
    requires places { (D.state device.old).places ≡ 560 }
{
    match dos_33(alloc) {
        Ok(format) => lock(alloc, device, &format, FileName::Path(path)).err(),
        Err(_) => Some(EditError::Memory),
    }
}

/// Why it is not unlocked.
fn unlock_on<A: Allocator + Copy, D: Device>(
    alloc: A,
    device: &mut D,
    path: &[u8],
) -> Option<EditError>
    requires unit { (D.state device.old).unit_size ≡ 256 }
    requires places { (D.state device.old).places ≡ 560 }
{
    match dos_33(alloc) {
        Ok(format) => unlock(alloc, device, &format, FileName::Path(path)).err(),
        Err(_) => Some(EditError::Memory),
    }
}

/// Why it is not locked, or unlocked.
fn relock_on<A: Allocator + Copy, D: Device>(
    alloc: A,
    device: &mut D,
    path: &[u8],
    on: bool,
) -> Option<EditError>
    requires unit { (D.state device.old).unit_size ≡ 256 }
    requires places { (D.state device.old).places ≡ 560 }
{
    if on {
        lock_on(alloc, device, path)
    } else {
        unlock_on(alloc, device, path)
    }
}

/// Why a file of a volume is not locked, or unlocked, and whether the image then has these bytes.
fn relocked(
    alloc: Global,
    image: Vec<u8>,
    path: &[u8],
    on: bool,
    wanted: &[u8],
) -> (Option<EditError>, bool)
    requires { vec_len image ≡ 143360 }
{
    let mut device = dos_device(image);
    let error = relock_on(alloc, &mut device, path, on);
    (error, device.into_image().into_bytes().as_slice() == wanted)
}

/// The volume HELLO, whose file has this kind.
fn hello_of_kind(alloc: Global, kind: u8) -> Result<Vec<u8>, AllocError>
    ensures { IfOk result (λ image. vec_len image ≡ 143360) }
{
    hello_with(alloc, &[(FIRST_CATALOG, 0x0d, &[kind])])
}

/// A kind, whether its file is locked or unlocked, and the kind then.
static KINDS: [(u8, bool, u8); 6] = [
    (0x84, false, 0x04),
    (0x04, true, 0x84),
    (0x84, true, 0x84),
    (0x04, false, 0x04),
    (0x7f, true, 0xff),
    (0xff, false, 0x7f),
];

#[test]
fn a_dos_file_is_locked_and_unlocked(rt: HostRuntime) -> Result<(), Fail> {
    for (old, on, new) in &KINDS {
        let image = hello_of_kind(rt.alloc(), *old)?;
        let wanted = hello_of_kind(rt.alloc(), *new)?;
        let answer = relocked(rt.alloc(), image, b"HELLO", *on, wanted.as_slice());
        assert!(rt; answer == (None, true), "{old}");
    }
    Ok(())
}

/// A path, the first bytes of the list of HELLO, which leads to no list or to itself, and why the file is not unlocked.
static REFUSALS: [(&[u8], [u8; 3], EditError); 2] = [
    (b"NONE", [0, 0, 0], EditError::NotFound),
    (b"HELLO", [0, 3, 14], EditError::Check),
];

#[test]
fn a_refused_lock_writes_nothing(rt: HostRuntime) -> Result<(), Fail> {
    for (path, list, wanted) in &REFUSALS {
        let image = hello_with(rt.alloc(), &[(62, 0x00, list)])?;
        let old = hello_with(rt.alloc(), &[(62, 0x00, list)])?;
        let answer = relocked(rt.alloc(), image, path, false, old.as_slice());
        assert!(rt; answer == (Some(*wanted), true), "{wanted}");
    }
    Ok(())
}

/// A failure that is ordered of a device.
#[derive(Clone, Copy)]
enum Failure {
    Read,
    Write { took: bool },
}

/// Why HELLO is not unlocked on a device with a failure to come, and whether the image then has these bytes.
fn unlocked_failing(
    alloc: Global,
    image: Vec<u8>,
    failure: Failure,
    wanted: &[u8],
) -> (Option<EditError>, bool)
    requires { vec_len image ≡ 143360 }
{
    let mut device = FaultDevice::new(dos_device(image));
    match failure {
        Failure::Read => device.fail_read(),
        Failure::Write { took } => device.fail_write(took),
    }
    let error = relock_on(alloc, &mut device, b"HELLO", false);
    let image = device.into_inner().into_image().into_bytes();
    (error, image.as_slice() == wanted)
}

/// Failures, and the kind of HELLO then.
static FAILURES: [(Failure, u8); 3] = [
    (Failure::Read, 0x84),
    (Failure::Write { took: false }, 0x84),
    (Failure::Write { took: true }, 0x04),
];

#[test]
fn a_failure_leaves_the_file_or_the_file_unlocked(rt: HostRuntime) -> Result<(), Fail> {
    for (failure, kind) in &FAILURES {
        let wanted = hello_of_kind(rt.alloc(), *kind)?;
        let image = hello(rt.alloc())?;
        let answer = unlocked_failing(rt.alloc(), image, *failure, wanted.as_slice());
        assert!(rt; answer == (Some(EditError::Device), true), "{kind}");
    }
    Ok(())
}

/// Why HELLO is not unlocked over a heap, and how many blocks that asks for.
fn unlocked_over(
    alloc: Global,
    heap: Refusing<Global>,
) -> Result<(Option<EditError>, u64), AllocError> {
    let mut device = dos_device(hello(alloc)?);
    let error = relock_on(&heap, &mut device, b"HELLO", false);
    Ok((error, heap.asked()))
}

#[test]
fn each_block_refused_to_a_lock_is_memory(rt: HostRuntime) -> Result<(), Fail> {
    let alloc = rt.alloc();
    let (error, asked) = unlocked_over(alloc, Refusing::none(alloc))?;
    assert!(rt; error.is_none() && asked > 8);
    for before in 0..asked {
        let (error, _) = unlocked_over(alloc, Refusing::one(alloc, before))?;
        assert!(rt; error == Some(EditError::Memory), "{before}");
    }
    Ok(())
}

/// Why a file of a ProDOS volume is not locked, or unlocked; `None` where it is.
fn relock_on_blocks<D: Device>(
    alloc: Global,
    device: &mut D,
    path: &[u8],
    on: bool,
) -> Option<EditError>
    requires unit { (D.state device.old).unit_size ≡ 512 }
    requires places { (16 ≤ (D.state device.old).places) × ((D.state device.old).places < 65536) }
{
    let format = Prodos::new(alloc, Reserved::none(alloc));
    if on {
        lock(alloc, device, &format, FileName::Path(path)).err()
    } else {
        unlock(alloc, device, &format, FileName::Path(path)).err()
    }
}

/// The same, and whether the image then has these bytes; `None` where there is no image.
fn pro_relocked(
    alloc: Global,
    image: Vec<u8>,
    path: &[u8],
    on: bool,
    wanted: &[u8],
) -> Option<(Option<EditError>, bool)> {
    let mut device = block_device(image)?;
    let error = relock_on_blocks(alloc, &mut device, path, on);
    Some((error, device.into_image().into_bytes().as_slice() == wanted))
}

/// Access bits, whether their file is locked or unlocked, and the bits then.
static ACCESS: [(u8, bool, u8); 4] = [
    (0xe3, true, 0x21),
    (0x21, false, 0xe3),
    (0x1c, false, 0xdf),
    (0xff, true, 0x3d),
];

#[test]
fn a_prodos_file_is_locked_and_unlocked(rt: HostRuntime) -> Result<(), Fail> {
    for (old, on, new) in &ACCESS {
        let image = sub_with(rt.alloc(), &[(10, 0x49, &[*old])])?;
        let wanted = sub_with(rt.alloc(), &[(10, 0x49, &[*new])])?;
        let answer = pro_relocked(rt.alloc(), image, b"sub/a", *on, wanted.as_slice());
        assert!(rt; answer == Some((None, true)), "{old}");
    }
    Ok(())
}

#[test]
fn a_directory_is_not_locked(rt: HostRuntime) -> Result<(), Fail> {
    let image = tree_and_subdirectory(rt.alloc())?;
    let old = tree_and_subdirectory(rt.alloc())?;
    let answer = pro_relocked(rt.alloc(), image, b"SUB", true, old.as_slice());
    assert!(rt; matches!(answer, Some((Some(_), true))));
    Ok(())
}
