//! Files that are renamed: `rename`.
ghost use Rattle.std.specs.Prelude.{◌≡◌, ◌<◌, ◌≤◌, vec_len};
ghost use Rattle.a2_device.specs.Device.{DeviceState};

use crate::files::dos_listings::dos_33;
use a2_device::Device;
use edit_formats::EditError;
use file_edits::rename;
use file_formats::FileName;
use pro_format::Prodos;
use std::alloc::Global;
use std::test::Fail;
use test_volumes::{
    FIRST_CATALOG, Piece, block_device, dos_device, hello, hello_with, sub_with,
    tree_and_subdirectory,
};
use vol_layout::Reserved;

/// Why a file of a DOS 3.3 volume is not renamed; `None` where it is.
fn rename_on_dos<D: Device>(
    alloc: Global,
    device: &mut D,
    path: &[u8],
    new: &[u8],
) -> Option<EditError>
    requires unit { (D.state device.old).unit_size ≡ 256 }
    requires places { (D.state device.old).places ≡ 560 }
{
    match dos_33(alloc) {
        Ok(format) => rename(alloc, device, &format, FileName::Path(path), new).err(),
        Err(_) => Some(EditError::Memory),
    }
}

/// The same, and whether the image then has these bytes.
fn dos_renamed(
    alloc: Global,
    image: Vec<u8>,
    path: &[u8],
    new: &[u8],
    wanted: &[u8],
) -> (Option<EditError>, bool)
    requires { vec_len image ≡ 143360 }
{
    let mut device = dos_device(image);
    let error = rename_on_dos(alloc, &mut device, path, new);
    (error, device.into_image().into_bytes().as_slice() == wanted)
}

/// The file HELLO, which is not locked, with the new name GO 1.
static RENAMED: [Piece; 3] = [
    (FIRST_CATALOG, 0x0d, &[0x04]),
    (FIRST_CATALOG, 0x0e, &[0xa0; 30]),
    (FIRST_CATALOG, 0x0e, &[0xc7, 0xcf, 0xa0, 0xb1]),
];

#[test]
fn a_dos_file_is_renamed(rt: HostRuntime) -> Result<(), Fail> {
    let image = hello_with(rt.alloc(), &[(FIRST_CATALOG, 0x0d, &[0x04])])?;
    let wanted = hello_with(rt.alloc(), &RENAMED)?;
    let answer = dos_renamed(rt.alloc(), image, b"HELLO", b"GO 1", wanted.as_slice());
    assert!(rt; answer == (None, true));
    Ok(())
}

/// A path, a new name, and why the file is not renamed.
static DOS_REFUSALS: [(&[u8], &[u8], EditError); 8] = [
    (b"NONE", b"1", EditError::NotFound),
    (b"HELLO", b"", EditError::Name),
    (b"HELLO", b"1A", EditError::Name),
    (b"HELLO", b"A,B", EditError::Name),
    (b"HELLO", b"A ", EditError::Name),
    (
        b"HELLO",
        b"ABCDEFGHIJKLMNOPQRSTUVWXYZ12345",
        EditError::Name,
    ),
    (b"HELLO", b"HELLO", EditError::Exists),
    (b"HELLO", b"GO", EditError::Locked),
];

#[test]
fn a_dos_file_is_not_renamed(rt: HostRuntime) -> Result<(), Fail> {
    let old = hello(rt.alloc())?;
    for (path, new, wanted) in &DOS_REFUSALS {
        let answer = dos_renamed(rt.alloc(), hello(rt.alloc())?, path, new, old.as_slice());
        assert!(rt; answer == (Some(*wanted), true), "{wanted}");
    }
    Ok(())
}

/// Why a file of a ProDOS volume is not renamed; `None` where it is.
fn rename_on_blocks<D: Device>(
    alloc: Global,
    device: &mut D,
    path: &[u8],
    new: &[u8],
) -> Option<EditError>
    requires unit { (D.state device.old).unit_size ≡ 512 }
    requires places { (16 ≤ (D.state device.old).places) × ((D.state device.old).places < 65536) }
{
    let format = Prodos::new(alloc, Reserved::none(alloc));
    rename(alloc, device, &format, FileName::Path(path), new).err()
}

/// The same, and whether the image then has these bytes; `None` where there is no image.
fn pro_renamed(
    alloc: Global,
    image: Vec<u8>,
    path: &[u8],
    new: &[u8],
    wanted: &[u8],
) -> Option<(Option<EditError>, bool)> {
    let mut device = block_device(image)?;
    let error = rename_on_blocks(alloc, &mut device, path, new);
    Some((error, device.into_image().into_bytes().as_slice() == wanted))
}

/// New names of the file SUB/A, and what stands at the front of its entry then.
static PRO_NAMES: [(&[u8], [u8; 4]); 2] = [
    (b"b.2", [0x13, 0x42, 0x2e, 0x32]),
    (b"Sub", [0x13, 0x53, 0x55, 0x42]),
];

#[test]
fn a_prodos_file_is_renamed(rt: HostRuntime) -> Result<(), Fail> {
    for (new, front) in &PRO_NAMES {
        let image = tree_and_subdirectory(rt.alloc())?;
        let wanted = sub_with(rt.alloc(), &[(10, 0x2b, front)])?;
        let answer = pro_renamed(rt.alloc(), image, b"sub/a", new, wanted.as_slice());
        assert!(rt; answer == Some((None, true)));
    }
    Ok(())
}

/// A path, a new name, the access bits of SUB/A, and why the file is not renamed.
static PRO_REFUSALS: [(&[u8], &[u8], u8, EditError); 7] = [
    (b"SUB", b"1", 0xe3, EditError::NotFound),
    (b"SUB/A", b"", 0xe3, EditError::Name),
    (b"SUB/A", b"1A", 0xe3, EditError::Name),
    (b"SUB/A", b"SUB/B", 0xe3, EditError::Name),
    (b"SUB/A", b"A234567890123456", 0xe3, EditError::Name),
    (b"SUB/A", b"a", 0xa3, EditError::Exists),
    (b"SUB/A", b"B", 0xa3, EditError::Locked),
];

#[test]
fn a_prodos_file_is_not_renamed(rt: HostRuntime) -> Result<(), Fail> {
    for (path, new, access, wanted) in &PRO_REFUSALS {
        let image = sub_with(rt.alloc(), &[(10, 0x49, &[*access])])?;
        let old = sub_with(rt.alloc(), &[(10, 0x49, &[*access])])?;
        let answer = pro_renamed(rt.alloc(), image, path, new, old.as_slice());
        assert!(rt; answer == Some((Some(*wanted), true)), "{wanted}");
    }
    Ok(())
}
