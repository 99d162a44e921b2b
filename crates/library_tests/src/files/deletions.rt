//! Files that are deleted: `delete`.
ghost use Rattle.std.specs.Prelude.{◌≡◌, ◌<◌, ◌≤◌, vec_len};
ghost use Rattle.a2_device.specs.Device.{DeviceState};

use crate::files::dos_listings::dos_33;
use a2_device::Device;
use edit_formats::EditError;
use file_edits::delete;
use file_formats::FileName;
use pro_format::Prodos;
use std::alloc::{AllocError, Allocator, Global};
use std::test::Fail;
use test_volumes::{
    Piece, block_device, dos_device, hello_with, put_pieces, seedlings_far_out, sub_with,
    tree_and_subdirectory,
};
use vol_layout::Reserved;

/// Why a file of a DOS 3.3 volume is not deleted; `None` where it is.
pub fn delete_on_dos<A: Allocator + Copy, D: Device>(
    alloc: A,
    device: &mut D,
    path: &[u8],
) -> Option<EditError>
    requires unit { (D.state device.old).unit_size ≡ 256 }
    requires places { (D.state device.old).places ≡ 560 }
{
    match dos_33(alloc) {
        Ok(format) => delete(alloc, device, &format, FileName::Path(path)).err(),
        Err(_) => Some(EditError::Memory),
    }
}

/// Why a file of a ProDOS volume is not deleted; `None` where it is.
pub fn delete_on_blocks<A: Allocator + Copy, D: Device>(
    alloc: A,
    device: &mut D,
    path: &[u8],
) -> Option<EditError>
    requires unit { (D.state device.old).unit_size ≡ 512 }
    requires places { (16 ≤ (D.state device.old).places) × ((D.state device.old).places < 65536) }
{
    let format = Prodos::new(alloc, Reserved::none(alloc));
    delete(alloc, device, &format, FileName::Path(path)).err()
}

/// The same, and whether the image then has these bytes.
fn deleted_on_dos(
    alloc: Global,
    image: Vec<u8>,
    path: &[u8],
    wanted: &[u8],
) -> (Option<EditError>, bool)
    requires { vec_len image ≡ 143360 }
{
    let mut device = dos_device(image);
    let error = delete_on_dos(alloc, &mut device, path);
    (error, device.into_image().into_bytes().as_slice() == wanted)
}

/// The same of a ProDOS volume; `None` where the bytes are no image.
fn deleted_on_blocks(
    alloc: Global,
    image: Vec<u8>,
    path: &[u8],
    wanted: &[u8],
) -> Option<(Option<EditError>, bool)> {
    let mut device = block_device(image)?;
    let error = delete_on_blocks(alloc, &mut device, path);
    Some((error, device.into_image().into_bytes().as_slice() == wanted))
}

/// Whether a file of a ProDOS volume is deleted, and the image then has these bytes.
fn is_deleted(alloc: Global, image: Vec<u8>, path: &[u8], wanted: &[u8]) -> bool {
    deleted_on_blocks(alloc, image, path, wanted) == Some((None, true))
}

/// BIG is deleted: its entry stands in the key block, its master index is block 7, its index block 9 and its body block
/// 8.
static BIG_DELETED: [Piece; 3] = [
    (2, 0x2b, &[0x00]),
    (2, 0x25, &[1]),
    (6, 0x00, &[0x01, 0xcf]),
];

#[test]
fn a_tree_is_deleted(rt: HostRuntime) -> Result<(), Fail> {
    let image = tree_and_subdirectory(rt.alloc())?;
    let wanted = sub_with(rt.alloc(), &BIG_DELETED)?;
    assert!(rt; is_deleted(rt.alloc(), image, b"BIG", wanted.as_slice()));
    Ok(())
}

/// The volume with seedlings far out with these bytes.
fn seedlings_with(alloc: Global, pieces: &[Piece]) -> Result<Vec<u8>, AllocError> {
    let mut image = seedlings_far_out(alloc)?;
    put_pieces(&mut image, 512, pieces);
    Ok(image)
}

/// Block 5,000 has its bit in byte 71 of block 7, the second of the map; a count of files that is 0 stays so.
#[test]
fn a_file_far_out_is_deleted(rt: HostRuntime) -> Result<(), Fail> {
    let image = seedlings_with(rt.alloc(), &[(2, 0x25, &[0])])?;
    let wanted = seedlings_with(
        rt.alloc(),
        &[(2, 0x25, &[0]), (2, 0x2b, &[0x00]), (7, 0x71, &[0xbf])],
    )?;
    assert!(rt; is_deleted(rt.alloc(), image, b"A", wanted.as_slice()));
    Ok(())
}

/// A path, the first bytes of the list of HELLO, which is locked; they lead to no list or to itself; and why no file is
/// deleted.
static DOS_REFUSALS: [(&[u8], [u8; 3], EditError); 4] = [
    (b"HELLO", [0, 0, 0], EditError::Locked),
    (b"NONE", [0, 0, 0], EditError::NotFound),
    (b"HELLO", [0, 3, 14], EditError::Check),
    (b"NONE", [0, 3, 14], EditError::Check),
];

#[test]
fn a_dos_file_is_not_deleted(rt: HostRuntime) -> Result<(), Fail> {
    for (path, list, wanted) in &DOS_REFUSALS {
        let image = hello_with(rt.alloc(), &[(62, 0x00, list)])?;
        let old = hello_with(rt.alloc(), &[(62, 0x00, list)])?;
        let answer = deleted_on_dos(rt.alloc(), image, path, old.as_slice());
        assert!(rt; answer == (Some(*wanted), true), "{wanted}");
    }
    Ok(())
}

/// A path, the access bits of SUB/A, and why no file is deleted.
static PRO_REFUSALS: [(&[u8], u8, EditError); 4] = [
    (b"SUB/A", 0x63, EditError::Locked),
    (b"SUB/A", 0x21, EditError::Locked),
    (b"SUB/B", 0xe3, EditError::NotFound),
    (b"SUB", 0xe3, EditError::NotFound),
];

#[test]
fn a_prodos_file_is_not_deleted(rt: HostRuntime) -> Result<(), Fail> {
    for (path, access, wanted) in &PRO_REFUSALS {
        let image = sub_with(rt.alloc(), &[(10, 0x49, &[*access])])?;
        let old = sub_with(rt.alloc(), &[(10, 0x49, &[*access])])?;
        let answer = deleted_on_blocks(rt.alloc(), image, path, old.as_slice());
        assert!(rt; answer == Some((Some(*wanted), true)), "{wanted}");
    }
    Ok(())
}
