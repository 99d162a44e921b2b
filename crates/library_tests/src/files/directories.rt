//! New directories: `make_directory`.
ghost use Rattle.std.specs.Prelude.{◌≡◌, ◌<◌, ◌≤◌, length, vec_len, IfOk};
ghost use Rattle.a2_device.specs.Device.{DeviceState};

use a2_device::Device;
use a2_media::ImageDevice;
use edit_formats::EditError;
use file_edits::{Acceptance, make_directory};
use pro_dir::ProDate;
use pro_format::Prodos;
use std::alloc::{AllocError, Allocator, Global};
use std::test::Fail;
use test_volumes::{
    LateFailure, Piece, Refusing, block_device, put_pieces, put_writes, sub_with, tree_with,
};
use vol_layout::Reserved;

/// Why a directory is not made on a ProDOS volume, on 1 May 1986, 12:30; `None` where it is.
fn make<A: Allocator + Copy, D: Device>(alloc: A, device: &mut D, path: &[u8]) -> Option<EditError>
    requires unit { (D.state device.old).unit_size ≡ 512 }
    requires places { (16 ≤ (D.state device.old).places) × ((D.state device.old).places < 65536) }
{
    let format = Prodos::new(alloc, Reserved::none(alloc));
    let date = ProDate([0xa1, 0xac, 0x1e, 0x0c]);
    make_directory(alloc, device, &format, Acceptance::Unknown, path, date).err()
}

/// Why a directory is not made, and whether the image then has these bytes; `None` where there is no image.
fn made(
    alloc: Global,
    image: Vec<u8>,
    path: &[u8],
    wanted: &[u8],
) -> Option<(Option<EditError>, bool)> {
    let mut device = block_device(image)?;
    let error = make(alloc, &mut device, path);
    Some((error, device.into_image().into_bytes().as_slice() == wanted))
}

/// The writes that make the directory SUB on the volume with BIG: its block 10, the mark of that in the map, and its
/// entry, the third of block 2, with the count of files.
static SUB_MADE: [&[Piece]; 3] = [
    &[
        (10, 0x04, &[0xe3, 0x53, 0x55, 0x42]),
        (10, 0x14, &[0x75]),
        (10, 0x1c, &[0xa1, 0xac, 0x1e, 0x0c]),
        (10, 0x22, &[0xc3, 0x27, 0x0d]),
        (10, 0x27, &[2, 0, 3, 0x27]),
    ],
    &[(6, 0x01, &[0x1f])],
    &[
        (2, 0x25, &[2]),
        (2, 0x52, &[0xd3, 0x53, 0x55, 0x42]),
        (2, 0x62, &[0x0f, 10, 0, 1, 0, 0, 2, 0]),
        (2, 0x6a, &[0xa1, 0xac, 0x1e, 0x0c]),
        (2, 0x70, &[0xe3]),
        (2, 0x73, &[0xa1, 0xac, 0x1e, 0x0c]),
        (2, 0x77, &[2, 0]),
    ],
];

/// The volume with BIG once so many of these writes stand.
fn sub_made(alloc: Global, count: u64) -> Result<Vec<u8>, AllocError> {
    let mut image = tree_with(alloc, &[])?;
    put_writes(&mut image, 512, &SUB_MADE, count);
    Ok(image)
}

#[test]
fn a_directory_is_made(rt: HostRuntime) -> Result<(), Fail> {
    let image = tree_with(rt.alloc(), &[])?;
    let wanted = sub_made(rt.alloc(), 3)?;
    assert!(rt; made(rt.alloc(), image, b"sub", wanted.as_slice()) == Some((None, true)));
    Ok(())
}

/// DEEP is made in the directory SUB, which has the file A: its block 12, and its entry, the third of block 10.
static DEEP_MADE: [Piece; 14] = [
    (12, 0x04, &[0xe4, 0x44, 0x45, 0x45, 0x50]),
    (12, 0x14, &[0x75]),
    (12, 0x1c, &[0xa1, 0xac, 0x1e, 0x0c]),
    (12, 0x22, &[0xc3, 0x27, 0x0d]),
    (12, 0x27, &[10, 0, 3, 0x27]),
    (6, 0x01, &[0x07]),
    (10, 0x25, &[2]),
    (10, 0x52, &[0xd4, 0x44, 0x45, 0x45, 0x50]),
    (10, 0x62, &[0x0f, 12, 0, 1, 0, 0, 2, 0]),
    (10, 0x6a, &[0xa1, 0xac, 0x1e, 0x0c]),
    (10, 0x70, &[0xe3]),
    (10, 0x73, &[0xa1, 0xac, 0x1e, 0x0c]),
    (10, 0x77, &[10, 0]),
    (10, 0x26, &[0]),
];

#[test]
fn a_directory_is_made_in_another(rt: HostRuntime) -> Result<(), Fail> {
    let image = sub_with(rt.alloc(), &[])?;
    let wanted = sub_with(rt.alloc(), &DEEP_MADE)?;
    let answer = made(rt.alloc(), image, b"SUB/DEEP", wanted.as_slice());
    assert!(rt; answer == Some((None, true)));
    Ok(())
}

/// A path, and why no directory is made on the volume with a subdirectory.
static REFUSALS: [(&[u8], EditError); 8] = [
    (b"NONE/X", EditError::NotFound),
    (b"BIG/X", EditError::NotFound),
    (b"NONE/", EditError::NotFound),
    (b"SUB/", EditError::Name),
    (b"1A", EditError::Name),
    (b"big", EditError::Exists),
    (b"SUB", EditError::Exists),
    (b"sub/a", EditError::Exists),
];

#[test]
fn a_directory_is_not_made(rt: HostRuntime) -> Result<(), Fail> {
    let old = sub_with(rt.alloc(), &[])?;
    for (path, wanted) in &REFUSALS {
        let image = sub_with(rt.alloc(), &[])?;
        let answer = made(rt.alloc(), image, path, old.as_slice());
        assert!(rt; answer == Some((Some(*wanted), true)), "{wanted}");
    }
    Ok(())
}

/// The entries of the files C to M, which have no block, behind that of A in block 10.
fn fill_sub(image: &mut [u8]) {
    for number in 0..11 {
        let entry = 0x52 + 39 * number;
        let name = [0x11, b'C' + number as u8];
        put_pieces(
            image,
            512,
            &[(10, entry, &name), (10, entry + 0x1e, &[0xe3])],
        );
        put_pieces(image, 512, &[(10, entry + 0x25, &[10])]);
    }
}

#[test]
fn a_full_directory_takes_no_directory(rt: HostRuntime) -> Result<(), Fail> {
    let mut image = sub_with(rt.alloc(), &[])?;
    let mut old = sub_with(rt.alloc(), &[])?;
    fill_sub(&mut image);
    fill_sub(&mut old);
    let answer = made(rt.alloc(), image, b"SUB/X", old.as_slice());
    assert!(rt; answer == Some((Some(EditError::DirFull), true)));
    Ok(())
}

#[test]
fn a_full_volume_takes_no_directory(rt: HostRuntime) -> Result<(), Fail> {
    let image = sub_with(rt.alloc(), &[(6, 0x00, &[0; 35])])?;
    let old = sub_with(rt.alloc(), &[(6, 0x00, &[0; 35])])?;
    let answer = made(rt.alloc(), image, b"X", old.as_slice());
    assert!(rt; answer == Some((Some(EditError::VolumeFull), true)));
    Ok(())
}

/// How many faults were told of a device whose write after so many others failed, and whether the image is then that of
/// so many writes.
fn stopped(alloc: Global, before: u64, took: bool) -> Option<(Option<EditError>, u64, bool)> {
    let image = sub_made(alloc, 0).ok()?;
    let standing = if took {
        before.saturating_add(1)
    } else {
        before
    };
    let wanted = sub_made(alloc, standing).ok()?;
    let mut device = LateFailure::write(block_device(image)?, before, took);
    let error = make(alloc, &mut device, b"SUB");
    let faults = device.faults();
    let bytes = device.into_inner().into_image().into_bytes();
    Some((error, faults, bytes.as_slice() == wanted.as_slice()))
}

/// Three writes are made.
#[test]
fn each_write_failing(rt: HostRuntime) {
    for took in [false, true] {
        for before in 0..3u64 {
            let answer = stopped(rt.alloc(), before, took);
            assert!(rt;
                answer == Some((Some(EditError::Device), 1, true)),
                "{before}"
            );
        }
    }
    assert!(rt; stopped(rt.alloc(), 3, false) == Some((None, 0, true)));
}

/// What is told where the read after so many others fails, and whether the image is as it was.
fn unread(alloc: Global, before: u64) -> Option<(Option<EditError>, bool)> {
    let image = sub_made(alloc, 0).ok()?;
    let wanted = sub_made(alloc, 0).ok()?;
    let mut device = LateFailure::read(block_device(image)?, before);
    let error = make(alloc, &mut device, b"SUB");
    let bytes = device.into_inner().into_image().into_bytes();
    Some((error, bytes.as_slice() == wanted.as_slice()))
}

/// How many reads are made, where each of them fails in turn; `None` where one is told otherwise.
fn count_reads(alloc: Global) -> Option<u64> {
    for before in 0..1000u64 {
        match unread(alloc, before) {
            Some((Some(EditError::Device), true)) => {}
            Some((None, false)) => return Some(before),
            _ => return None,
        }
    }
    None
}

/// The check reads the directory and the indexes; the directory is read again for the slot, and then the units of the
/// map and of the entry.
#[test]
fn each_read_failing(rt: HostRuntime) {
    let is_enough = match count_reads(rt.alloc()) {
        Some(reads) => reads >= 13,
        None => false,
    };
    assert!(rt; is_enough);
}

/// Each block of memory refused in turn: the image is as it was.
#[test]
fn memory_refused(rt: HostRuntime) -> Result<(), Fail> {
    let old = sub_made(rt.alloc(), 0)?;
    for before in 0..1000u64 {
        let alloc = Refusing::one(rt.alloc(), before);
        let Some(mut device) = block_device(sub_made(rt.alloc(), 0)?) else {
            return Ok(());
        };
        let error = make(&alloc, &mut device, b"SUB");
        let bytes = device.into_image().into_bytes();
        if error == None {
            assert!(rt; before > 5, "{before}");
            return Ok(());
        }
        assert!(rt; error == Some(EditError::Memory), "{before}");
        assert!(rt; bytes.as_slice() == old.as_slice(), "{before}");
    }
    assert!(rt; false);
    Ok(())
}

/// NEXT is made where block 2 has no free slot: its block 10, and its entry, the first of block 3.
static NEXT_MADE: [Piece; 12] = [
    (10, 0x04, &[0xe4, 0x4e, 0x45, 0x58, 0x54]),
    (10, 0x14, &[0x75]),
    (10, 0x1c, &[0xa1, 0xac, 0x1e, 0x0c]),
    (10, 0x22, &[0xc3, 0x27, 0x0d]),
    (10, 0x27, &[3, 0, 1, 0x27]),
    (6, 0x01, &[0x1f]),
    (3, 0x04, &[0xd4, 0x4e, 0x45, 0x58, 0x54]),
    (
        3,
        0x14,
        &[0x0f, 10, 0, 1, 0, 0, 2, 0, 0xa1, 0xac, 0x1e, 0x0c],
    ),
    (3, 0x22, &[0xe3]),
    (3, 0x25, &[0xa1, 0xac, 0x1e, 0x0c]),
    (3, 0x29, &[2, 0]),
    (2, 0x25, &[2]),
];

/// The entries of the files C to M, which have no block, behind that of BIG in block 2.
fn fill_block(image: &mut [u8]) {
    for number in 0..11 {
        let entry = 0x52 + 39 * number;
        let name = [0x11, b'C' + number as u8];
        put_pieces(image, 512, &[(2, entry, &name), (2, entry + 0x1e, &[0xe3])]);
        put_pieces(image, 512, &[(2, entry + 0x25, &[2])]);
    }
}

#[test]
fn a_directory_is_entered_into_a_later_block(rt: HostRuntime) -> Result<(), Fail> {
    let mut image = tree_with(rt.alloc(), &[])?;
    fill_block(&mut image);
    let mut wanted = tree_with(rt.alloc(), &NEXT_MADE)?;
    fill_block(&mut wanted);
    let answer = made(rt.alloc(), image, b"next", wanted.as_slice());
    assert!(rt; answer == Some((None, true)));
    Ok(())
}
