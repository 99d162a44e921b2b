//! New files that are saved: `save`.
ghost use Rattle.std.specs.Prelude.{◌≡◌, ◌*◌, ◌<◌, ◌≤◌, length, vec_len, IfOk};
ghost use Rattle.a2_device.specs.Device.{DeviceState};

use crate::files::dos_listings::dos_33;
use a2_device::Device;
use edit_formats::{Attributes, EditError};
use file_edits::{Acceptance, NewFile, save};
use pro_dir::ProDate;
use pro_format::Prodos;
use std::alloc::{AllocError, Allocator, Global};
use std::test::Fail;
use test_volumes::{
    ENTRY_BYTES, FIRST_CATALOG, FIRST_ENTRY, Piece, VTOC, block_device, dos_device, dos_volume,
    hello, hello_with, put, put_pieces, tree_and_subdirectory,
};
use vol_layout::Reserved;

/// Why a file is not saved to a DOS 3.3 volume; `None` where it is.
fn save_on_dos<A: Allocator + Copy, D: Device>(
    alloc: A,
    device: &mut D,
    path: &[u8],
    kind: u8,
    stored: &[bool],
    units: &[u8],
) -> Option<EditError>
    requires unit { (D.state device.old).unit_size ≡ 256 }
    requires places { (D.state device.old).places ≡ 560 }
    requires units { 256 * length stored.now ≡ length units.now }
{
    let said = Attributes {
        kind,
        aux: 0,
        eof: 0,
        date: ProDate([0; 4]),
    };
    let file = NewFile {
        path,
        attributes: &said,
        stored,
        units,
    };
    match dos_33(alloc) {
        Ok(format) => save(alloc, device, &format, Acceptance::Unknown, &file).err(),
        Err(_) => Some(EditError::Memory),
    }
}

/// Why a file is not saved to a ProDOS volume; `None` where it is. Its type is 06, its auxiliary type 2000, and its
/// date 1 May 1986, 12:30.
fn save_on_blocks<A: Allocator + Copy, D: Device>(
    alloc: A,
    device: &mut D,
    path: &[u8],
    eof: u32,
    stored: &[bool],
    units: &[u8],
) -> Option<EditError>
    requires unit { (D.state device.old).unit_size ≡ 512 }
    requires places { (16 ≤ (D.state device.old).places) × ((D.state device.old).places < 65536) }
    requires units { 512 * length stored.now ≡ length units.now }
{
    let said = Attributes {
        kind: 0x06,
        aux: 0x2000,
        eof,
        date: ProDate([0xa1, 0xac, 0x1e, 0x0c]),
    };
    let file = NewFile {
        path,
        attributes: &said,
        stored,
        units,
    };
    let format = Prodos::new(alloc, Reserved::none(alloc));
    save(alloc, device, &format, Acceptance::Unknown, &file).err()
}

/// Why the file HI, of one unit, is not saved to a DOS 3.3 volume: its body is the address 768, the length 3, and three
/// bytes.
pub fn save_hi<A: Allocator + Copy, D: Device>(alloc: A, device: &mut D) -> Option<EditError>
    requires unit { (D.state device.old).unit_size ≡ 256 }
    requires places { (D.state device.old).places ≡ 560 }
{
    let mut unit = [0; 256];
    unit[..7].copy_from_slice(&[0x00, 0x03, 0x03, 0x00, 0xa9, 0x00, 0x60]);
    save_on_dos(alloc, device, b"HI", 0x04, &[true], &unit)
}

/// Why the file NOTE, of three bytes, is not saved to a ProDOS volume.
pub fn save_note<A: Allocator + Copy, D: Device>(alloc: A, device: &mut D) -> Option<EditError>
    requires unit { (D.state device.old).unit_size ≡ 512 }
    requires places { (16 ≤ (D.state device.old).places) × ((D.state device.old).places < 65536) }
{
    let mut unit = [0; 512];
    unit[..3].copy_from_slice(b"abc");
    save_on_blocks(alloc, device, b"note", 3, &[true], &unit)
}

/// Why the file HOLE is not saved to a ProDOS volume. Its 1,315 bytes are 1, as those of its hole are.
pub fn save_hole<A: Allocator + Copy, D: Device>(alloc: A, device: &mut D) -> Option<EditError>
    requires unit { (D.state device.old).unit_size ≡ 512 }
    requires places { (16 ≤ (D.state device.old).places) × ((D.state device.old).places < 65536) }
{
    save_on_blocks(
        alloc,
        device,
        b"HOLE",
        1315,
        &[true, false, true],
        &[1; 1536],
    )
}

/// The entries of the files C to M, which have no block, behind that of BIG in block 2.
pub fn fill_block(image: &mut [u8]) {
    for number in 0..11 {
        let entry = 0x52 + 39 * number;
        let name = [0x11, b'C' + number as u8];
        put_pieces(image, 512, &[(2, entry, &name), (2, entry + 0x1e, &[0xe3])]);
        put_pieces(image, 512, &[(2, entry + 0x25, &[2])]);
    }
}

/// Why a file without a unit is not saved to a DOS 3.3 volume, and whether the image then has these bytes.
fn empty_saved(
    alloc: Global,
    image: Vec<u8>,
    path: &[u8],
    wanted: &[u8],
) -> (Option<EditError>, bool)
    requires { vec_len image ≡ 143360 }
{
    let mut device = dos_device(image);
    let error = save_on_dos(alloc, &mut device, path, 0x00, &[], &[]);
    (error, device.into_image().into_bytes().as_slice() == wanted)
}

/// A map on which track 3 alone has a free sector, 13.
static NEARLY_FULL: [Piece; 2] = [(VTOC, 0x38, &[0; 140]), (VTOC, 0x44, &[0x20])];

/// A full map, and the entry of E1, a file without a unit, whose list took the last free place: track 3 sector 13.
static FULL: [Piece; 5] = [
    (VTOC, 0x38, &[0; 140]),
    (VTOC, 0x44, &[0x00]),
    (FIRST_CATALOG, 0x2e, &[3, 13, 0x00, 0xc5, 0xb1]),
    (FIRST_CATALOG, 0x33, &[0xa0; 28]),
    (FIRST_CATALOG, 0x4f, &[1]),
];

#[test]
fn an_empty_file_takes_the_last_place(rt: HostRuntime) -> Result<(), Fail> {
    let image = hello_with(rt.alloc(), &NEARLY_FULL)?;
    let full = hello_with(rt.alloc(), &FULL)?;
    assert!(rt; empty_saved(rt.alloc(), image, b"E1", full.as_slice()) == (None, true));
    Ok(())
}

#[test]
fn a_full_volume_takes_no_file(rt: HostRuntime) -> Result<(), Fail> {
    let image = hello_with(rt.alloc(), &FULL)?;
    let full = hello_with(rt.alloc(), &FULL)?;
    let answer = empty_saved(rt.alloc(), image, b"E2", full.as_slice());
    assert!(rt; answer == (Some(EditError::VolumeFull), true));
    Ok(())
}

/// GAPS is saved: its lists at track 3 sectors 13 and 11, and its units 0 and 122 at sectors 12 and 10.
static GAPS_SAVED: [Piece; 10] = [
    (61, 0x01, &[3, 11]),
    (61, 0x0c, &[3, 12]),
    (60, 0x00, &[1; 256]),
    (59, 0x05, &[0x7a]),
    (59, 0x0c, &[3, 10]),
    (58, 0x00, &[1; 256]),
    (VTOC, 0x44, &[0x03]),
    (FIRST_CATALOG, 0x2e, &[3, 13, 0x00, 0xc7, 0xc1, 0xd0, 0xd3]),
    (FIRST_CATALOG, 0x35, &[0xa0; 26]),
    (FIRST_CATALOG, 0x4f, &[4]),
];

/// Why a file is not saved to HELLO, and whether the image then has these bytes.
fn saved_to_hello(
    alloc: Global,
    path: &[u8],
    stored: &[bool],
    units: &[u8],
    pieces: &[Piece],
) -> Result<(Option<EditError>, bool), AllocError>
    requires { 256 * length stored.now ≡ length units.now }
{
    let wanted = hello_with(alloc, pieces)?;
    let mut device = dos_device(hello(alloc)?);
    let error = save_on_dos(alloc, &mut device, path, 0x00, stored, units);
    Ok((
        error,
        device.into_image().into_bytes().as_slice() == wanted.as_slice(),
    ))
}

#[test]
fn a_file_of_two_lists_is_saved(rt: HostRuntime) -> Result<(), Fail> {
    let mut stored = [false; 123];
    stored[0] = true;
    stored[122] = true;
    let units = vec![in rt.alloc(); 1; 31_488]?;
    let answer = saved_to_hello(rt.alloc(), b"GAPS", &stored, &units, &GAPS_SAVED)?;
    assert!(rt; answer == (None, true));
    Ok(())
}

#[test]
fn a_longer_file_is_not_saved(rt: HostRuntime) -> Result<(), Fail> {
    let units = vec![in rt.alloc(); 0; 143_616]?;
    let answer = saved_to_hello(rt.alloc(), b"LONG", &[false; 561], &units, &[])?;
    assert!(rt; answer == (Some(EditError::TooLong), true));
    Ok(())
}

/// An entry in each slot of the catalog: 105 lists on the tracks 4 to 10.
fn fill_catalog(image: &mut [u8])
    requires { length image.old ≡ 143360 }
{
    for number in 0..105 {
        let list = [4 + (number / 16) as u8, (number % 16) as u8];
        let slot = FIRST_ENTRY + ENTRY_BYTES * (number % 7);
        put(image, VTOC + 1 + number / 7, slot, &list);
    }
}

/// A volume with a full catalog, whose map has its lists as used.
fn full_catalog(alloc: Global) -> Result<Vec<u8>, AllocError>
    ensures { IfOk result (λ image. vec_len image ≡ 143360) }
{
    let mut image = dos_volume(alloc, [0xff, 0xff])?;
    put(&mut image, VTOC, 0x48, &[0; 28]);
    fill_catalog(&mut image);
    Ok(image)
}

#[test]
fn a_full_catalog_takes_no_file(rt: HostRuntime) -> Result<(), Fail> {
    let image = full_catalog(rt.alloc())?;
    let full = full_catalog(rt.alloc())?;
    let answer = empty_saved(rt.alloc(), image, b"LAST", full.as_slice());
    assert!(rt; answer == (Some(EditError::DirFull), true));
    Ok(())
}

/// A path, the first bytes of the list of HELLO, which lead to no list or to itself, and why no file is saved.
static DOS_REFUSALS: [(&[u8], [u8; 3], EditError); 5] = [
    (b"HELLO", [0, 0, 0], EditError::Exists),
    (b"", [0, 0, 0], EditError::Name),
    (b"A,B", [0, 0, 0], EditError::Name),
    (b"hello", [0, 0, 0], EditError::Name),
    (b"A,B", [0, 3, 14], EditError::Check),
];

#[test]
fn a_dos_file_is_not_saved(rt: HostRuntime) -> Result<(), Fail> {
    for (path, list, wanted) in &DOS_REFUSALS {
        let image = hello_with(rt.alloc(), &[(62, 0x00, list)])?;
        let old = hello_with(rt.alloc(), &[(62, 0x00, list)])?;
        let answer = empty_saved(rt.alloc(), image, path, old.as_slice());
        assert!(rt; answer == (Some(*wanted), true), "{wanted}");
    }
    Ok(())
}

/// A path, a length in bytes, and why no file is saved to the volume with a subdirectory.
static PRO_REFUSALS: [(&[u8], u32, EditError); 9] = [
    (b"NONE/X", 3, EditError::NotFound),
    (b"BIG/X", 3, EditError::NotFound),
    (b"NONE/", 3, EditError::NotFound),
    (b"SUB/", 3, EditError::Name),
    (b"1A", 3, EditError::Name),
    (b"big", 3, EditError::Exists),
    (b"SUB", 3, EditError::Exists),
    (b"sub/a", 16_777_216, EditError::Exists),
    (b"SUB/B", 16_777_216, EditError::TooLong),
];

/// Why a file of one unit is not saved to a ProDOS volume, and whether the image then has these bytes; `None` where
/// there is no image.
fn unit_saved(
    alloc: Global,
    image: Vec<u8>,
    path: &[u8],
    eof: u32,
    wanted: &[u8],
) -> Option<(Option<EditError>, bool)> {
    let mut device = block_device(image)?;
    let error = save_on_blocks(alloc, &mut device, path, eof, &[true], &[0; 512]);
    Some((error, device.into_image().into_bytes().as_slice() == wanted))
}

#[test]
fn a_prodos_file_is_not_saved(rt: HostRuntime) -> Result<(), Fail> {
    let old = tree_and_subdirectory(rt.alloc())?;
    for (path, eof, wanted) in &PRO_REFUSALS {
        let image = tree_and_subdirectory(rt.alloc())?;
        let answer = unit_saved(rt.alloc(), image, path, *eof, old.as_slice());
        assert!(rt; answer == Some((Some(*wanted), true)), "{wanted}");
    }
    Ok(())
}
