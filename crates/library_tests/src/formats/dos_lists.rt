//! Track/sector lists: the walk over those of one file, and their pointers.
ghost use Rattle.std.specs.Prelude.{◌≡◌, ◌<◌, ◌≤◌, ◌+◌, vec_len};

use crate::formats::dos_gaps::gaps;
use a2_device::{Device, Fault, FaultDevice, Part, PartKind, WalkError};
use dos_catalog::Entry;
use dos_tslist::{next, pair, set_next, set_pair, walk};
use std::alloc::{AllocError, Allocator, Global};
use std::test::Fail;
use test_volumes::{dos_device, put};

// An entry in the first slot of track 17, sector 15, that points to a list.
fn entry(track: u8, sector: u8) -> Entry {
    let mut bytes = [0; 35];
    bytes[0] = track;
    bytes[1] = sector;
    Entry {
        place: 287,
        slot: 0,
        bytes,
    }
}

// The parts of a file of a volume, number 7, whose list is at a track and a sector, with memory of their own.
pub fn parts_of<A: Allocator + Copy>(
    alloc: A,
    image: Vec<u8>,
    track: u8,
    sector: u8,
) -> Result<Vec<Part, A>, WalkError>
    requires { vec_len image ≡ 143360 }
{
    walk(alloc, &mut dos_device(image), 7, &entry(track, sector))
}

fn part(kind: PartKind, number: u32, place: u32) -> Part {
    Part {
        file: 7,
        kind,
        number,
        place,
    }
}

#[test]
fn walks_over_two_lists(rt: HostRuntime) -> Result<(), Fail> {
    let parts = parts_of(rt.alloc(), gaps(rt.alloc())?, 3, 12)?;
    let want = [
        part(PartKind::List, 0, 60),
        part(PartKind::Body, 0, 61),
        part(PartKind::List, 1, 62),
        part(PartKind::Body, 122, 63),
    ];
    assert!(rt; parts.as_slice() == want.as_slice());
    Ok(())
}

#[test]
fn file_without_a_list(rt: HostRuntime) -> Result<(), Fail> {
    assert!(rt; parts_of(rt.alloc(), gaps(rt.alloc())?, 0, 12)?.is_empty());
    Ok(())
}

// Why a walk ends over a file in two lists, where a pointer of the first of them is another.
fn error_of(
    alloc: Global,
    at: usize,
    pointer: [u8; 2],
    track: u8,
    sector: u8,
) -> Result<Option<WalkError>, AllocError>
    requires { at + 2 ≤ 256 }
{
    let mut image = gaps(alloc)?;
    put(&mut image, 60, at, &pointer);
    Ok(parts_of(alloc, image, track, sector).err())
}

/// Pointers of the first list, and the faults that they are.
static FAULTS: [(u8, [u8; 2], Fault); 5] = [
    (0x01, [0x03, 0x0c], Fault::Shared(60)),
    (0x0e, [0x03, 0x0d], Fault::Shared(61)),
    (0x0e, [0x23, 0x00], Fault::OutOfRange(60)),
    (0x0e, [0x03, 0x10], Fault::OutOfRange(60)),
    (0x01, [0xff, 0x00], Fault::OutOfRange(60)),
];

#[test]
fn names_the_fault(rt: HostRuntime) -> Result<(), Fail> {
    for (at, pointer, fault) in &FAULTS {
        if *at < 0xff {
            let error = error_of(rt.alloc(), usize::from(*at), *pointer, 3, 12)?;
            assert!(rt; error == Some(WalkError::Fault(*fault)), "{fault:?}");
        }
    }
    Ok(())
}

#[test]
fn names_the_entry_of_a_wild_list(rt: HostRuntime) -> Result<(), Fail> {
    let error = error_of(rt.alloc(), 0x10, [0, 0], 35, 0)?;
    assert!(rt; error == Some(WalkError::Fault(Fault::OutOfRange(287))));
    Ok(())
}

// Why two walks end over a device whose next read fails, and how many calls the device refused in the first.
fn failed(alloc: Global) -> Result<([Option<WalkError>; 2], u64), AllocError> {
    let mut device = FaultDevice::new(dos_device(gaps(alloc)?));
    device.fail_read();
    let first = walk(alloc, &mut device, 7, &entry(3, 12)).err();
    let faults = device.faults();
    let then = walk(alloc, &mut device, 7, &entry(3, 12)).err();
    Ok(([first, then], faults))
}

#[test]
fn failed_read_is_told(rt: HostRuntime) -> Result<(), Fail> {
    let (errors, faults) = failed(rt.alloc())?;
    assert!(rt; errors == [Some(WalkError::Device), None] && faults == 1);
    Ok(())
}

// A list whose next list is at track 3, sector 14, and whose first pair is track 3, sector 13.
fn list() -> [u8; 256] {
    let mut unit = [0; 256];
    unit[0x01] = 0x03;
    unit[0x02] = 0x0e;
    unit[0x0c] = 0x03;
    unit[0x0d] = 0x0d;
    unit
}

// Such a list where a byte is another.
fn list_with(at: usize, byte: u8) -> [u8; 256]
    requires { at < 256 }
{
    let mut unit = list();
    unit[at] = byte;
    unit
}

#[test]
fn reads_pointers(rt: HostRuntime) {
    assert!(rt; next(&list()) == Some((3, 14)));
    assert!(rt; pair(&list(), 0) == Some((3, 13)));
    assert!(rt; pair(&list(), 1).is_none());
    // A track of 0 is no pointer, whatever the sector is.
    assert!(rt; pair(&list_with(0x0f, 0x07), 1).is_none());
    assert!(rt; next(&list_with(0x01, 0x00)).is_none());
}

#[test]
fn reads_the_last_pointer(rt: HostRuntime) {
    let mut unit = list();
    unit[0xfe] = 0x22;
    unit[0xff] = 0x0f;
    assert!(rt; pair(&unit, 121) == Some((34, 15)));
}

// A list in which the next list, the first pair and the last pair are written.
fn written() -> [u8; 256] {
    let mut unit = list();
    set_pair(&mut unit, 0, Some(62));
    set_pair(&mut unit, 121, Some(559));
    set_next(&mut unit, Some(61));
    unit
}

#[test]
fn writes_pointers(rt: HostRuntime) {
    let mut unit = list();
    unit[0x02] = 0x0d;
    unit[0x0d] = 0x0e;
    unit[0xfe] = 0x22;
    unit[0xff] = 0x0f;
    assert!(rt; written() == unit);
}

// A list whose pointers are taken back.
fn cleared() -> [u8; 256] {
    let mut unit = list();
    set_pair(&mut unit, 0, None);
    set_next(&mut unit, None);
    unit
}

#[test]
fn writes_no_pointers(rt: HostRuntime) {
    assert!(rt; cleared() == [0; 256]);
}
