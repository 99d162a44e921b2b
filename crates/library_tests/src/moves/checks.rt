//! What a check tells of a volume that is accepted, and of one that is refused.
ghost use Rattle.std.specs.Prelude.{◌≡◌, vec_len, IfOk};

use crate::moves::volumes::{dos33, failing_device};
use a2_device::{Device, Fault, Part, PartKind};
use dos_format::DosVolume;
use std::alloc::{AllocError, Global};
use std::test::Fail;
use test_volumes::{FIRST_CATALOG, dos_device, dos_volume, hello, put, put_entry};
use vol_check::{CheckError, Checked, check};

// What a check of the volume on a device answers.
fn checked<D: Device>(
    alloc: Global,
    device: &mut D,
    data_disk: bool,
) -> Result<Checked<DosVolume>, CheckError>
    requires unit { (D.state device.old).unit_size ≡ 256 }
    requires places { (D.state device.old).places ≡ 560 }
{
    let format = dos33(alloc, data_disk)?;
    check(alloc, device, &format)
}

// What a check of the volume of an image answers.
fn checked_image(
    alloc: Global,
    image: Vec<u8>,
    data_disk: bool,
) -> Result<Checked<DosVolume>, CheckError>
    requires { vec_len image ≡ 143360 }
{
    checked(alloc, &mut dos_device(image), data_disk)
}

// The parts of `HELLO`.
fn parts_of_hello() -> [Part; 2] {
    [
        Part {
            file: 0,
            kind: PartKind::List,
            number: 0,
            place: 62,
        },
        Part {
            file: 0,
            kind: PartKind::Body,
            number: 0,
            place: 63,
        },
    ]
}

// Whether `HELLO` is told of a volume, where its parts stand among so many available places, and which of these are
// lost.
fn tells_hello(checked: &Checked<DosVolume>, at: &[u32], available: u32, lost: &[u32]) -> bool {
    checked.files() == 1
        && checked.parts() == parts_of_hello().as_slice()
        && checked.layout().at() == at
        && checked.available() == available
        && checked.lost() == lost
}

#[test]
fn a_volume_is_accepted(rt: HostRuntime) -> Result<(), Fail> {
    let checked = checked_image(rt.alloc(), hello(rt.alloc())?, false)?;
    assert!(rt; tells_hello(&checked, &[1, 0], 496, &[]));
    Ok(())
}

/// The places of tracks 1 and 2, in the order of available places.
static TRACKS_1_AND_2: [u32; 32] = [
    31, 30, 29, 28, 27, 26, 25, 24, 23, 22, 21, 20, 19, 18, 17, 16, 47, 46, 45, 44, 43, 42, 41, 40,
    39, 38, 37, 36, 35, 34, 33, 32,
];

#[test]
fn a_data_disk_has_lost_places(rt: HostRuntime) -> Result<(), Fail> {
    let checked = checked_image(rt.alloc(), hello(rt.alloc())?, true)?;
    assert!(rt; tells_hello(&checked, &[33, 32], 528, &TRACKS_1_AND_2));
    Ok(())
}

// Whether the volume of an image is refused for these faults, in this order.
fn refuses(alloc: Global, image: Vec<u8>, faults: &[Fault]) -> bool
    requires { vec_len image ≡ 143360 }
{
    match &checked_image(alloc, image, false) {
        Err(CheckError::Faults(found)) => found.as_slice() == faults,
        _ => false,
    }
}

#[test]
fn lists_faults_in_the_order_of_the_parts(rt: HostRuntime) -> Result<(), Fail> {
    let mut image = hello(rt.alloc())?;
    put(&mut image, 62, 0x01, &[0x03, 0x0e]);
    put(&mut image, 62, 0x0c, &[0x11, 0x01, 0x23, 0x00]);
    let faults = [
        Fault::InSystem(273),
        Fault::OutOfRange(62),
        Fault::Shared(62),
    ];
    assert!(rt; refuses(rt.alloc(), image, &faults));
    Ok(())
}

// A volume with three files that have one list.
fn three_with_one_list(alloc: Global) -> Result<Vec<u8>, AllocError>
    ensures { IfOk result (λ image. vec_len image ≡ 143360) }
{
    let mut image = dos_volume(alloc, [0x3f, 0xff])?;
    put_entry(&mut image, FIRST_CATALOG, 0, [3, 14], 0, b"ONE", 1);
    put_entry(&mut image, FIRST_CATALOG, 1, [3, 14], 0, b"TWO", 1);
    put_entry(&mut image, FIRST_CATALOG, 2, [3, 14], 0, b"THREE", 1);
    Ok(image)
}

#[test]
fn a_list_that_three_files_share_is_told_once(rt: HostRuntime) -> Result<(), Fail> {
    let faults = [Fault::Shared(62)];
    assert!(rt; refuses(rt.alloc(), three_with_one_list(rt.alloc())?, &faults));
    Ok(())
}

// The number of the entry whose file the first fault of the volume of an image is told of.
fn file_of_first_fault(alloc: Global, image: Vec<u8>) -> Option<u32>
    requires { vec_len image ≡ 143360 }
{
    match &checked_image(alloc, image, false) {
        Err(CheckError::Faults(found)) => found.file_of(0),
        _ => None,
    }
}

#[test]
fn a_shared_list_is_told_of_the_second_file(rt: HostRuntime) -> Result<(), Fail> {
    let image = three_with_one_list(rt.alloc())?;
    assert!(rt; file_of_first_fault(rt.alloc(), image) == Some(1));
    Ok(())
}

// A volume whose header says that a disk has 36 tracks.
fn of_36_tracks(alloc: Global) -> Result<Vec<u8>, AllocError>
    ensures { IfOk result (λ image. vec_len image ≡ 143360) }
{
    let mut image = hello(alloc)?;
    put(&mut image, 272, 0x34, &[36]);
    Ok(image)
}

#[test]
fn a_fault_of_the_header_is_told_of_no_file(rt: HostRuntime) -> Result<(), Fail> {
    assert!(rt;
        refuses(
            rt.alloc(),
            of_36_tracks(rt.alloc())?,
            &[Fault::Geometry(272)]
        )
    );
    assert!(rt; file_of_first_fault(rt.alloc(), of_36_tracks(rt.alloc())?) == None);
    Ok(())
}

// Whether a check of a device whose next read fails is a failure of the device, and how many calls that has refused.
fn failed(alloc: Global) -> Result<(bool, u64), AllocError> {
    let mut device = failing_device(alloc)?;
    let is_failure = matches!(&checked(alloc, &mut device, false), Err(CheckError::Device));
    Ok((is_failure, device.faults()))
}

#[test]
fn a_failed_read_is_told(rt: HostRuntime) -> Result<(), Fail> {
    assert!(rt; failed(rt.alloc())? == (true, 1));
    Ok(())
}
