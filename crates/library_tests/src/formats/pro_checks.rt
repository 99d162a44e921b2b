//! What a check tells of ProDOS volumes.
ghost use Rattle.std.specs.Prelude.{◌≡◌, vec_len};

use a2_device::{Fault, Part, PartKind};
use pro_format::{ProVolume, Prodos};
use std::alloc::{AllocError, Global};
use std::test::Fail;
use test_volumes::{block_device, put_in_block, seedlings_far_out, tree, tree_and_subdirectory};
use vol_check::{CheckError, Checked, check};
use vol_layout::{PlaceForm, Reserved};

// What a check of a volume answers where these places are reserved.
fn checked(
    alloc: Global,
    image: Vec<u8>,
    reserved: Reserved,
) -> Result<Checked<ProVolume>, CheckError> {
    match block_device(image) {
        Some(mut device) => check(alloc, &mut device, &Prodos::new(alloc, reserved)),
        None => Err(CheckError::Device),
    }
}

// What is told of an accepted volume: how many files it has, their parts, where these stand among the available places,
// and how many of those there are.
#[derive(Clone, Copy)]
struct Told<'a> {
    files: u32,
    parts: &'a [Part],
    at: &'a [u32],
    available: u32,
}

// Whether this is told of a volume, and that no place is lost.
fn is_told(checked: &Checked<ProVolume>, told: &Told) -> bool {
    checked.files() == told.files
        && checked.available() == told.available
        && checked.parts() == told.parts
        && checked.layout().at() == told.at
        && checked.lost().is_empty()
}

// Whether a volume is accepted, and this is told of it.
fn accepts(alloc: Global, image: Vec<u8>, reserved: Reserved, told: &Told) -> bool {
    match &checked(alloc, image, reserved) {
        Ok(checked) => is_told(checked, told),
        Err(_) => false,
    }
}

// Whether an error is one fault, which is this one.
fn is_fault(error: &CheckError, fault: Fault) -> bool {
    match error {
        CheckError::Faults(faults) => faults.as_slice() == [fault].as_slice(),
        CheckError::Device | CheckError::Memory => false,
    }
}

// Whether a volume is refused for one fault, which is this one.
fn refuses(alloc: Global, image: Vec<u8>, reserved: Reserved, fault: Fault) -> bool {
    match &checked(alloc, image, reserved) {
        Ok(_) => false,
        Err(error) => is_fault(error, fault),
    }
}

fn part(file: u32, kind: PartKind, number: u32, place: u32) -> Part {
    Part {
        file,
        kind,
        number,
        place,
    }
}

// The parts of the volume with the one file `BIG`.
fn parts_of_tree() -> [Part; 3] {
    [
        part(0, PartKind::Master, 0, 7),
        part(0, PartKind::Index, 1, 9),
        part(0, PartKind::Body, 256, 8),
    ]
}

#[test]
fn a_tree_is_accepted(rt: HostRuntime) -> Result<(), Fail> {
    let told = Told {
        files: 1,
        parts: &parts_of_tree(),
        at: &[0, 2, 1],
        available: 273,
    };
    let reserved = Reserved::none(rt.alloc());
    assert!(rt; accepts(rt.alloc(), tree(rt.alloc())?, reserved, &told));
    Ok(())
}

#[test]
fn a_reserved_place_is_not_available(rt: HostRuntime) -> Result<(), Fail> {
    let told = Told {
        files: 1,
        parts: &parts_of_tree(),
        at: &[0, 2, 1],
        available: 272,
    };
    let reserved = Reserved::read(rt.alloc(), "10", PlaceForm::Block)?;
    assert!(rt; accepts(rt.alloc(), tree(rt.alloc())?, reserved, &told));
    Ok(())
}

#[test]
fn a_part_on_a_reserved_place_is_a_fault(rt: HostRuntime) -> Result<(), Fail> {
    let reserved = Reserved::read(rt.alloc(), "8", PlaceForm::Block)?;
    assert!(rt; refuses(rt.alloc(), tree(rt.alloc())?, reserved, Fault::InSystem(8)));
    Ok(())
}

#[test]
fn files_of_a_subdirectory_are_accepted(rt: HostRuntime) -> Result<(), Fail> {
    let [master, index, body] = parts_of_tree();
    let told = Told {
        files: 2,
        parts: &[master, index, body, part(2, PartKind::Body, 0, 11)],
        at: &[0, 2, 1, 3],
        available: 272,
    };
    let reserved = Reserved::none(rt.alloc());
    assert!(rt;
        accepts(
            rt.alloc(),
            tree_and_subdirectory(rt.alloc())?,
            reserved,
            &told
        )
    );
    Ok(())
}

#[test]
fn a_map_of_two_blocks(rt: HostRuntime) -> Result<(), Fail> {
    let told = Told {
        files: 2,
        parts: &[
            part(0, PartKind::Body, 0, 5000),
            part(1, PartKind::Body, 0, 5001),
        ],
        at: &[4992, 4993],
        available: 8184,
    };
    let reserved = Reserved::none(rt.alloc());
    assert!(rt; accepts(rt.alloc(), seedlings_far_out(rt.alloc())?, reserved, &told));
    Ok(())
}

// The volume with a subdirectory, where two bytes of a block are changed.
fn changed(alloc: Global, block: usize, at: usize, bytes: [u8; 2]) -> Result<Vec<u8>, AllocError> {
    let mut image = tree_and_subdirectory(alloc)?;
    if block < 280 && at < 511 {
        put_in_block(&mut image, block, at, &bytes);
    }
    Ok(image)
}

/// Two bytes from an offset of a block on, and the fault that they make.
static FAULTS: [(usize, usize, [u8; 2], Fault); 7] = [
    (2, 0x2b, [0x53, 0x42], Fault::StorageType(2)),
    (2, 0x02, [0x02, 0x00], Fault::DirLink(2)),
    (2, 0x27, [0x03, 0x00], Fault::MapPointer(2)),
    (2, 0x29, [0x19, 0x01], Fault::Geometry(2)),
    (7, 0x00, [0x07, 0x09], Fault::Shared(7)),
    (6, 0x01, [0x4f, 0xff], Fault::MarkedFree(9)),
    (10, 0x3c, [0xff, 0xff], Fault::OutOfRange(10)),
];

#[test]
fn names_the_fault(rt: HostRuntime) -> Result<(), Fail> {
    for (block, at, bytes, fault) in &FAULTS {
        let image = changed(rt.alloc(), *block, *at, *bytes)?;
        let reserved = Reserved::none(rt.alloc());
        assert!(rt; refuses(rt.alloc(), image, reserved, *fault), "{fault:?}");
    }
    Ok(())
}
