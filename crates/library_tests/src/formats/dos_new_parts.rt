//! The parts of new files, and the units of their lists.
ghost use Rattle.std.specs.Prelude.{◌≤◌, ◌<◌};

use a2_device::PartKind;
use edit_formats::{NewFileError, NewPart, build_list, dos_parts, parts_of_a_new_dos_file};
use std::alloc::{Allocator, Global};
use std::test::Fail;
use test_volumes::Refusing;

// The parts of a file of which these units are stored.
fn parts_of<A: Allocator>(alloc: A, stored: &[bool]) -> Result<Vec<NewPart, A>, NewFileError> {
    dos_parts(alloc, stored)
}

fn list(number: u32) -> NewPart {
    NewPart {
        kind: PartKind::List,
        number,
    }
}

fn body(number: u32) -> NewPart {
    NewPart {
        kind: PartKind::Body,
        number,
    }
}

#[test]
fn holes_have_no_parts(rt: HostRuntime) -> Result<(), Fail> {
    let parts = parts_of(rt.alloc(), &[true, false, true])?;
    assert!(rt; parts.as_slice() == [list(0), body(0), body(2)].as_slice());
    Ok(())
}

#[test]
fn file_of_no_unit_has_a_list(rt: HostRuntime) -> Result<(), Fail> {
    assert!(rt; parts_of(rt.alloc(), &[])?.as_slice() == [list(0)].as_slice());
    Ok(())
}

#[test]
fn unit_122_is_of_the_next_list(rt: HostRuntime) -> Result<(), Fail> {
    let mut stored = [false; 123];
    stored[0] = true;
    stored[121] = true;
    assert!(rt;
        parts_of(rt.alloc(), &stored[..122])?.as_slice() == [list(0), body(0), body(121)].as_slice()
    );
    stored[122] = true;
    let parts = parts_of(rt.alloc(), &stored)?;
    let want = [list(0), body(0), body(121), list(1), body(122)];
    assert!(rt; parts.as_slice() == want.as_slice());
    Ok(())
}

#[test]
fn list_without_units_is_there(rt: HostRuntime) -> Result<(), Fail> {
    let mut stored = [false; 245];
    stored[244] = true;
    let parts = parts_of(rt.alloc(), &stored)?;
    assert!(rt; parts.as_slice() == [list(0), list(1), list(2), body(244)].as_slice());
    Ok(())
}

#[test]
fn longest_file_has_560_units(rt: HostRuntime) -> Result<(), Fail> {
    let stored = [true; 561];
    assert!(rt; parts_of(rt.alloc(), &stored[..560])?.len() == 565);
    assert!(rt; parts_of(rt.alloc(), &stored).err() == Some(NewFileError::TooLong));
    Ok(())
}

// Why a file of three lists has no parts over a heap, and how many blocks were asked of it.
fn outcome(heap: Refusing<Global>) -> (Option<NewFileError>, u64) {
    let error = parts_of(&heap, &[true; 300]).err();
    (error, heap.asked())
}

#[test]
fn refused_memory_is_told_of_a_new_file(rt: HostRuntime) {
    let (error, asked) = outcome(Refusing::none(rt.alloc()));
    assert!(rt; error.is_none() && asked > 0);
    for before in 0..asked {
        let (error, _) = outcome(Refusing::one(rt.alloc(), before));
        assert!(rt; error == Some(NewFileError::Memory), "{before}");
    }
}

// The unit of part `at` of a file, if that is a list. The units 0 and 122 of the file are stored, and its four parts
// stand at this place and behind it.
fn unit_of_list(alloc: Global, place: u32, at: usize) -> Result<Option<[u8; 256]>, NewFileError>
    requires low { 16 ≤ place }
    requires high { place < 556 }
{
    let mut stored = [false; 123];
    stored[0] = true;
    stored[122] = true;
    parts_of_a_new_dos_file();
    let parts = dos_parts(alloc, &stored)?;
    let places = [place, place + 1, place + 2, place + 3];
    if parts.len() != 4 || at >= 4 || parts[at].kind != PartKind::List {
        return Ok(None);
    }
    let mut unit = [0xff; 256];
    build_list(parts.as_slice(), &places, at, &mut unit);
    Ok(Some(unit))
}

#[test]
fn builds_lists(rt: HostRuntime) -> Result<(), Fail> {
    let mut first = [0; 256];
    (first[0x01], first[0x02]) = (3, 14);
    (first[0x0c], first[0x0d]) = (3, 13);
    assert!(rt; unit_of_list(rt.alloc(), 60, 0)? == Some(first));
    let mut second = [0; 256];
    second[0x05] = 0x7a;
    (second[0x0c], second[0x0d]) = (3, 15);
    assert!(rt; unit_of_list(rt.alloc(), 60, 2)? == Some(second));
    assert!(rt; unit_of_list(rt.alloc(), 60, 1)?.is_none());
    Ok(())
}
