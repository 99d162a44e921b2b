//! The parts of new files, and the blocks of their indexes.
ghost use Rattle.std.specs.Prelude.{◌<◌};

use a2_device::PartKind;
use edit_formats::{
    NewFileError, NewPart, build_index, build_master, parts_of_a_new_pro_file, pro_parts,
    pro_storage,
};
use std::alloc::{Allocator, Global};
use std::test::Fail;
use test_volumes::Refusing;

// The parts of a file of which these units are stored.
fn parts_of<A: Allocator>(alloc: A, stored: &[bool]) -> Result<Vec<NewPart, A>, NewFileError> {
    pro_parts(alloc, stored)
}

fn part(kind: PartKind, number: u32) -> NewPart {
    NewPart { kind, number }
}

fn index(number: u32) -> NewPart {
    part(PartKind::Index, number)
}

fn body(number: u32) -> NewPart {
    part(PartKind::Body, number)
}

/// Lengths of files in units, and their storage types.
static TYPES: [(usize, u8); 6] = [(0, 1), (1, 1), (2, 2), (256, 2), (257, 3), (32768, 3)];

#[test]
fn tells_storage_types(rt: HostRuntime) {
    for (units, storage) in &TYPES {
        assert!(rt; pro_storage(*units) == *storage, "{units}");
    }
}

#[test]
fn seedling_has_its_unit_in_any_case(rt: HostRuntime) -> Result<(), Fail> {
    let stored: [&[bool]; 3] = [&[], &[false], &[true]];
    for units in stored {
        assert!(rt; parts_of(rt.alloc(), units)?.as_slice() == [body(0)].as_slice());
    }
    Ok(())
}

#[test]
fn sapling_has_an_index_in_any_case(rt: HostRuntime) -> Result<(), Fail> {
    assert!(rt; parts_of(rt.alloc(), &[false, true])?.as_slice() == [index(0), body(1)].as_slice());
    assert!(rt; parts_of(rt.alloc(), &[false, false])?.as_slice() == [index(0)].as_slice());
    assert!(rt; parts_of(rt.alloc(), &[true; 256])?.len() == 257);
    Ok(())
}

#[test]
fn tree_has_the_indexes_that_have_units(rt: HostRuntime) -> Result<(), Fail> {
    let mut stored = [false; 513];
    stored[0] = true;
    stored[512] = true;
    let parts = parts_of(rt.alloc(), &stored)?;
    let want = [
        part(PartKind::Master, 0),
        index(0),
        body(0),
        index(2),
        body(512),
    ];
    assert!(rt; parts.as_slice() == want.as_slice());
    Ok(())
}

#[test]
fn longest_file_has_32768_units(rt: HostRuntime) -> Result<(), Fail> {
    let stored = vec![in rt.alloc(); true; 32769]?;
    assert!(rt; parts_of(rt.alloc(), &stored.as_slice()[..32768])?.len() == 32897);
    assert!(rt; parts_of(rt.alloc(), stored.as_slice()).err() == Some(NewFileError::TooLong));
    Ok(())
}

// Why a tree has no parts over a heap, and how many blocks were asked of it.
fn outcome(heap: Refusing<Global>) -> (Option<NewFileError>, u64) {
    let error = parts_of(&heap, &[true; 300]).err();
    (error, heap.asked())
}

#[test]
fn refused_memory_is_told_of_a_new_file(rt: HostRuntime) {
    let (error, asked) = outcome(Refusing::none(rt.alloc()));
    assert!(rt; error.is_none() && asked > 0);
    for before in 0..asked {
        let (error, _) = outcome(Refusing::one(rt.alloc(), before));
        assert!(rt; error == Some(NewFileError::Memory), "{before}");
    }
}

// The block of part `at` of a file, if that is an index or a master index. The units 0 and 512 of the file are stored,
// and its five parts stand at this block and behind it.
fn block_of_index(alloc: Global, block: u32, at: usize) -> Result<Option<[u8; 512]>, NewFileError>
    requires { block < 65531 }
{
    let mut stored = [false; 513];
    stored[0] = true;
    stored[512] = true;
    parts_of_a_new_pro_file();
    let parts = pro_parts(alloc, &stored)?;
    let places = [block, block + 1, block + 2, block + 3, block + 4];
    if parts.len() != 5 || at >= 5 {
        return Ok(None);
    }
    let mut unit = [0xff; 512];
    if parts[at].kind == PartKind::Index {
        build_index(parts.as_slice(), &places, at, &mut unit);
        return Ok(Some(unit));
    }
    if at > 0 || parts[0].kind != PartKind::Master {
        return Ok(None);
    }
    build_master(parts.as_slice(), &places, &mut unit);
    Ok(Some(unit))
}

// A block with these pointers, each by its number, its low byte and its high byte.
fn pointers(named: &[(u8, u8, u8)]) -> [u8; 512] {
    let mut unit = [0; 512];
    for (number, low, high) in named {
        unit[*number as usize] = *low;
        unit[256 + *number as usize] = *high;
    }
    unit
}

#[test]
fn builds_indexes(rt: HostRuntime) -> Result<(), Fail> {
    let master = pointers(&[(0, 0xff, 0), (2, 0x01, 1)]);
    assert!(rt; block_of_index(rt.alloc(), 254, 0)? == Some(master));
    assert!(rt; block_of_index(rt.alloc(), 254, 1)? == Some(pointers(&[(0, 0x00, 1)])));
    assert!(rt; block_of_index(rt.alloc(), 254, 3)? == Some(pointers(&[(0, 0x02, 1)])));
    assert!(rt; block_of_index(rt.alloc(), 254, 2)?.is_none());
    Ok(())
}
