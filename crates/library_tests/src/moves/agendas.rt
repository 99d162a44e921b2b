//! The writes that make the moves of a plan.
ghost use Rattle.std.specs.Prelude.{◌≡◌, ◌<◌, [], length};
ghost use Rattle.vol_mover.specs.Work.{LeadsToTarget, AreSpare};
ghost use Rattle.vol_format.specs.Directory.{Directory};
ghost use Rattle.dos_format.specs.Dos.{dos_available};

use dos_format::Dos33;
use std::alloc::{AllocError, Allocator, Global};
use std::test::Fail;
use test_volumes::{Refusing, dos_device, hello};
use vol_format::Format;
use vol_laws::Mark;
use vol_layout::{Move, Reserved};
use vol_mover::{Agenda, Write};

// A write of an agenda: how many writes and moves are left before it, and of the map the places that it marks used, and
// those that it then marks free.
#[derive(Clone, Copy)]
struct Step<'a> {
    writes: usize,
    moves: u32,
    write: Write,
    used: &'a [u32],
    free: &'a [u32],
}

fn map<'a>((writes, moves): (usize, u32), used: &'a [u32], free: &'a [u32]) -> Step<'a> {
    Step {
        writes,
        moves,
        write: Write::Map(272),
        used,
        free,
    }
}

fn copy<'a>((writes, moves): (usize, u32), part: u32, to: u32) -> Step<'a> {
    Step {
        writes,
        moves,
        write: Write::Copy(Move { part, to }),
        used: &[],
        free: &[],
    }
}

fn point<'a>((writes, moves): (usize, u32), part: u32, to: u32) -> Step<'a> {
    Step {
        writes,
        moves,
        write: Write::Pointer(Move { part, to }),
        used: &[],
        free: &[],
    }
}

// Whether marks are of these places, in this order, and all of one kind.
fn are_marks(marks: &[Mark], places: &[u32], free: bool) -> bool {
    for (mark, place) in marks.iter().zip(places) {
        if mark.place != *place || mark.free != free {
            return false;
        }
    }
    marks.len() == places.len()
}

// Whether an agenda's next write is this one.
fn is_next<A: Allocator>(agenda: &Agenda<A>, step: &Step) -> bool {
    let marks = agenda.marks();
    if step.used.len() > marks.len() {
        return false;
    }
    let (used, free) = marks.split_at(step.used.len());
    agenda.len() == step.writes
        && agenda.moves_left() == step.moves
        && agenda.next() == Some(step.write)
        && are_marks(used, step.used, false)
        && are_marks(free, step.free, true)
}

// Whether the writes of an agenda are these.
fn goes<A: Allocator>(agenda: &mut Agenda<A>, steps: &[Step]) -> bool {
    for step in steps {
        if agenda.len() == 0 || !is_next(agenda, step) {
            return false;
        }
        agenda.advance();
    }
    agenda.next().is_none()
}

// The agenda for moves over the available places of a disk with DOS, or a data disk.
fn agenda_of<A: Allocator + Copy>(
    alloc: A,
    rt_alloc: Global,
    data_disk: bool,
    at: &[u32],
    lost: &[u32],
    moves: &[Move],
) -> Result<Agenda<A>, AllocError>
    requires plan { (directory : Directory) → directory.available ≡ dos_available data_disk []
        → LeadsToTarget directory at.now moves.now }
    requires spare { (directory : Directory) → directory.available ≡ dos_available data_disk []
        → directory.map_size ≡ 560 → AreSpare directory at.now lost.now }
    requires few { length moves.now < 4294967296 }
{
    let format = Dos33::new(rt_alloc, data_disk, Reserved::none(rt_alloc))?;
    match format.volume(&mut dos_device(hello(rt_alloc)?)) {
        Ok(volume) => Agenda::new(alloc, &format, &volume, at, lost, moves),
        Err(_) => Err(AllocError),
    }
}

/// The list and the one sector of its body have changed places: the first moves by way of the next place.
#[test]
fn two_parts_that_changed_places(rt: HostRuntime) -> Result<(), Fail> {
    let moves = [
        Move { part: 0, to: 2 },
        Move { part: 1, to: 1 },
        Move { part: 0, to: 0 },
    ];
    let mut agenda = agenda_of(rt.alloc(), rt.alloc(), false, &[1, 0], &[], &moves)?;
    let steps = [
        map((8, 3), &[61], &[]),
        copy((7, 3), 0, 2),
        point((6, 3), 0, 2),
        copy((5, 2), 1, 1),
        point((4, 2), 1, 1),
        copy((3, 1), 0, 0),
        point((2, 1), 0, 0),
        map((1, 0), &[], &[61]),
    ];
    assert!(rt; goes(&mut agenda, &steps));
    Ok(())
}

/// One place is free among three, and the two moves follow on.
#[test]
fn a_hole_is_filled(rt: HostRuntime) -> Result<(), Fail> {
    let moves = [Move { part: 1, to: 1 }, Move { part: 0, to: 0 }];
    let mut agenda = agenda_of(rt.alloc(), rt.alloc(), false, &[3, 0, 2], &[], &moves)?;
    let steps = [
        map((6, 2), &[62], &[]),
        copy((5, 2), 1, 1),
        point((4, 2), 1, 1),
        copy((3, 1), 0, 0),
        point((2, 1), 0, 0),
        map((1, 0), &[], &[60]),
    ];
    assert!(rt; goes(&mut agenda, &steps));
    Ok(())
}

/// A data disk on which tracks 1 and 2 are marked used: both parts move to lost places, and do not follow on.
#[test]
fn lost_places_are_marked_free(rt: HostRuntime) -> Result<(), Fail> {
    let lost = [
        31, 30, 29, 28, 27, 26, 25, 24, 23, 22, 21, 20, 19, 18, 17, 16, 47, 46, 45, 44, 43, 42, 41,
        40, 39, 38, 37, 36, 35, 34, 33, 32,
    ];
    let moves = [Move { part: 0, to: 0 }, Move { part: 1, to: 1 }];
    let mut agenda = agenda_of(rt.alloc(), rt.alloc(), true, &[33, 32], &lost, &moves)?;
    let steps = [
        map((7, 2), &[31], &lost[1..]),
        copy((6, 2), 0, 0),
        point((5, 2), 0, 0),
        map((4, 1), &[30], &[62]),
        copy((3, 1), 1, 1),
        point((2, 1), 1, 1),
        map((1, 0), &[], &[63]),
    ];
    assert!(rt; goes(&mut agenda, &steps));
    Ok(())
}

/// Without moves there is nothing to do but to mark the lost places free.
#[test]
fn no_moves(rt: HostRuntime) -> Result<(), Fail> {
    let mut agenda = agenda_of(rt.alloc(), rt.alloc(), false, &[0, 1], &[], &[])?;
    assert!(rt; goes(&mut agenda, &[]));
    let mut agenda = agenda_of(rt.alloc(), rt.alloc(), false, &[0, 1], &[61], &[])?;
    assert!(rt; goes(&mut agenda, &[map((1, 0), &[], &[61])]));
    Ok(())
}

// Whether the agenda for the parts that changed places is made over a heap, and how many blocks that asks for.
fn made_over(alloc: Global, heap: Refusing<Global>) -> (bool, u64) {
    let moves = [
        Move { part: 0, to: 2 },
        Move { part: 1, to: 1 },
        Move { part: 0, to: 0 },
    ];
    let is_made = agenda_of(&heap, alloc, false, &[1, 0], &[], &moves).is_ok();
    (is_made, heap.asked())
}

/// Where a block is refused, the answer is want of memory, and no block is asked after it.
#[test]
fn each_block_refused(rt: HostRuntime) {
    let (is_made, asked) = made_over(rt.alloc(), Refusing::none(rt.alloc()));
    assert!(rt; is_made && asked > 2);
    for before in 0..asked {
        let answer = made_over(rt.alloc(), Refusing::one(rt.alloc(), before));
        assert!(rt; answer == (false, before + 1), "{before}");
    }
}
