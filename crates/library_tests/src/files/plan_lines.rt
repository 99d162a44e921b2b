//! The lines of a plan of a ProDOS volume in words: `ProSteps`.
ghost use Rattle.std.specs.Prelude.{◌≡◌, ◌<◌, ◌≤◌};
ghost use Rattle.a2_device.specs.Device.{DeviceState};

use a2_device::{Device, Part, PartKind};
use file_cmds::{CmdError, read_volume};
use file_listings::{ProSteps, Step};
use pro_format::Prodos;
use std::alloc::{AllocError, Allocator, Global};
use std::test::Fail;
use test_volumes::{Refusing, block_device, tree_and_subdirectory};
use vol_layout::Reserved;

/// A unit of BIG goes past the blocks of SUB/A, whose body then comes to stand where it stood.
static STEPS: [Step; 2] = [
    Step {
        part: Part {
            file: 0,
            kind: PartKind::Index,
            number: 1,
            place: 9,
        },
        to: 279,
    },
    Step {
        part: Part {
            file: 2,
            kind: PartKind::Body,
            number: 0,
            place: 14,
        },
        to: 9,
    },
];

/// Makes the line of a step, where there is such a step.
fn make_line<A: Allocator + Copy>(
    lines: &mut ProSteps<A>,
    number: usize,
) -> Result<(), AllocError> {
    if number < lines.steps() {
        lines.make_step(number)?;
    }
    Ok(())
}

/// The lines of the steps of the volume on a device.
fn lines_on<A: Allocator + Copy, D: Device>(
    alloc: A,
    device: &mut D,
) -> Result<ProSteps<A>, CmdError>
    requires unit { (D.state device.old).unit_size ≡ 512 }
    requires places { (16 ≤ (D.state device.old).places) × ((D.state device.old).places < 65536) }
{
    let format = Prodos::new(alloc, Reserved::none(alloc));
    let volume = read_volume(device, &format)?;
    Ok(ProSteps::new(alloc, volume, Vec::from_slice(alloc, &STEPS)?)?)
}

/// The lines of the steps of a volume in ProDOS order.
fn lines_of<A: Allocator + Copy>(alloc: A, image: Vec<u8>) -> Result<ProSteps<A>, CmdError> {
    match block_device(image) {
        Some(mut device) => lines_on(alloc, &mut device),
        None => Err(CmdError::NotFound),
    }
}

/// All lines, one behind the other.
fn text_of<A: Allocator + Copy>(
    alloc: Global,
    lines: &mut ProSteps<A>,
) -> Result<Vec<u8>, AllocError> {
    let mut text = Vec::new(alloc);
    for number in 0..lines.steps() {
        make_line(lines, number)?;
        text.extend_from_slice(lines.line())?;
    }
    lines.make_count()?;
    text.extend_from_slice(lines.line())?;
    Ok(text)
}

#[test]
fn tells_the_steps_of_a_plan(rt: HostRuntime) -> Result<(), Fail> {
    let mut lines = lines_of(rt.alloc(), tree_and_subdirectory(rt.alloc())?)?;
    let text = text_of(rt.alloc(), &mut lines)?;
    let told =
        b"BIG index 1 from block 9 to block 279\nSUB/A body 0 from block 14 to block 9\n2 moves\n";
    assert!(rt; text.as_slice() == told.as_slice());
    Ok(())
}

#[test]
fn no_line_takes_memory(rt: HostRuntime) -> Result<(), Fail> {
    let heap = Refusing::none(rt.alloc());
    let mut lines = lines_of(&heap, tree_and_subdirectory(rt.alloc())?)?;
    let before = heap.asked();
    let text = text_of(rt.alloc(), &mut lines)?;
    assert!(rt; heap.asked() == before && text.len() == 84);
    Ok(())
}

/// Whether the lines of a volume answer want of memory and ask no more where one of their blocks is refused.
fn tells_refusal(alloc: Global, before: u64) -> Result<bool, AllocError> {
    let heap = Refusing::one(alloc, before);
    let lines = lines_of(&heap, tree_and_subdirectory(alloc)?);
    let told = matches!(lines, Err(CmdError::Memory));
    Ok(told && heap.asked().saturating_sub(before) == 1)
}

#[test]
fn each_refused_block_is_memory(rt: HostRuntime) -> Result<(), Fail> {
    let heap = Refusing::none(rt.alloc());
    let lines = lines_of(&heap, tree_and_subdirectory(rt.alloc())?)?;
    assert!(rt; lines.steps() == 2 && heap.asked() > 8);
    for before in 0..heap.asked() {
        assert!(rt; tells_refusal(rt.alloc(), before)?);
    }
    Ok(())
}
