//! Lost places that are reclaimed: `reclaim`.
ghost use Rattle.std.specs.Prelude.{◌≡◌, ◌<◌, ◌≤◌};
ghost use Rattle.a2_device.specs.Device.{DeviceState};

use crate::files::dos_listings::dos_33;
use a2_device::Device;
use edit_formats::EditError;
use file_edits::reclaim;
use pro_format::Prodos;
use std::alloc::{AllocError, Allocator, Global};
use test_volumes::{
    Failure, IMAGE_BYTES, Piece, Refusing, VTOC, block_device, dos_device, hello, hello_with, late,
    put_pieces, put_writes, seedlings_far_out, sub_with,
};
use vol_layout::Reserved;

/// A volume with lost places, or HELLO with none: HELLO of DOS 3.3, or of ProDOS the one with a subdirectory or that of
/// 8,192 blocks.
#[derive(Clone, Copy)]
enum Volume {
    Hello,
    HelloWhole,
    Sub,
    Far,
}

/// Each volume, and how many writes reclaim its lost places.
static VOLUMES: [(&str, Volume, u64); 4] = [
    ("HELLO", Volume::Hello, 1),
    ("HELLO with nothing lost", Volume::HelloWhole, 0),
    ("SUB", Volume::Sub, 1),
    ("far out", Volume::Far, 2),
];

/// Sector 13 of track 3 and all sectors of track 4 are marked used, and no file has them.
static HELLO_LOST: [Piece; 2] = [(VTOC, 0x44, &[0x1f]), (VTOC, 0x48, &[0x00, 0x00])];

/// They are marked free, by one write.
static HELLO_RECLAIMED: [&[Piece]; 1] = [&[(VTOC, 0x44, &[0x3f]), (VTOC, 0x48, &[0xff, 0xff])]];

/// Block 12 is lost.
static SUB_LOST: [Piece; 1] = [(6, 0x01, &[0x07])];

static SUB_RECLAIMED: [&[Piece]; 1] = [&[(6, 0x01, &[0x0f])]];

/// Blocks 8 and 5,002 are lost; the second has its bit in block 7, the second of the map.
static FAR_LOST: [Piece; 2] = [(6, 0x01, &[0x7f]), (7, 0x71, &[0x1f])];

static FAR_RECLAIMED: [&[Piece]; 2] = [&[(6, 0x01, &[0xff])], &[(7, 0x71, &[0x3f])]];

/// The image of a volume after so many of the writes that reclaim its lost places.
fn image_after(alloc: Global, volume: Volume, writes: u64) -> Result<Vec<u8>, AllocError> {
    match volume {
        Volume::Hello => {
            let mut image = hello_with(alloc, &HELLO_LOST)?;
            put_writes(&mut image, 256, &HELLO_RECLAIMED, writes);
            Ok(image)
        }
        Volume::HelloWhole => hello(alloc),
        Volume::Sub => {
            let mut image = sub_with(alloc, &SUB_LOST)?;
            put_writes(&mut image, 512, &SUB_RECLAIMED, writes);
            Ok(image)
        }
        Volume::Far => {
            let mut image = seedlings_far_out(alloc)?;
            put_pieces(&mut image, 512, &FAR_LOST);
            put_writes(&mut image, 512, &FAR_RECLAIMED, writes);
            Ok(image)
        }
    }
}

/// Why the lost places of a DOS 3.3 volume are not reclaimed; `None` where they are.
fn reclaim_on_dos<A: Allocator + Copy, D: Device>(heap: A, device: &mut D) -> Option<EditError>
    requires unit { (D.state device.old).unit_size ≡ 256 }
    requires places { (D.state device.old).places ≡ 560 }
{
    match dos_33(heap) {
        Ok(format) => reclaim(heap, device, &format).err(),
        Err(_) => Some(EditError::Memory),
    }
}

/// The same of a ProDOS volume.
fn reclaim_on_blocks<A: Allocator + Copy, D: Device>(heap: A, device: &mut D) -> Option<EditError>
    requires unit { (D.state device.old).unit_size ≡ 512 }
    requires places { (16 ≤ (D.state device.old).places) × ((D.state device.old).places < 65536) }
{
    let format = Prodos::new(heap, Reserved::none(heap));
    reclaim(heap, device, &format).err()
}

/// Why lost places are not reclaimed, how many writes and refusals the device has counted, and the bytes of the image.
#[derive(Drop)]
struct End {
    error: Option<EditError>,
    writes: u64,
    faults: u64,
    image: Vec<u8>,
}

/// The end over an image in DOS order, with a failure after so many calls of its kind and blocks of a heap.
fn dos_ended<A: Allocator + Copy>(
    heap: A,
    image: Vec<u8>,
    failure: Failure,
    before: u64,
) -> Option<End> {
    if image.len() != IMAGE_BYTES {
        return None;
    }
    let mut device = late(dos_device(image), failure, before);
    let error = reclaim_on_dos(heap, &mut device);
    let writes = device.writes();
    let faults = device.faults();
    let image = device.into_inner().into_image().into_bytes();
    Some(End {
        error,
        writes,
        faults,
        image,
    })
}

/// The same over an image of blocks.
fn pro_ended<A: Allocator + Copy>(
    heap: A,
    image: Vec<u8>,
    failure: Failure,
    before: u64,
) -> Option<End> {
    let mut device = late(block_device(image)?, failure, before);
    let error = reclaim_on_blocks(heap, &mut device);
    let writes = device.writes();
    let faults = device.faults();
    let image = device.into_inner().into_image().into_bytes();
    Some(End {
        error,
        writes,
        faults,
        image,
    })
}

/// The end on a volume with this image.
fn ended<A: Allocator + Copy>(
    heap: A,
    volume: Volume,
    image: Vec<u8>,
    failure: Failure,
    before: u64,
) -> Option<End> {
    match volume {
        Volume::Hello | Volume::HelloWhole => dos_ended(heap, image, failure, before),
        Volume::Sub | Volume::Far => pro_ended(heap, image, failure, before),
    }
}

/// What is told of an end: the refusal, how many writes were counted, how many refusals, and whether the image is as it
/// is after so many of the writes.
type Told = (Option<EditError>, u64, u64, bool);

/// What is told of a volume with a failure after so many calls of its kind.
fn told(alloc: Global, volume: Volume, failure: Failure, before: u64, stand: u64) -> Option<Told> {
    let image = image_after(alloc, volume, 0).ok()?;
    let wanted = image_after(alloc, volume, stand).ok()?;
    let end = ended(alloc, volume, image, failure, before)?;
    let is_wanted = end.image.as_slice() == wanted.as_slice();
    Some((end.error, end.writes, end.faults, is_wanted))
}

/// What is told of a volume with this image and a read that fails after so many, and whether the image is left.
fn told_of_read(alloc: Global, volume: Volume, image: &[u8], before: u64) -> Option<Told> {
    let copy = Vec::from_slice(alloc, image).ok()?;
    let end = ended(alloc, volume, copy, Failure::Read, before)?;
    let is_left = end.image.as_slice() == image;
    Some((end.error, end.writes, end.faults, is_left))
}

/// A failure that does not come.
const NEVER: u64 = 1000;

#[test]
fn lost_places_are_reclaimed(rt: HostRuntime) {
    for (name, volume, writes) in &VOLUMES {
        let answer = told(rt.alloc(), *volume, Failure::Read, NEVER, *writes);
        assert!(rt; answer == Some((None, *writes, 0, true)), "{name}");
    }
}

/// What is told of HELLO with these bytes, whose image then is to be another.
fn told_of_hello(alloc: Global, pieces: &[Piece], wanted: &[Piece]) -> Option<Told> {
    let image = hello_with(alloc, pieces).ok()?;
    let wanted = hello_with(alloc, wanted).ok()?;
    let end = dos_ended(alloc, image, Failure::Read, NEVER)?;
    let is_wanted = end.image.as_slice() == wanted.as_slice();
    Some((end.error, end.writes, end.faults, is_wanted))
}

/// Sector 13 of track 3 is lost, as it is where an optimization of HELLO stopped after its first write.
#[test]
fn a_stopped_move_is_undone(rt: HostRuntime) {
    let answer = told_of_hello(rt.alloc(), &[(VTOC, 0x44, &[0x1f])], &[]);
    assert!(rt; answer == Some((None, 1, 0, true)));
}

/// The list of HELLO leads to itself.
#[test]
fn a_faulty_volume_is_left(rt: HostRuntime) {
    let pieces: [Piece; 2] = [(62, 0x00, &[0, 3, 14]), (VTOC, 0x44, &[0x1f])];
    let answer = told_of_hello(rt.alloc(), &pieces, &pieces);
    assert!(rt; answer == Some((Some(EditError::Check), 0, 0, true)));
}

/// Whether each write fails in turn, with the old unit or the new one, and those before it stand alone.
fn tells_writes(alloc: Global, volume: Volume, writes: u64, took: bool) -> bool {
    for before in 0..writes {
        let stand = if took { before + 1 } else { before };
        let answer = told(alloc, volume, Failure::Write { took }, before, stand);
        if answer != Some((Some(EditError::Device), before + 1, 1, true)) {
            return false;
        }
    }
    let answer = told(alloc, volume, Failure::Write { took }, writes, writes);
    answer == Some((None, writes, 0, true))
}

#[test]
fn each_write_failing(rt: HostRuntime) {
    for (name, volume, writes) in &VOLUMES {
        assert!(rt;
            tells_writes(rt.alloc(), *volume, *writes, false),
            "{name}, the old unit"
        );
        assert!(rt;
            tells_writes(rt.alloc(), *volume, *writes, true),
            "{name}, the new unit"
        );
    }
}

/// Whether six reads or more are made, of which each that fails leaves the image.
fn tells_reads(alloc: Global, volume: Volume) -> bool {
    let Ok(image) = image_after(alloc, volume, 0) else {
        return false;
    };
    for before in 0..NEVER {
        match told_of_read(alloc, volume, image.as_slice(), before) {
            Some((Some(EditError::Device), 0, 1, true)) => {}
            Some((None, _, 0, _)) => return before >= 6,
            _ => return false,
        }
    }
    false
}

#[test]
fn each_read_failing(rt: HostRuntime) {
    for (name, volume, _) in &VOLUMES {
        assert!(rt; tells_reads(rt.alloc(), *volume), "{name}");
    }
}

/// Why lost places of a volume with this image are not reclaimed over a heap, whether the image is then as it was, and
/// how many blocks are asked of the heap.
fn told_over(
    alloc: Global,
    volume: Volume,
    image: &[u8],
    heap: Refusing<Global>,
) -> Option<(Option<EditError>, bool, u64)> {
    let copy = Vec::from_slice(alloc, image).ok()?;
    let end = ended(&heap, volume, copy, Failure::Read, NEVER)?;
    let is_old = end.image.as_slice() == image;
    Some((end.error, is_old, heap.asked()))
}

/// Whether five blocks or more are asked for, and each that is refused is want of memory and leaves the image.
fn tells_refusals(alloc: Global, volume: Volume) -> bool {
    let Ok(image) = image_after(alloc, volume, 0) else {
        return false;
    };
    let image = image.as_slice();
    let asked = match told_over(alloc, volume, image, Refusing::none(alloc)) {
        Some((None, _, asked)) => asked,
        _ => return false,
    };
    for before in 0..asked {
        match told_over(alloc, volume, image, Refusing::one(alloc, before)) {
            Some((Some(EditError::Memory), true, _)) => {}
            _ => return false,
        }
    }
    asked >= 5
}

#[test]
fn each_refused_block_is_memory(rt: HostRuntime) {
    for (name, volume, _) in &VOLUMES {
        assert!(rt; tells_refusals(rt.alloc(), *volume), "{name}");
    }
}
