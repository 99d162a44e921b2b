//! Jobs that change the files of a volume, each block of memory refused in turn, and each of their reads and writes
//! failing.
ghost use Rattle.std.specs.Prelude.{◌≡◌, ◌<◌, ◌≤◌};
ghost use Rattle.a2_device.specs.Device.{DeviceState};

use crate::files::deletions::{delete_on_blocks, delete_on_dos};
use crate::files::savings::{fill_block, save_hi, save_hole, save_note};
use a2_device::Device;
use edit_formats::EditError;
use std::alloc::{AllocError, Allocator, Global};
use std::test::Fail;
use test_volumes::{
    FIRST_CATALOG, Failure, IMAGE_BYTES, Piece, Refusing, VTOC, block_device, dos_device,
    hello_with, late, put_writes, sub_with, tree_with,
};

/// A job on a DOS 3.3 volume.
#[derive(Clone, Copy)]
enum DosJob {
    DeleteHello,
    SaveHi,
}

/// A job on a ProDOS volume.
#[derive(Clone, Copy)]
enum ProJob {
    DeleteSub,
    DeleteSecond,
    SaveNote,
    SaveHole,
}

#[derive(Clone, Copy)]
enum Job {
    Dos(DosJob),
    Pro(ProJob),
}

/// Each job, and how many writes it makes.
static JOBS: [(&str, Job, u64); 6] = [
    ("delete HELLO", Job::Dos(DosJob::DeleteHello), 2),
    ("delete SUB/A", Job::Pro(ProJob::DeleteSub), 2),
    ("delete C", Job::Pro(ProJob::DeleteSecond), 3),
    ("save HI", Job::Dos(DosJob::SaveHi), 4),
    ("save NOTE", Job::Pro(ProJob::SaveNote), 3),
    ("save HOLE", Job::Pro(ProJob::SaveHole), 6),
];

/// HELLO, which is not locked, is deleted: its entry gets its track, 3, in the last byte of its name, and FF in its
/// place; sectors 14 and 15 of track 3 become free.
static HELLO_DELETED: [&[Piece]; 2] = [
    &[
        (FIRST_CATALOG, 0x0b, &[0xff]),
        (FIRST_CATALOG, 0x2b, &[0x03]),
    ],
    &[(VTOC, 0x44, &[0xff, 0xff])],
];

/// SUB/A is deleted, whose entry stands in the key block, 10: its slot becomes inactive, the subdirectory has no file,
/// and block 11 becomes free.
static SUB_DELETED: [&[Piece]; 2] = [
    &[(10, 0x2b, &[0x00]), (10, 0x25, &[0])],
    &[(6, 0x01, &[0x1f])],
];

/// The seedling C in block 12, whose entry is the first of block 3.
static SECOND: [Piece; 6] = [
    (3, 0x04, &[0x11, 0x43]),
    (3, 0x14, &[0x04, 12, 0, 1, 0, 1]),
    (3, 0x22, &[0xe3]),
    (3, 0x29, &[2]),
    (2, 0x25, &[2]),
    (6, 0x01, &[0x37]),
];

/// C is deleted: its slot becomes inactive; the volume directory, whose key block is block 2, has one file; block 12
/// becomes free.
static SECOND_DELETED: [&[Piece]; 3] = [
    &[(3, 0x04, &[0x00])],
    &[(2, 0x25, &[1])],
    &[(6, 0x01, &[0x3f])],
];

/// HI is saved: its list at track 3 sector 13, its body at track 3 sector 12, the map of track 3, and its entry at byte
/// 2E of the first sector of the catalog.
static HI_SAVED: [&[Piece]; 4] = [
    &[(61, 0x0c, &[3, 12])],
    &[(60, 0x00, &[0x00, 0x03, 0x03, 0x00, 0xa9, 0x00, 0x60])],
    &[(VTOC, 0x44, &[0x0f, 0xff])],
    &[
        (FIRST_CATALOG, 0x2e, &[3, 13, 0x04, 0xc8, 0xc9]),
        (FIRST_CATALOG, 0x33, &[0xa0; 28]),
        (FIRST_CATALOG, 0x4f, &[2, 0]),
    ],
];

/// The three bytes of NOTE are saved: the seedling in block 10, the map, and its entry at byte 52 of block 2, where the
/// volume directory counts its files.
static NOTE_SAVED: [&[Piece]; 3] = [
    &[(10, 0x00, b"abc")],
    &[(6, 0x01, &[0x1f])],
    &[
        (2, 0x25, &[2]),
        (2, 0x52, &[0x14, 0x4e, 0x4f, 0x54, 0x45]),
        (2, 0x62, &[0x06, 10, 0, 1, 0, 3, 0, 0]),
        (2, 0x6a, &[0xa1, 0xac, 0x1e, 0x0c, 0, 0]),
        (2, 0x70, &[0xe3, 0x00, 0x20]),
        (2, 0x73, &[0xa1, 0xac, 0x1e, 0x0c, 2, 0]),
    ],
];

/// HOLE is saved, a file of three units of which the second is a hole: its index block 10, its body in blocks 11 and
/// 12, the map, its entry in the first slot of block 3, and the count in block 2.
static HOLE_SAVED: [&[Piece]; 6] = [
    &[(10, 0x00, &[11, 0, 12])],
    &[(11, 0x00, &[1; 512])],
    &[(12, 0x00, &[1; 512])],
    &[(6, 0x01, &[0x07])],
    &[
        (3, 0x04, &[0x24, 0x48, 0x4f, 0x4c, 0x45]),
        (3, 0x14, &[0x06, 10, 0, 3, 0, 0x23, 0x05, 0]),
        (3, 0x1c, &[0xa1, 0xac, 0x1e, 0x0c, 0, 0]),
        (3, 0x22, &[0xe3, 0x00, 0x20]),
        (3, 0x25, &[0xa1, 0xac, 0x1e, 0x0c, 2, 0]),
    ],
    &[(2, 0x25, &[13])],
];

/// The image of a DOS 3.3 volume after so many of the writes of a job.
fn dos_after(alloc: Global, job: DosJob, writes: u64) -> Result<Vec<u8>, AllocError> {
    match job {
        DosJob::DeleteHello => {
            let mut image = hello_with(alloc, &[(FIRST_CATALOG, 0x0d, &[0x04])])?;
            put_writes(&mut image, 256, &HELLO_DELETED, writes);
            Ok(image)
        }
        DosJob::SaveHi => {
            let mut image = hello_with(alloc, &[])?;
            put_writes(&mut image, 256, &HI_SAVED, writes);
            Ok(image)
        }
    }
}

/// The volume with BIG and eleven files more, C to M.
fn many_files(alloc: Global) -> Result<Vec<u8>, AllocError> {
    let mut image = tree_with(alloc, &[(2, 0x25, &[12])])?;
    fill_block(&mut image);
    Ok(image)
}

/// The image of a ProDOS volume before a job.
fn pro_before(alloc: Global, job: ProJob) -> Result<Vec<u8>, AllocError> {
    match job {
        ProJob::DeleteSub => sub_with(alloc, &[]),
        ProJob::DeleteSecond => tree_with(alloc, &SECOND),
        ProJob::SaveNote => tree_with(alloc, &[]),
        ProJob::SaveHole => many_files(alloc),
    }
}

/// Puts the bytes of the first so many of the writes of a job over the image of a ProDOS volume.
fn put_pro_writes(image: &mut [u8], job: ProJob, count: u64) {
    match job {
        ProJob::DeleteSub => put_writes(image, 512, &SUB_DELETED, count),
        ProJob::DeleteSecond => put_writes(image, 512, &SECOND_DELETED, count),
        ProJob::SaveNote => put_writes(image, 512, &NOTE_SAVED, count),
        ProJob::SaveHole => put_writes(image, 512, &HOLE_SAVED, count),
    }
}

/// The image of a volume after so many of the writes of a job.
fn image_after(alloc: Global, job: Job, writes: u64) -> Result<Vec<u8>, AllocError> {
    match job {
        Job::Dos(job) => dos_after(alloc, job, writes),
        Job::Pro(job) => {
            let mut image = pro_before(alloc, job)?;
            put_pro_writes(&mut image, job, writes);
            Ok(image)
        }
    }
}

/// Why a job on a DOS 3.3 volume is not done; `None` where it is.
fn done_on_dos<A: Allocator + Copy, D: Device>(
    heap: A,
    device: &mut D,
    job: DosJob,
) -> Option<EditError>
    requires unit { (D.state device.old).unit_size ≡ 256 }
    requires places { (D.state device.old).places ≡ 560 }
{
    match job {
        DosJob::DeleteHello => delete_on_dos(heap, device, b"HELLO"),
        DosJob::SaveHi => save_hi(heap, device),
    }
}

/// Why a job on a ProDOS volume is not done; `None` where it is.
fn done_on_blocks<A: Allocator + Copy, D: Device>(
    heap: A,
    device: &mut D,
    job: ProJob,
) -> Option<EditError>
    requires unit { (D.state device.old).unit_size ≡ 512 }
    requires places { (16 ≤ (D.state device.old).places) × ((D.state device.old).places < 65536) }
{
    match job {
        ProJob::DeleteSub => delete_on_blocks(heap, device, b"sub/a"),
        ProJob::DeleteSecond => delete_on_blocks(heap, device, b"C"),
        ProJob::SaveNote => save_note(heap, device),
        ProJob::SaveHole => save_hole(heap, device),
    }
}

/// Why a job is not done, and the bytes of the image then.
type Ended = (Option<EditError>, Vec<u8>);

/// The end of a job on a DOS 3.3 volume, with a failure after so many calls of its kind and blocks of a heap.
fn dos_ended<A: Allocator + Copy>(
    heap: A,
    image: Vec<u8>,
    job: DosJob,
    failure: Failure,
    before: u64,
) -> Option<Ended> {
    if image.len() != IMAGE_BYTES {
        return None;
    }
    let mut device = late(dos_device(image), failure, before);
    let error = done_on_dos(heap, &mut device, job);
    Some((error, device.into_inner().into_image().into_bytes()))
}

/// The same on a ProDOS volume.
fn pro_ended<A: Allocator + Copy>(
    heap: A,
    image: Vec<u8>,
    job: ProJob,
    failure: Failure,
    before: u64,
) -> Option<Ended> {
    let mut device = late(block_device(image)?, failure, before);
    let error = done_on_blocks(heap, &mut device, job);
    Some((error, device.into_inner().into_image().into_bytes()))
}

/// The end of a job.
fn ended<A: Allocator + Copy>(
    alloc: Global,
    heap: A,
    job: Job,
    failure: Failure,
    before: u64,
) -> Option<Ended> {
    let image = image_after(alloc, job, 0).ok()?;
    match job {
        Job::Dos(job) => dos_ended(heap, image, job, failure, before),
        Job::Pro(job) => pro_ended(heap, image, job, failure, before),
    }
}

/// Whether an image is as it is after so many of the writes of a job.
fn is_image(alloc: Global, job: Job, writes: u64, image: &[u8]) -> bool {
    match &image_after(alloc, job, writes) {
        Ok(wanted) => image == wanted.as_slice(),
        Err(_) => false,
    }
}

/// Why a job is not done with a failure after so many calls of its kind, and whether the image is then as it is after
/// so many of its writes.
fn told(
    alloc: Global,
    job: Job,
    failure: Failure,
    before: u64,
    writes: u64,
) -> (Option<EditError>, bool) {
    match &ended(alloc, alloc, job, failure, before) {
        Some((error, image)) => (*error, is_image(alloc, job, writes, image.as_slice())),
        None => (None, false),
    }
}

#[test]
fn each_job_is_done(rt: HostRuntime) {
    for (name, job, writes) in &JOBS {
        let answer = told(rt.alloc(), *job, Failure::Read, 1000, *writes);
        assert!(rt; answer == (None, true), "{name}");
    }
}

/// Whether each write of a job fails in turn, with the old unit or the new one, and those before it stand alone.
fn tells_writes(alloc: Global, job: Job, writes: u64, took: bool) -> bool {
    for before in 0..writes {
        let stand = if took { before + 1 } else { before };
        let answer = told(alloc, job, Failure::Write { took }, before, stand);
        if answer != (Some(EditError::Device), true) {
            return false;
        }
    }
    told(alloc, job, Failure::Write { took }, writes, writes) == (None, true)
}

#[test]
fn each_write_failing(rt: HostRuntime) {
    for (name, job, writes) in &JOBS {
        assert!(rt;
            tells_writes(rt.alloc(), *job, *writes, false),
            "{name}, the old unit"
        );
        assert!(rt;
            tells_writes(rt.alloc(), *job, *writes, true),
            "{name}, the new unit"
        );
    }
}

/// Whether a job makes twelve reads or more, of which each that fails leaves the image.
fn tells_reads(alloc: Global, job: Job) -> bool {
    for before in 0..1000u64 {
        let (error, is_old) = told(alloc, job, Failure::Read, before, 0);
        match error {
            None => return before >= 12,
            Some(EditError::Device) if is_old => {}
            Some(_) => return false,
        }
    }
    false
}

#[test]
fn each_read_failing(rt: HostRuntime) {
    for (name, job, _) in &JOBS {
        assert!(rt; tells_reads(rt.alloc(), *job), "{name}");
    }
}

/// Why a job is not done over a heap, whether the image is then as it was, and how many blocks are asked of the heap.
fn told_over(alloc: Global, job: Job, heap: Refusing<Global>) -> (Option<EditError>, bool, u64) {
    match &ended(alloc, &heap, job, Failure::Read, 1000) {
        Some((error, image)) => {
            let is_old = is_image(alloc, job, 0, image.as_slice());
            (*error, is_old, heap.asked())
        }
        None => (None, false, 0),
    }
}

/// Whether each block that is refused to a job is want of memory and leaves the image.
fn tells_refusals(alloc: Global, job: Job) -> bool {
    let (error, _, asked) = told_over(alloc, job, Refusing::none(alloc));
    if error.is_some() || asked <= 8 {
        return false;
    }
    for before in 0..asked {
        let (error, is_old, _) = told_over(alloc, job, Refusing::one(alloc, before));
        if error != Some(EditError::Memory) || !is_old {
            return false;
        }
    }
    true
}

#[test]
fn each_refused_block_is_memory(rt: HostRuntime) {
    for (name, job, _) in &JOBS {
        assert!(rt; tells_refusals(rt.alloc(), *job), "{name}");
    }
}
