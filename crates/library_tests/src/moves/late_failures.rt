//! Each read of a check, and each read and write of an optimizer, failing in turn.
ghost use Rattle.std.specs.Prelude.{◌≡◌};
ghost use Rattle.a2_device.specs.Device.{DeviceState};
ghost use Rattle.vol_format.specs.Fits.{Fits};

use crate::moves::volumes::{ALL, KEEP, dos33};
use a2_device::Device;
use a2_media::ImageDevice;
use pro_format::Prodos;
use std::alloc::{AllocError, Global};
use std::test::Fail;
use test_volumes::{
    IMAGE_BYTES, LateFailure, block_device, dos_device, hello, tree_and_subdirectory,
};
use vol_check::{CheckError, check};
use vol_format::{Format, WritableFormat};
use vol_layout::Reserved;
use vol_mover::{OpenError, OptError, StepError, optimize};

/// A volume: HELLO of DOS 3.3, or the one of ProDOS with a subdirectory.
#[derive(Clone, Copy, Debug)]
enum Volume {
    Hello,
    Sub,
}

#[derive(Clone, Copy, Debug)]
enum Call {
    Check,
    Optimize,
}

/// A failure that comes after so many calls of its kind.
#[derive(Clone, Copy, Debug)]
enum Failure {
    Read,
    Write { took: bool },
}

/// How a call ends: where the device failed, before a first step, in a step's read, or in its write.
#[derive(Clone, Copy, Debug, PartialEq, Eq)]
enum End {
    Done,
    FailedBefore,
    FailedRead,
    FailedWrite,
    Other,
}

/// How a call ends, how many calls the device has refused then, and the bytes of the image.
#[derive(Drop)]
struct Ended {
    end: End,
    faults: u64,
    image: Vec<u8>,
}

/// The same of a device.
fn ended_over(end: End, device: LateFailure<ImageDevice>) -> Ended {
    let faults = device.faults();
    let image = device.into_inner().into_image().into_bytes();
    Ended { end, faults, image }
}

/// How many files a volume has that is accepted, and how many parts.
fn counts_of<D: Device, F: Format>(
    alloc: Global,
    device: &mut D,
    format: &F,
) -> Result<(u32, usize), CheckError>
    requires fits { Fits (F.meaning format.now) (D.state device.old) }
{
    let checked = check(alloc, device, format)?;
    Ok((checked.files(), checked.parts().len()))
}

/// How a check of a volume ends.
fn check_ended<F: Format>(alloc: Global, mut device: LateFailure<ImageDevice>, format: &F) -> Ended
    requires fits { Fits (F.meaning format.now) (⟦<LateFailure<ImageDevice> as Device>⟧.state device) }
{
    let end = match &counts_of(alloc, &mut device, format) {
        Ok(_) => End::Done,
        Err(CheckError::Device) => End::FailedBefore,
        Err(_) => End::Other,
    };
    ended_over(end, device)
}

/// The end of an optimizer by an error.
fn end_by(error: &OptError) -> End {
    match error {
        OptError::Open(OpenError::Device) => End::FailedBefore,
        OptError::Step(StepError::Read) => End::FailedRead,
        OptError::Step(StepError::Write) => End::FailedWrite,
        _ => End::Other,
    }
}

/// How an optimizer of a volume ends.
fn optimizer_ended<F: WritableFormat>(
    alloc: Global,
    device: LateFailure<ImageDevice>,
    format: &F,
) -> Ended
    requires fits { Fits (F.meaning format.now) (⟦<LateFailure<ImageDevice> as Device>⟧.state device) }
{
    match optimize(alloc, device, format, KEEP, ALL) {
        Ok((device, _)) => ended_over(End::Done, device),
        Err((error, device)) => ended_over(end_by(&error), device),
    }
}

/// How a call on a volume ends.
fn call_ended<F: WritableFormat>(
    alloc: Global,
    call: Call,
    device: LateFailure<ImageDevice>,
    format: &F,
) -> Ended
    requires fits { Fits (F.meaning format.now) (⟦<LateFailure<ImageDevice> as Device>⟧.state device) }
{
    match call {
        Call::Check => check_ended(alloc, device, format),
        Call::Optimize => optimizer_ended(alloc, device, format),
    }
}

/// The device with this failure after so many calls.
fn late(device: ImageDevice, failure: Failure, before: u64) -> LateFailure<ImageDevice>
    ensures unit { (⟦<LateFailure<ImageDevice> as Device>⟧.state result).unit_size
        ≡ (⟦<ImageDevice as Device>⟧.state device).unit_size }
    ensures places { (⟦<LateFailure<ImageDevice> as Device>⟧.state result).places
        ≡ (⟦<ImageDevice as Device>⟧.state device).places }
{
    match failure {
        Failure::Read => LateFailure::read(device, before),
        Failure::Write { took } => LateFailure::write(device, before, took),
    }
}

/// How a call on HELLO ends with a failure after so many calls.
fn dos_ended(alloc: Global, call: Call, failure: Failure, before: u64) -> Result<Ended, Fail> {
    let format = dos33(alloc, false)?;
    let device = late(dos_device(hello(alloc)?), failure, before);
    Ok(call_ended(alloc, call, device, &format))
}

/// How a call on the volume with a subdirectory ends with a failure after so many calls.
fn pro_ended(alloc: Global, call: Call, failure: Failure, before: u64) -> Result<Ended, Fail> {
    let format = Prodos::new(alloc, Reserved::none(alloc));
    match block_device(tree_and_subdirectory(alloc)?) {
        Some(device) => {
            let device = late(device, failure, before);
            Ok(call_ended(alloc, call, device, &format))
        }
        None => Err("it is no image".into()),
    }
}

/// A volume, and a call on it.
type Row = (Volume, Call);

/// How a call on a volume ends with a failure after so many calls.
fn ended_on(
    alloc: Global,
    (volume, call): Row,
    failure: Failure,
    before: u64,
) -> Result<Ended, Fail> {
    match volume {
        Volume::Hello => dos_ended(alloc, call, failure, before),
        Volume::Sub => pro_ended(alloc, call, failure, before),
    }
}

/// How many files and parts an image has of a volume of DOS 3.3; `None` where it is not accepted.
fn dos_counts(alloc: Global, image: Vec<u8>) -> Result<Option<(u32, usize)>, AllocError> {
    if image.len() != IMAGE_BYTES {
        return Ok(None);
    }
    let format = dos33(alloc, false)?;
    Ok(counts_of(alloc, &mut dos_device(image), &format).ok())
}

/// The same of a volume of ProDOS.
fn pro_counts(alloc: Global, image: Vec<u8>) -> Option<(u32, usize)> {
    let format = Prodos::new(alloc, Reserved::none(alloc));
    counts_of(alloc, &mut block_device(image)?, &format).ok()
}

/// Whether an image is accepted, with the files and parts that a volume has.
fn is_accepted(alloc: Global, volume: Volume, image: Vec<u8>) -> Result<bool, AllocError> {
    Ok(match volume {
        Volume::Hello => dos_counts(alloc, image)? == Some((1, 2)),
        Volume::Sub => pro_counts(alloc, image) == Some((2, 4)),
    })
}

/// Whether a failure is told by an end.
fn is_told(failure: Failure, end: End) -> bool {
    match failure {
        Failure::Read => end == End::FailedBefore || end == End::FailedRead,
        Failure::Write { .. } => end == End::FailedWrite,
    }
}

/// How many reads or writes a call on a volume makes, where each of them fails in turn and is told, and the image is
/// then accepted with all files and parts.
fn count_told(alloc: Global, row: Row, failure: Failure) -> Result<u64, Fail> {
    for before in 0..1000u64 {
        let Ended { end, faults, image } = ended_on(alloc, row, failure, before)?;
        if !is_accepted(alloc, row.0, image)? {
            return Err("it is not accepted".into());
        }
        if end == End::Done && faults == 0 {
            return Ok(before);
        }
        if !is_told(failure, end) || faults != 1 {
            return Err("a failure is told otherwise".into());
        }
    }
    Err("the reads or writes have no end".into())
}

/// A volume, a call on it, and how many reads that makes at the least.
static READS: [(Volume, Call, u64); 4] = [
    (Volume::Hello, Call::Check, 17),
    (Volume::Hello, Call::Optimize, 25),
    (Volume::Sub, Call::Check, 8),
    (Volume::Sub, Call::Optimize, 16),
];

#[test]
fn each_read_failing(rt: HostRuntime) -> Result<(), Fail> {
    for (volume, call, least) in &READS {
        let reads = count_told(rt.alloc(), (*volume, *call), Failure::Read)?;
        assert!(rt; reads >= *least, "{volume:?} {call:?} {reads}");
    }
    Ok(())
}

#[test]
fn each_write_failing(rt: HostRuntime) -> Result<(), Fail> {
    for volume in [Volume::Hello, Volume::Sub] {
        for took in [false, true] {
            let row = (volume, Call::Optimize);
            let writes = count_told(rt.alloc(), row, Failure::Write { took })?;
            assert!(rt; writes == 8, "{volume:?} {took} {writes}");
        }
    }
    Ok(())
}
