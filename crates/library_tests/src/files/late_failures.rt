//! Each read and each write of a call failing in turn: `catalog`, `read`, `lock`.
ghost use Rattle.std.specs.Prelude.{◌≡◌, ◌<◌, ◌≤◌, vec_len, IfOk};
ghost use Rattle.a2_device.specs.Device.{DeviceState};

use crate::files::dos_listings::dos_33;
use a2_device::Device;
use a2_media::ImageDevice;
use edit_formats::EditError;
use file_cmds::{CmdError, catalog, read};
use file_edits::lock;
use file_formats::FileName;
use pro_format::Prodos;
use std::alloc::{AllocError, Global};
use test_volumes::{
    FIRST_CATALOG, Failure, LateFailure, block_device, dos_device, hello_with, late, sub_with,
};
use vol_layout::Reserved;

/// A volume: HELLO of DOS 3.3, or the one of ProDOS with a subdirectory.
#[derive(Clone, Copy)]
enum Volume {
    Hello,
    Sub,
}

/// A call over a volume.
#[derive(Clone, Copy)]
enum Call {
    List,
    Read,
    Lock,
}

/// How a call ends.
#[derive(Clone, Copy, PartialEq, Eq)]
enum End {
    Done,
    Failed,
    Other,
}

/// The end of a command that reads.
fn end_by(refused: Option<CmdError>) -> End {
    match refused {
        None => End::Done,
        Some(CmdError::Device) => End::Failed,
        Some(_) => End::Other,
    }
}

/// The end of a command that changes a volume.
fn end_of(refused: Option<EditError>) -> End {
    match refused {
        None => End::Done,
        Some(EditError::Device) => End::Failed,
        Some(_) => End::Other,
    }
}

/// How a call on HELLO ends.
fn dos_end<D: Device>(alloc: Global, device: &mut D, call: Call) -> End
    requires unit { (D.state device.old).unit_size ≡ 256 }
    requires places { (D.state device.old).places ≡ 560 }
{
    let Ok(format) = dos_33(alloc) else {
        return End::Other;
    };
    match call {
        Call::List => end_by(catalog(alloc, device, &format).err()),
        Call::Read => end_by(read(alloc, device, &format, FileName::Path(b"HELLO"), false).err()),
        Call::Lock => end_of(lock(alloc, device, &format, FileName::Path(b"HELLO")).err()),
    }
}

/// How a call on the file SUB/A ends, or on its volume.
fn pro_end<D: Device>(alloc: Global, device: &mut D, call: Call) -> End
    requires unit { (D.state device.old).unit_size ≡ 512 }
    requires places { (16 ≤ (D.state device.old).places) × ((D.state device.old).places < 65536) }
{
    let format = Prodos::new(alloc, Reserved::none(alloc));
    match call {
        Call::List => end_by(catalog(alloc, device, &format).err()),
        Call::Read => end_by(read(alloc, device, &format, FileName::Path(b"SUB/A"), false).err()),
        Call::Lock => end_of(lock(alloc, device, &format, FileName::Path(b"SUB/A")).err()),
    }
}

/// The volume HELLO, whose file is locked or not.
fn dos_image(alloc: Global, is_locked: bool) -> Result<Vec<u8>, AllocError>
    ensures { IfOk result (λ image. vec_len image ≡ 143360) }
{
    let kind = if is_locked { 0x84 } else { 0x04 };
    hello_with(alloc, &[(FIRST_CATALOG, 0x0d, &[kind])])
}

/// The volume with a subdirectory, whose file SUB/A is locked or not.
fn pro_image(alloc: Global, is_locked: bool) -> Result<Vec<u8>, AllocError> {
    let access = if is_locked { 0x21 } else { 0xe3 };
    sub_with(alloc, &[(10, 0x49, &[access])])
}

/// Whether an image is that of a volume whose file is locked or not.
fn is_image(alloc: Global, volume: Volume, is_locked: bool, image: &[u8]) -> bool {
    let wanted = match volume {
        Volume::Hello => dos_image(alloc, is_locked),
        Volume::Sub => pro_image(alloc, is_locked),
    };
    match &wanted {
        Ok(wanted) => image == wanted.as_slice(),
        Err(_) => false,
    }
}

/// How a call ends, how many calls the device has refused then, and the bytes of the image.
#[derive(Drop)]
struct Ended {
    end: End,
    faults: u64,
    image: Vec<u8>,
}

/// The same of a device.
fn ended_over(end: End, device: LateFailure<ImageDevice>) -> Ended {
    let faults = device.faults();
    let image = device.into_inner().into_image().into_bytes();
    Ended { end, faults, image }
}

/// How a call on HELLO ends with a failure after so many calls.
fn dos_ended(alloc: Global, call: Call, failure: Failure, before: u64) -> Option<Ended> {
    let image = dos_image(alloc, false).ok()?;
    let mut device = late(dos_device(image), failure, before);
    let end = dos_end(alloc, &mut device, call);
    Some(ended_over(end, device))
}

/// How a call on the volume with a subdirectory ends with a failure after so many calls.
fn pro_ended(alloc: Global, call: Call, failure: Failure, before: u64) -> Option<Ended> {
    let image = pro_image(alloc, false).ok()?;
    let mut device = late(block_device(image)?, failure, before);
    let end = pro_end(alloc, &mut device, call);
    Some(ended_over(end, device))
}

/// A volume, and a call on it.
type Row = (Volume, Call);

/// How a call on a volume ends with a failure after so many calls.
fn ended_on(alloc: Global, (volume, call): Row, failure: Failure, before: u64) -> Option<Ended> {
    match volume {
        Volume::Hello => dos_ended(alloc, call, failure, before),
        Volume::Sub => pro_ended(alloc, call, failure, before),
    }
}

/// Whether the end of a call on a volume with such a failure is told, and the image is then as it was, or for a write
/// whose new unit stands as the call leaves it.
fn is_told(alloc: Global, (volume, _): Row, failure: Failure, ended: &Ended) -> bool {
    let is_locked = matches!(failure, Failure::Write { took: true });
    let is_failed = ended.end == End::Failed && ended.faults == 1;
    is_failed && is_image(alloc, volume, is_locked, ended.image.as_slice())
}

/// Whether a call on a volume ends with no failure, and the image is then as the call leaves it.
fn is_done(alloc: Global, (volume, call): Row, ended: &Ended) -> bool {
    let is_locked = matches!(call, Call::Lock);
    let is_whole = ended.end == End::Done && ended.faults == 0;
    is_whole && is_image(alloc, volume, is_locked, ended.image.as_slice())
}

/// How a call with a failure after so many others is told.
#[derive(Clone, Copy, PartialEq, Eq)]
enum Told {
    Failure,
    Done,
    Otherwise,
}

fn tell(alloc: Global, row: Row, failure: Failure, before: u64) -> Told {
    match &ended_on(alloc, row, failure, before) {
        Some(ended) if is_done(alloc, row, ended) => Told::Done,
        Some(ended) if is_told(alloc, row, failure, ended) => Told::Failure,
        _ => Told::Otherwise,
    }
}

/// How many reads or writes a call on a volume makes, where each of them fails in turn and is told; `None` where one is
/// told otherwise.
fn count_told(alloc: Global, row: Row, failure: Failure) -> Option<u64> {
    for before in 0..1000u64 {
        match tell(alloc, row, failure, before) {
            Told::Done => return Some(before),
            Told::Failure => {}
            Told::Otherwise => return None,
        }
    }
    None
}

/// A call on a volume, and how many reads that makes at the least.
static READS: [(&str, Row, u64); 6] = [
    ("list HELLO", (Volume::Hello, Call::List), 16),
    ("read HELLO", (Volume::Hello, Call::Read), 18),
    ("lock HELLO", (Volume::Hello, Call::Lock), 18),
    ("list SUB", (Volume::Sub, Call::List), 6),
    ("read SUB/A", (Volume::Sub, Call::Read), 6),
    ("lock SUB/A", (Volume::Sub, Call::Lock), 6),
];

/// Whether a call makes so many reads or more, each of which fails in turn and is told.
fn tells_reads(alloc: Global, row: Row, least: u64) -> bool {
    match count_told(alloc, row, Failure::Read) {
        Some(reads) => reads >= least,
        None => false,
    }
}

#[test]
fn each_read_failing(rt: HostRuntime) {
    for (name, row, least) in &READS {
        assert!(rt; tells_reads(rt.alloc(), *row, *least), "{name}");
    }
}

/// A volume whose file is locked, and whether the new unit stands that the failing write was to write.
static WRITES: [(Volume, bool); 4] = [
    (Volume::Hello, false),
    (Volume::Hello, true),
    (Volume::Sub, false),
    (Volume::Sub, true),
];

/// A lock makes one write.
#[test]
fn each_write_failing(rt: HostRuntime) {
    for (volume, took) in &WRITES {
        let failure = Failure::Write { took: *took };
        assert!(rt;
            count_told(rt.alloc(), (*volume, Call::Lock), failure) == Some(1),
            "{took}"
        );
    }
}
