//! Reads of files of DOS 3.3 volumes: `read`.
ghost use Rattle.std.specs.Prelude.{◌≡◌, ◌<◌, vec_len, IfOk};
ghost use Rattle.a2_device.specs.Device.{DeviceState};

use crate::files::dos_listings::dos_33;
use crate::files::runs::are_runs;
use a2_device::{Device, Order};
use a2_image::Image;
use a2_media::ImageDevice;
use file_cmds::{CmdError, read};
use file_formats::FileName;
use std::alloc::{AllocError, Allocator, Global};
use std::test::Fail;
use test_volumes::{
    FIRST_CATALOG, Piece, Refusing, dos_device, dos_volume, hello, hello_with, put_entry,
    put_pieces,
};

/// The runs of the body of HELLO.
static HELLO_BODY: [(usize, u8); 3] = [(1, 169), (1, 0), (1, 96)];

/// The bytes that a read of a file of a volume gives.
fn text_on<A: Allocator + Copy, D: Device>(
    alloc: A,
    device: &mut D,
    path: &[u8],
    whole: bool,
) -> Result<Vec<u8, A>, CmdError>
    requires unit { (D.state device.old).unit_size ≡ 256 }
    requires places { (D.state device.old).places ≡ 560 }
{
    let format = dos_33(alloc)?;
    read(alloc, device, &format, FileName::Path(path), whole)
}

/// The bytes that a read of a file of a volume in DOS order gives.
fn text_of<A: Allocator + Copy>(
    alloc: A,
    image: Vec<u8>,
    path: &[u8],
    whole: bool,
) -> Result<Vec<u8, A>, CmdError>
    requires { vec_len image ≡ 143360 }
{
    text_on(alloc, &mut dos_device(image), path, whole)
}

/// Whether a read of the file HELLO of a volume, its body or the whole of it, gives these runs of bytes.
fn reads(alloc: Global, image: Vec<u8>, whole: bool, runs: &[(usize, u8)]) -> bool
    requires { vec_len image ≡ 143360 }
{
    match &text_of(alloc, image, b"HELLO", whole) {
        Ok(bytes) => are_runs(bytes.as_slice(), runs),
        Err(_) => false,
    }
}

#[test]
fn reads_a_body(rt: HostRuntime) -> Result<(), Fail> {
    assert!(rt; reads(rt.alloc(), hello(rt.alloc())?, false, &HELLO_BODY));
    Ok(())
}

#[test]
fn reads_the_whole(rt: HostRuntime) -> Result<(), Fail> {
    let whole = [(1, 0), (2, 3), (1, 0), (1, 169), (1, 0), (1, 96), (249, 0)];
    assert!(rt; reads(rt.alloc(), hello(rt.alloc())?, true, &whole));
    Ok(())
}

/// The two lists and the two units of GAPS.
static GAPS: [Piece; 6] = [
    (60, 0x01, &[3, 14]),
    (60, 0x0c, &[3, 13]),
    (61, 0x00, &[1; 256]),
    (62, 0x05, &[0x7a]),
    (62, 0x0c, &[3, 15]),
    (63, 0x00, &[2; 256]),
];

/// The volume with the one file `GAPS`, whose two lists have one unit each.
fn gaps(alloc: Global) -> Result<Vec<u8>, AllocError>
    ensures { IfOk result (λ image. vec_len image ≡ 143360) }
{
    let mut image = dos_volume(alloc, [0x0f, 0xff])?;
    put_entry(&mut image, FIRST_CATALOG, 0, [3, 12], 0x00, b"GAPS", 4);
    put_pieces(&mut image, 256, &GAPS);
    Ok(image)
}

/// Whether a read of the body, where the file has this kind and its unit begins with these bytes, gives these runs of
/// bytes.
fn reads_kind(
    alloc: Global,
    kind: u8,
    bytes: [u8; 7],
    runs: &[(usize, u8)],
) -> Result<bool, AllocError> {
    let image = hello_with(alloc, &[(FIRST_CATALOG, 0x0d, &[kind]), (63, 0x00, &bytes)])?;
    Ok(reads(alloc, image, false, runs))
}

/// A kind, the first bytes of the unit, and the runs of the body: of programs that are cut, of binary files that are,
/// and of other files, which are left.
static KINDS: [(u8, [u8; 7], &[(usize, u8)]); 8] = [
    (0x02, [2, 0, 7, 8, 9, 9, 0], &[(1, 7), (1, 8)]),
    (0x81, [3, 0, 7, 8, 9, 9, 0], &[(1, 7), (1, 8), (1, 9)]),
    (0x01, [0, 0, 7, 8, 9, 9, 0], &[]),
    (
        0x02,
        [255, 0, 7, 8, 9, 9, 0],
        &[(1, 7), (1, 8), (2, 9), (250, 0)],
    ),
    (0x04, [1, 2, 1, 0, 9, 9, 0], &[(1, 9)]),
    (0x84, [1, 2, 0, 1, 9, 9, 0], &[(2, 9), (250, 0)]),
    (
        0x00,
        [1, 1, 1, 0, 9, 9, 0],
        &[(3, 1), (1, 0), (2, 9), (250, 0)],
    ),
    (
        0x88,
        [1, 1, 1, 0, 9, 9, 0],
        &[(3, 1), (1, 0), (2, 9), (250, 0)],
    ),
];

#[test]
fn cuts_the_body_by_its_kind(rt: HostRuntime) -> Result<(), Fail> {
    for (kind, bytes, runs) in &KINDS {
        assert!(rt;
            reads_kind(rt.alloc(), *kind, *bytes, runs)?,
            "{kind} {bytes:?}"
        );
    }
    Ok(())
}

/// A list without a unit.
static WITHOUT_UNITS: [Piece; 1] = [(62, 0x0c, &[0, 15])];

#[test]
fn a_file_without_units_is_empty(rt: HostRuntime) -> Result<(), Fail> {
    assert!(rt;
        reads(
            rt.alloc(),
            hello_with(rt.alloc(), &WITHOUT_UNITS)?,
            true,
            &[]
        )
    );
    assert!(rt;
        reads(
            rt.alloc(),
            hello_with(rt.alloc(), &WITHOUT_UNITS)?,
            false,
            &[]
        )
    );
    Ok(())
}

/// The image of these bytes.
fn opened(bytes: Vec<u8>, order: Order) -> Result<Image, Fail> {
    match Image::open(bytes, order) {
        Ok(image) => Ok(image),
        Err((error, _)) => Err(error.into()),
    }
}

/// The volume HELLO as disk bytes, one of which is none that a sector has.
fn broken_tracks(alloc: Global, at: usize) -> Result<Image, Fail> {
    let plain = opened(hello(alloc)?, Order::Dos)?;
    let mut bytes = plain.convert(Order::Nibble, 254)?.into_bytes();
    if let Some(byte) = bytes.get_mut(at) {
        *byte = 0xaa;
    }
    opened(bytes, Order::Nibble)
}

/// Why a read of HELLO fails on its volume with a broken sector, and how many faults the device has told; a body is the
/// right one.
fn read_broken(alloc: Global, at: usize) -> Result<(Option<CmdError>, u64), Fail> {
    let image = broken_tracks(alloc, at)?;
    if image.blocks() != 280 {
        return Err("another number of blocks".into());
    }
    let mut device = ImageDevice::dos(image);
    match text_on(alloc, &mut device, b"HELLO", false) {
        Ok(bytes) if are_runs(bytes.as_slice(), &HELLO_BODY) => Ok((None, device.faults())),
        Ok(_) => Err("another body".into()),
        Err(error) => Ok((Some(error), device.faults())),
    }
}

/// Sectors of tracks: in turn those of the map, the last of the catalog's, the list's, the body's, and one that is not
/// read; and how many faults there are.
static SECTORS: [(usize, usize, u64); 5] = [
    (17, 0, 1),
    (17, 13, 1),
    (3, 2, 1),
    (3, 15, 1),
    (3, 13, 0),
];

#[test]
fn a_failing_read_is_told(rt: HostRuntime) -> Result<(), Fail> {
    for (track, sector, faults) in &SECTORS {
        let at = 6656usize
            .saturating_mul(*track)
            .saturating_add(71)
            .saturating_add(396usize.saturating_mul(*sector));
        let error = (*faults > 0).then_some(CmdError::Device);
        assert!(rt;
            read_broken(rt.alloc(), at)? == (error, *faults),
            "{track} {sector}"
        );
    }
    Ok(())
}

/// Why a read of GAPS over a heap fails, how many bytes it gives, and how many blocks it asks for.
fn read_over(
    alloc: Global,
    heap: Refusing<Global>,
) -> Result<(Option<CmdError>, usize, u64), AllocError> {
    let (error, bytes) = match text_of(&heap, gaps(alloc)?, b"GAPS", false) {
        Ok(bytes) => (None, bytes.len()),
        Err(error) => (Some(error), 0),
    };
    Ok((error, bytes, heap.asked()))
}

#[test]
fn each_refused_block_is_memory(rt: HostRuntime) -> Result<(), Fail> {
    let (error, bytes, asked) = read_over(rt.alloc(), Refusing::none(rt.alloc()))?;
    assert!(rt; error.is_none() && bytes == 31_488 && asked > 8);
    for before in 0..asked {
        let answer = read_over(rt.alloc(), Refusing::one(rt.alloc(), before))?;
        assert!(rt; answer == (Some(CmdError::Memory), 0, before + 1));
    }
    Ok(())
}
