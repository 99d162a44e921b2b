//! Listings and reads of ProDOS volumes: `read_volume`, `ProLines`, `read`.
ghost use Rattle.std.specs.Prelude.{◌≡◌, ◌+◌, ◌<◌, ◌≤◌, length};
ghost use Rattle.a2_device.specs.Device.{DeviceState};

use crate::files::runs::are_runs;
use a2_device::{Device, Part, PartKind};
use file_cmds::{CmdError, read, read_volume};
use file_formats::FileName;
use file_listings::{EntryStyle, KnownFile, KnownFiles, ProLines, Style};
use pro_format::Prodos;
use std::alloc::{AllocError, Allocator, Global};
use std::test::Fail;
use test_volumes::{Refusing, block_device, put_in_block, tree, tree_and_subdirectory};
use vol_layout::Reserved;

/// Makes the line of an entry, where there is such an entry.
fn make_line<A: Allocator + Copy>(lines: &mut ProLines<A>, entry: u32) -> Result<(), AllocError> {
    if entry < lines.entries() {
        lines.make_entry(entry)?;
    }
    Ok(())
}

/// The lines of a listing, one behind the other.
fn text_of_lines<A: Allocator + Copy>(
    alloc: A,
    mut lines: ProLines<A>,
) -> Result<Vec<u8, A>, AllocError> {
    let mut text = Vec::new(alloc);
    lines.make_first()?;
    text.extend_from_slice(lines.line())?;
    for entry in 0..lines.entries() {
        make_line(&mut lines, entry)?;
        text.extend_from_slice(lines.line())?;
    }
    lines.make_last()?;
    text.extend_from_slice(lines.line())?;
    Ok(text)
}

/// The text of the listing of a volume.
fn listing_on<A: Allocator + Copy, D: Device>(
    alloc: A,
    device: &mut D,
    style: Style,
) -> Result<Vec<u8, A>, CmdError>
    requires unit { (D.state device.old).unit_size ≡ 512 }
    requires places { (16 ≤ (D.state device.old).places) × ((D.state device.old).places < 65536) }
{
    let format = Prodos::new(alloc, Reserved::none(alloc));
    let volume = read_volume(device, &format)?;
    Ok(text_of_lines(
        alloc,
        ProLines::new(alloc, style, volume, KnownFiles::none(alloc))?,
    )?)
}

/// The text of the listing of a volume in ProDOS order.
fn listing_of<A: Allocator + Copy>(alloc: A, image: Vec<u8>) -> Result<Vec<u8, A>, CmdError> {
    match block_device(image) {
        Some(mut device) => listing_on(alloc, &mut device, Style::Catalog),
        None => Err(CmdError::NotFound),
    }
}

/// The paths of the entries of a volume in ProDOS order, a line each.
fn names_of(alloc: Global, image: Vec<u8>) -> Result<Vec<u8>, CmdError> {
    match block_device(image) {
        Some(mut device) => listing_on(alloc, &mut device, Style::Entries(EntryStyle::Names)),
        None => Err(CmdError::NotFound),
    }
}

#[test]
fn names_files_and_directories(rt: HostRuntime) -> Result<(), Fail> {
    let text = names_of(rt.alloc(), tree_and_subdirectory(rt.alloc())?)?;
    assert!(rt; text.as_slice() == b"BIG\nSUB/\nSUB/A\n".as_slice());
    Ok(())
}

/// The bytes that a read of a file of a volume gives.
fn text_on<A: Allocator + Copy, D: Device>(
    alloc: A,
    device: &mut D,
    path: &[u8],
    whole: bool,
) -> Result<Vec<u8, A>, CmdError>
    requires unit { (D.state device.old).unit_size ≡ 512 }
    requires places { (16 ≤ (D.state device.old).places) × ((D.state device.old).places < 65536) }
{
    let format = Prodos::new(alloc, Reserved::none(alloc));
    read(alloc, device, &format, FileName::Path(path), whole)
}

/// The bytes that a read of a file of a volume in ProDOS order gives.
fn text_of<A: Allocator + Copy>(
    alloc: A,
    image: Vec<u8>,
    path: &[u8],
    whole: bool,
) -> Result<Vec<u8, A>, CmdError> {
    match block_device(image) {
        Some(mut device) => text_on(alloc, &mut device, path, whole),
        None => Err(CmdError::NotFound),
    }
}

#[test]
fn lists_a_tree(rt: HostRuntime) -> Result<(), Fail> {
    let text = listing_of(rt.alloc(), tree(rt.alloc())?)?;
    let lines = b"VOLUME /WORK\n $06     3   131075 1986-05-01 12:30 BIG\nFREE 270\n";
    assert!(rt; text.as_slice() == lines.as_slice());
    Ok(())
}

#[test]
fn lists_a_subdirectory(rt: HostRuntime) -> Result<(), Fail> {
    let text = listing_of(rt.alloc(), tree_and_subdirectory(rt.alloc())?)?;
    let lines = b"VOLUME /WORK\n $06     3   131075 1986-05-01 12:30 BIG\n\
                 \x20$0f     1      512 1986-05-01 12:30 SUB/\n\
                 \x20$04     1        2 <NO DATE>        SUB/A\nFREE 268\n";
    assert!(rt; text.as_slice() == lines.as_slice());
    Ok(())
}

#[test]
fn reads_the_body_of_a_tree(rt: HostRuntime) -> Result<(), Fail> {
    let bytes = text_of(rt.alloc(), tree(rt.alloc())?, b"big", false)?;
    let body = [(131_072, 0), (1, 97), (1, 98), (1, 99)];
    assert!(rt; are_runs(bytes.as_slice(), &body));
    Ok(())
}

#[test]
fn reads_the_whole_of_a_tree(rt: HostRuntime) -> Result<(), Fail> {
    let bytes = text_of(rt.alloc(), tree(rt.alloc())?, b"BIG", true)?;
    let whole = [(131_072, 0), (1, 97), (1, 98), (1, 99), (509, 0)];
    assert!(rt; are_runs(bytes.as_slice(), &whole));
    Ok(())
}

/// A call that takes memory.
#[derive(Clone, Copy)]
enum Call {
    List,
    Read,
}

/// Why a call over a heap fails, how many bytes it gives, and how many blocks it asks for.
fn answer_over(
    alloc: Global,
    call: Call,
    heap: Refusing<Global>,
) -> Result<(Option<CmdError>, usize, u64), AllocError> {
    let (error, bytes) = match call {
        Call::List => listed(&heap, tree_and_subdirectory(alloc)?),
        Call::Read => read_big(&heap, tree(alloc)?),
    };
    Ok((error, bytes, heap.asked()))
}

/// Why the listing of a volume fails, and how many bytes it has.
fn listed(heap: &Refusing<Global>, image: Vec<u8>) -> (Option<CmdError>, usize) {
    match listing_of(heap, image) {
        Ok(text) => (None, text.len()),
        Err(error) => (Some(error), 0),
    }
}

/// Why a read of BIG fails, and how many bytes it gives.
fn read_big(heap: &Refusing<Global>, image: Vec<u8>) -> (Option<CmdError>, usize) {
    match text_of(heap, image, b"BIG", false) {
        Ok(bytes) => (None, bytes.len()),
        Err(error) => (Some(error), 0),
    }
}

/// Whether a call gives so many bytes, and answers want of memory and asks no more where any of its blocks is refused.
fn tells_refusals(alloc: Global, call: Call, length: usize) -> Result<bool, AllocError> {
    let (error, bytes, asked) = answer_over(alloc, call, Refusing::none(alloc))?;
    if error.is_some() || bytes != length || asked <= 8 {
        return Ok(false);
    }
    for before in 0..asked {
        let (error, _, asked) = answer_over(alloc, call, Refusing::one(alloc, before))?;
        if error != Some(CmdError::Memory) || asked != before + 1 {
            return Ok(false);
        }
    }
    Ok(true)
}

#[test]
fn each_refused_block_is_memory(rt: HostRuntime) -> Result<(), Fail> {
    assert!(rt; tells_refusals(rt.alloc(), Call::List, 148)?);
    assert!(rt; tells_refusals(rt.alloc(), Call::Read, 131_075)?);
    Ok(())
}

/// What is known of files where each has so many parts, whose words are as long as words can be.
fn with_parts<A: Allocator + Copy>(
    alloc: A,
    files: usize,
    count: usize,
) -> Result<KnownFiles<A>, AllocError> {
    let part = Part {
        file: 0,
        kind: PartKind::Master,
        number: u32::MAX,
        place: u32::MAX,
    };
    let parts = vec![in alloc; part; count]?;
    let mut known = KnownFiles::with_capacity(alloc, files, true)?;
    for _ in 0..files {
        known.add(KnownFile::NONE.facts, Some(parts.as_slice()))?;
    }
    Ok(known)
}

/// How many blocks are asked for while the lines of the listing of a volume are made, each file with so many parts.
fn asked_for_lines<D: Device>(
    heap: &Refusing<Global>,
    device: &mut D,
    style: Style,
    parts: usize,
) -> Result<u64, CmdError>
    requires unit { (D.state device.old).unit_size ≡ 512 }
    requires places { (16 ≤ (D.state device.old).places) × ((D.state device.old).places < 65536) }
{
    let format = Prodos::new(heap, Reserved::none(heap));
    let volume = read_volume(device, &format)?;
    let files = volume.directory().entries().len();
    let known = with_parts(heap, files, parts)?;
    let mut lines = ProLines::new(heap, style, volume, known)?;
    let before = heap.asked();
    lines.make_first()?;
    for entry in 0..lines.entries() {
        make_line(&mut lines, entry)?;
    }
    lines.make_last()?;
    Ok(heap.asked().saturating_sub(before))
}

/// How many blocks are asked for while the lines of the listing of a volume in ProDOS order are made.
fn asked_for_lines_of(
    heap: &Refusing<Global>,
    image: Vec<u8>,
    style: Style,
    parts: usize,
) -> Result<u64, CmdError> {
    match block_device(image) {
        Some(mut device) => asked_for_lines(heap, &mut device, style, parts),
        None => Err(CmdError::NotFound),
    }
}

#[test]
fn no_line_takes_memory(rt: HostRuntime) -> Result<(), Fail> {
    for style in [
        Style::Catalog,
        Style::Entries(EntryStyle::Names),
        Style::Entries(EntryStyle::Json),
        Style::Entries(EntryStyle::Csv { digests: true }),
    ] {
        let heap = Refusing::none(rt.alloc());
        for parts in [0, 1, 300] {
            let image = tree_and_subdirectory(rt.alloc())?;
            let asked = asked_for_lines_of(&heap, image, style, parts)?;
            assert!(rt; asked == 0);
        }
    }
    Ok(())
}
