//! Files that are saved to a volume one after the other: `add_all`.
ghost use Rattle.std.specs.Prelude.{◌≡◌, ◌<◌, ◌≤◌};
ghost use Rattle.a2_device.specs.Device.{DeviceState};

use a2_device::Device;
use dos_format::Dos33;
use file_edits::Acceptance;
use file_forms::GivenForm;
use folder_adding::{
    Batch, FailingFiles, HostEntry, HostFiles, HostKind, Item, MemoryFiles, Refused, add_all,
    added_text,
};
use pro_dir::ProDate;
use pro_format::Prodos;
use shop_jobs::FileSystem;
use shop_replies::{Failure, Refusal, Reply, Told};
use std::alloc::{AllocError, Global};
use std::test::Fail;
use test_volumes::{
    FIRST_CATALOG, Failure as Late, IMAGE_BYTES, Piece, VTOC, block_device, dos_device, hello_with,
    late, put_writes, tree_with,
};
use vol_layout::Reserved;

/// A volume: HELLO of DOS 3.3, or the one of ProDOS with BIG.
#[derive(Clone, Copy)]
pub enum Volume {
    Hello,
    Tree,
}

/// An item: its path, its type, its aux type, the form in which it is given, and the bytes of its file.
type Row = (
    &'static [u8],
    Option<u8>,
    Option<u16>,
    Option<GivenForm>,
    &'static [u8],
);

/// The binary file HI at address 768, and E1, a text without a byte.
static DOS_ROWS: [Row; 2] = [
    (b"HI", Some(0x04), Some(768), None, &[0xa9, 0x00, 0x60]),
    (b"E1", None, None, None, b""),
];

/// NOTE, binary where nothing is said, and TWO, whose type 04, aux type 1234 and two bytes stand in an AppleSingle file
/// of version 2: its head with two entries, ProDOS information at 50 and the data fork at 58.
static PRO_ROWS: [Row; 2] = [
    (b"note", None, Some(0x2000), None, b"abc"),
    (
        b"TWO",
        None,
        None,
        Some(GivenForm::Single),
        b"\x00\x05\x16\x00\x00\x02\x00\x00\0\0\0\0\0\0\0\0\0\0\0\0\0\0\0\0\x00\x02\
          \0\0\0\x0b\0\0\0\x32\0\0\0\x08\0\0\0\x01\0\0\0\x3a\0\0\0\x02\
          \x00\xe3\x00\x04\x00\x00\x12\x34xy",
    ),
];

/// The writes that save HI, its list at track 3 sector 13 and its unit at sector 12, and then those of E1, whose list
/// at sector 11 names none.
static DOS_WRITES: [&[Piece]; 7] = [
    &[(61, 0x0c, &[3, 12])],
    &[(60, 0x00, &[0x00, 0x03, 0x03, 0x00, 0xa9, 0x00, 0x60])],
    &[(VTOC, 0x44, &[0x0f, 0xff])],
    &[
        (FIRST_CATALOG, 0x2e, &[3, 13, 0x04, 0xc8, 0xc9]),
        (FIRST_CATALOG, 0x33, &[0xa0; 28]),
        (FIRST_CATALOG, 0x4f, &[2, 0]),
    ],
    &[],
    &[(VTOC, 0x44, &[0x07, 0xff])],
    &[
        (FIRST_CATALOG, 0x51, &[3, 11, 0x00, 0xc5, 0xb1]),
        (FIRST_CATALOG, 0x56, &[0xa0; 28]),
        (FIRST_CATALOG, 0x72, &[1, 0]),
    ],
];

/// The writes that save NOTE in block 10 and TWO in block 11, with their entries behind that of BIG.
static PRO_WRITES: [&[Piece]; 6] = [
    &[(10, 0x00, b"abc")],
    &[(6, 0x01, &[0x1f])],
    &[
        (2, 0x25, &[2]),
        (2, 0x52, &[0x14, 0x4e, 0x4f, 0x54, 0x45]),
        (2, 0x62, &[0x06, 10, 0, 1, 0, 3, 0, 0]),
        (2, 0x6a, &[0xa1, 0xac, 0x1e, 0x0c, 0, 0]),
        (2, 0x70, &[0xe3, 0x00, 0x20]),
        (2, 0x73, &[0xa1, 0xac, 0x1e, 0x0c, 2, 0]),
    ],
    &[(11, 0x00, b"xy")],
    &[(6, 0x01, &[0x0f])],
    &[
        (2, 0x25, &[3]),
        (2, 0x79, &[0x13, 0x54, 0x57, 0x4f]),
        (2, 0x89, &[0x04, 11, 0, 1, 0, 2, 0, 0]),
        (2, 0x91, &[0xa1, 0xac, 0x1e, 0x0c, 0, 0]),
        (2, 0x97, &[0xe3, 0x34, 0x12]),
        (2, 0x9a, &[0xa1, 0xac, 0x1e, 0x0c, 2, 0]),
    ],
];

/// The date of all of them: 1 May 1986, 12:30.
pub const DATE: ProDate = ProDate([0xa1, 0xac, 0x1e, 0x0c]);

impl Volume {
    fn rows(self) -> &'static [Row] {
        match self {
            Volume::Hello => &DOS_ROWS,
            Volume::Tree => &PRO_ROWS,
        }
    }

    /// How many writes save the first item, and both.
    fn writes(self) -> (u64, u64) {
        match self {
            Volume::Hello => (4, 7),
            Volume::Tree => (3, 6),
        }
    }
}

/// The image of a volume after so many of the writes that save the items.
pub fn image_after(alloc: Global, volume: Volume, writes: u64) -> Result<Vec<u8>, AllocError> {
    match volume {
        Volume::Hello => {
            let mut image = hello_with(alloc, &[])?;
            put_writes(&mut image, 256, &DOS_WRITES, writes);
            Ok(image)
        }
        Volume::Tree => {
            let mut image = tree_with(alloc, &[])?;
            put_writes(&mut image, 512, &PRO_WRITES, writes);
            Ok(image)
        }
    }
}

/// The items of rows.
fn items_of(alloc: Global, rows: &[Row]) -> Result<Vec<Item>, AllocError> {
    let mut items = Vec::new(alloc);
    for (path, kind, aux, form, _) in rows {
        items.push(Item {
            path: Vec::from_slice(alloc, path)?,
            kind: *kind,
            aux: *aux,
            form: *form,
            second: None,
        })?;
    }
    Ok(items)
}

/// The numbers of the files of rows: each item has the file of its own number.
pub static NUMBERS: [usize; 2] = [0, 1];

/// The files of rows.
fn files_of(alloc: Global, rows: &[Row]) -> Result<MemoryFiles, AllocError> {
    let mut files = Vec::new(alloc);
    for (_, _, _, _, bytes) in rows {
        files.push(Vec::from_slice(alloc, bytes)?)?;
    }
    Ok(MemoryFiles::new(files))
}

/// Why not all items were saved: the number of an item, that of the file of which it is told, and what.
#[derive(Clone, Copy, Debug, PartialEq, Eq)]
pub enum Why {
    Refused(usize, usize, Refusal),
    Failed(usize, usize, Failure),
    Other,
}

fn reason(refused: Refused) -> Why {
    let Refused { item, file, reply } = refused;
    match &reply.told {
        Told::Refusal(refusal) => Why::Refused(item, file, *refusal),
        Told::Failure(failure) => Why::Failed(item, file, *failure),
        _ => Why::Other,
    }
}

/// Saves items to a DOS 3.3 volume.
fn add_on_dos<D: Device, H: HostFiles>(
    alloc: Global,
    device: &mut D,
    items: &[Item],
    numbers: &[usize],
    files: &mut H,
) -> Option<Why>
    requires unit { (D.state device.old).unit_size ≡ 256 }
    requires places { (D.state device.old).places ≡ 560 }
{
    let batch = Batch {
        file_system: FileSystem::Dos,
        date: DATE,
        items,
        files: numbers,
    };
    match Dos33::new(alloc, false, Reserved::none(alloc)) {
        Ok(format) => add_all(alloc, device, &format, Acceptance::Unknown, &batch, files)
            .err()
            .map(reason),
        Err(_) => Some(Why::Other),
    }
}

/// Saves items to a ProDOS volume.
fn add_on_blocks<D: Device, H: HostFiles>(
    alloc: Global,
    device: &mut D,
    items: &[Item],
    numbers: &[usize],
    files: &mut H,
) -> Option<Why>
    requires unit { (D.state device.old).unit_size ≡ 512 }
    requires places { (16 ≤ (D.state device.old).places) × ((D.state device.old).places < 65536) }
{
    let batch = Batch {
        file_system: FileSystem::Prodos,
        date: DATE,
        items,
        files: numbers,
    };
    let format = Prodos::new(alloc, Reserved::none(alloc));
    add_all(alloc, device, &format, Acceptance::Unknown, &batch, files)
        .err()
        .map(reason)
}

/// Why not all items were saved, how many writes and refusals the device has counted, and the bytes of the image.
#[derive(Drop)]
pub struct End {
    pub why: Option<Why>,
    writes: u64,
    faults: u64,
    pub image: Vec<u8>,
}

pub fn dos_ended<H: HostFiles>(
    alloc: Global,
    image: Vec<u8>,
    items: &[Item],
    numbers: &[usize],
    files: &mut H,
    failure: Late,
    before: u64,
) -> Option<End> {
    if image.len() != IMAGE_BYTES {
        return None;
    }
    let mut device = late(dos_device(image), failure, before);
    let why = add_on_dos(alloc, &mut device, items, numbers, files);
    let writes = device.writes();
    let faults = device.faults();
    let image = device.into_inner().into_image().into_bytes();
    Some(End {
        why,
        writes,
        faults,
        image,
    })
}

pub fn pro_ended<H: HostFiles>(
    alloc: Global,
    image: Vec<u8>,
    items: &[Item],
    numbers: &[usize],
    files: &mut H,
    failure: Late,
    before: u64,
) -> Option<End> {
    let mut device = late(block_device(image)?, failure, before);
    let why = add_on_blocks(alloc, &mut device, items, numbers, files);
    let writes = device.writes();
    let faults = device.faults();
    let image = device.into_inner().into_image().into_bytes();
    Some(End {
        why,
        writes,
        faults,
        image,
    })
}

/// The end of saving rows to a volume, of whose files the reading after so many others fails, and of whose calls one.
fn ended(
    alloc: Global,
    volume: Volume,
    rows: &[Row],
    unread: u64,
    failure: Late,
    before: u64,
) -> Option<End> {
    let image = image_after(alloc, volume, 0).ok()?;
    let items = items_of(alloc, rows).ok()?;
    let mut files = FailingFiles::one(files_of(alloc, rows).ok()?, unread);
    match volume {
        Volume::Hello => dos_ended(alloc, image, &items, &NUMBERS, &mut files, failure, before),
        Volume::Tree => pro_ended(alloc, image, &items, &NUMBERS, &mut files, failure, before),
    }
}

/// What is told of an end: why not all items were saved, how many writes were counted, how many refusals, and whether
/// the image is as it is after so many of the writes.
type Tells = (Option<Why>, u64, u64, bool);

fn told(
    alloc: Global,
    volume: Volume,
    rows: &[Row],
    unread: u64,
    failure: Late,
    before: u64,
    stand: u64,
) -> Option<Tells> {
    let wanted = image_after(alloc, volume, stand).ok()?;
    let end = ended(alloc, volume, rows, unread, failure, before)?;
    let is_wanted = end.image.as_slice() == wanted.as_slice();
    Some((end.why, end.writes, end.faults, is_wanted))
}

/// A failure that does not come.
pub const NEVER: u64 = 1000;

static VOLUMES: [(&str, Volume); 2] = [("HELLO", Volume::Hello), ("BIG", Volume::Tree)];

#[test]
fn all_items_are_saved(rt: HostRuntime) {
    for (name, volume) in &VOLUMES {
        let (_, writes) = volume.writes();
        let answer = told(
            rt.alloc(),
            *volume,
            volume.rows(),
            NEVER,
            Late::Read,
            NEVER,
            writes,
        );
        assert!(rt; answer == Some((None, writes, 0, true)), "{name}");
    }
}

/// HI, and HELLO, which the volume has.
static IN_USE: [Row; 2] = [
    (b"HI", Some(0x04), Some(768), None, &[0xa9, 0x00, 0x60]),
    (b"HELLO", None, None, None, b""),
];

/// HI, and bytes that are no AppleSingle file.
static NO_SINGLE: [Row; 2] = [
    (b"HI", Some(0x04), Some(768), None, &[0xa9, 0x00, 0x60]),
    (
        b"E1",
        None,
        None,
        Some(GivenForm::Single),
        b"no AppleSingle file",
    ),
];

#[test]
fn the_first_refused_item_is_told(rt: HostRuntime) {
    let answer = told(
        rt.alloc(),
        Volume::Hello,
        &IN_USE,
        NEVER,
        Late::Read,
        NEVER,
        4,
    );
    assert!(rt; answer == Some((Some(Why::Refused(1, 1, Refusal::Exists)), 4, 0, true)));
    let answer = told(
        rt.alloc(),
        Volume::Hello,
        &NO_SINGLE,
        NEVER,
        Late::Read,
        NEVER,
        4,
    );
    assert!(rt; answer == Some((Some(Why::Refused(1, 1, Refusal::Single)), 4, 0, true)));
}

#[test]
fn each_reading_of_a_file_failing(rt: HostRuntime) {
    for (name, volume) in &VOLUMES {
        let (first, _) = volume.writes();
        for (unread, stand) in [(0, 0), (1, first)] {
            let answer = told(
                rt.alloc(),
                *volume,
                volume.rows(),
                unread,
                Late::Read,
                NEVER,
                stand,
            );
            let wanted = Some(Why::Failed(unread as usize, unread as usize, Failure::Input));
            assert!(rt; answer == Some((wanted, stand, 0, true)), "{name} {unread}");
        }
    }
}

#[test]
fn a_file_that_is_not_there(rt: HostRuntime) -> Result<(), Fail> {
    let items = items_of(rt.alloc(), &DOS_ROWS)?;
    let mut files = files_of(rt.alloc(), &DOS_ROWS[..1])?;
    let image = image_after(rt.alloc(), Volume::Hello, 0)?;
    let end = dos_ended(
        rt.alloc(),
        image,
        &items,
        &NUMBERS,
        &mut files,
        Late::Read,
        NEVER,
    );
    let why = end.and_then(|end| end.why);
    assert!(rt; why == Some(Why::Failed(1, 1, Failure::Input)));
    Ok(())
}

/// HELLO, which the volume has, and HI.
static IN_USE_FIRST: [Row; 2] = [
    (b"HELLO", None, None, None, b""),
    (b"HI", Some(0x04), Some(768), None, &[0xa9, 0x00, 0x60]),
];

/// How many files are read where rows are saved to HELLO.
fn readings(alloc: Global, rows: &[Row]) -> Option<u64> {
    let items = items_of(alloc, rows).ok()?;
    let mut files = FailingFiles::none(files_of(alloc, rows).ok()?);
    let image = image_after(alloc, Volume::Hello, 0).ok()?;
    dos_ended(
        alloc,
        image,
        &items,
        &NUMBERS,
        &mut files,
        Late::Read,
        NEVER,
    )?;
    Some(files.calls())
}

#[test]
fn no_file_behind_a_refused_one_is_read(rt: HostRuntime) {
    assert!(rt; readings(rt.alloc(), &IN_USE_FIRST) == Some(1));
    assert!(rt; readings(rt.alloc(), &IN_USE) == Some(2));
    assert!(rt; readings(rt.alloc(), &DOS_ROWS) == Some(2));
}

/// The item that the device fails at with a write after so many others.
fn item_at(volume: Volume, before: u64) -> usize {
    let (first, _) = volume.writes();
    if before < first { 0 } else { 1 }
}

/// Whether each write fails in turn, with the old unit or the new one, and those before it stand alone.
fn tells_writes(alloc: Global, volume: Volume, took: bool) -> bool {
    let (_, writes) = volume.writes();
    for before in 0..writes {
        let stand = if took { before + 1 } else { before };
        let failure = Late::Write { took };
        let answer = told(alloc, volume, volume.rows(), NEVER, failure, before, stand);
        let item = item_at(volume, before);
        let wanted = Some(Why::Failed(item, item, Failure::Device));
        if answer != Some((wanted, before + 1, 1, true)) {
            return false;
        }
    }
    true
}

#[test]
fn each_write_failing(rt: HostRuntime) {
    for (name, volume) in &VOLUMES {
        assert!(rt;
            tells_writes(rt.alloc(), *volume, false),
            "{name}, the old unit"
        );
        assert!(rt;
            tells_writes(rt.alloc(), *volume, true),
            "{name}, the new unit"
        );
    }
}

/// Whether six reads or more are made, of which each that fails leaves the volume of the items before.
fn tells_reads(alloc: Global, volume: Volume) -> bool {
    let (first, _) = volume.writes();
    let mut item = 0;
    for before in 0..NEVER {
        let stand = if item == 0 { 0 } else { first };
        match told(
            alloc,
            volume,
            volume.rows(),
            NEVER,
            Late::Read,
            before,
            stand,
        ) {
            Some((Some(Why::Failed(at, _, Failure::Device)), writes, 1, is_wanted)) => {
                if at == item && !(is_wanted && writes == stand) {
                    return false;
                }
                item = at;
            }
            Some((None, _, 0, _)) => return before >= 6 && item == 1,
            _ => return false,
        }
    }
    false
}

#[test]
fn each_read_failing(rt: HostRuntime) {
    for (name, volume) in &VOLUMES {
        assert!(rt; tells_reads(rt.alloc(), *volume), "{name}");
    }
}

/// What is told of the items of rows, and of entries that are passed over.
fn text_of(
    alloc: Global,
    file_system: FileSystem,
    rows: &[Row],
    paths: &[&str],
    passed: &[usize],
) -> Result<String, AllocError> {
    let items = items_of(alloc, rows)?;
    let mut entries = Vec::new(alloc);
    for path in paths {
        entries.push(HostEntry {
            path: String::from_str(alloc, path)?,
            kind: HostKind::File,
        })?;
    }
    let batch = Batch {
        file_system,
        date: DATE,
        items: &items,
        files: &NUMBERS,
    };
    added_text(alloc, &batch, &entries, passed)
}

/// A path of ProDOS keeps the spaces at its end, as a listing shows them.
static PATHS: [Row; 2] = [
    (b"SUB/A", None, None, None, b""),
    (b"B\xc3 ", None, None, None, b""),
];

#[test]
fn the_items_are_told(rt: HostRuntime) -> Result<(), Fail> {
    let text = text_of(rt.alloc(), FileSystem::Dos, &DOS_ROWS, &[], &[])?;
    assert!(rt; text.as_str() == "ADDED HI\nADDED E1\nADDED files 2\n");
    let text = text_of(rt.alloc(), FileSystem::Prodos, &PATHS, &["SUB"], &[])?;
    assert!(rt; text.as_str() == "ADDED SUB/A\nADDED BC \nADDED files 2\n");
    let text = text_of(rt.alloc(), FileSystem::Dos, &PATHS, &[], &[])?;
    assert!(rt; text.as_str() == "ADDED SUB/A\nADDED BC\nADDED files 2\n");
    let text = text_of(rt.alloc(), FileSystem::Dos, &[], &[], &[])?;
    assert!(rt; text.as_str() == "ADDED files 0\n");
    Ok(())
}

#[test]
fn entries_that_are_passed_over_are_told(rt: HostRuntime) -> Result<(), Fail> {
    let paths = ["SUB", "A#040000", "A\u{7}\u{fc}#040000.utf8.txt"];
    let text = text_of(rt.alloc(), FileSystem::Dos, &DOS_ROWS, &paths, &[0, 2])?;
    assert!(rt;
        text.as_str()
            == "ADDED HI\nADDED E1\nPASSED SUB\nPASSED A\\x07\u{fc}#040000.utf8.txt\nADDED files 2\n"
    );
    let text = text_of(rt.alloc(), FileSystem::Prodos, &[], &paths, &[1])?;
    assert!(rt; text.as_str() == "PASSED A#040000\nADDED files 0\n");
    // there is no such entry
    let text = text_of(rt.alloc(), FileSystem::Prodos, &[], &paths, &[3])?;
    assert!(rt; text.as_str() == "ADDED files 0\n");
    Ok(())
}
