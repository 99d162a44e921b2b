//! The plan of a folder whose files are added to a volume: `plan`, and the files that it names, saved by `add_all`.
use crate::folders::additions::{DATE, End, NEVER, Volume, Why, dos_ended, image_after, pro_ended};
use file_forms::{FileForm, GivenForm};
use folder_adding::{
    Batch, FailingFiles, HostEntry, HostFiles, HostKind, MemoryFiles, Plan, PlanError, Second,
    added_text, plan,
};
use shop_jobs::FileSystem;
use shop_replies::{Failure, Refusal};
use std::alloc::{AllocError, Global};
use std::test::Fail;
use test_volumes::{FIRST_CATALOG, Failure as Late, Piece, VTOC, put_writes};

const DOS: FileSystem = FileSystem::Dos;

const PRODOS: FileSystem = FileSystem::Prodos;

/// How the bytes of a file give it.
#[derive(Clone, Copy, Debug, PartialEq, Eq)]
enum Given {
    Bytes,
    Text,
    Program,
    Single,
}

fn given_as(form: Option<GivenForm>) -> Given {
    match form {
        None => Given::Bytes,
        Some(GivenForm::Text(_)) => Given::Text,
        Some(GivenForm::Applesoft) => Given::Program,
        Some(GivenForm::Single) => Given::Single,
    }
}

/// The number of an entry, and the item that it says: its path, its type, its aux type, and how its bytes give it.
type Said = (usize, &'static [u8], u8, u16, Given);

/// Entries of these paths and kinds.
fn entries_of(alloc: Global, rows: &[(&str, HostKind)]) -> Result<Vec<HostEntry>, AllocError> {
    let mut entries = Vec::new(alloc);
    for (path, kind) in rows {
        entries.push(HostEntry {
            path: String::from_str(alloc, path)?,
            kind: *kind,
        })?;
    }
    Ok(entries)
}

fn planned(
    alloc: Global,
    file_system: FileSystem,
    into: Option<&str>,
    rows: &[(&str, HostKind)],
) -> Result<Plan, PlanError> {
    let entries = entries_of(alloc, rows)?;
    plan(alloc, file_system, into, &entries)
}

/// The number of the entry of a folder, and the path of its directory.
type Made = (usize, &'static [u8]);

/// Whether a plan makes these directories alone.
fn makes(plan: &Plan, directories: &[Made]) -> bool {
    if plan.directories.len() != directories.len() || plan.folders.len() != directories.len() {
        return false;
    }
    for (number, (entry, path)) in directories.iter().enumerate() {
        if plan.folders[number] != *entry || plan.directories[number].as_slice() != *path {
            return false;
        }
    }
    true
}

/// Whether the plan of entries makes these directories alone.
fn plans_directories(
    alloc: Global,
    into: Option<&str>,
    rows: &[(&str, HostKind)],
    directories: &[Made],
) -> bool {
    match planned(alloc, FileSystem::Prodos, into, rows) {
        Ok(plan) => makes(&plan, directories),
        Err(_) => false,
    }
}

/// Whether a plan has these items alone, and passes these entries over.
fn has(plan: &Plan, items: &[Said], passed: &[usize]) -> bool {
    if plan.items.len() != items.len() || plan.files.len() != items.len() {
        return false;
    }
    for (number, (entry, path, kind, aux, form)) in items.iter().enumerate() {
        let item = &plan.items[number];
        if plan.files[number] != *entry
            || item.path.as_slice() != *path
            || item.kind != Some(*kind)
            || item.aux != Some(*aux)
            || given_as(item.form) != *form
        {
            return false;
        }
    }
    plan.passed.as_slice() == passed
}

/// Whether the plan of entries has these items alone, and passes these entries over.
fn plans_into(
    alloc: Global,
    file_system: FileSystem,
    into: Option<&str>,
    rows: &[(&str, HostKind)],
    items: &[Said],
    passed: &[usize],
) -> bool {
    match planned(alloc, file_system, into, rows) {
        Ok(plan) => has(&plan, items, passed),
        Err(_) => false,
    }
}

fn plans(
    alloc: Global,
    file_system: FileSystem,
    rows: &[(&str, HostKind)],
    items: &[Said],
    passed: &[usize],
) -> bool {
    plans_into(alloc, file_system, None, rows, items, passed)
}

/// Which entry is refused, and why.
fn refused(
    alloc: Global,
    file_system: FileSystem,
    rows: &[(&str, HostKind)],
) -> Option<(usize, Refusal)> {
    match planned(alloc, file_system, None, rows) {
        Err(PlanError::Refused { entry, refusal }) => Some((entry, refusal)),
        _ => None,
    }
}

/// Why a file of this path is refused.
fn file_refused(alloc: Global, file_system: FileSystem, path: &str) -> Option<Refusal> {
    match refused(alloc, file_system, &[(path, HostKind::File)]) {
        Some((0, refusal)) => Some(refusal),
        _ => None,
    }
}

#[test]
fn files_of_prodos(rt: HostRuntime) {
    let rows = [
        ("A#040000", HostKind::File),
        ("B.C9#ffabcd", HostKind::File),
        ("BIN#060300.dat", HostKind::File),
        ("C~2#060300", HostKind::File),
    ];
    let items: [Said; 4] = [
        (0, b"A", 0x04, 0x0000, Given::Bytes),
        (1, b"B.C9", 0xff, 0xabcd, Given::Bytes),
        (2, b"BIN", 0x06, 0x0300, Given::Bytes),
        (3, b"C", 0x06, 0x0300, Given::Bytes),
    ];
    assert!(rt; plans(rt.alloc(), PRODOS, &rows, &items, &[]));
    assert!(rt; plans(rt.alloc(), PRODOS, &[], &[], &[]));
}

#[test]
fn files_of_dos(rt: HostRuntime) {
    let rows = [
        ("A%%#040000", HostKind::File),
        ("HELLO WORLD#FA0000", HostKind::File),
        ("P#FC0801", HostKind::File),
        ("B~12#060300.bin", HostKind::File),
        ("S#F20000", HostKind::File),
        ("R%2fS%3A#FE1234", HostKind::File),
    ];
    let items: [Said; 6] = [
        (0, b"A%", 0x00, 0x0000, Given::Bytes),
        (1, b"HELLO WORLD", 0x01, 0x0000, Given::Bytes),
        (2, b"P", 0x02, 0x0801, Given::Bytes),
        (3, b"B", 0x04, 0x0300, Given::Bytes),
        (4, b"S", 0x08, 0x0000, Given::Bytes),
        (5, b"R/S:", 0x10, 0x1234, Given::Bytes),
    ];
    assert!(rt; plans(rt.alloc(), DOS, &rows, &items, &[]));
    assert!(rt; plans_into(rt.alloc(), DOS, Some("SUB"), &rows, &items, &[]));
}

#[test]
fn readable_forms_alone(rt: HostRuntime) {
    let rows = [
        ("N#040000.utf8.txt", HostKind::File),
        ("P#fc0801.utf8.txt", HostKind::File),
    ];
    let on_dos: [Said; 2] = [
        (0, b"N", 0x00, 0x0000, Given::Text),
        (1, b"P", 0x02, 0x0801, Given::Program),
    ];
    let on_prodos: [Said; 2] = [
        (0, b"N", 0x04, 0x0000, Given::Text),
        (1, b"P", 0xfc, 0x0801, Given::Program),
    ];
    assert!(rt; plans(rt.alloc(), DOS, &rows, &on_dos, &[]));
    assert!(rt; plans(rt.alloc(), PRODOS, &rows, &on_prodos, &[]));
}

#[test]
fn readable_forms_beside_their_files(rt: HostRuntime) {
    let rows = [
        ("N#040000", HostKind::File),
        ("N#040000.utf8.txt", HostKind::File),
        ("P#fc0801.utf8.txt", HostKind::File),
        ("P#fc0801", HostKind::File),
    ];
    let on_dos: [Said; 2] = [
        (0, b"N", 0x00, 0x0000, Given::Bytes),
        (3, b"P", 0x02, 0x0801, Given::Bytes),
    ];
    assert!(rt; plans(rt.alloc(), DOS, &rows, &on_dos, &[1, 2]));
    let apart = [
        ("N#040000.txt", HostKind::File),
        ("N#040000.utf8.txt", HostKind::File),
        ("SUB/N#040000", HostKind::File),
    ];
    let items: [Said; 3] = [
        (0, b"N", 0x04, 0x0000, Given::Bytes),
        (1, b"N", 0x04, 0x0000, Given::Text),
        (2, b"SUB/N", 0x04, 0x0000, Given::Bytes),
    ];
    assert!(rt; plans(rt.alloc(), PRODOS, &apart, &items, &[]));
    let within = [
        ("SUB/N#040000", HostKind::File),
        ("SUB/N#040000.utf8.txt", HostKind::File),
    ];
    assert!(rt;
        plans(
            rt.alloc(),
            PRODOS,
            &within,
            &[(0, b"SUB/N", 0x04, 0x0000, Given::Bytes)],
            &[1]
        )
    );
}

/// The readable forms of the items of a plan, in order, where they stand beside them.
fn has_seconds(
    alloc: Global,
    file_system: FileSystem,
    rows: &[(&str, HostKind)],
    seconds: &[Option<Second>],
) -> bool {
    let Ok(plan) = planned(alloc, file_system, None, rows) else {
        return false;
    };
    for (number, second) in seconds.iter().enumerate() {
        if number >= plan.items.len() || plan.items[number].second != *second {
            return false;
        }
    }
    plan.items.len() == seconds.len()
}

#[test]
fn the_readable_forms_of_items(rt: HostRuntime) {
    let rows = [
        ("B#060300", HostKind::File),
        ("N#040000", HostKind::File),
        ("N#040000.txt", HostKind::File),
        ("N#040000.utf8.txt", HostKind::File),
        ("P#fc0801.utf8.txt", HostKind::File),
        ("P#fc0801", HostKind::File),
        ("Q#fc0801.utf8.txt", HostKind::File),
    ];
    let seconds = [
        None,
        Some(Second {
            file: 3,
            form: FileForm::Text,
        }),
        None,
        Some(Second {
            file: 4,
            form: FileForm::Applesoft,
        }),
        None,
    ];
    for file_system in [DOS, PRODOS] {
        assert!(rt; has_seconds(rt.alloc(), file_system, &rows, &seconds));
    }
    let apart = [
        ("N#040000", HostKind::File),
        ("SUB", HostKind::Folder),
        ("SUB/N#040000.utf8.txt", HostKind::File),
    ];
    assert!(rt; has_seconds(rt.alloc(), PRODOS, &apart, &[None, None]));
    // the first of two entries of one path
    let twice = [
        ("N#040000.utf8.txt", HostKind::File),
        ("N#040000.utf8.txt", HostKind::File),
        ("N#040000", HostKind::File),
    ];
    let first = Second {
        file: 0,
        form: FileForm::Text,
    };
    assert!(rt; has_seconds(rt.alloc(), DOS, &twice, &[Some(first)]));
}

#[test]
fn folders_of_prodos(rt: HostRuntime) {
    let rows = [
        ("SUB", HostKind::Folder),
        ("SUB/DEEP~2", HostKind::Folder),
        ("SUB/DEEP~2/A#060300", HostKind::File),
        ("SUB/NONE", HostKind::Folder),
        ("%5AED", HostKind::Folder),
    ];
    let items: [Said; 1] = [(2, b"SUB/DEEP/A", 0x06, 0x0300, Given::Bytes)];
    assert!(rt; plans(rt.alloc(), PRODOS, &rows, &items, &[]));
    let made: [Made; 4] = [(0, b"SUB"), (1, b"SUB/DEEP"), (3, b"SUB/NONE"), (4, b"ZED")];
    assert!(rt; plans_directories(rt.alloc(), None, &rows, &made));
    let below: [Said; 1] = [(2, b"LIB/NEW/SUB/DEEP/A", 0x06, 0x0300, Given::Bytes)];
    assert!(rt; plans_into(rt.alloc(), PRODOS, Some("LIB/NEW"), &rows, &below, &[]));
    let made: [Made; 4] = [
        (0, b"LIB/NEW/SUB"),
        (1, b"LIB/NEW/SUB/DEEP"),
        (3, b"LIB/NEW/SUB/NONE"),
        (4, b"LIB/NEW/ZED"),
    ];
    assert!(rt; plans_directories(rt.alloc(), Some("LIB/NEW"), &rows, &made));
}

#[test]
fn names_that_say_nothing(rt: HostRuntime) {
    for path in [
        "HELLO",
        "HELLO.txt",
        "A#0603",
        "A#06030",
        "A#060300.text",
        "#060300",
        "A*#060300",
    ] {
        assert!(rt;
            file_refused(rt.alloc(), DOS, path) == Some(Refusal::Host),
            "{path}"
        );
        assert!(rt;
            file_refused(rt.alloc(), PRODOS, path) == Some(Refusal::Host),
            "{path}"
        );
    }
    for path in ["A#060000.utf8.txt", "A%4#060300", "A~#060300"] {
        assert!(rt;
            file_refused(rt.alloc(), DOS, path) == Some(Refusal::Host),
            "{path}"
        );
    }
    for path in ["SUB/A#060300", "/A#060300"] {
        assert!(rt;
            file_refused(rt.alloc(), DOS, path) == Some(Refusal::Host),
            "{path}"
        );
    }
    for path in [
        "/A#060300",
        "SUB//A#060300",
        "S*B/A#060300",
        "SUB/A",
        "~2/A#060300",
    ] {
        assert!(rt;
            file_refused(rt.alloc(), PRODOS, path) == Some(Refusal::Host),
            "{path}"
        );
    }
}

#[test]
fn files_with_the_type_of_directories(rt: HostRuntime) {
    for file_system in [DOS, PRODOS] {
        for path in ["A#0f0000", "A#0F1234", "A#0f0000.bin", "1ST%#0f0000"] {
            assert!(rt;
                file_refused(rt.alloc(), file_system, path) == Some(Refusal::Host),
                "{path}"
            );
        }
    }
    let apart: [Said; 1] = [(0, b"A", 0x0e, 0x0000, Given::Bytes)];
    assert!(rt;
        plans(
            rt.alloc(),
            PRODOS,
            &[("A#0e0000", HostKind::File)],
            &apart,
            &[]
        )
    );
}

#[test]
fn what_is_no_file(rt: HostRuntime) {
    let alloc = rt.alloc();
    let host = Some((0, Refusal::Host));
    for file_system in [DOS, PRODOS] {
        assert!(rt; refused(alloc, file_system, &[("A#060300", HostKind::Other)]) == host);
        assert!(rt; refused(alloc, file_system, &[(".", HostKind::Other)]) == host);
    }
    assert!(rt; refused(alloc, DOS, &[("SUB", HostKind::Folder)]) == host);
    assert!(rt; refused(alloc, PRODOS, &[("S*B", HostKind::Folder)]) == host);
    assert!(rt; refused(alloc, PRODOS, &[("SUB/~2", HostKind::Folder)]) == host);
}

#[test]
fn types_that_dos_has_not(rt: HostRuntime) {
    for path in ["A#000000", "A#ff2000", "A#f30000"] {
        assert!(rt;
            file_refused(rt.alloc(), DOS, path) == Some(Refusal::Type),
            "{path}"
        );
    }
    // the type is looked at before the name
    assert!(rt; file_refused(rt.alloc(), DOS, "hello#ff2000") == Some(Refusal::Type));
}

#[test]
fn names_that_no_file_of_dos_may_have(rt: HostRuntime) {
    for path in [
        "hello#040000",
        "1#040000",
        "A,B#040000",
        "A%20#040000",
        "%01A#040000",
        "A%81#040000",
        "A%7f%41#040000",
        "A%FF#040000",
        "%#040000",
        "ABCDEFGHIJKLMNOPQRSTUVWXYZ12345#040000",
    ] {
        assert!(rt;
            file_refused(rt.alloc(), DOS, path) == Some(Refusal::Name),
            "{path}"
        );
    }
    let long = [("ABCDEFGHIJKLMNOPQRSTUVWXYZ1234#040000", HostKind::File)];
    let items: [Said; 1] = [(
        0,
        b"ABCDEFGHIJKLMNOPQRSTUVWXYZ1234",
        0x00,
        0x0000,
        Given::Bytes,
    )];
    assert!(rt; plans(rt.alloc(), DOS, &long, &items, &[]));
}

#[test]
fn names_that_no_file_of_prodos_may_have(rt: HostRuntime) {
    for path in [
        "1ST#060300",
        "A B#060300",
        "A%%#060300",
        "A%2fB#060300",
        "%C1#060300",
        "%#060300",
        "A234567890123456#060300",
        "1ST/A#060300",
        "SUB/A-B/A#060300",
    ] {
        assert!(rt;
            file_refused(rt.alloc(), PRODOS, path) == Some(Refusal::Name),
            "{path}"
        );
    }
    let name = Some((0, Refusal::Name));
    assert!(rt; refused(rt.alloc(), PRODOS, &[("A#040000", HostKind::Folder)]) == name);
    assert!(rt; refused(rt.alloc(), PRODOS, &[("SUB/%", HostKind::Folder)]) == name);
    let long = [("a23456789012345#060300", HostKind::File)];
    let items: [Said; 1] = [(0, b"a23456789012345", 0x06, 0x0300, Given::Bytes)];
    assert!(rt; plans(rt.alloc(), PRODOS, &long, &items, &[]));
}

#[test]
fn the_first_refused_entry(rt: HostRuntime) {
    let rows = [
        ("A#060300", HostKind::File),
        ("SUB", HostKind::Folder),
        ("B#060300", HostKind::File),
        ("HELLO", HostKind::File),
        ("1ST#060300", HostKind::File),
    ];
    assert!(rt; refused(rt.alloc(), PRODOS, &rows) == Some((3, Refusal::Host)));
    assert!(rt; refused(rt.alloc(), DOS, &rows) == Some((1, Refusal::Host)));
    // a readable form beside its file is passed over before its name is looked at
    let beside = [
        ("hello#040000.utf8.txt", HostKind::File),
        ("hello#040000", HostKind::File),
    ];
    assert!(rt; refused(rt.alloc(), DOS, &beside) == Some((1, Refusal::Name)));
}

/// Three files of DOS 3.3, with the readable form of one of them beside it, in this order, and what they hold.
static ADDED_ROWS: [(&str, HostKind, &[u8]); 4] = [
    ("HI#060300", HostKind::File, &[0xa9, 0x00, 0x60]),
    ("E1#040000.utf8.txt", HostKind::File, b""),
    ("E1#040000", HostKind::File, b""),
    ("NOTE#040000.utf8.txt", HostKind::File, b"HI\n"),
];

/// The writes that save the last of them behind the others: its list at track 3 sector 10 and its unit at sector 9.
static LAST_WRITES: [&[Piece]; 4] = [
    &[(58, 0x0c, &[3, 9])],
    &[(57, 0x00, &[0xc8, 0xc9, 0x8d])],
    &[(VTOC, 0x44, &[0x01, 0xff])],
    &[
        (FIRST_CATALOG, 0x74, &[3, 10, 0x00, 0xce, 0xcf, 0xd4, 0xc5]),
        (FIRST_CATALOG, 0x7b, &[0xa0; 26]),
        (FIRST_CATALOG, 0x95, &[2, 0]),
    ],
];

/// Three files of ProDOS, and what they hold.
static TREE_ROWS: [(&str, HostKind, &[u8]); 3] = [
    ("note#062000", HostKind::File, b"abc"),
    ("TWO#041234", HostKind::File, b"xy"),
    ("N3#040000.utf8.txt", HostKind::File, b"HI\n"),
];

/// The writes that save the last of them behind the others, in block 12.
static LAST_BLOCKS: [&[Piece]; 3] = [
    &[(12, 0x00, &[0x48, 0x49, 0x0d])],
    &[(6, 0x01, &[0x07])],
    &[
        (2, 0x25, &[4]),
        (2, 0xa0, &[0x12, 0x4e, 0x33]),
        (2, 0xb0, &[0x04, 12, 0, 1, 0, 3, 0, 0]),
        (2, 0xb8, &[0xa1, 0xac, 0x1e, 0x0c, 0, 0]),
        (2, 0xbe, &[0xe3, 0x00, 0x00]),
        (2, 0xc1, &[0xa1, 0xac, 0x1e, 0x0c, 2, 0]),
    ],
];

/// Entries of rows, and the files of all of them.
fn folder_of(
    alloc: Global,
    rows: &[(&str, HostKind, &[u8])],
) -> Result<(Vec<HostEntry>, MemoryFiles), AllocError> {
    let mut entries = Vec::new(alloc);
    let mut files = Vec::new(alloc);
    for (path, kind, bytes) in rows {
        entries.push(HostEntry {
            path: String::from_str(alloc, path)?,
            kind: *kind,
        })?;
        files.push(Vec::from_slice(alloc, bytes)?)?;
    }
    Ok((entries, MemoryFiles::new(files)))
}

/// The end of saving the items of a plan to a volume.
fn ended<H: HostFiles>(
    alloc: Global,
    volume: Volume,
    image: Vec<u8>,
    plan: &Plan,
    files: &mut H,
) -> Option<End> {
    let items = plan.items.as_slice();
    let numbers = plan.files.as_slice();
    match volume {
        Volume::Hello => dos_ended(alloc, image, items, numbers, files, Late::Read, NEVER),
        Volume::Tree => pro_ended(alloc, image, items, numbers, files, Late::Read, NEVER),
    }
}

/// Why not all files of rows were added to a volume, the image, and what is told.
type Added = (Option<Why>, Vec<u8>, String);

fn added(
    alloc: Global,
    volume: Volume,
    file_system: FileSystem,
    rows: &[(&str, HostKind, &[u8])],
) -> Option<Added> {
    let (entries, mut all) = folder_of(alloc, rows).ok()?;
    let plan = plan(alloc, file_system, None, &entries).ok()?;
    let image = image_after(alloc, volume, 0).ok()?;
    let batch = Batch {
        file_system,
        date: DATE,
        items: &plan.items,
        files: &plan.files,
    };
    let text = added_text(alloc, &batch, &entries, &plan.passed).ok()?;
    let end = ended(alloc, volume, image, &plan, &mut all)?;
    Some((end.why, end.image, text))
}

/// Whether all files of rows were added, with this image and this text.
fn adds(
    alloc: Global,
    volume: Volume,
    file_system: FileSystem,
    rows: &[(&str, HostKind, &[u8])],
    image: &[u8],
    text: &str,
) -> bool {
    match added(alloc, volume, file_system, rows) {
        Some((None, made, told)) => made.as_slice() == image && told.as_str() == text,
        _ => false,
    }
}

#[test]
fn a_folder_is_added(rt: HostRuntime) -> Result<(), Fail> {
    let alloc = rt.alloc();
    let mut image = image_after(alloc, Volume::Hello, 7)?;
    put_writes(&mut image, 256, &LAST_WRITES, 4);
    let text = "ADDED HI\nADDED E1\nADDED NOTE\nPASSED E1#040000.utf8.txt\nADDED files 3\n";
    assert!(rt; adds(alloc, Volume::Hello, DOS, &ADDED_ROWS, &image, text));
    let mut image = image_after(alloc, Volume::Tree, 6)?;
    put_writes(&mut image, 512, &LAST_BLOCKS, 3);
    let text = "ADDED NOTE\nADDED TWO\nADDED N3\nADDED files 3\n";
    assert!(rt; adds(alloc, Volume::Tree, PRODOS, &TREE_ROWS, &image, text));
    Ok(())
}

/// The paths of a file and of its readable form, and what they hold.
type Pair = (&'static str, &'static str, &'static [u8], &'static [u8]);

const TEXT: &str = "N#040000";

const TEXT_FORM: &str = "N#040000.utf8.txt";

const PROGRAM: &str = "P#fc0801";

const PROGRAM_FORM: &str = "P#fc0801.utf8.txt";

/// `10 HOME`, with the token of HOME, for a program at $0801.
const HOME: &[u8] = b"\x07\x08\x0a\x00\x97\x00\x00\x00";

/// Readable forms that give just the bytes of the files beside them: a text with its highest bits on, off, and with
/// what fills its sectors up; a text without a byte; and a program.
static ALIKE: [Pair; 4] = [
    (TEXT, TEXT_FORM, b"\xc8\xc9\x8d", b"HI\n"),
    (TEXT, TEXT_FORM, b"HI\r", b"HI\n"),
    (TEXT, TEXT_FORM, b"", b""),
    (PROGRAM, PROGRAM_FORM, HOME, b"10 HOME\n"),
];

/// Readable forms that give other bytes: edited, cut, empty, with a line more, of another file, no UTF-8; and those of
/// a program: edited, with another number, cut, empty, and a text.
static UNLIKE: [Pair; 12] = [
    (TEXT, TEXT_FORM, b"\xc8\xc9\x8d", b"HO\n"),
    (TEXT, TEXT_FORM, b"\xc8\xc9\x8d", b"HI"),
    (TEXT, TEXT_FORM, b"\xc8\xc9\x8d", b""),
    (TEXT, TEXT_FORM, b"\xc8\xc9\x8d", b"HI\n\n"),
    (TEXT, TEXT_FORM, b"\xc8\xc9\x8d", b"10 HOME\n"),
    (TEXT, TEXT_FORM, b"\xc8\xc9\x8d", b"HI\xff\n"),
    (TEXT, TEXT_FORM, b"", b"HI\n"),
    (TEXT, TEXT_FORM, b"\xc8I\x8d", b"HI\n"),
    (PROGRAM, PROGRAM_FORM, HOME, b"10 TEXT\n"),
    (PROGRAM, PROGRAM_FORM, HOME, b"20 HOME\n"),
    (PROGRAM, PROGRAM_FORM, HOME, b""),
    (PROGRAM, PROGRAM_FORM, HOME, b"HI\n"),
];

/// Why a file with its readable form is not added, and whether the volume is as it was.
fn pair_added(
    alloc: Global,
    volume: Volume,
    file_system: FileSystem,
    pair: &Pair,
) -> Option<(Option<Why>, bool)> {
    let (file, form, bytes, given) = pair;
    let rows = [
        (*file, HostKind::File, *bytes),
        (*form, HostKind::File, *given),
    ];
    let stood = image_after(alloc, volume, 0).ok()?;
    let (why, image, _) = added(alloc, volume, file_system, &rows)?;
    Some((why, image.as_slice() == stood.as_slice()))
}

static SYSTEMS: [(Volume, FileSystem); 2] = [(Volume::Hello, DOS), (Volume::Tree, PRODOS)];

#[test]
fn a_readable_form_that_gives_its_file_is_passed_over(rt: HostRuntime) {
    for (volume, file_system) in &SYSTEMS {
        for pair in &ALIKE {
            let answer = pair_added(rt.alloc(), *volume, *file_system, pair);
            assert!(rt; answer == Some((None, false)));
        }
    }
    // in DOS 3.3 zeros fill a text up, and in ProDOS they are bytes of it
    let filled: Pair = (TEXT, TEXT_FORM, b"\xc8\xc9\x8d\0\0", b"HI\n");
    assert!(rt; pair_added(rt.alloc(), Volume::Hello, DOS, &filled) == Some((None, false)));
    let differs = Some((Some(Why::Refused(0, 1, Refusal::Differs)), true));
    assert!(rt; pair_added(rt.alloc(), Volume::Tree, PRODOS, &filled) == differs);
    let hidden: Pair = (TEXT, TEXT_FORM, b"\xc8\xc9\x8d\0\xc8", b"HI\n");
    assert!(rt; pair_added(rt.alloc(), Volume::Hello, DOS, &hidden) == differs);
}

#[test]
fn a_readable_form_that_gives_other_bytes_is_refused(rt: HostRuntime) {
    let differs = Some((Some(Why::Refused(0, 1, Refusal::Differs)), true));
    for (volume, file_system) in &SYSTEMS {
        for (number, pair) in UNLIKE.iter().enumerate() {
            let answer = pair_added(rt.alloc(), *volume, *file_system, pair);
            assert!(rt; answer == differs, "{number}");
        }
    }
}

/// HI, then two texts with their forms, of which the second differs.
static SECOND_DIFFERS: [(&str, HostKind, &[u8]); 5] = [
    ("HI#060300", HostKind::File, &[0xa9, 0x00, 0x60]),
    ("E1#040000.utf8.txt", HostKind::File, b""),
    ("E1#040000", HostKind::File, b""),
    ("N#040000", HostKind::File, &[0xc8, 0xc9, 0x8d]),
    ("N#040000.utf8.txt", HostKind::File, b"HO\n"),
];

/// Why not all files of rows were added to HELLO, where the reading after so many others fails, whether the image is as
/// it is after so many of the writes, and how many readings there were.
fn unread(
    alloc: Global,
    rows: &[(&str, HostKind, &[u8])],
    before: u64,
    stand: u64,
) -> Option<(Option<Why>, bool, u64)> {
    let (entries, all) = folder_of(alloc, rows).ok()?;
    let plan = plan(alloc, DOS, None, &entries).ok()?;
    let wanted = image_after(alloc, Volume::Hello, stand).ok()?;
    let image = image_after(alloc, Volume::Hello, 0).ok()?;
    let mut files = FailingFiles::one(all, before);
    let end = ended(alloc, Volume::Hello, image, &plan, &mut files)?;
    let stands = end.image.as_slice() == wanted.as_slice();
    Some((end.why, stands, files.calls()))
}

#[test]
fn an_edited_form_is_refused_in_its_turn(rt: HostRuntime) {
    let differs = Some(Why::Refused(2, 4, Refusal::Differs));
    assert!(rt; unread(rt.alloc(), &SECOND_DIFFERS, NEVER, 7) == Some((differs, true, 5)));
}

#[test]
fn each_reading_of_a_folder_failing(rt: HostRuntime) {
    let input = Failure::Input;
    // the item and the file of each reading, and after how many writes the image stands
    let readings = [(0, 0, 0), (1, 2, 4), (1, 1, 4), (2, 3, 7), (2, 4, 7)];
    for (before, (item, file, stand)) in readings.iter().enumerate() {
        let answer = unread(rt.alloc(), &SECOND_DIFFERS, before as u64, *stand);
        let why = Some(Why::Failed(*item, *file, input));
        assert!(rt; answer == Some((why, true, before as u64 + 1)), "{before}");
    }
}

/// HELLO, which the volume has, with a readable form that differs.
static IN_USE_AND_DIFFERS: [(&str, HostKind, &[u8]); 2] = [
    ("HELLO#040000", HostKind::File, &[0xc8, 0xc9, 0x8d]),
    ("HELLO#040000.utf8.txt", HostKind::File, b"HO\n"),
];

/// The same with one that gives its bytes.
static IN_USE_AND_ALIKE: [(&str, HostKind, &[u8]); 2] = [
    ("HELLO#040000", HostKind::File, &[0xc8, 0xc9, 0x8d]),
    ("HELLO#040000.utf8.txt", HostKind::File, b"HI\n"),
];

#[test]
fn a_form_is_weighed_before_its_file_is_saved(rt: HostRuntime) {
    let differs = Some(Why::Refused(0, 1, Refusal::Differs));
    assert!(rt; unread(rt.alloc(), &IN_USE_AND_DIFFERS, NEVER, 0) == Some((differs, true, 2)));
    let exists = Some(Why::Refused(0, 0, Refusal::Exists));
    assert!(rt; unread(rt.alloc(), &IN_USE_AND_ALIKE, NEVER, 0) == Some((exists, true, 2)));
}

/// One byte more than a file that is saved may have.
const TOO_LONG: usize = 16_777_217;

#[test]
fn files_and_forms_that_are_too_long(rt: HostRuntime) -> Result<(), Fail> {
    let alloc = rt.alloc();
    let long = vec![in alloc; 0x41; TOO_LONG]?;
    // a file that is too long is told, and its form is not read
    let rows = [
        (TEXT, HostKind::File, long.as_slice()),
        (TEXT_FORM, HostKind::File, b"HI\n".as_slice()),
    ];
    let own = Some(Why::Refused(0, 0, Refusal::InputTooLong));
    assert!(rt; unread(alloc, &rows, NEVER, 0) == Some((own, true, 1)));
    let rows = [
        (TEXT, HostKind::File, b"\xc8\xc9\x8d".as_slice()),
        (TEXT_FORM, HostKind::File, long.as_slice()),
    ];
    let form = Some(Why::Refused(0, 1, Refusal::InputTooLong));
    assert!(rt; unread(alloc, &rows, NEVER, 0) == Some((form, true, 2)));
    Ok(())
}
