//! Rows on the folders: in memory, refusing a call, and in scratch folders of the system.

use host_folders::{
    FailingFolder, Folder, FolderFailure, MadeItem, MemoryFolder, folder_name, is_safe_path,
};
use shop_host::{Host, SystemHost};
use shop_outputs::{NewFolder, StartError};
use std::alloc::Allocator;
use std::fs::{self, Permissions};
use std::io;
use std::os::unix::fs::{MetadataExt, PermissionsExt, symlink};
use std::test::Fail;

/// Folders and files by their paths, and the text of a file.
static ITEMS: [(&str, Option<&str>); 5] = [
    ("SUB", None),
    ("SUB/A#040000", Some("hello, world")),
    ("SUB/LOW", None),
    ("SUB/LOW/%2ePROFILE#060300", Some("")),
    ("HELLO#060300", Some("\0\u{7f}/")),
];

/// Given paths, and the names of the folders that are to be made there.
static NAMES: [(&str, Option<&str>); 18] = [
    ("out", Some("out")),
    ("out/", Some("out")),
    ("a/out///", Some("a/out")),
    ("/a", Some("/a")),
    ("./out", Some("./out")),
    ("../out", Some("../out")),
    ("a/../out", Some("a/../out")),
    ("...", Some("...")),
    ("a..", Some("a..")),
    (".a/", Some(".a")),
    ("", None),
    ("/", None),
    ("///", None),
    (".", None),
    ("..//", None),
    ("a/.", None),
    ("a/..", None),
    ("/../", None),
];

/// Paths, and whether they are safe. A name of more bytes is in a row of its own.
static PATHS: [(&str, bool); 15] = [
    ("A", true),
    ("A/B", true),
    ("...", true),
    ("A/.B/C..", true),
    ("a b/\u{e9}", true),
    ("", false),
    ("/", false),
    ("/A", false),
    ("A/", false),
    ("A//B", false),
    (".", false),
    ("..", false),
    ("A/../B", false),
    ("A/.", false),
    ("A\0", false),
];

/// Makes the items in a folder, up to the first that can't be made.
pub fn fill<F: Folder>(folder: &mut F) -> Result<(), FolderFailure> {
    for (path, text) in &ITEMS {
        if !is_safe_path(path) {
            return Err(FolderFailure::Failed);
        }
        match text {
            None => folder.make_folder(path)?,
            Some(text) => folder.put(path, text.as_bytes())?,
        }
    }
    Ok(())
}

/// Whether an item is what a row states.
fn is_stated<A: Allocator>(item: &MadeItem<A>, row: &(&str, Option<&str>)) -> bool {
    match (item, row) {
        (MadeItem::Folder { path }, (stated, None)) => path.as_str() == *stated,
        (MadeItem::File { path, bytes }, (stated, Some(text))) => {
            path.as_str() == *stated && bytes.as_slice() == text.as_bytes()
        }
        _ => false,
    }
}

/// Whether items are the first of the rows, so many.
pub fn are_first<A: Allocator>(items: &[MadeItem<A>], count: usize) -> bool {
    for (item, row) in items.iter().zip(&ITEMS) {
        if !is_stated(item, row) {
            return false;
        }
    }
    items.len() == count && count <= ITEMS.len()
}

/// Begins a folder of a host at a given path.
fn begun<'h, H: Host>(host: &'h mut H, given: &str) -> Result<NewFolder<'h, H>, StartError> {
    match folder_name(given) {
        Some(name) => NewFolder::start(host, name),
        None => Err(StartError::Failed),
    }
}

/// Begins, fills and finishes a folder of a host.
pub fn written<H: Host>(host: &mut H, given: &str) -> Result<(), FolderFailure> {
    let mut folder = begun(host, given).map_err(|error| match error {
        StartError::Memory => FolderFailure::Memory,
        StartError::Taken | StartError::Failed => FolderFailure::Failed,
    })?;
    fill(&mut folder)?;
    folder.finish()
}

/// Whether the items, and nothing else, stand in a folder.
fn holds_items(rt: &HostRuntime, folder: &str) -> io::Result<bool> {
    for (path, text) in &ITEMS {
        let path = format!(in rt.alloc(); "{folder}/{path}")?;
        let is_there = match text {
            None => fs::symlink_metadata(rt, path.as_str())?.is_dir(),
            Some(text) => fs::read_to_string(rt, path.as_str())?.as_str() == *text,
        };
        if !is_there {
            return Ok(false);
        }
    }
    Ok(names_in(rt, folder)? == 2)
}

/// How many names stand in a folder.
pub fn names_in(rt: &HostRuntime, folder: &str) -> io::Result<usize> {
    Ok(fs::read_dir(rt, folder)?.count())
}

/// A new scratch folder in the place of an old one.
pub fn scratch(rt: &HostRuntime, folder: &str) -> io::Result<()> {
    if fs::exists(rt, folder)? {
        fs::remove_dir_all(rt, folder)?;
    }
    fs::create_dir(rt, folder)
}

#[test]
fn a_folder_name_has_no_slash_at_its_end(rt: HostRuntime) {
    for (given, name) in &NAMES {
        assert!(rt; folder_name(given) == *name, "{given}");
    }
}

#[test]
fn a_path_of_safe_names_is_safe(rt: HostRuntime) -> Result<(), Fail> {
    for (path, is_safe) in &PATHS {
        assert!(rt; is_safe_path(path) == *is_safe, "{path}");
    }
    let mut name = String::new(rt.alloc());
    for _ in 0..255 {
        name.push('x')?;
    }
    assert!(rt; is_safe_path(name.as_str()));
    name.push('x')?;
    assert!(rt; !is_safe_path(name.as_str()));
    Ok(())
}

#[test]
fn a_folder_in_memory_keeps_what_was_made(rt: HostRuntime) {
    let mut folder = MemoryFolder::new(rt.alloc());
    assert!(rt; folder.items().is_empty());
    let answer = fill(&mut folder);
    // Without memory for an item, those before it stay.
    let count = folder.items().len();
    assert!(rt; are_first(folder.items(), count));
    match answer {
        Ok(()) => assert!(rt; count == ITEMS.len()),
        Err(failure) => assert!(rt; failure == FolderFailure::Memory && count < ITEMS.len()),
    }
}

#[test]
fn each_call_is_refused_in_turn(rt: HostRuntime) {
    let mut whole = FailingFolder::none(MemoryFolder::new(rt.alloc()));
    assert!(rt; fill(&mut whole).is_ok());
    assert!(rt; whole.calls() == 5);
    assert!(rt; are_first(whole.folder().items(), 5));
    for before in 0..5u32 {
        let mut folder = FailingFolder::one(MemoryFolder::new(rt.alloc()), u64::from(before));
        assert!(rt; fill(&mut folder) == Err(FolderFailure::Failed));
        assert!(rt; folder.calls() == u64::from(before) + 1);
        assert!(rt; are_first(folder.into_inner().items(), before as usize));
    }
}

#[test]
fn a_call_after_the_refused_one_is_passed_on(rt: HostRuntime) {
    let mut folder = FailingFolder::one(MemoryFolder::new(rt.alloc()), 0);
    assert!(rt; is_safe_path("SUB"));
    assert!(rt; folder.make_folder("SUB") == Err(FolderFailure::Failed));
    assert!(rt; folder.make_folder("SUB").is_ok());
    assert!(rt; are_first(folder.folder().items(), 1));
}

#[test]
fn a_folder_of_the_system_takes_its_place(rt: HostRuntime) -> Result<(), Fail> {
    scratch(&rt, "scratch_new")?;
    let mut host = SystemHost::new(&rt);
    let mut folder = begun(&mut host, "scratch_new/out//")?;
    fill(&mut folder)?;
    assert!(rt; holds_items(&rt, "scratch_new/out.0.new")?);
    assert!(rt; !fs::exists(&rt, "scratch_new/out")?);
    assert!(rt; folder.finish().is_ok());
    assert!(rt; holds_items(&rt, "scratch_new/out")?);
    assert!(rt; names_in(&rt, "scratch_new")? == 1);
    assert!(rt;
        written(&mut SystemHost::new(&rt), "scratch_new/out") == Err(FolderFailure::Failed)
    );
    assert!(rt; names_in(&rt, "scratch_new")? == 1);
    fs::remove_dir_all(&rt, "scratch_new")?;
    Ok(())
}

#[test]
fn an_empty_folder_is_replaced_and_gives_its_mode(rt: HostRuntime) -> Result<(), Fail> {
    scratch(&rt, "scratch_empty")?;
    fs::create_dir(&rt, "scratch_empty/out")?;
    fs::set_permissions(&rt, "scratch_empty/out", Permissions::from_mode(0o711))?;
    fs::create_dir(&rt, "scratch_empty/out.0.new")?;
    fs::write(&rt, "scratch_empty/out.1.new", "")?;
    assert!(rt; written(&mut SystemHost::new(&rt), "scratch_empty/out").is_ok());
    assert!(rt; holds_items(&rt, "scratch_empty/out")?);
    let mode = fs::metadata(&rt, "scratch_empty/out")?.mode();
    assert!(rt; mode & 0o7777 == 0o711, "{mode:o}");
    assert!(rt; names_in(&rt, "scratch_empty")? == 3);
    fs::remove_dir_all(&rt, "scratch_empty")?;
    Ok(())
}

#[test]
fn what_stands_there_is_not_taken(rt: HostRuntime) -> Result<(), Fail> {
    scratch(&rt, "scratch_taken")?;
    fs::create_dir(&rt, "scratch_taken/empty")?;
    fs::create_dir(&rt, "scratch_taken/full")?;
    fs::write(&rt, "scratch_taken/full/file", "kept")?;
    fs::create_dir(&rt, "scratch_taken/closed")?;
    fs::set_permissions(&rt, "scratch_taken/closed", Permissions::from_mode(0o500))?;
    symlink(&rt, "empty", "scratch_taken/link")?;
    symlink(&rt, "nothing", "scratch_taken/loose")?;
    let rows = [
        ("scratch_taken/full", StartError::Taken),
        ("scratch_taken/full/file", StartError::Taken),
        ("scratch_taken/link/", StartError::Taken),
        ("scratch_taken/loose", StartError::Taken),
        ("scratch_taken/closed", StartError::Failed),
        ("scratch_taken/none/out", StartError::Failed),
        ("scratch_taken/full/file/out", StartError::Failed),
        ("scratch_taken/a\0b", StartError::Failed),
    ];
    for (given, error) in &rows {
        assert!(rt;
            begun(&mut SystemHost::new(&rt), given).err() == Some(*error),
            "{given}"
        );
    }
    assert!(rt; names_in(&rt, "scratch_taken")? == 5);
    assert!(rt; names_in(&rt, "scratch_taken/empty")? == 0);
    fs::remove_dir_all(&rt, "scratch_taken")?;
    Ok(())
}

#[test]
fn what_was_made_is_not_opened_again(rt: HostRuntime) -> Result<(), Fail> {
    scratch(&rt, "scratch_twice")?;
    let mut host = SystemHost::new(&rt);
    let mut folder = begun(&mut host, "scratch_twice/out")?;
    fill(&mut folder)?;
    symlink(&rt, "HELLO#060300", "scratch_twice/out.0.new/LINK")?;
    for path in ["HELLO#060300", "LINK", "SUB", "NONE/A"] {
        assert!(rt; is_safe_path(path));
        assert!(rt;
            folder.put(path, b"other") == Err(FolderFailure::Failed),
            "{path}"
        );
    }
    for path in ["HELLO#060300", "LINK", "SUB", "NONE/A"] {
        assert!(rt; is_safe_path(path));
        assert!(rt;
            folder.make_folder(path) == Err(FolderFailure::Failed),
            "{path}"
        );
    }
    fs::remove_file(&rt, "scratch_twice/out.0.new/LINK")?;
    assert!(rt; holds_items(&rt, "scratch_twice/out.0.new")?);
    folder.abandon();
    assert!(rt; names_in(&rt, "scratch_twice")? == 0);
    fs::remove_dir_all(&rt, "scratch_twice")?;
    Ok(())
}

#[test]
fn a_folder_that_is_dropped_is_removed(rt: HostRuntime) -> Result<(), Fail> {
    scratch(&rt, "scratch_drop")?;
    fs::create_dir(&rt, "scratch_drop/beside")?;
    fs::write(&rt, "scratch_drop/beside/file", "kept")?;
    {
        let mut host = SystemHost::new(&rt);
        let mut folder = begun(&mut host, "scratch_drop/out")?;
        fill(&mut folder)?;
        symlink(&rt, "../../beside", "scratch_drop/out.0.new/SUB/LINK")?;
        assert!(rt; names_in(&rt, "scratch_drop")? == 2);
    }
    assert!(rt; names_in(&rt, "scratch_drop")? == 1);
    assert!(rt; names_in(&rt, "scratch_drop/beside")? == 1);
    fs::remove_dir_all(&rt, "scratch_drop")?;
    Ok(())
}

#[test]
fn no_hundred_and_first_name_is_tried(rt: HostRuntime) -> Result<(), Fail> {
    scratch(&rt, "scratch_names")?;
    for number in 0..99u32 {
        let path = format!(in rt.alloc(); "scratch_names/out.{number}.new")?;
        fs::create_dir(&rt, path.as_str())?;
    }
    {
        let mut host = SystemHost::new(&rt);
        let _last = begun(&mut host, "scratch_names/out")?;
        assert!(rt; fs::exists(&rt, "scratch_names/out.99.new")?);
        let error = begun(&mut SystemHost::new(&rt), "scratch_names/out").err();
        assert!(rt; error == Some(StartError::Failed));
    }
    assert!(rt; names_in(&rt, "scratch_names")? == 99);
    fs::remove_dir_all(&rt, "scratch_names")?;
    Ok(())
}
