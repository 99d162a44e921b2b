//! The paths of entries.
use crate::formats::pro_directories::volume_of;
use pro_dir::VolumeDir;
use std::alloc::Global;
use std::test::Fail;
use test_volumes::tree_and_subdirectory;

// Whether an entry has this path.
fn has_path(alloc: Global, volume: &VolumeDir, entry: u32, path: &str) -> Result<bool, Fail> {
    if entry as usize >= volume.entries().len() {
        return Ok(false);
    }
    Ok(volume.path(alloc, entry)?.as_slice() == path.as_bytes())
}

#[test]
fn entries_have_paths(rt: HostRuntime) -> Result<(), Fail> {
    let volume = volume_of(rt.alloc(), tree_and_subdirectory(rt.alloc())?)?;
    assert!(rt; volume.entries().len() == 3);
    assert!(rt; has_path(rt.alloc(), &volume, 0, "BIG")?);
    assert!(rt; has_path(rt.alloc(), &volume, 1, "SUB")?);
    assert!(rt; has_path(rt.alloc(), &volume, 2, "SUB/A")?);
    Ok(())
}

// Which of the first three entries a path names.
fn named(volume: &VolumeDir, path: &str) -> [bool; 3] {
    if volume.entries().len() < 3 {
        return [false; 3];
    }
    [
        volume.has_path(0, path.as_bytes()),
        volume.has_path(1, path.as_bytes()),
        volume.has_path(2, path.as_bytes()),
    ]
}

/// Paths, and which of `BIG`, `SUB` and `SUB/A` each names.
static PATHS: [(&str, [bool; 3]); 9] = [
    ("BIG", [true, false, false]),
    ("SUB", [false, true, false]),
    ("SUB/A", [false, false, true]),
    ("sub/a", [false, false, true]),
    ("A", [false, false, false]),
    ("/SUB/A", [false, false, false]),
    ("SUB/", [false, false, false]),
    ("SUB/A/", [false, false, false]),
    ("", [false, false, false]),
];

// Which of the first three entries have these bytes as their stored path.
fn stored(volume: &VolumeDir, path: &str) -> [bool; 3] {
    if volume.entries().len() < 3 {
        return [false; 3];
    }
    [
        volume.has_stored_path(0, path.as_bytes()),
        volume.has_stored_path(1, path.as_bytes()),
        volume.has_stored_path(2, path.as_bytes()),
    ]
}

/// Paths, and which of `BIG`, `SUB` and `SUB/A` each is, byte for byte.
static STORED: [(&str, [bool; 3]); 6] = [
    ("BIG", [true, false, false]),
    ("SUB", [false, true, false]),
    ("SUB/A", [false, false, true]),
    ("sub/A", [false, false, false]),
    ("SUB/a", [false, false, false]),
    ("", [false, false, false]),
];

#[test]
fn stored_paths_are_those_of_entries(rt: HostRuntime) -> Result<(), Fail> {
    let volume = volume_of(rt.alloc(), tree_and_subdirectory(rt.alloc())?)?;
    for (path, entries) in &STORED {
        assert!(rt; stored(&volume, path) == *entries, "{path}");
    }
    Ok(())
}

#[test]
fn paths_name_entries(rt: HostRuntime) -> Result<(), Fail> {
    let volume = volume_of(rt.alloc(), tree_and_subdirectory(rt.alloc())?)?;
    for (path, entries) in &PATHS {
        assert!(rt; named(&volume, path) == *entries, "{path}");
    }
    Ok(())
}
