// The paths of files on a volume, and whether they may have them.
ghost use Rattle.std.specs.Prelude.{◌≡◌, ◌++◌, false, true, IfOk, MatchOption, OnOk, flat_map, map};
ghost use Rattle.std.specs.List.{list_all};
ghost use Rattle.std.specs.Option.{option_copied, option_to_list};
ghost use Rattle.edit_formats.specs.ProNames.{is_pro_name as may_be};
ghost use Rattle.folder_adding.specs.HostPaths.{
  are_pro_names,
  before,
  characters,
  is_stored_character,
  may_have,
  pro_path as path_of_names,
  volume_path,
};
ghost use Rattle.folder_adding.specs.Weighing.{said_view};
ghost use Rattle.shop_jobs.specs.declared.input.FileSystem.TheVariants.{Dos};

use crate::said_path::HostPath;
use crate::step::Destination;
use edit_formats::{is_dos_name, is_pro_name};
use shop_jobs::FileSystem;
use std::alloc::{AllocError, Global};

// The characters of a stored name of DOS 3.3.
fn characters(alloc: Global, name: &[u8]) -> Result<Vec<u8>, AllocError>
    ensures { IfOk result (λ found. found.items ≡ characters name.now) }
{
    name.iter()
        .map(|byte| byte.saturating_sub(0x80))
        .collect(alloc)
}

// Whether all bytes of a stored name are characters.
fn are_characters(name: &[u8]) -> bool
    ensures { result ≡ list_all is_stored_character name.now }
{
    name.iter().all(|byte| 0xa0 <= *byte && *byte <= 0xfe)
}

// The path of a file of DOS 3.3, where a file may have it.
fn dos_path(alloc: Global, said: &HostPath) -> Result<Option<Vec<u8>>, AllocError>
    ensures { IfOk result (λ found. MatchOption found (may_have Dos (said_view said.now) ≡ false)
        (λ path. (may_have Dos (said_view said.now) ≡ true) × (path.items ≡ characters said.now.file.name.items))) }
{
    let name = said.file.name.as_slice();
    let path = characters(alloc, name)?;
    if are_characters(name) && is_dos_name(path.as_slice()) {
        Ok(Some(path))
    } else {
        Ok(None)
    }
}

// Whether files may have all of these names, in ProDOS.
fn are_names(names: &[Vec<u8>]) -> bool
    ensures { result ≡ list_all (λ name. may_be name.items) names.now }
{
    names.iter().all(|name| is_pro_name(name.as_slice()))
}

// Adds a directory to a path.
fn push_directory(path: &mut Vec<u8>, directory: &[u8]) -> Result<(), AllocError>
    ensures { OnOk result (path.new.items ≡ path.old.items ++ before directory.now) }
{
    path.extend_from_slice(directory)?;
    path.push(b'/')?;
    Ok(())
}

// The front of each path on the volume, in ProDOS.
fn front(alloc: Global, into: Option<&str>) -> Result<Vec<u8>, AllocError>
    ensures { IfOk result (λ path. path.items ≡ flat_map before (option_to_list (option_copied into.entry))) }
{
    let mut path = Vec::new(alloc);
    if let Some(directory) = into {
        push_directory(&mut path, directory.as_bytes())?;
    }
    Ok(path)
}

// The names of a path of ProDOS, joined.
fn joined(
    alloc: Global,
    into: Option<&str>,
    directories: &[Vec<u8>],
    name: &[u8],
) -> Result<Vec<u8>, AllocError>
    ensures { IfOk result (λ path. path.items
        ≡ path_of_names (option_copied into.entry) (map (λ name. name.items) directories.now) name.now) }
{
    let mut path = front(alloc, into)?;
    for directory in directories {
        push_directory(&mut path, directory.as_slice())?;
    }
    path.extend_from_slice(name)?;
    Ok(path)
}

/// The path of a file or of a directory of ProDOS, where files and directories may have all of its names.
pub(crate) fn pro_path(
    alloc: Global,
    into: Option<&str>,
    directories: &[Vec<u8>],
    name: &[u8],
) -> Result<Option<Vec<u8>>, AllocError>
    ensures { IfOk result (λ found. MatchOption found
        (are_pro_names (map (λ name. name.items) directories.now) name.now ≡ false)
        (λ path. (are_pro_names (map (λ name. name.items) directories.now) name.now ≡ true)
        × (path.items
        ≡ path_of_names (option_copied into.entry) (map (λ name. name.items) directories.now) name.now))) }
{
    if !are_names(directories) || !is_pro_name(name) {
        return Ok(None);
    }
    Ok(Some(joined(alloc, into, directories, name)?))
}

/// The path of a file on the volume, where files and directories may have its names.
pub(crate) fn volume_path(
    alloc: Global,
    destination: &Destination<'_>,
    said: &HostPath,
) -> Result<Option<Vec<u8>>, AllocError>
    ensures { IfOk result (λ found. MatchOption found
        (may_have destination.now.file_system (said_view said.now) ≡ false)
        (λ path. (may_have destination.now.file_system (said_view said.now) ≡ true)
        × (path.items ≡ volume_path destination.now.file_system (option_copied destination.now.into)
        (said_view said.now)))) }
{
    match destination.file_system {
        FileSystem::Dos => dos_path(alloc, said),
        FileSystem::Prodos => pro_path(
            alloc,
            destination.into,
            said.directories.as_slice(),
            said.file.name.as_slice(),
        ),
    }
}
