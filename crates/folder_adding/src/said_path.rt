// What the paths of entries say.
ghost use Rattle.std.specs.Prelude.{◌≡◌, ◌≢◌, ◌↔◌, All, IfNone, IfOk, IfSome, IsTrue, MatchOption, map};
ghost use Rattle.folder_adding.specs.HostPaths.{SaidDirectory, SaidPath, SaysDirectory, SaysPath};
ghost use Rattle.folder_adding.specs.Weighing.{IsCut, IsParted, IsUnsaid, directory_view, said_view};
ghost use Rattle.shop_jobs.specs.declared.input.FileSystem.TheVariants.{Dos, Prodos};

use host_folders::{HostFile, file_of, folder_of};
use shop_jobs::FileSystem;
use std::alloc::{AllocError, Global};
use vol_layout::PlaceForm;

/// What the path of a file says.
#[derive(Drop)]
pub(crate) struct HostPath {
    /// The stored names of the directories that lead to it.
    pub directories: Vec<Vec<u8>>,
    pub file: HostFile<Global>,
}

/// What the path of a folder says.
#[derive(Drop)]
pub(crate) struct HostDirectory {
    /// The stored names of the directories that lead to the directory.
    pub directories: Vec<Vec<u8>>,
    /// Its own stored name.
    pub name: Vec<u8>,
}

// Whether a path has one part alone.
fn is_alone(path: &str) -> bool
    ensures { IsTrue result ↔ All (λ byte. byte ≢ 47) path.now }
{
    !path.contains('/')
}

// What the path of a file says, in DOS 3.3.
fn path_alone(alloc: Global, path: &str) -> Result<Option<HostPath>, AllocError>
    ensures { IfOk result (λ found. MatchOption found ((said : SaidPath) → ¬ SaysPath Dos path.now said)
        (λ said. SaysPath Dos path.now (said_view said))) }
{
    if !is_alone(path) {
        return Ok(None);
    }
    match file_of(alloc, PlaceForm::Sector, path)? {
        Some(file) => Ok(Some(HostPath {
            directories: Vec::new(alloc),
            file,
        })),
        None => Ok(None),
    }
}

// The first folder of a path, and the path from there on.
fn first_folder(path: &str) -> Option<(&str, &str)>
    ensures some { IfSome result (λ cut. IsCut path.now cut.0.now cut.1.now) }
    ensures none { IfNone result (All (λ byte. byte ≢ 47) path.now) }
{
    path.split_once('/')
}

// The names of the directories that the parts of a path before its last one say, and that last part.
fn folders_of(alloc: Global, path: &str) -> Result<Option<(Vec<Vec<u8>>, &str)>, AllocError>
    ensures { IfOk result (λ found. MatchOption found (IsUnsaid path.now)
        (λ parted. IsParted path.now (map (λ name. name.items) parted.0.items) parted.1.now)) }
{
    let mut directories = Vec::new(alloc);
    let mut rest = path;
    while let Some((folder, behind)) = first_folder(rest) {
        let Some(name) = folder_of(alloc, PlaceForm::Block, folder)? else {
            return Ok(None);
        };
        directories.push(name)?;
        rest = behind;
    }
    Ok(Some((directories, rest)))
}

// What the path of a file says, in ProDOS.
fn path_in_folders(alloc: Global, path: &str) -> Result<Option<HostPath>, AllocError>
    ensures { IfOk result (λ found. MatchOption found ((said : SaidPath) → ¬ SaysPath Prodos path.now said)
        (λ said. SaysPath Prodos path.now (said_view said))) }
{
    let Some((directories, last)) = folders_of(alloc, path)? else {
        return Ok(None);
    };
    match file_of(alloc, PlaceForm::Block, last)? {
        Some(file) => Ok(Some(HostPath { directories, file })),
        None => Ok(None),
    }
}

// What the path of a folder says, in ProDOS.
fn directory_in_folders(alloc: Global, path: &str) -> Result<Option<HostDirectory>, AllocError>
    ensures { IfOk result (λ found. MatchOption found
        ((said : SaidDirectory) → ¬ SaysDirectory Prodos path.now said)
        (λ said. SaysDirectory Prodos path.now (directory_view said))) }
{
    let Some((directories, last)) = folders_of(alloc, path)? else {
        return Ok(None);
    };
    match folder_of(alloc, PlaceForm::Block, last)? {
        Some(name) => Ok(Some(HostDirectory { directories, name })),
        None => Ok(None),
    }
}

impl HostPath {
    /// What the path of a file says.
    pub(crate) fn read(
        alloc: Global,
        file_system: FileSystem,
        path: &str,
    ) -> Result<Option<HostPath>, AllocError>
        ensures { IfOk result (λ found. MatchOption found ((said : SaidPath) → ¬ SaysPath file_system path.now said)
            (λ said. SaysPath file_system path.now (said_view said))) }
    {
        match file_system {
            FileSystem::Dos => path_alone(alloc, path),
            FileSystem::Prodos => path_in_folders(alloc, path),
        }
    }
}

impl HostDirectory {
    /// What the path of a folder says.
    pub(crate) fn read(
        alloc: Global,
        file_system: FileSystem,
        path: &str,
    ) -> Result<Option<HostDirectory>, AllocError>
        ensures { IfOk result (λ found. MatchOption found
            ((said : SaidDirectory) → ¬ SaysDirectory file_system path.now said)
            (λ said. SaysDirectory file_system path.now (directory_view said))) }
    {
        match file_system {
            FileSystem::Dos => Ok(None),
            FileSystem::Prodos => directory_in_folders(alloc, path),
        }
    }
}
