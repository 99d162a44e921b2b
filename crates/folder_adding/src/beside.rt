// The files beside which others may stand.
ghost use Rattle.std.specs.Prelude.{◌≡◌, IfOk, List, map};
ghost use Rattle.folder_adding.specs.HostEntries.{EntryView, entry_view, has_file_beside};
ghost use Rattle.folder_adding.specs.Weighing.{ArePathsOf};

use crate::host_entry::{HostEntry, HostKind};
use host_folders::file_beside;
use std::alloc::{AllocError, Global};
use std::collections::HashSet;

/// The paths of the files of a folder.
#[derive(Drop)]
pub(crate) struct FilePaths<'a> {
    paths: HashSet<&'a str>,
}

/// The paths of the files among entries.
pub(crate) fn file_paths(alloc: Global, entries: &[HostEntry]) -> Result<FilePaths<'_>, AllocError>
    ensures { IfOk result (ArePathsOf (map entry_view entries.now)) }
{
    let mut paths = HashSet::new(alloc);
    for entry in entries {
        if let HostKind::File = entry.kind {
            paths.insert(entry.path.as_str())?;
        }
    }
    Ok(FilePaths { paths })
}

impl FilePaths<'_> {
    /// Whether a path is that of the readable form of one of the files.
    pub(crate) fn has_beside(&self, path: &str) -> bool
        ensures { (entries : List EntryView) → ArePathsOf entries self.now
            → result ≡ has_file_beside entries path.now }
    {
        match file_beside(path) {
            Some(file) => self.paths.contains(file),
            None => false,
        }
    }
}
