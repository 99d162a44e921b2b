// The readable forms that stand beside files.
ghost use Rattle.std.specs.Prelude.{◌≡◌, ◌≢◌, true, IfNone, IfOk, IfSome, List, OnOk, map, ℕ};
ghost use Rattle.folder_adding.specs.HostEntries.{EntryView, entry_view, is_file, readable_path, second_at};
ghost use Rattle.folder_adding.specs.Weighing.{AreFilesOf, AreNumbersOf, PutsFirst};

use crate::beside::{FilePaths, file_paths};
use crate::host_entry::{HostEntry, HostKind};
use host_folders::file_beside;
use std::alloc::{AllocError, Global};
use std::collections::HashMap;

/// The numbers of readable forms, by the paths of the files beside which they stand.
#[derive(Drop)]
pub(crate) struct FormNumbers<'a> {
    numbers: HashMap<&'a str, usize>,
}

/// The files of a folder.
#[derive(Drop)]
pub(crate) struct FolderFiles<'a> {
    pub paths: FilePaths<'a>,
    pub forms: FormNumbers<'a>,
}

impl<'a> FormNumbers<'a> {
    // Puts a number at a path where none is.
    fn put_first(&mut self, path: &'a str, number: usize) -> Result<(), AllocError>
        ensures { OnOk result (PutsFirst path.now number self.old self.new) }
    {
        if !self.numbers.contains_key(path) {
            self.numbers.insert(path, number)?;
        }
        Ok(())
    }

    /// The number of the readable form that stands beside the file of a path.
    pub(crate) fn second_at(&self, path: &str) -> Option<usize>
        ensures { (entries : List EntryView) → AreNumbersOf entries self.now → result ≡ second_at entries path.now }
    {
        self.numbers.get(path).copied()
    }
}

// The path beside which an entry stands as the readable form of a file.
fn path_beside(entry: &HostEntry) -> Option<&str>
    ensures some { IfSome result (λ file. (is_file entry.now.kind ≡ true)
        × ((entry_view entry.now).path ≡ readable_path file.now)) }
    ensures none { IfNone result ((file : List ℕ) → is_file entry.now.kind ≡ true
        → (entry_view entry.now).path ≢ readable_path file) }
{
    match entry.kind {
        HostKind::File => file_beside(entry.path.as_str()),
        HostKind::Folder | HostKind::Other => None,
    }
}

// The readable forms among entries.
fn form_numbers(alloc: Global, entries: &[HostEntry]) -> Result<FormNumbers<'_>, AllocError>
    ensures { IfOk result (AreNumbersOf (map entry_view entries.now)) }
{
    let mut forms = FormNumbers {
        numbers: HashMap::new(alloc),
    };
    for (number, entry) in entries.iter().enumerate() {
        if let Some(file) = path_beside(entry) {
            forms.put_first(file, number)?;
        }
    }
    Ok(forms)
}

/// The files among entries.
pub(crate) fn folder_files(
    alloc: Global,
    entries: &[HostEntry],
) -> Result<FolderFiles<'_>, AllocError>
    ensures { IfOk result (AreFilesOf (map entry_view entries.now)) }
{
    let paths = file_paths(alloc, entries)?;
    let forms = form_numbers(alloc, entries)?;
    Ok(FolderFiles { paths, forms })
}
