// What becomes of an entry of a folder.
ghost use Rattle.std.specs.Prelude.{◌≡◌, ◌&&◌, IfOk, List};
ghost use Rattle.folder_adding.specs.HostEntries.{EntryView, entry_view, has_file_beside};
ghost use Rattle.folder_adding.specs.Verdicts.{
  IsFileVerdict,
  IsFolderVerdict,
  IsVerdict,
  form_beside,
  form_given,
  high_bit,
  is_readable,
  second_of,
};
ghost use Rattle.folder_adding.specs.Weighing.{AreFilesOf, folder_at, verdict_view};
ghost use Rattle.host_folders.specs.HostEntries.{file_view};

use crate::host_entry::{HostEntry, HostKind};
use crate::item::{Item, Second};
use crate::said_path::{HostDirectory, HostPath};
use crate::seconds::FolderFiles;
use crate::step::{Destination, Step, Weighed};
use crate::volume_path::{pro_path, volume_path};
use apple_text::HighBit;
use file_forms::{FileForm, GivenForm};
use host_folders::{Content, HostFile};
use shop_changes::kind_for;
use shop_jobs::FileSystem;
use shop_replies::Refusal;
use std::alloc::{AllocError, Global};

/// The type of directories, which no file has.
const DIRECTORY_TYPE: u8 = 0x0f;

// The highest bit of the bytes of a text.
fn high_bit(file_system: FileSystem) -> HighBit
    ensures { result ≡ high_bit file_system }
{
    match file_system {
        FileSystem::Dos => HighBit::On,
        FileSystem::Prodos => HighBit::Off,
    }
}

// The form in which the bytes of a file give it.
fn form_given(file_system: FileSystem, content: Content) -> Option<GivenForm>
    ensures { result ≡ form_given file_system content }
{
    match content {
        Content::Bytes => None,
        Content::Text => Some(GivenForm::Text(high_bit(file_system))),
        Content::Program => Some(GivenForm::Applesoft),
    }
}

// Whether the bytes of a file are a readable form of it.
fn is_readable(content: Content) -> bool
    ensures { result ≡ is_readable content }
{
    match content {
        Content::Bytes => false,
        Content::Text | Content::Program => true,
    }
}

// Whether a file is the readable form of one that stands beside it.
fn is_second(files: &FolderFiles<'_>, path: &str, content: Content) -> bool
    ensures { (entries : List EntryView) → AreFilesOf entries files.now
        → result ≡ (is_readable content && has_file_beside entries path.now) }
{
    is_readable(content) && files.paths.has_beside(path)
}

// How bytes are taken from the readable form that may stand beside a file.
fn form_beside(content: Content, file_type: u8) -> Option<FileForm>
    ensures { result ≡ form_beside content file_type }
{
    match (content, file_type) {
        (Content::Bytes, 0x04) => Some(FileForm::Text),
        (Content::Bytes, 0xfc) => Some(FileForm::Applesoft),
        _ => None,
    }
}

// The readable form that stands beside a file.
fn second_of(files: &FolderFiles<'_>, path: &str, file: &HostFile<Global>) -> Option<Second>
    ensures { (entries : List EntryView) → AreFilesOf entries files.now
        → result ≡ second_of entries path.now (file_view file.now) }
{
    match (
        form_beside(file.content, file.file_type),
        files.forms.second_at(path),
    ) {
        (Some(form), Some(file)) => Some(Second { file, form }),
        _ => None,
    }
}

// What becomes of a folder.
fn weigh_folder(
    alloc: Global,
    destination: &Destination<'_>,
    path: &str,
) -> Result<Weighed, AllocError>
    ensures { (entries : List EntryView) → IfOk result
        (λ weighed. IsFolderVerdict (folder_at destination.now entries) path.now (verdict_view weighed)) }
{
    let Some(said) = HostDirectory::read(alloc, destination.file_system, path)? else {
        return Ok(Weighed::Refused(Refusal::Host));
    };
    let directories = said.directories.as_slice();
    match pro_path(alloc, destination.into, directories, said.name.as_slice())? {
        Some(path) => Ok(Weighed::Step(Step::Makes(path))),
        None => Ok(Weighed::Refused(Refusal::Name)),
    }
}

// What becomes of a file.
fn weigh_file(
    alloc: Global,
    destination: &Destination<'_>,
    files: &FolderFiles<'_>,
    path: &str,
) -> Result<Weighed, AllocError>
    ensures { (entries : List EntryView) → AreFilesOf entries files.now → IfOk result
        (λ weighed. IsFileVerdict (folder_at destination.now entries) path.now (verdict_view weighed)) }
{
    let file_system = destination.file_system;
    let Some(said) = HostPath::read(alloc, file_system, path)? else {
        return Ok(Weighed::Refused(Refusal::Host));
    };
    if said.file.file_type == DIRECTORY_TYPE {
        return Ok(Weighed::Refused(Refusal::Host));
    }
    if is_second(files, path, said.file.content) {
        return Ok(Weighed::Step(Step::Passes));
    }
    let Some(kind) = kind_for(file_system, said.file.file_type) else {
        return Ok(Weighed::Refused(Refusal::Type));
    };
    let second = second_of(files, path, &said.file);
    let Some(path) = volume_path(alloc, destination, &said)? else {
        return Ok(Weighed::Refused(Refusal::Name));
    };
    Ok(Weighed::Step(Step::Adds(Item {
        path,
        kind: Some(kind),
        aux: Some(said.file.aux_type),
        form: form_given(file_system, said.file.content),
        second,
    })))
}

/// What becomes of an entry.
pub(crate) fn weigh(
    alloc: Global,
    destination: &Destination<'_>,
    files: &FolderFiles<'_>,
    entry: &HostEntry,
) -> Result<Weighed, AllocError>
    ensures { (entries : List EntryView) → AreFilesOf entries files.now → IfOk result
        (λ weighed. IsVerdict (folder_at destination.now entries) (entry_view entry.now) (verdict_view weighed)) }
{
    let path = entry.path.as_str();
    match entry.kind {
        HostKind::File => weigh_file(alloc, destination, files, path),
        HostKind::Folder => weigh_folder(alloc, destination, path),
        HostKind::Other => Ok(Weighed::Refused(Refusal::Host)),
    }
}
