// What is read for an item: its file, and the readable form beside that.
ghost use Rattle.std.specs.Prelude.{◌≡◌, ◌≤◌, IfErr, IfOk, OnOk, length};
ghost use Rattle.file_forms.specs.Found.{file_view};
ghost use Rattle.folder_adding.specs.Items.{item_view};
ghost use Rattle.folder_adding.specs.Reads.{
  GivesBack,
  IsAlike,
  IsItemRead,
  IsItemUnread,
  IsUnlike,
  TellsUnlike,
  host_file,
};
ghost use Rattle.shop_changes.specs.GivenFile.{most_input};

use crate::host_files::HostFiles;
use crate::item::{Item, Second};
use apple_single::FileInfo;
use file_forms::{FileForm, FoundFile, is_taken_back};
use shop_changes::MOST_INPUT;
use shop_jobs::FileSystem;
use shop_replies::{Failure, Refusal, Reply, form_of};
use std::alloc::Global;

/// What is told of a file that has this number.
#[derive(Drop)]
pub(crate) struct FileReply {
    pub file: usize,
    pub reply: Reply,
}

// A file of the host with these bytes, as one that was read of a volume.
fn found(file_system: FileSystem, bytes: &[u8]) -> FoundFile<'_>
    ensures { file_view result ≡ host_file file_system bytes.now }
{
    FoundFile {
        system: form_of(file_system),
        name: &[],
        info: FileInfo {
            access: 0,
            file_type: 0,
            aux_type: 0,
        },
        whole: bytes,
        body: bytes,
    }
}

// Looks whether just the bytes of a file are taken from what its readable form has.
fn weigh_given(
    alloc: Global,
    file_system: FileSystem,
    form: FileForm,
    bytes: &[u8],
    given: &[u8],
) -> Result<(), Reply>
    ensures short { OnOk result (length given.now ≤ most_input) }
    ensures alike { OnOk result (GivesBack file_system form given.now bytes.now) }
    ensures unlike { IfErr result (TellsUnlike file_system form bytes.now given.now) }
{
    if given.len() > MOST_INPUT {
        return Err(Reply::refused(Refusal::InputTooLong));
    }
    match is_taken_back(alloc, form, &found(file_system, bytes), given) {
        Ok(true) => Ok(()),
        Ok(false) => Err(Reply::refused(Refusal::Differs)),
        Err(_) => Err(Reply::failed(Failure::Memory)),
    }
}

// Reads the readable form beside a file, and looks whether just the bytes of that are taken from it.
fn weigh_second<H: HostFiles>(
    alloc: Global,
    file_system: FileSystem,
    second: Second,
    bytes: &[u8],
    files: &mut H,
) -> Result<(), Reply>
    ensures files { H.holds files.new ≡ H.holds files.old }
    ensures alike { OnOk result (IsAlike file_system (H.holds files.old) bytes.now second) }
    ensures unlike { IfErr result (IsUnlike H.may_fail file_system (H.holds files.old) bytes.now second) }
{
    match files.read(alloc, second.file) {
        Ok(given) => weigh_given(alloc, file_system, second.form, bytes, given.as_slice()),
        Err(failure) => Err(Reply::failed(failure)),
    }
}

/// Reads the file of an item, and where that is not too long and a readable form stands beside it, that too.
///
/// # Errors
/// One of them can't be read, or just the bytes of the file are not taken from its readable form.
pub(crate) fn read_item<H: HostFiles>(
    alloc: Global,
    file_system: FileSystem,
    item: &Item,
    file: usize,
    files: &mut H,
) -> Result<Vec<u8>, FileReply>
    ensures files { H.holds files.new ≡ H.holds files.old }
    ensures read { IfOk result (λ bytes. IsItemRead file_system (H.holds files.old) file (item_view item.now)
        bytes.items) }
    ensures unread { IfErr result (λ told. IsItemUnread H.may_fail file_system (H.holds files.old) file
        (item_view item.now) told.file told.reply) }
{
    let bytes = match files.read(alloc, file) {
        Ok(bytes) => bytes,
        Err(failure) => {
            let reply = Reply::failed(failure);
            return Err(FileReply { file, reply });
        }
    };
    if bytes.len() > MOST_INPUT {
        return Ok(bytes);
    }
    let Some(second) = item.second else {
        return Ok(bytes);
    };
    match weigh_second(alloc, file_system, second, bytes.as_slice(), files) {
        Ok(()) => Ok(bytes),
        Err(reply) => Err(FileReply {
            file: second.file,
            reply,
        }),
    }
}
