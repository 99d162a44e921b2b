// The work that changes a file of a volume where it stands.
ghost use Rattle.std.specs.Prelude.{◌≡◌, Err, IfErr, IfSome, IsTrue, OnOk};
ghost use Rattle.edit_formats.specs.Edited.{HasChanged};
ghost use Rattle.edit_formats.specs.Renamed.{IsRenameRefusal};
ghost use Rattle.edit_formats.specs.Writes.{HasEdited};
ghost use Rattle.file_formats.specs.FileNames.{name_view};
ghost use Rattle.shop_jobs.specs.Job.{edit_view};
ghost use Rattle.shop_changes.specs.EditOutcome.{IsEditOutcome};
ghost use Rattle.shop_changes.specs.EditRules.{edit_rules};
ghost use Rattle.shop_changes.specs.Edits.{AreWritesOf, IsCause, IsOldOrEdited, edited_files};
ghost use Rattle.shop_changes.specs.Refusals.{refusal_of_edit, reply_to_edit_refusal};
ghost use Rattle.vol_format.specs.Fits.{Fits};

use crate::outcome::Outcome;
use a2_device::Device;
use edit_formats::{EditError, SavableFormat};
use file_edits::{delete, lock, rename, unlock};
use file_formats::FileName;
use shop_jobs::Edit;
use shop_replies::{Failure, Refusal, Reply};
use std::alloc::Global;

/// The reply to the refusal of a command that changes a volume.
pub fn edit_refusal_reply(error: EditError) -> Reply
    ensures { result ≡ reply_to_edit_refusal error }
{
    match error {
        EditError::Check => Reply::refused(Refusal::Check),
        EditError::NotFound => Reply::refused(Refusal::NotFound),
        EditError::Name => Reply::refused(Refusal::Name),
        EditError::Exists => Reply::refused(Refusal::Exists),
        EditError::Locked => Reply::refused(Refusal::Locked),
        EditError::TooLong => Reply::refused(Refusal::TooLong),
        EditError::DirFull => Reply::refused(Refusal::DirFull),
        EditError::VolumeFull => Reply::refused(Refusal::VolumeFull),
        EditError::Device => Reply::failed(Failure::Device),
        EditError::Memory => Reply::failed(Failure::Memory),
    }
}

// Changes the first file of a name of a device's volume. Errors are those of the command of `file_edits` that does it.
fn edit_file<D: Device, F: SavableFormat>(
    alloc: Global,
    device: &mut D,
    format: &F,
    edit: &Edit,
    name: FileName<'_>,
) -> Result<(), EditError>
    requires fits { Fits (F.meaning format.now) (D.state device.old) }

    ensures edited { HasEdited (AreWritesOf (edit_view edit.now) (name_view name.entry) (F.files format.now)
        (edit_rules (F.edits format.now) (F.names format.now) (F.erasures format.now) (F.saves format.now))
        (F.meaning format.now) (D.state device.old).store) result (D.state device.old) (D.state device.new) }
    // those of a rename: a lock and a deletion have some of them
    ensures refusals { IfErr result IsRenameRefusal }
    ensures files { IsTrue (D.state device.old).honest → OnOk result (HasChanged (F.meaning format.now)
        (edited_files (edit_view edit.now) (name_view name.entry) (F.files format.now)
        (edit_rules (F.edits format.now) (F.names format.now) (F.erasures format.now) (F.saves format.now)))
        (D.state device.old).store (D.state device.new).store) }
    ensures stopped { IsTrue (D.state device.old).honest → result ≡ Err EditError.Device
        → IsOldOrEdited (edit_view edit.now) (name_view name.entry) (F.files format.now)
        (edit_rules (F.edits format.now) (F.names format.now) (F.erasures format.now) (F.saves format.now))
        (F.meaning format.now) (D.state device.old).store (D.state device.new).store }
    ensures caused { IsTrue (D.state device.old).honest
        → IfErr result (λ error. IfSome (refusal_of_edit error) (λ refusal.
        IsCause refusal (edit_view edit.now) (name_view name.entry) (F.files format.now)
        (edit_rules (F.edits format.now) (F.names format.now) (F.erasures format.now) (F.saves format.now))
        (F.meaning format.now) (D.state device.old).store)) }
{
    match edit {
        Edit::Lock => lock(alloc, device, format, name),
        Edit::Unlock => unlock(alloc, device, format, name),
        Edit::Delete => delete(alloc, device, format, name),
        Edit::Rename { new } => rename(alloc, device, format, name, new.as_bytes()),
    }
}

/// Changes the first file of a name of a device's volume, and tells what became of it.
pub fn edit_in_place<D: Device, F: SavableFormat>(
    alloc: Global,
    device: &mut D,
    format: &F,
    edit: &Edit,
    name: FileName<'_>,
) -> Outcome
    requires fits { Fits (F.meaning format.now) (D.state device.old) }
    ensures { IsEditOutcome (edit_view edit.now) (name_view name.entry) (F.files format.now)
        (edit_rules (F.edits format.now) (F.names format.now) (F.erasures format.now) (F.saves format.now))
        (F.meaning format.now) (D.state device.old) (D.state device.new) result }
{
    match edit_file(alloc, device, format, edit, name) {
        Ok(()) => Outcome::Changed,
        Err(error) => Outcome::Unfinished(edit_refusal_reply(error)),
    }
}
