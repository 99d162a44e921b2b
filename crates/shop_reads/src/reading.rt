// The job that reads a file of a volume.
ghost use Rattle.std.specs.Prelude.{◌≡◌, false, Err, IfNone, IfOk, IfSome, IsTrue, List, ℕ};
ghost use Rattle.a2_device.specs.Device.{OnlyReads};
ghost use Rattle.file_cmds.specs.Read.{HasNoFile, IsUnreadable};
ghost use Rattle.file_cmds.specs.Refusal.{told_device};
ghost use Rattle.file_formats.specs.FileNames.{name_view};
ghost use Rattle.shop_reads.specs.FileForms.{IsInWantedForm, LacksWantedForm};
ghost use Rattle.shop_reads.specs.ReadReply.{HandsContent, IsContentAt, IsRead, LacksFormAt, OfFileAt};
ghost use Rattle.shop_volumes.specs.TellingFailures.{FailsForLack, tells_device};
ghost use Rattle.vol_format.specs.Fits.{Fits};

use crate::listing::{ShownFormat, refusal_reply};
use crate::wanted_forms::entry_in_form;
use a2_device::Device;
use file_cmds::{CmdError, read, read_entry, read_volume};
use file_formats::{FileName, find};
use shop_jobs::ReadForm;
use shop_replies::{Refusal, Reply};
use std::alloc::Global;

// The first file of a name, in the form that is wanted of it; `None` where it has no such form.
fn read_form<D: Device, F: ShownFormat>(
    alloc: Global,
    device: &mut D,
    format: &F,
    name: FileName<'_>,
    form: ReadForm,
) -> Result<Option<Vec<u8>>, CmdError>
    requires fits { Fits (F.meaning format.now) (D.state device.old) }

    ensures device { OnlyReads (told_device result) (D.state device.old) (D.state device.new) }
    ensures some { IsTrue (D.state device.old).honest → IfOk result (λ read. IfSome read (λ bytes.
        OfFileAt (F.form format.now) (F.files format.now) (F.meaning format.now) (D.state device.old).store
        (name_view name.entry) (λ file. IsInWantedForm form file bytes.items))) }
    ensures none { IsTrue (D.state device.old).honest → IfOk result (λ read. IfNone read
        (OfFileAt (F.form format.now) (F.files format.now) (F.meaning format.now) (D.state device.old).store
        (name_view name.entry) (LacksWantedForm form))) }
    ensures check { IsTrue (D.state device.old).honest → result ≡ Err CmdError.Check
        → IsUnreadable (F.meaning format.now) (F.files format.now) (D.state device.old).store (name_view name.entry) }
    ensures not_found { IsTrue (D.state device.old).honest → result ≡ Err CmdError.NotFound
        → HasNoFile (F.meaning format.now) (F.files format.now) (D.state device.old).store (name_view name.entry) }
{
    let volume = read_volume(device, format)?;
    let Some(file) = find(format, &volume, name) else {
        return Err(CmdError::NotFound);
    };
    let whole = read_entry(alloc, device, format, &volume, file, true)?;
    let read = entry_in_form(alloc, format, &volume, file, whole.as_slice(), form)?;
    Ok(read)
}

// The first file of a name: its body, all of its units, or a form of it; `None` where it has no such form.
fn read_content<D: Device, F: ShownFormat>(
    alloc: Global,
    device: &mut D,
    format: &F,
    name: FileName<'_>,
    form: ReadForm,
) -> Result<Option<Vec<u8>>, CmdError>
    requires fits { Fits (F.meaning format.now) (D.state device.old) }

    ensures device { OnlyReads (told_device result) (D.state device.old) (D.state device.new) }
    ensures some { IsTrue (D.state device.old).honest → IfOk result (λ read. IfSome read (λ bytes.
        IsContentAt (F.form format.now) (F.files format.now) (F.meaning format.now) (D.state device.old).store
        (name_view name.entry) form bytes.items)) }
    ensures none { IsTrue (D.state device.old).honest → IfOk result (λ read. IfNone read
        (LacksFormAt (F.form format.now) (F.files format.now) (F.meaning format.now) (D.state device.old).store
        (name_view name.entry) form)) }
    ensures check { IsTrue (D.state device.old).honest → result ≡ Err CmdError.Check
        → IsUnreadable (F.meaning format.now) (F.files format.now) (D.state device.old).store (name_view name.entry) }
    ensures not_found { IsTrue (D.state device.old).honest → result ≡ Err CmdError.NotFound
        → HasNoFile (F.meaning format.now) (F.files format.now) (D.state device.old).store (name_view name.entry) }
{
    match form {
        ReadForm::Body => Ok(Some(read(alloc, device, format, name, false)?)),
        ReadForm::Whole => Ok(Some(read(alloc, device, format, name, true)?)),
        ReadForm::As(_) | ReadForm::Shown => read_form(alloc, device, format, name, form),
    }
}

// The bytes of a file are told, or go to a new file.
fn content_reply(to_file: bool, content: Vec<u8>) -> Reply
    ensures told { HandsContent to_file (λ bytes. bytes ≡ content.items) result }
    ensures quiet { tells_device result ≡ false }
{
    if to_file {
        Reply::made(content)
    } else {
        Reply::content(content)
    }
}

/// The first file of a name of the volume on a device, as it is wanted: told, or for a new file.
pub fn read_reply<D: Device, F: ShownFormat>(
    alloc: Global,
    device: &mut D,
    format: &F,
    name: FileName<'_>,
    form: ReadForm,
    to_file: bool,
) -> Reply
    requires fits { Fits (F.meaning format.now) (D.state device.old) }
    ensures reads { OnlyReads (tells_device result) (D.state device.old) (D.state device.new) }
    ensures told { IsTrue (D.state device.old).honest → FailsForLack (D.state device.old) result
        → IsRead (name_view name.entry) form to_file (F.form format.now)
        (F.files format.now) (F.meaning format.now) (D.state device.old) result }
{
    match read_content(alloc, device, format, name, form) {
        Ok(Some(content)) => content_reply(to_file, content),
        Ok(None) => Reply::refused(Refusal::Form),
        Err(error) => refusal_reply(error),
    }
}
