// Room for a file in the place of another one: the other one is deleted.
ghost use Rattle.std.specs.Prelude.{◌≡◌, ◌↔◌, IfErr, IfOk, IsTrue, OnOk};
ghost use Rattle.a2_device.specs.Device.{IsSameDevice};
ghost use Rattle.shop_changes.specs.EditRules.{edit_rules};
ghost use Rattle.shop_changes.specs.GivenFile.{given_view};
ghost use Rattle.shop_changes.specs.Replaced.{
  IsCleared,
  IsMadeWay,
  IsNoWay,
  IsNotCleared,
  IsTooLongAsSaid,
  aux_kept,
  given_over,
};
ghost use Rattle.shop_changes.specs.SaidFile.{said_view};
ghost use Rattle.vol_format.specs.Fits.{Fits};

use crate::editing::edit_refusal_reply;
use crate::given_file::{GivenFile, is_too_long};
use crate::given_words::text_kind;
use crate::replaced_file::{ReplacedFile, find_replaced};
use crate::said_file::SaidFile;
use a2_device::Device;
use edit_formats::{EditError, SavableFormat};
use file_edits::delete;
use file_formats::FileName;
use shop_jobs::FileSystem;
use shop_replies::{Refusal, Reply, form_of};
use std::alloc::Global;

// Whether the type is said, and the file is too long for its head.
fn is_too_long_as_said(said: SaidFile<'_>) -> bool
    ensures { IsTrue result ↔ IsTooLongAsSaid (said_view said.entry) }
{
    match said.kind {
        Some(kind) => is_too_long(&said.given_with(kind, 0, said.bytes)),
        None => false,
    }
}

// The auxiliary type that stays: that of the old file, but of a file that becomes a text 0.
fn aux_kept(file_system: FileSystem, kind: u8, old: ReplacedFile) -> u16
    ensures { result ≡ aux_kept file_system kind old }
{
    let text = text_kind(file_system);
    if kind == text && old.kind != text {
        0
    } else {
        old.aux
    }
}

// The file that is given in the place of another one.
fn given_over<'a>(said: SaidFile<'a>, unsaid: u8, replaced: Option<ReplacedFile>) -> GivenFile<'a>
    ensures { given_view result ≡ given_over (said_view said.entry) unsaid replaced }
{
    match replaced {
        Some(old) => {
            let kind = said.kind.unwrap_or(old.kind);
            let aux = aux_kept(said.file_system, kind, old);
            said.given_with(kind, aux, said.bytes)
        }
        None => {
            let kind = said.kind.unwrap_or(unsaid);
            said.given_with(kind, 0, said.bytes)
        }
    }
}

// Deletes the first file with a path, if there is one.
fn delete_if_there<D: Device, F: SavableFormat>(
    alloc: Global,
    device: &mut D,
    format: &F,
    path: &[u8],
) -> Result<(), EditError>
    requires fits { Fits (F.meaning format.now) (D.state device.old) }
    ensures same { IsSameDevice (D.state device.old) (D.state device.new) }
    ensures cleared { IsTrue (D.state device.old).honest → OnOk result (IsCleared path.now (F.files format.now)
        (edit_rules (F.edits format.now) (F.names format.now) (F.erasures format.now) (F.saves format.now))
        (F.meaning format.now) (D.state device.old) (D.state device.new)) }
    ensures refused { IsTrue (D.state device.old).honest → IfErr result (λ error. IsNotCleared error path.now
        (F.files format.now)
        (edit_rules (F.edits format.now) (F.names format.now) (F.erasures format.now) (F.saves format.now))
        (F.meaning format.now) (D.state device.old) (D.state device.new)) }
{
    match delete(alloc, device, format, FileName::Path(path)) {
        Ok(()) => Ok(()),
        Err(error) => {
            if error == EditError::NotFound {
                Ok(())
            } else {
                Err(error)
            }
        }
    }
}

// Deletes the file with a path, if there is one, and answers what is saved in its place.
fn clear<'a, D: Device, F: SavableFormat>(
    alloc: Global,
    device: &mut D,
    format: &F,
    path: &[u8],
    said: SaidFile<'a>,
    unsaid: u8,
) -> Result<GivenFile<'a>, EditError>
    requires fits { Fits (F.meaning format.now) (D.state device.old) }
    requires fits_head { ¬ IsTooLongAsSaid (said_view said) }
    ensures same { IsSameDevice (D.state device.old) (D.state device.new) }
    ensures made { IsTrue (D.state device.old).honest → IfOk result (λ given. IsMadeWay path.now (said_view said.entry)
        unsaid (F.files format.now)
        (edit_rules (F.edits format.now) (F.names format.now) (F.erasures format.now) (F.saves format.now))
        (F.meaning format.now) (D.state device.old) (D.state device.new) (given_view given)) }
    ensures refused { IsTrue (D.state device.old).honest → IfErr result (λ error. IsNotCleared error path.now
        (F.files format.now)
        (edit_rules (F.edits format.now) (F.names format.now) (F.erasures format.now) (F.saves format.now))
        (F.meaning format.now) (D.state device.old) (D.state device.new)) }
{
    let form = form_of(said.file_system);
    let replaced = find_replaced(alloc, device, format, form, path, said.aux)?;
    delete_if_there(alloc, device, format, path)?;
    Ok(given_over(said, unsaid, replaced))
}

/// Deletes the first file with a path, if there is one, and answers what is to be saved in its place: the bytes that
/// are said, with the type and the auxiliary type of the old file where the words leave them out; what becomes a text
/// has no address. Where no file has the path, the type is `unsaid` if none is said. Until that is saved, the volume
/// has neither, so it is done on a device in memory alone.
///
/// # Errors
/// The reply `REFUSED TooLong` for a file that is too long for the head of the type that is said; then what the
/// deletion tells.
pub fn make_way<'a, D: Device, F: SavableFormat>(
    alloc: Global,
    device: &mut D,
    format: &F,
    path: &[u8],
    said: SaidFile<'a>,
    unsaid: u8,
) -> Result<GivenFile<'a>, Reply>
    requires fits { Fits (F.meaning format.now) (D.state device.old) }
    ensures same { IsSameDevice (D.state device.old) (D.state device.new) }
    ensures made { IsTrue (D.state device.old).honest → IfOk result (λ given. IsMadeWay path.now (said_view said.entry)
        unsaid (F.files format.now)
        (edit_rules (F.edits format.now) (F.names format.now) (F.erasures format.now) (F.saves format.now))
        (F.meaning format.now) (D.state device.old) (D.state device.new) (given_view given)) }
    ensures refused { IsTrue (D.state device.old).honest → IfErr result (IsNoWay path.now (said_view said.entry)
        (F.files format.now)
        (edit_rules (F.edits format.now) (F.names format.now) (F.erasures format.now) (F.saves format.now))
        (F.meaning format.now) (D.state device.old) (D.state device.new)) }
{
    if is_too_long_as_said(said) {
        return Err(Reply::refused(Refusal::TooLong));
    }
    match clear(alloc, device, format, path, said, unsaid) {
        Ok(given) => Ok(given),
        Err(error) => Err(edit_refusal_reply(error)),
    }
}
