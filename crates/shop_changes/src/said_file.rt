// The file that words and bytes give.
ghost use Rattle.std.specs.Prelude.{◌≡◌, ◌<◌, ◌≤◌, IfErr, IfOk, IsTrue, Some, length};
ghost use Rattle.file_forms.specs.Taken.{IsTakenFrom, taken_view};
ghost use Rattle.shop_changes.specs.GivenFile.{given_view, most_input};
ghost use Rattle.shop_changes.specs.SaidFile.{
  IsNotGivenIn,
  IsSaidOutcome,
  TellsBadLine,
  given_with,
  kind_of,
  said_view,
};
ghost use Rattle.shop_replies.specs.Volume.{form_of as place_form};
ghost use Rattle.vol_format.specs.Accepted.{IsVolume};
ghost use Rattle.vol_format.specs.Fits.{Fits};

use crate::given_file::{GivenFile, MOST_INPUT};
use crate::given_words::{head_of, kind_for, usual_kind};
use crate::outcome::Outcome;
use crate::saving::save_in_place;
use a2_device::Device;
use edit_formats::SavableFormat;
use file_edits::Acceptance;
use file_forms::{GivenForm, TakenFile, TakingError, taken_from};
use pro_dir::ProDate;
use shop_jobs::FileSystem;
use shop_replies::{Failure, Refusal, Reply, form_of};
use std::alloc::Global;

/// The type of a binary file.
const BINARY: u8 = 0x06;

/// A new file as words and bytes say it.
#[derive(Clone, Copy)]
pub struct SaidFile<'a> {
    pub file_system: FileSystem,
    /// The type, where one is said.
    pub kind: Option<u8>,
    /// The aux type or the address, where one is said.
    pub aux: Option<u16>,
    pub date: ProDate,
    /// The form in which the bytes give it; `None` is as they are.
    pub form: Option<GivenForm>,
    pub bytes: &'a [u8],
}

impl SaidFile<'_> {
    // The file with this type, this aux type where none is said, and these bytes.
    pub(crate) fn given_with<'b>(self, kind: u8, aux: u16, bytes: &'b [u8]) -> GivenFile<'b>
        ensures { given_view result ≡ given_with (said_view self.entry) kind aux bytes.now }
    {
        GivenFile {
            kind,
            aux: self.aux.unwrap_or(aux),
            date: self.date,
            head: head_of(self.file_system, kind),
            bytes,
        }
    }

    // The type that is said, or that of the file system for what was taken: where that has none, a binary file's.
    pub(crate) fn kind_of(self, file: &TakenFile) -> Option<u8>
        ensures { result ≡ kind_of (said_view self.entry) (taken_view file.now) }
    {
        match self.kind {
            Some(kind) => Some(kind),
            None => kind_for(self.file_system, file.file_type.unwrap_or(BINARY)),
        }
    }
}

// The reply to a line that can't be taken.
fn bad_line_reply(alloc: Global, line: u64) -> Reply
    ensures { TellsBadLine line result }
{
    match format!(in alloc; "REFUSED Text {line}\n") {
        Ok(text) => Reply::unopened(text),
        Err(_) => Reply::failed(Failure::Memory),
    }
}

// What is taken from the form in which a file is given, or the reply to what can't be.
pub(crate) fn taken_file(
    alloc: Global,
    said: SaidFile<'_>,
    form: GivenForm,
) -> Result<TakenFile, Reply>
    ensures taken { IfOk result (λ file. IsTakenFrom (place_form said.entry.file_system) form said.entry.bytes.now
        (taken_view file)) }
    ensures refused { IfErr result (IsNotGivenIn (said_view said.entry) form) }
{
    match taken_from(alloc, form_of(said.file_system), form, said.bytes) {
        Ok(file) => Ok(file),
        Err(TakingError::BadLine(line)) => Err(bad_line_reply(alloc, line)),
        Err(TakingError::Single) => Err(Reply::refused(Refusal::Single)),
        Err(TakingError::Memory) => Err(Reply::failed(Failure::Memory)),
    }
}

// Saves the file that is given in a form.
fn save_from_form<D: Device, F: SavableFormat>(
    alloc: Global,
    device: &mut D,
    format: &F,
    acceptance: Acceptance,
    path: &[u8],
    said: SaidFile<'_>,
    form: GivenForm,
) -> Outcome
    requires fits { Fits (F.meaning format.now) (D.state device.old) }
    requires accepted { acceptance ≡ Acceptance.Known → IsTrue (D.state device.old).honest
        → IsVolume (F.meaning format.now) (D.state device.old).store }
    requires size { 0 < (D.state device.old).unit_size }
    requires short { length said.bytes.now ≤ most_input }
    requires form { said.form ≡ Some form }
    ensures { IsSaidOutcome path.now (said_view said.entry) (F.saves format.now) (F.meaning format.now)
        (D.state device.old) (D.state device.new) result }
{
    let file = match taken_file(alloc, said, form) {
        Ok(file) => file,
        Err(reply) => return Outcome::Unfinished(reply),
    };
    match said.kind_of(&file) {
        Some(kind) => {
            let aux = file.aux_type.unwrap_or(0);
            let given = said.given_with(kind, aux, file.bytes.as_slice());
            save_in_place(alloc, device, format, acceptance, path, given)
        }
        None => Outcome::Unfinished(Reply::refused(Refusal::Type)),
    }
}

/// Saves the file that words and bytes give to a device's volume, and tells what became of it. Where it is known that
/// the volume is accepted, it is not checked first.
pub fn save_said<D: Device, F: SavableFormat>(
    alloc: Global,
    device: &mut D,
    format: &F,
    acceptance: Acceptance,
    path: &[u8],
    said: SaidFile<'_>,
) -> Outcome
    requires fits { Fits (F.meaning format.now) (D.state device.old) }
    requires accepted { acceptance ≡ Acceptance.Known → IsTrue (D.state device.old).honest
        → IsVolume (F.meaning format.now) (D.state device.old).store }
    requires size { 0 < (D.state device.old).unit_size }
    ensures { IsSaidOutcome path.now (said_view said.entry) (F.saves format.now) (F.meaning format.now)
        (D.state device.old) (D.state device.new) result }
{
    if said.bytes.len() > MOST_INPUT {
        return Outcome::Unfinished(Reply::refused(Refusal::InputTooLong));
    }
    match said.form {
        Some(form) => save_from_form(alloc, device, format, acceptance, path, said, form),
        None => {
            let kind = said.kind.unwrap_or(usual_kind(said.file_system));
            let given = said.given_with(kind, 0, said.bytes);
            save_in_place(alloc, device, format, acceptance, path, given)
        }
    }
}
