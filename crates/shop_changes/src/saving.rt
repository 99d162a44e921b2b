// The work that saves a new file to a volume where it stands.
ghost use Rattle.std.specs.Prelude.{◌≡◌, ◌<◌, ◌≤◌, ◌*◌, Err, IfErr, IfSome, IsTrue, OnOk, length};
ghost use Rattle.edit_formats.specs.Writes.{HasEdited};
ghost use Rattle.file_edits.specs.Saved.{IsSaveRefusal};
ghost use Rattle.shop_changes.specs.GivenFile.{content, given_view, most_input, stored_units, unit_bytes};
ghost use Rattle.shop_changes.specs.Refusals.{refusal_of_edit};
ghost use Rattle.shop_changes.specs.SaveOutcome.{IsSaveOutcome, IsSaveTriedOutcome};
ghost use Rattle.shop_changes.specs.Saves.{
  AreSaveWrites,
  HasGivenSaved,
  IsOldOrGivenSaved,
  IsSaveCause,
  attributes_of as said_of,
};
ghost use Rattle.vol_format.specs.Accepted.{IsVolume};
ghost use Rattle.vol_format.specs.Fits.{Fits};

use crate::editing::edit_refusal_reply;
use crate::given_error::GivenError;
use crate::given_file::{FileUnits, GivenFile, MOST_INPUT, file_units};
use crate::outcome::Outcome;
use a2_device::Device;
use edit_formats::{Attributes, EditError, SavableFormat};
use file_edits::{Acceptance, NewFile, save};
use shop_replies::{Failure, Refusal, Reply};
use std::alloc::Global;

// What its owner says of a file, and how many bytes it has.
fn attributes_of(given: &GivenFile<'_>) -> Attributes
    requires { length given.now.bytes.now ≤ most_input }
    ensures { result ≡ said_of (given_view given.now) }
{
    Attributes {
        kind: given.kind,
        aux: given.aux,
        eof: given.bytes.len() as u32,
        date: given.date,
    }
}

// Saves a file with its units, as `file_units` gives them, to a device's volume. Errors are those of `save` of
// `file_edits`.
fn save_file<D: Device, F: SavableFormat>(
    alloc: Global,
    device: &mut D,
    format: &F,
    acceptance: Acceptance,
    path: &[u8],
    given: &GivenFile<'_>,
    file: &FileUnits,
) -> Result<(), EditError>
    requires fits { Fits (F.meaning format.now) (D.state device.old) }
    requires accepted { acceptance ≡ Acceptance.Known → IsTrue (D.state device.old).honest
        → IsVolume (F.meaning format.now) (D.state device.old).store }
    requires short { length given.now.bytes.now ≤ most_input }
    requires stored { file.now.stored.items
        ≡ stored_units (F.meaning format.now).unit_size (content (given_view given.now)) }
    requires units { file.now.units.items
        ≡ unit_bytes (F.meaning format.now).unit_size (content (given_view given.now)) }
    requires sizes { (F.meaning format.now).unit_size * length file.now.stored.items ≡ length file.now.units.items }

    ensures edited { HasEdited (AreSaveWrites path.now (given_view given.now) (F.saves format.now)
        (F.meaning format.now) (D.state device.old).store)
        result (D.state device.old) (D.state device.new) }
    ensures refusals { IfErr result IsSaveRefusal }
    ensures files { IsTrue (D.state device.old).honest
        → OnOk result (HasGivenSaved path.now (given_view given.now) (F.saves format.now) (F.meaning format.now)
        (D.state device.old).store (D.state device.new).store) }
    ensures stopped { IsTrue (D.state device.old).honest → result ≡ Err EditError.Device
        → IsOldOrGivenSaved path.now (given_view given.now) (F.saves format.now) (F.meaning format.now)
        (D.state device.old).store (D.state device.new).store }
    ensures caused { IsTrue (D.state device.old).honest
        → IfErr result (λ error. IfSome (refusal_of_edit error) (λ refusal.
        IsSaveCause refusal path.now (given_view given.now) (F.saves format.now) (F.meaning format.now)
        (D.state device.old).store)) }
{
    let attributes = attributes_of(given);
    let new_file = NewFile {
        path,
        attributes: &attributes,
        stored: file.stored.as_slice(),
        units: file.units.as_slice(),
    };
    save(alloc, device, format, acceptance, &new_file)
}

// Saves a file with its units, and tells what became of it.
fn save_units<D: Device, F: SavableFormat>(
    alloc: Global,
    device: &mut D,
    format: &F,
    acceptance: Acceptance,
    path: &[u8],
    given: &GivenFile<'_>,
    file: &FileUnits,
) -> Outcome
    requires fits { Fits (F.meaning format.now) (D.state device.old) }
    requires accepted { acceptance ≡ Acceptance.Known → IsTrue (D.state device.old).honest
        → IsVolume (F.meaning format.now) (D.state device.old).store }
    requires short { length given.now.bytes.now ≤ most_input }
    requires stored { file.now.stored.items
        ≡ stored_units (F.meaning format.now).unit_size (content (given_view given.now)) }
    requires units { file.now.units.items
        ≡ unit_bytes (F.meaning format.now).unit_size (content (given_view given.now)) }
    requires sizes { (F.meaning format.now).unit_size * length file.now.stored.items ≡ length file.now.units.items }
    ensures { IsSaveTriedOutcome path.now (given_view given.now) (F.saves format.now) (F.meaning format.now)
        (D.state device.old) (D.state device.new) result }
{
    match save_file(alloc, device, format, acceptance, path, given, file) {
        Ok(()) => Outcome::Changed,
        Err(error) => Outcome::Unfinished(edit_refusal_reply(error)),
    }
}

/// Saves a new file to a device's volume, and tells what became of it. Where it is known that the volume is accepted,
/// it is not checked first.
pub fn save_in_place<D: Device, F: SavableFormat>(
    alloc: Global,
    device: &mut D,
    format: &F,
    acceptance: Acceptance,
    path: &[u8],
    given: GivenFile<'_>,
) -> Outcome
    requires fits { Fits (F.meaning format.now) (D.state device.old) }
    requires accepted { acceptance ≡ Acceptance.Known → IsTrue (D.state device.old).honest
        → IsVolume (F.meaning format.now) (D.state device.old).store }
    requires size { 0 < (D.state device.old).unit_size }
    ensures { IsSaveOutcome path.now (given_view given.entry) (F.saves format.now) (F.meaning format.now)
        (D.state device.old) (D.state device.new) result }
{
    if given.bytes.len() > MOST_INPUT {
        return Outcome::Unfinished(Reply::refused(Refusal::InputTooLong));
    }
    match file_units(alloc, &given, device.unit()) {
        Ok(file) => save_units(alloc, device, format, acceptance, path, &given, &file),
        Err(GivenError::TooLong) => Outcome::Unfinished(Reply::refused(Refusal::TooLong)),
        Err(GivenError::Memory) => Outcome::Unfinished(Reply::failed(Failure::Memory)),
    }
}
