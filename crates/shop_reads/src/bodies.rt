// The job that checks a volume with the bodies of its files.
ghost use Rattle.std.specs.Prelude.{
  ◌≡◌,
  ◌<◌,
  ◌++◌,
  [],
  ◌∷◌,
  ℕ,
  length,
  not,
  if◌then◌else◌,
  All,
  Contains,
  IfOk,
  IsFalse,
  IsTrue,
  OnOk,
  flat_map,
  string_bytes,
  Some,
};
ghost use Rattle.a2_device.specs.Device.{FailsRead, OnlyReads};
ghost use Rattle.a2_device.specs.declared.part.Part.{Part};
ghost use Rattle.file_cmds.specs.ReadingOn.{FailedAt, ReadsOn};
ghost use Rattle.vol_check.specs.Told.{told_of, volume_of};
ghost use Rattle.vol_format.specs.Directory.{entries};
ghost use Rattle.vol_format.specs.Fits.{Fits};
ghost use Rattle.shop_reads.specs.BodiesReply.{
  IsCheckedWhole,
  TellsBodies,
  TellsUnread,
  unread_line,
  unread_parts,
  unread_text,
};
ghost use Rattle.shop_reads.specs.GoingOn.{FailsForLackBy, ReadsBy, TellsUnit};

use crate::check::{accepted_reply, faults_reply, refused_reply};
use crate::listing::ShownFormat;
use a2_device::{Device, Part};
use file_formats::FileFormat;
use file_listings::ShownPath;
use shop_replies::{Failure, Reply};
use std::alloc::{AllocError, Global};
use std::fmt;
use vol_check::{Checked, Judgement, judge};
use vol_layout::{PlaceForm, PlaceWord};

// A part whose unit can't be read, of the file of this path.
#[derive(Clone, Copy)]
struct UnreadText<'a> {
    form: PlaceForm,
    place: u32,
    path: &'a [u8],
}

impl fmt::Display for UnreadText<'_> {
    ghost output = { λ t. Some (unread_text t.form t.place t.path.now) };

    fn fmt<W: fmt::Write>(&self, f: &mut fmt::Formatter<W>) -> fmt::Result {
        let place = PlaceWord {
            form: self.form,
            place: self.place,
        };
        let path = ShownPath {
            form: self.form,
            path: self.path,
        };
        write!(f, "UNREADABLE {place} {path}")
    }
}

// A line for each of these parts of a volume.
fn unread_lines<F: FileFormat>(
    alloc: Global,
    form: PlaceForm,
    format: &F,
    volume: &F::Volume,
    parts: &[Part],
) -> Result<String, AllocError>
    requires { All (λ (part : Part). part.file < entries (F.directory format.now volume.now)) parts.now }
    ensures { IfOk result (λ text. string_bytes text
        ≡ flat_map (unread_line form (F.files format.now) (F.directory format.now volume.now)) parts.now) }
{
    let mut text = String::new(alloc);
    for part in parts {
        let entry = format.list_entry(alloc, volume, part.file)?;
        let line = UnreadText {
            form,
            place: part.place,
            path: entry.path.as_bytes(),
        };
        writeln!(text, "{line}")?;
    }
    Ok(text)
}

// Whether the unit at a place can be read.
fn is_readable<D: Device>(device: &mut D, place: u32, unit: &mut [u8]) -> bool
    requires place { place < (D.state device.old).places }
    requires unit { length unit.old ≡ (D.state device.old).unit_size }
    ensures device { OnlyReads (not result) (D.state device.old) (D.state device.new) }
    ensures unreadable { IsTrue (D.state device.old).honest → Contains (D.state device.old).unreadable place
        → IsFalse result }
    ensures failed { IsTrue (D.state device.old).honest → IsFalse result
        → FailsRead place (D.state device.old) (D.state device.new) }
{
    device.read(place, unit).is_ok()
}

// Those of some parts whose units can't be read, in their order.
fn unread_parts<D: Device>(
    alloc: Global,
    device: &mut D,
    parts: &[Part],
) -> Result<Vec<Part>, AllocError>
    requires { All (λ (part : Part). part.place < (D.state device.old).places) parts.now }
    ensures device { ReadsOn (D.state device.old) (D.state device.new) }
    ensures among { IfOk result (λ unread. (part : Part) → Contains unread.items part → Contains parts.now part) }
    ensures unread { IsTrue (D.state device.old).honest
        → ((place : ℕ) → FailedAt place (D.state device.old) (D.state device.new)
        → Contains (D.state device.old).unreadable place)
        → IfOk result (λ unread. unread.items ≡ unread_parts (D.state device.old).unreadable parts.now) }
{
    let mut unit = vec![in alloc; 0; device.unit()]?;
    let mut unread = Vec::new(alloc);
    for part in parts {
        if !is_readable(device, part.place, &mut unit) {
            unread.push(*part)?;
        }
    }
    Ok(unread)
}

// The reply to an accepted volume of whose parts these can't be read.
fn bodies_told<F: ShownFormat>(
    alloc: Global,
    format: &F,
    checked: &Checked<F::Volume>,
    unread: &[Part],
) -> Reply
    requires { All (λ (part : Part). part.file < entries (F.directory format.now (volume_of checked.now))) unread.now }
    ensures { TellsBodies (F.form format.now) (F.files format.now) (F.directory format.now (volume_of checked.now))
        (told_of checked.now) unread.now result }
{
    if unread.is_empty() {
        return accepted_reply(alloc, checked);
    }
    match unread_lines(alloc, format.form(), format, checked.volume(), unread) {
        Ok(text) => Reply::wrong(text),
        Err(_) => Reply::failed(Failure::Memory),
    }
}

/// Whether the volume on a device is accepted and each unit of its files can be read, or what is wrong with it. Beside
/// the faults that it tells it keeps the files of the first of each kind.
pub fn bodies_reply<D: Device, F: ShownFormat>(alloc: Global, device: &mut D, format: &F) -> Reply
    requires fits { Fits (F.meaning format.now) (D.state device.old) }
    ensures reads { ReadsBy TellsUnit result (D.state device.old) (D.state device.new) }
    ensures told { IsTrue (D.state device.old).honest
        → FailsForLackBy TellsUnit result (D.state device.old) (D.state device.new)
        → IsCheckedWhole (F.form format.now) (F.files format.now) (F.meaning format.now) (D.state device.old) result }
{
    let checked = match judge(alloc, device, format) {
        Ok(Judgement::Accepted(checked)) => checked,
        Ok(Judgement::Refused(volume, faults)) => {
            return faults_reply(alloc, format.form(), format, &volume, &faults);
        }
        Err(error) => return refused_reply(alloc, format.form(), &error),
    };
    match unread_parts(alloc, device, checked.parts()) {
        Ok(unread) => bodies_told(alloc, format, &checked, unread.as_slice()),
        Err(_) => Reply::failed(Failure::Memory),
    }
}
