// Items, saved to a device's volume one after the other.
ghost use Rattle.std.specs.Prelude.{◌≡◌, ◌<◌, IfErr, IfSome, IsTrue, OnOk, length, map, slice_index_or, take};
ghost use Rattle.a2_device.specs.Device.{IsSameDevice};
ghost use Rattle.folder_adding.specs.Added.{AreAdded, HasAdded};
ghost use Rattle.folder_adding.specs.Items.{batch_view, new_files};
ghost use Rattle.folder_adding.specs.Reads.{AreGivenBack};
ghost use Rattle.folder_adding.specs.Refused.{CountsFailure, HasRefused};
ghost use Rattle.folder_adding.specs.Steps.{IsAddedAt, IsRefusedAt};
ghost use Rattle.vol_format.specs.Accepted.{IsVolume};
ghost use Rattle.vol_format.specs.Fits.{Fits};

use crate::host_files::HostFiles;
use crate::item::Batch;
use crate::reading::{FileReply, read_item};
use a2_device::Device;
use edit_formats::SavableFormat;
use file_edits::Acceptance;
use shop_changes::{Outcome, save_said};
use shop_replies::Reply;
use std::alloc::Global;

/// The first item that was not saved, and why; those before it were.
#[derive(Drop)]
pub struct Refused {
    /// Its number, counted from 0.
    pub item: usize,
    /// The number of the file of which that is told: its own, or that of the readable form beside it.
    pub file: usize,
    pub reply: Reply,
}

// Reads the file of an item, with the readable form beside it, and saves it.
fn add_item<D: Device, F: SavableFormat, H: HostFiles>(
    alloc: Global,
    device: &mut D,
    format: &F,
    acceptance: Acceptance,
    batch: &Batch<'_>,
    number: usize,
    files: &mut H,
) -> Result<(), FileReply>
    requires fits { Fits (F.meaning format.now) (D.state device.old) }
    requires size { 0 < (D.state device.old).unit_size }
    requires accepted { acceptance ≡ Acceptance.Known → IsTrue (D.state device.old).honest
        → IsVolume (F.meaning format.now) (D.state device.old).store }
    requires inside { number < length batch.now.items.now }

    ensures files { H.holds files.new ≡ H.holds files.old }
    ensures same { IsSameDevice (D.state device.old) (D.state device.new) }
    ensures added { OnOk result (IsAddedAt (batch_view batch.now) (H.holds files.old) (F.saves format.now)
        (F.meaning format.now) number (D.state device.old) (D.state device.new)) }
    ensures refused { IfErr result (λ told. IsRefusedAt H.may_fail (batch_view batch.now) (H.holds files.old)
        (F.saves format.now) (F.meaning format.now) number (D.state device.old) (D.state device.new) told.file
        told.reply) }
{
    let item = &batch.items[number];
    let file = batch.file_at(number);
    let bytes = match read_item(alloc, batch.file_system, item, file, files) {
        Ok(bytes) => bytes,
        Err(told) => return Err(told),
    };
    let said = batch.said(item, bytes.as_slice());
    let path = item.path.as_slice();
    match save_said(alloc, device, format, acceptance, path, said) {
        Outcome::Changed => Ok(()),
        Outcome::Unfinished(reply) => Err(FileReply { file, reply }),
        _ => unreachable!(),
    }
}

/// Saves all items to a device's volume, in order, each with the bytes of its file. The readable form beside that is
/// read with it, and just these bytes have to be taken from it. The files of one item are in memory at a time. Where it
/// is known that the volume is accepted, it is not checked first, and behind the first item it is known.
///
/// # Errors
/// The first item of which a file can't be read, whose readable form is longer than a file that is saved may be
/// (`InputTooLong`) or gives other bytes (`Differs`), or that is not saved, with the reply to that; the items before it
/// were saved, and those behind it are not tried. A file that is too long is told before its readable form is read.
/// After a failure of the device no call of it is made.
pub fn add_all<D: Device, F: SavableFormat, H: HostFiles>(
    alloc: Global,
    device: &mut D,
    format: &F,
    acceptance: Acceptance,
    batch: &Batch<'_>,
    files: &mut H,
) -> Result<(), Refused>
    requires fits { Fits (F.meaning format.now) (D.state device.old) }
    requires size { 0 < (D.state device.old).unit_size }
    requires accepted { acceptance ≡ Acceptance.Known → IsTrue (D.state device.old).honest
        → IsVolume (F.meaning format.now) (D.state device.old).store }

    // every device
    ensures files { H.holds files.new ≡ H.holds files.old }
    ensures same { IsSameDevice (D.state device.old) (D.state device.new) }
    ensures saved { OnOk result (AreAdded (batch_view batch.now) (H.holds files.old) (F.saves format.now)
        (F.meaning format.now) 0 (batch_view batch.now).items (D.state device.old) (D.state device.new)) }
    ensures refused { IfErr result (HasRefused H.may_fail (batch_view batch.now) (H.holds files.old)
        (F.saves format.now) (F.meaning format.now) (D.state device.old) (D.state device.new)) }
    ensures quiet { OnOk result ((D.state device.new).faults ≡ (D.state device.old).faults) }
    ensures counted { IfErr result (λ refused. CountsFailure refused.reply (D.state device.old)
        (D.state device.new)) }

    // files of which it is known what they hold
    ensures alike { IfSome (H.holds files.old) (λ contents. OnOk result
        (AreGivenBack (batch_view batch.now) contents)) }

    // an honest device, and files of which it is known what they hold
    ensures added { IsTrue (D.state device.old).honest → IfSome (H.holds files.old) (λ contents.
        OnOk result (HasAdded (F.saves format.now) (F.meaning format.now)
        (new_files (batch_view batch.now) contents 0 (batch_view batch.now).items)
        (D.state device.old).store (D.state device.new).store)) }
{
    let mut known = acceptance;
    for number in 0..batch.items.len() {
        if let Err(told) = add_item(alloc, device, format, known, batch, number, files) {
            let FileReply { file, reply } = told;
            return Err(Refused {
                item: number,
                file,
                reply,
            });
        }
        known = Acceptance::Known;
    }
    Ok(())
}
