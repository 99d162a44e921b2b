// Directories of a device's volume, each made where none is there.
ghost use Rattle.std.specs.Prelude.{◌≡◌, IfErr, IsTrue, OnOk, map};
ghost use Rattle.a2_device.specs.Device.{IsSameDevice};
ghost use Rattle.folder_adding.specs.Directories.{
  AreKept,
  HasDirectories,
  HasNoDirectory,
  IsKept,
  IsNotKept,
  making_by,
};
ghost use Rattle.vol_format.specs.Accepted.{IsVolume};
ghost use Rattle.vol_format.specs.Fits.{Fits};

use a2_device::Device;
use file_edits::{Acceptance, DirectoryFormat};
use pro_dir::ProDate;
use shop_changes::{Outcome, edit_refusal_reply, make_in_place};
use shop_replies::Reply;
use std::alloc::Global;

/// The first directory that was not made, and why; those before it are there.
#[derive(Drop)]
pub struct Unmade {
    /// The number of its path, counted from 0.
    pub directory: usize,
    pub reply: Reply,
}

// Makes the directory of a path, where none is there.
fn keep_directory<D: Device, F: DirectoryFormat>(
    alloc: Global,
    device: &mut D,
    format: &F,
    path: &[u8],
    date: ProDate,
) -> Result<(), Reply>
    requires fits { Fits (F.meaning format.now) (D.state device.old) }
    requires accepted { IsTrue (D.state device.old).honest
        → IsVolume (F.meaning format.now) (D.state device.old).store }

    ensures same { IsSameDevice (D.state device.old) (D.state device.new) }
    ensures kept { OnOk result (IsKept (making_by (F.directories format.now) (F.meaning format.now) date) path.now
        (D.state device.old) (D.state device.new)) }
    ensures refused { IfErr result (IsNotKept (making_by (F.directories format.now) (F.meaning format.now) date)
        path.now (D.state device.old) (D.state device.new)) }
{
    match format.has_directory(alloc, device, path) {
        Ok(true) => Ok(()),
        Ok(false) => match make_in_place(alloc, device, format, Acceptance::Known, path, date) {
            Outcome::Changed => Ok(()),
            Outcome::Unfinished(reply) => Err(reply),
            _ => unreachable!(),
        },
        Err(error) => Err(edit_refusal_reply(error)),
    }
}

/// Makes the directories of all paths on a device's accepted volume, in order, each where none is there.
///
/// # Errors
/// The first that is not there and is not made, with the reply to that; those before it are there, and those behind it
/// are not tried. After a failure of the device no call of it is made.
pub fn make_all<D: Device, F: DirectoryFormat>(
    alloc: Global,
    device: &mut D,
    format: &F,
    paths: &[Vec<u8>],
    date: ProDate,
) -> Result<(), Unmade>
    requires fits { Fits (F.meaning format.now) (D.state device.old) }
    requires accepted { IsTrue (D.state device.old).honest
        → IsVolume (F.meaning format.now) (D.state device.old).store }

    // every device
    ensures same { IsSameDevice (D.state device.old) (D.state device.new) }
    ensures kept { OnOk result (AreKept (making_by (F.directories format.now) (F.meaning format.now) date)
        (map (λ path. path.items) paths.now) (D.state device.old) (D.state device.new)) }
    ensures refused { IfErr result (HasNoDirectory (making_by (F.directories format.now) (F.meaning format.now) date)
        (map (λ path. path.items) paths.now) (D.state device.old) (D.state device.new)) }

    // an honest device
    ensures volume { IsTrue (D.state device.old).honest
        → OnOk result (IsVolume (F.meaning format.now) (D.state device.new).store) }
    ensures stored { IsTrue (D.state device.old).honest
        → OnOk result (HasDirectories (making_by (F.directories format.now) (F.meaning format.now) date)
        (map (λ path. path.items) paths.now) (D.state device.old).store (D.state device.new).store) }
{
    for number in 0..paths.len() {
        let path = &paths[number];
        if let Err(reply) = keep_directory(alloc, device, format, path.as_slice(), date) {
            return Err(Unmade {
                directory: number,
                reply,
            });
        }
    }
    Ok(())
}
