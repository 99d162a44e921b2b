// The work that makes a directory on a volume where it stands.
ghost use Rattle.std.specs.Prelude.{◌≡◌, IsTrue};
ghost use Rattle.shop_changes.specs.MakingOutcome.{IsMakingOutcome};
ghost use Rattle.vol_format.specs.Accepted.{IsVolume};
ghost use Rattle.vol_format.specs.Fits.{Fits};

use crate::editing::edit_refusal_reply;
use crate::outcome::Outcome;
use a2_device::Device;
use file_edits::{Acceptance, DirectoryFormat};
use pro_dir::ProDate;
use std::alloc::Global;

/// Makes a directory on a device's volume, and tells what became of it. Where it is known that the volume is accepted,
/// it is not checked first.
pub fn make_in_place<D: Device, F: DirectoryFormat>(
    alloc: Global,
    device: &mut D,
    format: &F,
    acceptance: Acceptance,
    path: &[u8],
    date: ProDate,
) -> Outcome
    requires fits { Fits (F.meaning format.now) (D.state device.old) }
    requires accepted { acceptance ≡ Acceptance.Known → IsTrue (D.state device.old).honest
        → IsVolume (F.meaning format.now) (D.state device.old).store }
    ensures { IsMakingOutcome path.now date (F.directories format.now) (F.meaning format.now) (D.state device.old)
        (D.state device.new) result }
{
    match format.make_directory(alloc, device, acceptance, path, date) {
        Ok(()) => Outcome::Changed,
        Err(error) => Outcome::Unfinished(edit_refusal_reply(error)),
    }
}
