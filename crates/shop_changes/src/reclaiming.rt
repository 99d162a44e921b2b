// The work that marks the lost places of a volume free where it stands.
ghost use Rattle.shop_changes.specs.ReclaimOutcome.{IsReclaimOutcome};
ghost use Rattle.vol_format.specs.Fits.{Fits};

use crate::editing::edit_refusal_reply;
use crate::outcome::Outcome;
use a2_device::Device;
use edit_formats::SavableFormat;
use file_edits::reclaim;
use std::alloc::Global;

/// Marks the lost places of a device's volume free, and tells what became of it.
pub fn reclaim_in_place<D: Device, F: SavableFormat>(
    alloc: Global,
    device: &mut D,
    format: &F,
) -> Outcome
    requires fits { Fits (F.meaning format.now) (D.state device.old) }
    ensures { IsReclaimOutcome (F.meaning format.now) (D.state device.old) (D.state device.new) result }
{
    match reclaim(alloc, device, format) {
        Ok(()) => Outcome::Changed,
        Err(error) => Outcome::Unfinished(edit_refusal_reply(error)),
    }
}
