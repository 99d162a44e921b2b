// The job that tells the fewest moves that bring the files of a volume into order.
ghost use Rattle.std.specs.Prelude.{◌≡◌, IsTrue};
ghost use Rattle.a2_device.specs.Device.{OnlyReads};
ghost use Rattle.vol_mover.specs.Opening.{IsPlanOf};
ghost use Rattle.shop_reads.specs.PlanReply.{IsPlanned, TellsPlan};
ghost use Rattle.shop_volumes.specs.TellingFailures.{FailsForLack, tells_device};
ghost use Rattle.vol_format.specs.Fits.{Fits};

use a2_device::Device;
use ring_cert::print;
use shop_replies::{Failure, Reply};
use shop_volumes::unopened_reply;
use std::alloc::Global;
use vol_format::Format;
use vol_mover::{Opening, Options};

/// The reply with the certificate of a plan.
pub fn certificate_reply<V: Drop>(alloc: Global, opening: &Opening<V>) -> Reply
    requires { IsPlanOf opening.now.layout opening.now.plan }
    ensures { TellsPlan opening.now.layout opening.now.plan result }
{
    // Called for what its contract says: a layout has few parts, and so few claims.
    let _parts = opening.layout.at().len();
    match print(alloc, &opening.layout, &opening.plan) {
        Ok(text) => Reply::content(text),
        Err(_) => Reply::failed(Failure::Memory),
    }
}

/// The certificate of the shortest plan that brings the parts of a volume into order, or why there is none.
pub fn plan_reply<D: Device, F: Format>(
    alloc: Global,
    device: &mut D,
    format: &F,
    reclaim: bool,
) -> Reply
    requires fits { Fits (F.meaning format.now) (D.state device.old) }
    ensures reads { OnlyReads (tells_device result) (D.state device.old) (D.state device.new) }
    ensures told { IsTrue (D.state device.old).honest → FailsForLack (D.state device.old) result
        → IsPlanned reclaim (F.meaning format.now) (D.state device.old) result }
{
    match Opening::read(alloc, device, format, Options { reclaim }) {
        Ok(opening) => certificate_reply(alloc, &opening),
        Err(error) => unopened_reply(alloc, &error),
    }
}
