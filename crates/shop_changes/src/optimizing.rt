// The work that brings the files of a volume into order where they stand.
ghost use Rattle.std.specs.Prelude.{◌≡◌};
ghost use Rattle.shop_changes.specs.OptimizeOutcome.{EndsAs, IsOptimizeOutcome};
ghost use Rattle.vol_format.specs.Fits.{Fits};

use crate::outcome::Outcome;
use a2_device::Device;
use shop_replies::{Failure, Reply};
use shop_volumes::unopened_reply;
use std::alloc::Global;
use vol_format::WritableFormat;
use vol_mover::{OptError, Options, optimize};

// What became of a volume that was not optimized, or not to the end.
fn stopped_outcome(alloc: Global, error: &OptError) -> Outcome
    ensures { EndsAs error.now result }
{
    match error {
        OptError::Open(error) => Outcome::Unfinished(unopened_reply(alloc, error)),
        OptError::Step(_) => Outcome::Stopped,
        OptError::Memory => Outcome::Unfinished(Reply::failed(Failure::Memory)),
    }
}

/// Brings the files of a device's volume into order, by at most so many writes.
pub fn optimize_in_place<D: Device, F: WritableFormat>(
    alloc: Global,
    device: D,
    format: &F,
    reclaim: bool,
    limit: u64,
) -> (Outcome, D)
    requires fits { Fits (F.meaning format.now) (D.state device) }
    ensures { IsOptimizeOutcome reclaim limit (F.meaning format.now) (D.state device) (D.state result.1) result.0 }
{
    match optimize(alloc, device, format, Options { reclaim }, limit) {
        Ok((device, report)) => (Outcome::Optimized(report), device),
        Err((error, device)) => (stopped_outcome(alloc, &error), device),
    }
}
