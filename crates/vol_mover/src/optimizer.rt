// The optimizer: a session from its opening to its end, or up to so many writes.
ghost use Rattle.std.specs.Prelude.{◌≡◌, ◌<◌, ℕ, Err, IsTrue, IfOk, IfErr, length};
ghost use Rattle.vol_mover.specs.Tasks.{Course};
ghost use Rattle.vol_mover.specs.Failing.{CannotFail};
ghost use Rattle.vol_mover.specs.Optimizing.{HasWorked, StopsWork, IsNoFailure, IsRefused};
ghost use Rattle.vol_mover.specs.Present.{HasCourse};
ghost use Rattle.vol_mover.specs.Report.{IsReported};
ghost use Rattle.vol_mover.specs.Shown.{present};
ghost use Rattle.vol_format.specs.Fits.{Fits};

use crate::open::begin;
use crate::{OptError, Options, Report, Session};
use a2_device::Device;
use move_plan::Plan;
use ring_cert::print;
use std::alloc::Allocator;
use vol_format::WritableFormat;

// Makes so many writes, or all that are left, and reports.
fn work<D: Device, F: WritableFormat, A: Allocator>(
    mut session: Session<D, F, A>,
    plan: &Plan<A>,
    cert: Vec<u8, A>,
    limit: u64,
) -> Result<(D, Report<A>), (OptError<A>, D)>
    requires session { HasCourse (F.meaning session.format.now) (present D.state F.directory session) }
    requires rings { length plan.now.rings.items < 4294967296 }
    requires misplaced { length plan.now.misplaced.items < 4294967296 }
    ensures worked { IfOk result (λ done. HasWorked (F.meaning session.entry.format.now) limit
        (present D.state F.directory session.entry) plan.now cert.items (D.state done.0) done.1) }
    ensures stopped { IfErr result (λ stopped. StopsWork (F.meaning session.entry.format.now) limit
        (present D.state F.directory session.entry) (D.state stopped.1) stopped.0) }
{
    if let Err(error) = session.run(limit) {
        return Err((OptError::Step(error), session.into_device()));
    }
    let report = Report {
        moves: session.moves,
        rings: plan.rings.len() as u32,
        misplaced: plan.misplaced.len() as u32,
        map_writes: session.map_writes,
        finished: session.writes_left() == 0,
        cert,
    };
    Ok((session.into_device(), report))
}

/// Puts the parts of each file of a volume in order, by at most `limit` writes. The certificate is made before the
/// first of them.
///
/// # Errors
/// With the device. `Open` where the volume is not opened, and `Memory` where there is no room for the certificate:
/// nothing was written. `Step` where a step failed: what stands is the work up to then, or one write further.
pub fn optimize<D: Device, F: WritableFormat, A: Allocator + Copy>(
    alloc: A,
    device: D,
    format: &F,
    options: Options,
    limit: u64,
) -> Result<(D, Report<A>), (OptError<A>, D)>
    requires fits { Fits (F.meaning format.now) (D.state device) }
    ensures reported { IfOk result (λ done.
        IsReported (F.meaning format.now) options limit (D.state device) (D.state done.0) done.1) }
    ensures refused { IfErr result (λ refused.
        IsRefused (F.meaning format.now) options limit (D.state device) (D.state refused.1) refused.0) }
    ensures sound { CannotFail (D.state device) → IfErr result (λ refused. IsNoFailure refused.0) }
{
    let (session, plan) = match begin(alloc, device, format, options) {
        Ok(begun) => begun,
        Err((error, device)) => return Err((OptError::Open(error), device)),
    };
    match print(alloc, &session.layout, &plan) {
        Ok(cert) => work(session, &plan, cert, limit),
        Err(_) => Err((OptError::Memory, session.into_device())),
    }
}
