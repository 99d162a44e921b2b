// The opening of a session.
ghost use Rattle.std.specs.Prelude.{◌≡◌, ◌<◌, ◌+◌, false, IsTrue, OnOk, IfOk, IfErr, Err, length};
ghost use Rattle.a2_device.specs.Device.{OnlyReads};
ghost use Rattle.vol_mover.specs.Tasks.{IsAgenda, at_first, moves_of};
ghost use Rattle.vol_mover.specs.Work.{IsWork};
ghost use Rattle.vol_mover.specs.Writes.{writes_of};
ghost use Rattle.vol_layout.specs.Layouts.{IsLayout};
ghost use Rattle.vol_mover.specs.Opening.{IsPlanOf, IsToldIn};
ghost use Rattle.vol_mover.specs.Refused.{is_device_error, IsRefusal};
ghost use Rattle.vol_mover.specs.Begun.{IsBegun};
ghost use Rattle.vol_mover.specs.Shown.{present};
ghost use Rattle.vol_format.specs.Fits.{Fits};

use crate::{Agenda, OpenError, Opening, Options, Session};
use a2_device::Device;
use move_plan::Plan;
use std::alloc::{AllocError, Allocator};
use vol_format::WritableFormat;

// The writes of an opening's plan, and room for a unit.
fn room<F: WritableFormat, A: Allocator + Copy>(
    alloc: A,
    format: &F,
    opening: &Opening<F::Volume, A>,
    unit: usize,
) -> Result<(Agenda<A>, Vec<u8, A>), AllocError>
    requires told { IsToldIn (F.directory format.now opening.now.volume) opening.now }
    requires plan { IsPlanOf opening.now.layout opening.now.plan }
    ensures layout { OnOk result (IsLayout opening.now.layout.at opening.now.layout.places) }
    ensures unit { IfOk result (λ made. length made.1.items ≡ unit) }
    ensures agenda { IfOk result (λ made.
        IsAgenda (F.directory format.now opening.now.volume) (length opening.now.lost.items)
        (at_first opening.now.layout.at opening.now.lost.items) made.0) }
    ensures moves { IfOk result (λ made. moves_of made.0 ≡ opening.now.plan.moves.items) }
    ensures writes { IfOk result (λ made. IsWork
        (length (F.directory format.now opening.now.volume).map_units) opening.now.layout.at opening.now.lost.items
        opening.now.plan.moves.items (length made.0)) }
    ensures order { IfOk result (λ made.
        made.0 ≡ writes_of
        (F.directory format.now opening.now.volume) opening.now.layout.at opening.now.lost.items
        opening.now.plan.moves.items) }
    ensures few { IfOk result (λ made. length made.0 < 4294967296) }
{
    let agenda = Agenda::new(
        alloc,
        format,
        &opening.volume,
        opening.layout.at(),
        opening.lost.as_slice(),
        opening.plan.moves.as_slice(),
    )?;
    Ok((agenda, vec![in alloc; 0; unit]?))
}

// A session that has made nothing yet, and the plan that it makes.
pub fn begin<'a, D: Device, F: WritableFormat, A: Allocator + Copy>(
    alloc: A,
    mut device: D,
    format: &'a F,
    options: Options,
) -> Result<(Session<'a, D, F, A>, Plan<A>), (OpenError<A>, D)>
    requires fits { Fits (F.meaning format.now) (D.state device) }
    ensures begun { IfOk result (λ made.
        IsBegun (F.meaning format.now) options (D.state device) (present D.state F.directory made.0)) }
    ensures format { IfOk result (λ made. made.0.format.now ≡ format.now) }
    ensures plan { IfOk result (λ made. IsPlanOf made.0.layout made.1) }
    ensures moves { IfOk result (λ made. moves_of made.0.agenda ≡ made.1.moves.items) }
    ensures device { IfErr result (λ refused.
        OnlyReads (is_device_error {T = Unit {0}} (Err refused.0)) (D.state device) (D.state refused.1)) }
    ensures refused { IsTrue (D.state device).honest
        → IfErr result (λ refused. IsRefusal (F.meaning format.now) (D.state device).store options refused.0) }
{
    let opening = match Opening::read(alloc, &mut device, format, options) {
        Ok(opening) => opening,
        Err(error) => return Err((error, device)),
    };
    match room(alloc, format, &opening, device.unit()) {
        Ok((agenda, unit)) => Ok(started(device, format, opening, agenda, unit)),
        Err(_) => Err((OpenError::Memory, device)),
    }
}

// A session at the start of its work, and the plan.
fn started<'a, D: Device, F: WritableFormat, A: Allocator>(
    device: D,
    format: &'a F,
    opening: Opening<F::Volume, A>,
    agenda: Agenda<A>,
    unit: Vec<u8, A>,
) -> (Session<'a, D, F, A>, Plan<A>)
    requires { length opening.lost.items < 4294967296 }
    ensures session { present D.state F.directory result.0 ≡ record {
      device = D.state device;
      opening = F.directory format.now opening.volume;
      parts = opening.parts.items;
      at = opening.layout.at;
      places = opening.layout.places;
      tasks = agenda;
      map_writes = 0;
      moves = 0;
      lost_at_first = length opening.lost.items;
      closed = false;
      unit = unit.items;
    } }
    ensures format { result.0.format.now ≡ format.now }
    ensures layout { result.0.layout ≡ opening.layout }
    ensures agenda { result.0.agenda ≡ agenda }
    ensures plan { result.1 ≡ opening.plan }
{
    let Opening {
        volume,
        parts,
        layout,
        lost,
        plan,
    } = opening;
    let session = Session {
        device,
        format,
        volume,
        parts,
        layout,
        agenda,
        map_writes: 0,
        moves: 0,
        lost_at_first: lost.len() as u32,
        closed: false,
        unit,
    };
    (session, plan)
}

impl<'a, D: Device, F: WritableFormat, A: Allocator + Copy> Session<'a, D, F, A> {
    /// Opens a session. It writes nothing.
    ///
    /// # Errors
    /// The first of these that holds, with the device: `Check` with every fault that was met; `Lost` with how many
    /// places are lost, where they are not reclaimed; `NoFreePlace` where some part is misplaced and each available
    /// place has a part. `Device` where a read fails; `Memory`.
    pub fn open(
        alloc: A,
        device: D,
        format: &'a F,
        options: Options,
    ) -> Result<Session<'a, D, F, A>, (OpenError<A>, D)>
        requires fits { Fits (F.meaning format.now) (D.state device) }
        ensures begun { IfOk result (λ session.
            IsBegun (F.meaning format.now) options (D.state device) (present D.state F.directory session)) }
        ensures format { IfOk result (λ session. session.format.now ≡ format.now) }
        ensures device { IfErr result (λ refused.
            OnlyReads (is_device_error {T = Unit {0}} (Err refused.0)) (D.state device) (D.state refused.1)) }
        ensures refused { IsTrue (D.state device).honest
            → IfErr result (λ refused. IsRefusal (F.meaning format.now) (D.state device).store options refused.0) }
    {
        let (session, _) = begin(alloc, device, format, options)?;
        Ok(session)
    }
}
