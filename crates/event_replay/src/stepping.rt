// A step of a session, unless an order to fail a read is met before it.
ghost use Rattle.std.specs.Prelude.{◌≡◌, IsTrue, IsFalse};
ghost use Rattle.vol_mover.specs.Tasks.{Course};
ghost use Rattle.vol_mover.specs.Present.{HasCourse};
ghost use Rattle.vol_mover.specs.Shown.{present};
ghost use Rattle.event_replay.specs.Holds.{ReadsNext, StepsSession, StepsToOrder};
ghost use Rattle.event_replay.specs.Orders.{HasMetRead, HasNoReadOrder};

use crate::Answer;
use crate::ordered::FailsToOrder;
use a2_device::Device;
use std::alloc::Allocator;
use vol_format::WritableFormat;
use vol_mover::Session;

// Whether the next step of a session reads a unit.
fn reads_next<'a, D: Device, F: WritableFormat, A: Allocator>(
    session: &Session<'a, D, F, A>,
) -> bool
    ensures yes { IsTrue result → ReadsNext (present D.state F.directory session.now) }
    ensures no { IsFalse result → ReadsNext (present D.state F.directory session.now) → ⊥ }
{
    !session.is_closed() && session.writes_left() > 0
}

// Meets an order to fail a read over the device of a session; whether there was one.
fn meet_read_order<'a, D: FailsToOrder, F: WritableFormat, A: Allocator>(
    session: Session<'a, D, F, A>,
) -> (Session<'a, D, F, A>, bool)
    ensures format { result.0.format.now ≡ session.entry.format.now }
    ensures met { IsTrue result.1 → HasMetRead (D.state session.entry.device) (D.state result.0.device) }
    ensures none { IsFalse result.1 → HasNoReadOrder (D.state session.entry.device) }
    ensures same { IsFalse result.1 → D.state result.0.device ≡ D.state session.entry.device }
    ensures only { present D.state F.directory result.0
        ≡ record (present D.state F.directory session.entry) { device = D.state result.0.device } }
{
    let (mut device, paused) = session.pause();
    let is_met = device.meet_read_order();
    (paused.resume(device), is_met)
}

// Makes the next write of a session, if one is left.
fn stepped<'a, D: Device, F: WritableFormat, A: Allocator>(
    mut session: Session<'a, D, F, A>,
) -> (Session<'a, D, F, A>, Answer<A>)
    requires { HasCourse (F.meaning session.format.now) (present D.state F.directory session) }
    ensures format { result.0.format.now ≡ session.entry.format.now }
    ensures session { HasCourse (F.meaning session.entry.format.now) (present D.state F.directory result.0) }
    ensures steps { StepsSession (F.meaning session.entry.format.now) (present D.state F.directory session.entry)
        result.1 (present D.state F.directory result.0) }
{
    let stepped = session.step().is_ok();
    let answer = if stepped {
        Answer::Stepped
    } else {
        Answer::Refused
    };
    (session, answer)
}

// The same, unless an order to fail the read of that write is met.
pub(crate) fn step<'a, D: FailsToOrder, F: WritableFormat, A: Allocator>(
    session: Session<'a, D, F, A>,
) -> (Session<'a, D, F, A>, Answer<A>)
    requires { HasCourse (F.meaning session.format.now) (present D.state F.directory session) }
    ensures format { result.0.format.now ≡ session.entry.format.now }
    ensures session { HasCourse (F.meaning session.entry.format.now) (present D.state F.directory result.0) }
    ensures steps { StepsToOrder (F.meaning session.entry.format.now) (present D.state F.directory session.entry)
        result.1 (present D.state F.directory result.0) }
{
    if !reads_next(&session) {
        return stepped(session);
    }
    let (session, is_met) = meet_read_order(session);
    if is_met {
        return (session, Answer::Refused);
    }
    stepped(session)
}
