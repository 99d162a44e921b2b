// A list of events over a volume.
ghost use Rattle.std.specs.Prelude.{◌≡◌, ◌≤◌, ℕ, List, length, vec_capacity, [], false, None};
ghost use Rattle.a2_device.specs.Device.{IsSameDevice};
ghost use Rattle.event_replay.specs.Held.{IsAt, IsDeviceAt, RanFrom, RanTo};
ghost use Rattle.event_replay.specs.Holds.{IsSound, device_of, holds};
ghost use Rattle.event_replay.specs.Moments.{FailsNothing, HasSameShape, Moment};
ghost use Rattle.event_replay.specs.Runs.{EndsEarly, IsReplay};
ghost use Rattle.vol_format.specs.Fits.{Fits};

use crate::ordered::{FailsToOrder, Ordered};
use crate::turning::Replay;
use crate::{Answer, Event};
use a2_device::Device;
use file_formats::FileFormat;
use std::alloc::Allocator;
use vol_format::WritableFormat;

// The answers to events, for which there is room, and the device; up to a stop after which there is no memory for a
// session.
fn run<D: FailsToOrder, F: WritableFormat + FileFormat, A: Allocator + Copy>(
    mut replay: Replay<D, F, A>,
    events: &[Event],
    mut answers: Vec<Answer<A>, A>,
) -> (Vec<Answer<A>, A>, D)
    requires sound { IsSound F.meaning D.state F.directory replay }
    requires empty { answers.items ≡ [] }
    requires room { length events.now ≤ vec_capacity answers }
    ensures front { length result.0.items ≤ length events.now }
    ensures ends { EndsEarly events.now result.0.items }
    ensures same { IsSameDevice (device_of (holds D.state F.directory replay.entry)) (D.state result.1) }
    ensures ran { (base : ℕ) (first : Moment) → IsAt (F.meaning replay.entry.format.now) base (length events.now)
        (holds D.state F.directory replay.entry) first
        → RanTo (F.meaning replay.entry.format.now)
        (F.files replay.entry.format.now) base first events.now result.0.items (D.state result.1) }
{
    for event in events {
        match replay.turn(event) {
            Ok((now, answer)) => {
                replay = now;
                if answers.push(answer).is_err() {
                    unreachable!();
                }
            }
            Err(device) => return (answers, device),
        }
    }
    (answers, replay.into_device())
}

// The same from the beginning, where a session is opened, if it is not refused.
fn begin<D: FailsToOrder, F: WritableFormat + FileFormat, A: Allocator + Copy>(
    alloc: A,
    device: D,
    format: &F,
    events: &[Event],
    answers: Vec<Answer<A>, A>,
) -> (Vec<Answer<A>, A>, D)
    requires fits { Fits (F.meaning format.now) (D.state device) }
    requires empty { answers.items ≡ [] }
    requires room { length events.now ≤ vec_capacity answers }
    ensures front { length result.0.items ≤ length events.now }
    ensures ends { EndsEarly events.now result.0.items }
    ensures same { IsSameDevice (D.state device) (D.state result.1) }
    ensures ran { (base : ℕ) (store : List (List ℕ))
        → IsDeviceAt base (length events.now) (D.state device) false None store 0
        → RanFrom (F.meaning format.now) (F.files format.now) base store events.now result.0.items (D.state result.1) }
{
    match Replay::open(alloc, device, format) {
        Ok((replay, _answer)) => run(replay, events, answers),
        Err(device) => (answers, device),
    }
}

/// Answers a list of events over a volume, and hands the device back. Before the first event a session is opened that
/// reclaims lost places; where it is refused there is none, and the events go on. The room for all answers is taken
/// first. The answers end early only where there was no memory for that room or for a session.
pub fn replay<D: Device, F: WritableFormat + FileFormat, A: Allocator + Copy>(
    alloc: A,
    device: D,
    format: &F,
    events: &[Event],
) -> (Vec<Answer<A>, A>, D)
    requires fits { Fits (F.meaning format.now) (D.state device) }
    ensures front { length result.0.items ≤ length events.now }
    ensures ends { EndsEarly events.now result.0.items }
    ensures shape { HasSameShape (D.state device) (D.state result.1) }
    ensures run { FailsNothing (D.state device) (length events.now)
        → IsReplay (F.meaning format.now) (F.files format.now) events.now result.0.items (D.state device)
        (D.state result.1) }
{
    match Vec::with_capacity(alloc, events.len()) {
        Ok(answers) => {
            let (answers, device) = begin(alloc, Ordered::new(device), format, events, answers);
            (answers, device.into_inner())
        }
        Err(_) => (Vec::new(alloc), device),
    }
}
