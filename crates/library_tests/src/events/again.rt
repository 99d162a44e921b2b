//! Two lists of events, the second on the device that the first hands back.
ghost use Rattle.std.specs.Prelude.{◌≡◌, ◌+◌, length, vec_len};
ghost use Rattle.event_replay.specs.Moments.{FailsNothing};

use crate::events::volumes::{Ended, Told, are_told, dos33, end_on};
use a2_device::Device;
use dos_format::Dos33;
use event_replay::{Answer, Event, replay};
use std::alloc::Global;
use std::test::Fail;
use test_volumes::{dos_device, hello};

// The answers to two lists, and the device, which fails no more after them than it did before.
fn answered_twice<D: Device>(
    alloc: Global,
    device: D,
    format: &Dos33,
    first: &[Event],
    second: &[Event],
) -> (Vec<Answer>, Vec<Answer>, D)
    requires unit { (D.state device).unit_size ≡ 256 }
    requires places { (D.state device).places ≡ 560 }
    ensures { FailsNothing (D.state device) (length first.now + length second.now) → FailsNothing (D.state result.2) 0 }
{
    let (answers, device) = replay(alloc, device, format, first);
    let (more, device) = replay(alloc, device, format, second);
    (answers, more, device)
}

// How two lists of events end on the volume with `HELLO`.
fn on_hello(alloc: Global, first: &[Event], second: &[Event]) -> Result<Ended, Fail> {
    let image = hello(alloc)?;
    if image.len() != 143_360 {
        return Err("no disk".into());
    }
    let format = dos33(alloc)?;
    let (answers, more, device) = answered_twice(alloc, dos_device(image), &format, first, second);
    let as_told = are_told(answers.as_slice(), &[Told::Stepped; 4])
        && are_told(more.as_slice(), &[Told::Stepped; 9]);
    Ok(end_on(alloc, device, &format, as_told))
}

// As where a stop stands between the two lists.
#[test]
fn a_second_list_goes_on_where_the_first_ended(rt: HostRuntime) -> Result<(), Fail> {
    let end = on_hello(rt.alloc(), &[Event::Step; 4], &[Event::Step; 9])?;
    assert!(rt; end.as_told && end.writes == 10 && end.moves_left == Some(0));
    Ok(())
}
