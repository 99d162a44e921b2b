//! Worked rows with literal values.
use crate::events::volumes::{Ended, Told, dos33, end_of};
use event_replay::Event;
use std::alloc::Global;
use std::test::Fail;
use test_volumes::hello;

// The body of `HELLO`.
const BODY: [u8; 3] = [0xa9, 0x00, 0x60];

// How events end on the volume with `HELLO`.
fn on_hello(alloc: Global, events: &[Event], told: &[Told]) -> Result<Ended, Fail> {
    let format = dos33(alloc)?;
    Ok(end_of(alloc, hello(alloc)?, &format, events, told))
}

#[test]
fn a_failed_write_that_stands_costs_no_move(rt: HostRuntime) -> Result<(), Fail> {
    let events = [
        Event::Step,
        Event::Step,
        Event::FailWrite(true),
        Event::Step,
        Event::Stop,
        Event::Read(b"HELLO"),
    ];
    let told = [
        Told::Stepped,
        Told::Stepped,
        Told::Stepped,
        Told::Refused,
        Told::Stepped,
        Told::Bytes(&BODY),
    ];
    let end = on_hello(rt.alloc(), &events, &told)?;
    assert!(rt; end.as_told && end.writes == 3 && end.moves_left == Some(2));
    Ok(())
}

#[test]
fn a_stop_that_meets_a_failed_read_leaves_no_session(rt: HostRuntime) -> Result<(), Fail> {
    let events = [
        Event::FailRead,
        Event::Stop,
        Event::Step,
        Event::Read(b"HELLO"),
        Event::Stop,
        Event::Step,
    ];
    let told = [
        Told::Stepped,
        Told::Refused,
        Told::Refused,
        Told::Refused,
        Told::Stepped,
        Told::Stepped,
    ];
    let end = on_hello(rt.alloc(), &events, &told)?;
    assert!(rt; end.as_told && end.writes == 1 && end.moves_left == Some(3));
    Ok(())
}

#[test]
fn a_failed_read_is_met_once(rt: HostRuntime) -> Result<(), Fail> {
    let events = [
        Event::FailRead,
        Event::Read(b"HELLO"),
        Event::Read(b"NONE"),
        Event::Read(b"HELLO"),
    ];
    let told = [
        Told::Stepped,
        Told::Refused,
        Told::Refused,
        Told::Bytes(&BODY),
    ];
    let end = on_hello(rt.alloc(), &events, &told)?;
    assert!(rt; end.as_told && end.writes == 0 && end.moves_left == Some(3));
    Ok(())
}

// The first write marks the map, the second copies, the third is of a pointer.
#[test]
fn a_failed_read_is_met_before_each_kind_of_write(rt: HostRuntime) -> Result<(), Fail> {
    let events = [
        Event::FailRead,
        Event::Step,
        Event::Step,
        Event::FailRead,
        Event::Step,
        Event::Step,
        Event::FailRead,
        Event::Step,
        Event::Step,
    ];
    let told = [
        Told::Stepped,
        Told::Refused,
        Told::Stepped,
        Told::Stepped,
        Told::Refused,
        Told::Stepped,
        Told::Stepped,
        Told::Refused,
        Told::Stepped,
    ];
    let end = on_hello(rt.alloc(), &events, &told)?;
    assert!(rt; end.as_told && end.writes == 3 && end.moves_left == Some(2));
    Ok(())
}

#[test]
fn two_orders_to_fail_a_read_are_one(rt: HostRuntime) -> Result<(), Fail> {
    let events = [
        Event::FailRead,
        Event::FailRead,
        Event::Step,
        Event::Step,
        Event::Step,
    ];
    let told = [
        Told::Stepped,
        Told::Stepped,
        Told::Refused,
        Told::Stepped,
        Told::Stepped,
    ];
    let end = on_hello(rt.alloc(), &events, &told)?;
    assert!(rt; end.as_told && end.writes == 2 && end.moves_left == Some(3));
    Ok(())
}

#[test]
fn a_failed_read_is_met_before_a_failed_write(rt: HostRuntime) -> Result<(), Fail> {
    let events = [
        Event::FailRead,
        Event::FailWrite(true),
        Event::Step,
        Event::Step,
        Event::Read(b"HELLO"),
    ];
    let told = [
        Told::Stepped,
        Told::Stepped,
        Told::Refused,
        Told::Refused,
        Told::Bytes(&BODY),
    ];
    let end = on_hello(rt.alloc(), &events, &told)?;
    assert!(rt; end.as_told && end.writes == 1 && end.moves_left == Some(3));
    Ok(())
}

// A step of a closed session reads nothing.
#[test]
fn a_closed_session_leaves_a_read_ordered(rt: HostRuntime) -> Result<(), Fail> {
    let events = [
        Event::FailWrite(false),
        Event::Step,
        Event::FailRead,
        Event::Step,
        Event::Read(b"HELLO"),
        Event::Read(b"HELLO"),
    ];
    let told = [
        Told::Stepped,
        Told::Refused,
        Told::Stepped,
        Told::Refused,
        Told::Refused,
        Told::Bytes(&BODY),
    ];
    let end = on_hello(rt.alloc(), &events, &told)?;
    assert!(rt; end.as_told && end.writes == 0 && end.moves_left == Some(3));
    Ok(())
}

#[test]
fn no_session_leaves_a_read_ordered(rt: HostRuntime) -> Result<(), Fail> {
    let events = [
        Event::FailRead,
        Event::Stop,
        Event::FailRead,
        Event::Step,
        Event::Read(b"HELLO"),
        Event::Stop,
        Event::Stop,
        Event::Step,
    ];
    let told = [
        Told::Stepped,
        Told::Refused,
        Told::Stepped,
        Told::Refused,
        Told::Refused,
        Told::Refused,
        Told::Stepped,
        Told::Stepped,
    ];
    let end = on_hello(rt.alloc(), &events, &told)?;
    assert!(rt; end.as_told && end.writes == 1 && end.moves_left == Some(3));
    Ok(())
}

#[test]
fn nothing_left_to_write_leaves_a_read_ordered(rt: HostRuntime) -> Result<(), Fail> {
    let events = [
        Event::Step,
        Event::Step,
        Event::Step,
        Event::Step,
        Event::Step,
        Event::Step,
        Event::Step,
        Event::Step,
        Event::FailRead,
        Event::Step,
        Event::Read(b"HELLO"),
        Event::Read(b"HELLO"),
    ];
    let told = [
        Told::Stepped,
        Told::Stepped,
        Told::Stepped,
        Told::Stepped,
        Told::Stepped,
        Told::Stepped,
        Told::Stepped,
        Told::Stepped,
        Told::Stepped,
        Told::Stepped,
        Told::Refused,
        Told::Bytes(&BODY),
    ];
    let end = on_hello(rt.alloc(), &events, &told)?;
    assert!(rt; end.as_told && end.writes == 8 && end.moves_left == Some(0));
    Ok(())
}

// The writes that are made of so many steps, a stop and nine steps, and whether all of it is done, with no move left.
fn stopped_after(alloc: Global, steps: usize) -> Result<(u64, bool), Fail> {
    let mut events = [Event::Step; 18];
    let told = [Told::Stepped; 18];
    if steps <= 8 {
        events[steps] = Event::Stop;
        let end = on_hello(alloc, &events[..steps + 10], &told[..steps + 10])?;
        return Ok((end.writes, end.as_told && end.moves_left == Some(0)));
    }
    Ok((0, false))
}

#[test]
fn a_stop_after_any_step_costs_no_move(rt: HostRuntime) -> Result<(), Fail> {
    let writes = [8, 9, 10, 9, 10, 9, 10, 8, 8];
    for steps in 0..9 {
        let (made, is_done) = stopped_after(rt.alloc(), steps)?;
        assert!(rt; is_done && made == writes[steps], "{steps}");
    }
    Ok(())
}

#[test]
fn nine_steps_make_eight_writes(rt: HostRuntime) -> Result<(), Fail> {
    let end = on_hello(rt.alloc(), &[Event::Step; 9], &[Told::Stepped; 9])?;
    assert!(rt; end.as_told && end.writes == 8 && end.moves_left == Some(0));
    Ok(())
}
