// Devices that fail to order, and such as stop after so many writes.
use crate::formats::devices::{
    Call, answers, byte_of, counts, damaged, disk, dos_device, failing_at_a_write, opened,
    wrong_call,
};
use a2_device::{Device, FaultDevice, Order, StopDevice};
use std::test::Fail;

/// Whether of three writes so many are taken and stand, and the others fail and leave the old sector.
fn takes_of_three<D: Device>(device: &mut D, passes: u32) -> bool {
    for place in 0..3 {
        let call = if place < passes {
            Call::Writes(place, 0xFF)
        } else {
            Call::FailsToWrite(place, 0xFF)
        };
        if !answers(device, call) {
            return false;
        }
    }
    for place in 0..3 {
        let byte = if place < passes { 0xFF } else { byte_of(place) };
        if !answers(device, Call::Reads(place, byte)) {
            return false;
        }
    }
    true
}

#[test]
fn stops_after_so_many_writes(rt: HostRuntime) -> Result<(), Fail> {
    for passes in 0..3u32 {
        let mut device = StopDevice::new(disk(&rt, Order::Dos)?, u64::from(passes));
        assert!(rt; takes_of_three(&mut device, passes), "after {passes}");
        assert!(rt; counts(&device) == (3, u64::from(3 - passes)));
        assert!(rt; counts(&device.into_inner()) == (u64::from(passes), 0));
    }
    Ok(())
}

#[test]
fn a_write_that_fails_below_is_passed_on(rt: HostRuntime) -> Result<(), Fail> {
    let inner = failing_at_a_write(disk(&rt, Order::Dos)?, true);
    let mut device = StopDevice::new(inner, 1);
    let calls = [Call::FailsToWrite(0, 0xFF), Call::FailsToWrite(1, 0xFF)];
    assert!(rt; wrong_call(&mut device, &calls).is_none());
    assert!(rt; counts(&device) == (2, 2));
    let calls = [Call::Reads(0, 0xFF), Call::Reads(1, 1)];
    assert!(rt; wrong_call(&mut device.into_inner(), &calls).is_none());
    Ok(())
}

/// Whether an order to fail a write is met once, and the sector at place 5 is then filled with a byte.
fn fails_a_write<D: Device>(device: &mut FaultDevice<D>, took: bool, byte: u8) -> bool {
    device.fail_write(took);
    let calls = [Call::FailsToWrite(5, 0xFF), Call::Reads(5, byte)];
    wrong_call(device, &calls).is_none()
}

#[test]
fn fails_to_order(rt: HostRuntime) -> Result<(), Fail> {
    let mut device = FaultDevice::new(disk(&rt, Order::Dos)?);
    device.fail_read();
    let calls = [Call::FailsToRead(5), Call::Reads(5, 5)];
    assert!(rt; wrong_call(&mut device, &calls).is_none());
    assert!(rt; fails_a_write(&mut device, false, 5));
    assert!(rt; fails_a_write(&mut device, true, 0xFF));
    assert!(rt; answers(&mut device, Call::Writes(5, 7)));
    assert!(rt; counts(&device) == (3, 3));
    assert!(rt; answers(&mut device.into_inner(), Call::Reads(5, 7)));
    Ok(())
}

/// An order to fail a read is met without the device within, and once, however often it was given.
#[test]
fn an_order_is_met_without_a_read(rt: HostRuntime) -> Result<(), Fail> {
    let mut device = FaultDevice::new(disk(&rt, Order::Dos)?);
    assert!(rt; !device.meet_read_order());
    assert!(rt; counts(&device) == (0, 0));
    device.fail_read();
    device.fail_read();
    assert!(rt; device.meet_read_order());
    assert!(rt; !device.meet_read_order());
    assert!(rt; counts(&device) == (0, 1));
    assert!(rt; answers(&mut device, Call::Reads(5, 5)));
    assert!(rt; counts(&device.into_inner()) == (0, 0));
    Ok(())
}

/// An order of which the new unit stands waits for a write that the device takes.
#[test]
fn an_order_waits_at_a_missing_sector(rt: HostRuntime) -> Result<(), Fail> {
    let inner = dos_device(opened(damaged(&rt)?, Order::Nibble)?)?;
    let mut device = failing_at_a_write(inner, true);
    let calls = [
        Call::FailsToWrite(286, 0xFF),
        Call::FailsToWrite(5, 0xFF),
        Call::Writes(6, 0xFF),
        Call::Reads(5, 0xFF),
        Call::Reads(6, 0xFF),
    ];
    assert!(rt; wrong_call(&mut device, &calls).is_none());
    assert!(rt; counts(&device) == (3, 2));
    Ok(())
}
