//! Whole optimizations: what they do and what stands after each write. The program's tests have more volumes.
use crate::moves::volumes::{ALL, KEEP, dos33, stands};
use a2_device::{Device, StopDevice};
use std::alloc::Global;
use std::test::Fail;
use test_volumes::{dos_device, hello};
use vol_mover::{OptError, StepError, optimize};

// How many writes an optimizer made, how many of them of the map, how many moves, and whether it finished.
type Work = (u64, u32, u32, bool);

// What an optimizer does to `HELLO` by so many writes, and whether it leaves what stands after these.
fn optimized(alloc: Global, limit: u64) -> Result<(Work, bool), Fail> {
    let format = dos33(alloc, false)?;
    let Ok((device, report)) = optimize(alloc, dos_device(hello(alloc)?), &format, KEEP, limit)
    else {
        return Err("refused".into());
    };
    let work = (
        device.writes(),
        report.map_writes,
        report.moves,
        report.finished,
    );
    let image = device.into_image().into_bytes();
    Ok((work, stands(alloc, image.as_slice(), limit)?))
}

// What is done by so many of the eight writes.
static DONE: [Work; 9] = [
    (0, 0, 0, false),
    (1, 1, 0, false),
    (2, 1, 0, false),
    (3, 1, 1, false),
    (4, 1, 1, false),
    (5, 1, 2, false),
    (6, 1, 2, false),
    (7, 1, 3, false),
    (8, 2, 3, true),
];

#[test]
fn what_stands_after_each_write(rt: HostRuntime) -> Result<(), Fail> {
    for limit in 0..9 {
        assert!(rt;
            optimized(rt.alloc(), limit as u64)? == (DONE[limit], true),
            "{limit}"
        );
    }
    Ok(())
}

// The certificate of the plan for `HELLO`.
const CERTIFICATE: &str =
    "A2CERT 1\nPARTS 2 PLACES 496\nAT 1\nAT 0\nOFF 0\nOFF 1\nRING 0 1\nBOUND 3\nMOVE 0 2\nMOVE 1 1\nMOVE 0 0\nEND\n";

// How an optimizer ends.
#[derive(Clone, Copy, PartialEq, Eq)]
enum End {
    // With that certificate.
    Certified,
    FailedWrite,
    Other,
}

// The end with a certificate.
fn end_with(certificate: &[u8]) -> End {
    if certificate == CERTIFICATE.as_bytes() {
        End::Certified
    } else {
        End::Other
    }
}

// The end by an error.
fn end_by(error: &OptError) -> End {
    if matches!(error, OptError::Step(StepError::Write)) {
        End::FailedWrite
    } else {
        End::Other
    }
}

// How an optimizer of `HELLO` ends over a device that passes so many writes on, how many writes it tried, and whether
// it leaves what stands after those that were passed on.
fn stopped(alloc: Global, passes: u64) -> Result<(End, u64, bool), Fail> {
    let format = dos33(alloc, false)?;
    let device = StopDevice::new(dos_device(hello(alloc)?), passes);
    let (end, device) = match optimize(alloc, device, &format, KEEP, ALL) {
        Ok((device, report)) => (end_with(report.cert.as_slice()), device),
        Err((error, device)) => (end_by(&error), device),
    };
    let writes = device.writes();
    let image = device.into_inner().into_image().into_bytes();
    Ok((end, writes, stands(alloc, image.as_slice(), passes)?))
}

#[test]
fn a_device_that_stops_leaves_the_writes_before(rt: HostRuntime) -> Result<(), Fail> {
    for passes in 0..8u64 {
        assert!(rt;
            stopped(rt.alloc(), passes)? == (End::FailedWrite, passes + 1, true),
            "{passes}"
        );
    }
    assert!(rt; stopped(rt.alloc(), 8)? == (End::Certified, 8, true));
    Ok(())
}
