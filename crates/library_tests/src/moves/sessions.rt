//! Sessions step by step, also where a read or a write of the device fails.
ghost use Rattle.std.specs.Prelude.{ℕ};
ghost use Rattle.vol_mover.specs.Tasks.{Course};
ghost use Rattle.vol_mover.specs.Present.{IsSession, HasCourse};
ghost use Rattle.vol_mover.specs.Shown.{present};

use crate::moves::volumes::{KEEP, dos33, stands};
use a2_device::{Device, FaultDevice};
use a2_media::ImageDevice;
use std::alloc::{Allocator, Global};
use std::test::Fail;
use test_volumes::{dos_device, hello};
use vol_format::WritableFormat;
use vol_mover::{Progress, Session, StepError, Wrote};

// What is made to fail.
#[derive(Clone, Copy, Debug, PartialEq, Eq)]
enum Failure {
    Read,
    // Whether the new unit stands.
    Write(bool),
}

// The session again, with the next read of its device ordered to fail.
fn unreadable<'a, D: Device, F: WritableFormat, A: Allocator>(
    session: Session<'a, FaultDevice<D>, F, A>,
) -> Session<'a, FaultDevice<D>, F, A>
    requires { (course : Course) × IsSession (F.meaning session.format.now)
        (present ⟦<FaultDevice<D> as Device>⟧.state F.directory session) course }
    ensures { (course : Course) × IsSession (F.meaning result.format.now)
        (present ⟦<FaultDevice<D> as Device>⟧.state F.directory result) course }
{
    let (mut device, paused) = session.pause();
    device.fail_read();
    paused.resume(device)
}

// The same with the next write; `took` says whether the new unit stands.
fn unwritable<'a, D: Device, F: WritableFormat, A: Allocator>(
    session: Session<'a, FaultDevice<D>, F, A>,
    took: bool,
) -> Session<'a, FaultDevice<D>, F, A>
    requires { (course : Course) × IsSession (F.meaning session.format.now)
        (present ⟦<FaultDevice<D> as Device>⟧.state F.directory session) course }
    ensures { (course : Course) × IsSession (F.meaning result.format.now)
        (present ⟦<FaultDevice<D> as Device>⟧.state F.directory result) course }
{
    let (mut device, paused) = session.pause();
    device.fail_write(took);
    paused.resume(device)
}

// What two steps answer, how many moves are left then, and the image.
type Answers = (
    Result<Progress, StepError>,
    Result<Progress, StepError>,
    u32,
    Vec<u8>,
);

fn two_steps<F: WritableFormat>(mut session: Session<FaultDevice<ImageDevice>, F>) -> Answers
    requires { (course : Course) × IsSession (F.meaning session.format.now)
        (present ⟦<FaultDevice<ImageDevice> as Device>⟧.state F.directory session) course }
{
    let first = session.step();
    let then = session.step();
    let left = session.moves_left();
    let image = session.into_device().into_inner().into_image().into_bytes();
    (first, then, left, image)
}

// Makes so many writes, and tells whether each was made.
fn makes<D: Device, F: WritableFormat>(session: &mut Session<D, F>, writes: u64) -> bool
    requires { HasCourse (F.meaning session.old.format.now) (present D.state F.directory session.old) }
    ensures { HasCourse (F.meaning session.new.format.now) (present D.state F.directory session.new) }
{
    for _ in 0..writes {
        if session.step().is_err() {
            return false;
        }
    }
    true
}

// The session again, with this failure ordered.
fn failing<'a, D: Device, F: WritableFormat, A: Allocator>(
    session: Session<'a, FaultDevice<D>, F, A>,
    failure: Failure,
) -> Session<'a, FaultDevice<D>, F, A>
    requires { (course : Course) × IsSession (F.meaning session.format.now)
        (present ⟦<FaultDevice<D> as Device>⟧.state F.directory session) course }
    ensures { (course : Course) × IsSession (F.meaning result.format.now)
        (present ⟦<FaultDevice<D> as Device>⟧.state F.directory result) course }
{
    match failure {
        Failure::Read => unreadable(session),
        Failure::Write(took) => unwritable(session, took),
    }
}

// The answers of a session after so many writes, of which the first meets a failure.
fn answers<F: WritableFormat>(
    mut session: Session<FaultDevice<ImageDevice>, F>,
    writes: u64,
    failure: Failure,
) -> Result<Answers, Fail>
    requires { (course : Course) × IsSession (F.meaning session.format.now)
        (present ⟦<FaultDevice<ImageDevice> as Device>⟧.state F.directory session) course }
{
    if makes(&mut session, writes) {
        Ok(two_steps(failing(session, failure)))
    } else {
        Err("a write failed".into())
    }
}

// The answers after so many writes of `HELLO`, with whether the image is that after so many of the eight writes in the
// end.
fn answers_of(
    alloc: Global,
    writes: u64,
    failure: Failure,
    standing: u64,
) -> Result<
    (
        Result<Progress, StepError>,
        Result<Progress, StepError>,
        u32,
        bool,
    ),
    Fail,
> {
    let format = dos33(alloc, false)?;
    let device = FaultDevice::new(dos_device(hello(alloc)?));
    let Ok(session) = Session::open(alloc, device, &format, KEEP) else {
        return Err("refused".into());
    };
    let (first, then, left, image) = answers(session, writes, failure)?;
    Ok((
        first,
        then,
        left,
        stands(alloc, image.as_slice(), standing)?,
    ))
}

// The kinds of the eight writes.
const KINDS: [Wrote; 8] = [
    Wrote::Map,
    Wrote::Copy,
    Wrote::Pointer,
    Wrote::Copy,
    Wrote::Pointer,
    Wrote::Copy,
    Wrote::Pointer,
    Wrote::Map,
];

// How many moves are left after so many of them.
const LEFT: [u32; 9] = [3, 3, 3, 2, 2, 1, 1, 0, 0];

#[test]
fn a_failed_read_is_tried_again(rt: HostRuntime) -> Result<(), Fail> {
    for made in 0..8 {
        let writes = made as u64;
        let (first, then, left, is_right) = answers_of(
            rt.alloc(),
            writes,
            Failure::Read,
            writes + 1,
        )?;
        assert!(rt; first == Err(StepError::Read), "{made}");
        assert!(rt; then == Ok(Progress::Wrote(KINDS[made])), "{made}");
        assert!(rt; left == LEFT[made + 1] && is_right, "{made}");
    }
    Ok(())
}

// Whether a session of `HELLO` is closed by a write that fails after so many others, and leaves the new unit where that
// stands, and no other one.
fn closes(alloc: Global, made: u64, took: bool, moves_left: u32) -> Result<bool, Fail> {
    let standing = made.saturating_add(u64::from(took));
    let (first, then, left, is_right) = answers_of(alloc, made, Failure::Write(took), standing)?;
    Ok(
        first == Err(StepError::Write)
            && then == Err(StepError::Closed)
            && left == moves_left
            && is_right,
    )
}

#[test]
fn a_failed_write_closes_the_session(rt: HostRuntime) -> Result<(), Fail> {
    for made in 0..8 {
        assert!(rt;
            closes(rt.alloc(), made as u64, false, LEFT[made])?,
            "{made}"
        );
        assert!(rt;
            closes(rt.alloc(), made as u64, true, LEFT[made])?,
            "{made}"
        );
    }
    Ok(())
}
