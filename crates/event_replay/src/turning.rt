// What a replay holds, and what each event does to it.
ghost use Rattle.std.specs.Prelude.{◌≡◌, ◌≢◌, false, IfOk, IfErr, IsTrue, IsFalse, Err};
ghost use Rattle.a2_device.specs.Device.{OnlyReads};
ghost use Rattle.event_replay.specs.Holds.{AnswersRead, ChangesHolds, IsSound, OpensHolds, OpensToOrder, ReadsDevice};
ghost use Rattle.event_replay.specs.Holds.{ReadsFileToOrder, ReadsHolds, StepsHolds, TurnsHolds};
ghost use Rattle.event_replay.specs.Holds.{device_of, held, holds};
ghost use Rattle.event_replay.specs.Orders.{read_ordered, write_ordered};
ghost use Rattle.vol_format.specs.Fits.{Fits};

use crate::ordered::FailsToOrder;
use crate::stepping::step;
use crate::{Answer, Event};
use a2_device::Device;
use file_cmds::{CmdError, read};
use file_formats::{FileFormat, FileName};
use std::alloc::Allocator;
use vol_format::WritableFormat;
use vol_mover::{OpenError, Options, Session};

// A session over the device, or the device alone.
#[derive(Drop)]
pub(crate) enum Held<'a, D: Device, F: WritableFormat, A: Allocator> {
    Session(Session<'a, D, F, A>),
    Device(D),
}

// A replay between two events.
#[derive(Drop)]
pub(crate) struct Replay<'a, D: Device, F: WritableFormat, A: Allocator> {
    pub(crate) alloc: A,
    pub(crate) format: &'a F,
    pub(crate) held: Held<'a, D, F, A>,
}

// What is answered to a read that failed.
fn answer_of<A: Allocator>(error: CmdError) -> Answer<A>
    ensures { AnswersRead (Err error) result }
{
    match error {
        CmdError::Memory => Answer::NoMemory,
        CmdError::Check => Answer::Refused,
        CmdError::NotFound => Answer::Refused,
        CmdError::Device => Answer::Refused,
    }
}

// The body of the file of a path.
fn read_body<D: Device, F: FileFormat, A: Allocator + Copy>(
    alloc: A,
    device: &mut D,
    format: &F,
    path: &[u8],
) -> Answer<A>
    requires fits { Fits (F.meaning format.now) (D.state device.old) }
    ensures { ReadsDevice (F.meaning format.now) (F.files format.now) path.now (D.state device.old) result
        (D.state device.new) }
{
    match read(alloc, device, format, FileName::Path(path), false) {
        Ok(bytes) => Answer::Bytes(bytes),
        Err(error) => answer_of(error),
    }
}

// The same, unless an order to fail a read is met.
fn read_to_order<D: FailsToOrder, F: FileFormat, A: Allocator + Copy>(
    alloc: A,
    device: &mut D,
    format: &F,
    path: &[u8],
) -> Answer<A>
    requires fits { Fits (F.meaning format.now) (D.state device.old) }
    ensures { ReadsFileToOrder (F.meaning format.now) (F.files format.now) path.now (D.state device.old) result
        (D.state device.new) }
{
    if device.meet_read_order() {
        return Answer::Refused;
    }
    read_body(alloc, device, format, path)
}

// Whether an opening was refused for want of memory.
fn is_memory<A: Allocator>(error: &OpenError<A>) -> bool
    ensures yes { IsTrue result → error.now ≡ OpenError.Memory }
    ensures no { IsFalse result → error.now ≢ OpenError.Memory }
{
    matches!(error, OpenError::Memory)
}

impl<'a, D: Device, F: WritableFormat + FileFormat, A: Allocator + Copy> Replay<'a, D, F, A> {
    // Opens a session, which reclaims lost places; the device, where there is no memory for it.
    pub(crate) fn open(alloc: A, device: D, format: &'a F) -> Result<(Self, Answer<A>), D>
        requires fits { Fits (F.meaning format.now) (D.state device) }
        ensures sound { IfOk result (λ made. IsSound F.meaning D.state F.directory made.0) }
        ensures format { IfOk result (λ made. made.0.format.now ≡ format.now) }
        ensures opens { IfOk result (λ made.
            OpensHolds (F.meaning format.now) (D.state device) made.1 (holds D.state F.directory made.0)) }
        ensures device { IfErr result (λ left. OnlyReads false (D.state device) (D.state left)) }
    {
        match Session::open(alloc, device, format, Options { reclaim: true }) {
            Ok(session) => {
                let held = Held::Session(session);
                let replay = Replay {
                    alloc,
                    format,
                    held,
                };
                Ok((replay, Answer::Stepped))
            }
            Err((error, device)) => {
                if is_memory(&error) {
                    return Err(device);
                }
                let held = Held::Device(device);
                let replay = Replay {
                    alloc,
                    format,
                    held,
                };
                Ok((replay, Answer::Refused))
            }
        }
    }

    // The device.
    pub(crate) fn into_device(self) -> D
        ensures { D.state result ≡ device_of (holds D.state F.directory self.entry) }
    {
        match self.held {
            Held::Session(session) => session.into_device(),
            Held::Device(device) => device,
        }
    }
}

impl<'a, D: FailsToOrder, F: WritableFormat + FileFormat, A: Allocator + Copy> Replay<'a, D, F, A> {
    // Makes the next write of the session, if one is left.
    fn step(self) -> (Self, Answer<A>)
        requires { IsSound F.meaning D.state F.directory self }
        ensures sound { IsSound F.meaning D.state F.directory result.0 }
        ensures format { result.0.format.now ≡ self.entry.format.now }
        ensures steps { StepsHolds (F.meaning self.entry.format.now) (holds D.state F.directory self.entry) result.1
            (holds D.state F.directory result.0) }
    {
        let Replay {
            alloc,
            format,
            held,
        } = self;
        let (held, answer) = match held {
            Held::Session(session) => {
                let (session, answer) = step(session);
                (Held::Session(session), answer)
            }
            Held::Device(device) => (Held::Device(device), Answer::Refused),
        };
        let replay = Replay {
            alloc,
            format,
            held,
        };
        (replay, answer)
    }

    // Reads the body of the file of a path, if there is a session.
    fn read(self, path: &[u8]) -> (Self, Answer<A>)
        requires { IsSound F.meaning D.state F.directory self }
        ensures sound { IsSound F.meaning D.state F.directory result.0 }
        ensures format { result.0.format.now ≡ self.entry.format.now }
        ensures reads { ReadsHolds (F.meaning self.entry.format.now) (F.files self.entry.format.now) path.now
            (holds D.state F.directory self.entry) result.1 (holds D.state F.directory result.0) }
    {
        let Replay {
            alloc,
            format,
            held,
        } = self;
        match held {
            Held::Session(session) => {
                let (mut device, paused) = session.pause();
                let answer = read_to_order(alloc, &mut device, format, path);
                let held = Held::Session(paused.resume(device));
                let replay = Replay {
                    alloc,
                    format,
                    held,
                };
                (replay, answer)
            }
            Held::Device(device) => {
                let held = Held::Device(device);
                let replay = Replay {
                    alloc,
                    format,
                    held,
                };
                (replay, Answer::Refused)
            }
        }
    }

    // Drops the session and opens another one, unless an order to fail the first read of that is met; the device, where
    // there is no memory for a session.
    fn stop(self) -> Result<(Self, Answer<A>), D>
        requires { IsSound F.meaning D.state F.directory self }
        ensures sound { IfOk result (λ made. IsSound F.meaning D.state F.directory made.0) }
        ensures format { IfOk result (λ made. made.0.format.now ≡ self.entry.format.now) }
        ensures opens { IfOk result (λ made. OpensToOrder (F.meaning self.entry.format.now)
            (device_of (holds D.state F.directory self.entry)) made.1 (holds D.state F.directory made.0)) }
        ensures device { IfErr result (λ left.
            OnlyReads false (device_of (holds D.state F.directory self.entry)) (D.state left)) }
    {
        let (alloc, format) = (self.alloc, self.format);
        let mut device = self.into_device();
        if device.meet_read_order() {
            let held = Held::Device(device);
            let replay = Replay {
                alloc,
                format,
                held,
            };
            return Ok((replay, Answer::Refused));
        }
        Replay::open(alloc, device, format)
    }

    // Orders the device's next read to fail.
    fn fail_read(self) -> Self
        requires { IsSound F.meaning D.state F.directory self }
        ensures sound { IsSound F.meaning D.state F.directory result }
        ensures format { result.format.now ≡ self.entry.format.now }
        ensures ordered { ChangesHolds read_ordered (holds D.state F.directory self.entry)
            (holds D.state F.directory result) }
    {
        let Replay {
            alloc,
            format,
            held,
        } = self;
        match held {
            Held::Session(session) => {
                let (mut device, paused) = session.pause();
                device.order_read();
                let held = Held::Session(paused.resume(device));
                Replay {
                    alloc,
                    format,
                    held,
                }
            }
            Held::Device(mut device) => {
                device.order_read();
                let held = Held::Device(device);
                Replay {
                    alloc,
                    format,
                    held,
                }
            }
        }
    }

    // Orders the device's next write to fail.
    fn fail_write(self, took: bool) -> Self
        requires { IsSound F.meaning D.state F.directory self }
        ensures sound { IsSound F.meaning D.state F.directory result }
        ensures format { result.format.now ≡ self.entry.format.now }
        ensures ordered { ChangesHolds (write_ordered took) (holds D.state F.directory self.entry)
            (holds D.state F.directory result) }
    {
        let Replay {
            alloc,
            format,
            held,
        } = self;
        match held {
            Held::Session(session) => {
                let (mut device, paused) = session.pause();
                device.order_write(took);
                let held = Held::Session(paused.resume(device));
                Replay {
                    alloc,
                    format,
                    held,
                }
            }
            Held::Device(mut device) => {
                device.order_write(took);
                let held = Held::Device(device);
                Replay {
                    alloc,
                    format,
                    held,
                }
            }
        }
    }

    // What an event does; the device, where there is no memory for a session.
    pub(crate) fn turn(self, event: &Event) -> Result<(Self, Answer<A>), D>
        requires { IsSound F.meaning D.state F.directory self }
        ensures sound { IfOk result (λ made. IsSound F.meaning D.state F.directory made.0) }
        ensures format { IfOk result (λ made. made.0.format.now ≡ self.entry.format.now) }
        ensures turns { IfOk result (λ made.
            TurnsHolds (F.meaning self.entry.format.now) (F.files self.entry.format.now) event.now
            (holds D.state F.directory self.entry) made.1 (holds D.state F.directory made.0)) }
        ensures stop { IfErr result (λ _. event.now ≡ Event.Stop) }
        ensures device { IfErr result (λ left.
            OnlyReads false (device_of (holds D.state F.directory self.entry)) (D.state left)) }
    {
        Ok(match event {
            Event::Step => self.step(),
            Event::Read(path) => self.read(path),
            Event::FailRead => (self.fail_read(), Answer::Stepped),
            Event::FailWrite(took) => (self.fail_write(*took), Answer::Stepped),
            Event::Stop => return self.stop(),
        })
    }
}
