//! Random lists of events on two volumes, weighed by a plain program that shares nothing with the code: it knows the
//! eight writes that bring each of them into order, and what stands after so many of them.
use crate::events::blocks::{big, on_tree};
use crate::events::volumes::{Told, dos33, end_of};
use event_replay::Event;
use std::test::Fail;
use test_volumes::hello;

/// How many lists are weighed on each volume.
const LISTS: u64 = 10_000;

/// How many events a list has.
const EVENTS: usize = 14;

/// How many writes are left to a session that is opened after so many of the eight.
static WRITES_LEFT: [u8; 9] = [8, 8, 8, 6, 6, 4, 4, 1, 0];

/// How many moves are left then.
static MOVES_LEFT: [u32; 9] = [3, 3, 3, 2, 2, 1, 1, 0, 0];

/// A session.
#[derive(Clone, Copy, Debug)]
enum SessionNow {
    /// Open, with so many writes left.
    Open(u8),
    Closed,
    Absent,
}

/// What stands between two events.
#[derive(Clone, Copy, Debug)]
struct Weighed {
    /// After how many of the eight writes the volume is as it is.
    stage: u8,
    session: SessionNow,
    fails_read: bool,
    fails_write: Option<bool>,
    /// How many writes stand.
    writes: u64,
}

impl Weighed {
    fn new() -> Weighed {
        Weighed {
            stage: 0,
            session: SessionNow::Open(8),
            fails_read: false,
            fails_write: None,
            writes: 0,
        }
    }

    /// Whether a read meets the failure that was ordered.
    fn meets_a_failed_read(&mut self) -> bool {
        let fails = self.fails_read;
        self.fails_read = false;
        fails
    }

    /// One of the writes stands, of which so many were left.
    fn write(&mut self, left: u8) {
        self.writes = self.writes.saturating_add(1);
        self.stage = self.stage.max(9_u8.saturating_sub(left));
    }

    fn step(&mut self) -> Told<'static> {
        let SessionNow::Open(left) = self.session else {
            return Told::Refused;
        };
        if left == 0 {
            return Told::Stepped;
        }
        if self.meets_a_failed_read() {
            return Told::Refused;
        }
        match self.fails_write {
            Some(took) => {
                self.fails_write = None;
                self.session = SessionNow::Closed;
                if took {
                    self.write(left);
                }
                Told::Refused
            }
            None => {
                self.write(left);
                self.session = SessionNow::Open(left - 1);
                Told::Stepped
            }
        }
    }

    fn read<'a>(&mut self, body: Option<&'a [u8]>) -> Told<'a> {
        if matches!(self.session, SessionNow::Absent) || self.meets_a_failed_read() {
            return Told::Refused;
        }
        match body {
            Some(body) => Told::Bytes(body),
            None => Told::Refused,
        }
    }

    fn stop(&mut self) -> Told<'static> {
        if self.meets_a_failed_read() {
            self.session = SessionNow::Absent;
            return Told::Refused;
        }
        let stage = usize::from(self.stage.min(8));
        self.session = SessionNow::Open(WRITES_LEFT[stage]);
        Told::Stepped
    }

    fn moves_left(&self) -> u32 {
        MOVES_LEFT[usize::from(self.stage.min(8))]
    }
}

/// One event, chosen by a number, and what is to be answered to it.
fn event_of<'a>(
    number: u64,
    path: &'a [u8],
    body: &'a [u8],
    weighed: &mut Weighed,
) -> (Event<'a>, Told<'a>) {
    match number % 16 {
        0 | 1 => (Event::Read(path), weighed.read(Some(body))),
        2 => (Event::Read(b"NONE"), weighed.read(None)),
        3 | 4 => {
            weighed.fails_read = true;
            (Event::FailRead, Told::Stepped)
        }
        5 | 6 => {
            let took = number % 32 < 16;
            weighed.fails_write = Some(took);
            (Event::FailWrite(took), Told::Stepped)
        }
        7 | 8 => (Event::Stop, weighed.stop()),
        _ => (Event::Step, weighed.step()),
    }
}

/// The next of a row of random numbers.
fn next(number: u64) -> u64 {
    number
        .wrapping_mul(6_364_136_223_846_793_005)
        .wrapping_add(1_442_695_040_888_963_407)
}

/// A list of events, what is to be answered to them, and what stands in the end.
fn list_of<'a>(
    number: u64,
    path: &'a [u8],
    body: &'a [u8],
) -> ([Event<'a>; EVENTS], [Told<'a>; EVENTS], Weighed) {
    let mut events = [Event::Step; EVENTS];
    let mut told = [Told::Stepped; EVENTS];
    let mut weighed = Weighed::new();
    let mut random = next(number);
    for k in 0..EVENTS {
        random = next(random);
        (events[k], told[k]) = event_of(random >> 40, path, body, &mut weighed);
    }
    (events, told, weighed)
}

#[test]
fn random_lists_on_sectors(rt: HostRuntime) -> Result<(), Fail> {
    let format = dos33(rt.alloc())?;
    for number in 0..LISTS {
        let (events, told, weighed) = list_of(number, b"HELLO", &[0xa9, 0x00, 0x60]);
        let end = end_of(rt.alloc(), hello(rt.alloc())?, &format, &events, &told);
        let right = end.as_told
            && end.writes == weighed.writes
            && end.moves_left == Some(weighed.moves_left());
        assert!(rt; right, "{number}");
    }
    Ok(())
}

#[test]
fn random_lists_on_blocks(rt: HostRuntime) -> Result<(), Fail> {
    let body = big(rt.alloc())?;
    for number in 0..LISTS {
        let (events, told, weighed) = list_of(number, b"big", body.as_slice());
        let (as_told, writes) = on_tree(rt.alloc(), &events, &told)?;
        assert!(rt; as_told && writes == weighed.writes, "{number}");
    }
    Ok(())
}
