//! Replays of events on the volumes that the tests share, as plain values.
ghost use Rattle.std.specs.Prelude.{◌≡◌, IfOk, vec_len};

use a2_device::Device;
use a2_media::ImageDevice;
use dos_format::Dos33;
use event_replay::{Answer, Event, replay};
use std::alloc::{AllocError, Allocator, Global};
use test_volumes::dos_device;
use vol_layout::Reserved;
use vol_mover::{Options, Session};

/// What is to be answered to an event.
#[derive(Clone, Copy, Debug)]
pub enum Told<'a> {
    Stepped,
    Bytes(&'a [u8]),
    Refused,
    NoMemory,
}

/// How a replay on an image ended.
#[derive(Clone, Copy, Debug, PartialEq, Eq)]
pub struct Ended {
    /// Whether the answers were those that were told.
    pub as_told: bool,
    /// How many writes the device counts.
    pub writes: u64,
    /// How many moves are left, if the volume can be opened.
    pub moves_left: Option<u32>,
}

/// DOS 3.3, with nothing reserved.
pub fn dos33<A: Allocator + Copy>(alloc: A) -> Result<Dos33<A>, AllocError> {
    Dos33::new(alloc, false, Reserved::none(alloc))
}

// Whether an answer is the one that was told.
fn is_told<A: Allocator>(answer: &Answer<A>, told: Told) -> bool {
    match told {
        Told::Stepped => matches!(answer, Answer::Stepped),
        Told::Refused => matches!(answer, Answer::Refused),
        Told::NoMemory => matches!(answer, Answer::NoMemory),
        Told::Bytes(body) => {
            if let Answer::Bytes(bytes) = answer {
                bytes.as_slice() == body
            } else {
                false
            }
        }
    }
}

/// Whether the answers are those that were told, one for one.
pub fn are_told<A: Allocator>(answers: &[Answer<A>], told: &[Told]) -> bool {
    if answers.len() != told.len() {
        return false;
    }
    for k in 0..answers.len() {
        if k < told.len() && !is_told(&answers[k], told[k]) {
            return false;
        }
    }
    true
}

// How many moves are left on a device.
fn moves_left(alloc: Global, image: Vec<u8>, format: &Dos33) -> Option<u32>
    requires { vec_len image ≡ 143360 }
{
    match Session::open(alloc, dos_device(image), format, Options { reclaim: true }) {
        Ok(session) => Some(session.moves_left()),
        Err(_refused) => None,
    }
}

/// The answers to events on an image, with the device.
pub fn answered<A: Allocator + Copy>(
    heap: A,
    image: Vec<u8>,
    format: &Dos33,
    events: &[Event],
) -> (Vec<Answer<A>, A>, ImageDevice)
    requires { vec_len image ≡ 143360 }
{
    replay(heap, dos_device(image), format, events)
}

/// How the events ended on a device, with these answers.
pub fn end_on(alloc: Global, device: ImageDevice, format: &Dos33, as_told: bool) -> Ended {
    let writes = device.writes();
    let image = device.into_image().into_bytes();
    let moves_left = if image.len() == 143_360 {
        moves_left(alloc, image, format)
    } else {
        None
    };
    Ended {
        as_told,
        writes,
        moves_left,
    }
}

/// How the events end on an image.
pub fn end_of(
    alloc: Global,
    image: Vec<u8>,
    format: &Dos33,
    events: &[Event],
    told: &[Told],
) -> Ended
    requires { vec_len image ≡ 143360 }
{
    let (answers, device) = answered(alloc, image, format, events);
    end_on(alloc, device, format, are_told(answers.as_slice(), told))
}
