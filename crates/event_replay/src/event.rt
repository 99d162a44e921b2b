// What is asked of a replay, and what it answers.
use std::alloc::{Allocator, Global};

/// One event of a replay.
#[derive(Clone, Copy)]
pub enum Event<'a> {
    /// The next write of the session, if one is left.
    Step,
    /// A read of the body of the file that this path names.
    Read(&'a [u8]),
    /// The next read of the device is to fail, and with it the next event that reads.
    FailRead,
    /// The device's next write is to fail; whether its unit stands then.
    FailWrite(bool),
    /// The session is dropped, and another one is opened, which reclaims lost places.
    Stop,
}

/// What a replay answers to an event.
#[derive(Drop)]
pub enum Answer<A: Allocator = Global> {
    /// It was done.
    Stepped,
    /// The body of a file.
    Bytes(Vec<u8, A>),
    /// It was not done, or met a failure.
    Refused,
    /// There was no memory for the body of a file.
    NoMemory,
}
