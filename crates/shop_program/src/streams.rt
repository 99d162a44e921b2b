// The three streams of a program, and what takes the places of those that are closed.
use std::fs::File;
use std::io;
use std::os::fd::AsRawFd;

/// The last of the three streams of a program.
const STANDARD_ERROR: i32 = 2;

/// What takes the descriptors of closed streams: no file that is opened later gets one, and what is
/// written to one fails.
#[derive(Drop)]
pub struct Streams {
    _taken: [Option<File>; 3],
}

// A file that is read as empty and can't be written, or where the system has none, a folder, which
// can't be read either.
fn open_nothing(rt: &HostRuntime) -> io::Result<File> {
    match File::open(rt, "/dev/null") {
        Ok(file) => Ok(file),
        Err(_) => File::open(rt, "/"),
    }
}

// Takes the least free descriptor, if it is one of a stream.
fn take_stream(rt: &HostRuntime) -> io::Result<Option<File>> {
    let file = open_nothing(rt)?;
    let is_stream = file.as_raw_fd() <= STANDARD_ERROR;
    Ok(is_stream.then_some(file))
}

// Takes one more descriptor where one was taken before.
fn take_next(rt: &HostRuntime, before: &Option<File>) -> io::Result<Option<File>> {
    match before {
        Some(_) => take_stream(rt),
        None => Ok(None),
    }
}

/// Takes the descriptors of the streams that are closed, until this is let go.
///
/// # Errors
/// What the system answers.
pub fn take_closed_streams(rt: &HostRuntime) -> io::Result<Streams> {
    let first = take_stream(rt)?;
    let second = take_next(rt, &first)?;
    let third = take_next(rt, &second)?;
    Ok(Streams {
        _taken: [first, second, third],
    })
}
