// The bytes of files.
ghost use Rattle.std.specs.Prelude.{◌≡◌, ◌↔◌, IfErr, IfOk, IsTrue, OnErr};
ghost use Rattle.std.specs.IoError.{error_kind};
ghost use Rattle.shop_host.specs.Calls.{IsRefused};
ghost use Rattle.shop_host.specs.Reading.{HasLock, IsFrontOf, IsOpenFault, IsOpened, IsUnopened};
ghost use Rattle.shop_host.specs.State.{locking};
ghost use Rattle.shop_host.specs.Runs.{IsLooking};
ghost use Rattle.shop_replies.specs.Reading.{IsReadFailure};

use crate::host::{Access, Host, Lock};
use crate::streams::front_of;
use shop_replies::Failure;
use std::io::{self, ErrorKind};

/// Why a file is not open to be read.
#[derive(Clone, Copy)]
pub enum OpenFault {
    /// The system does not open it.
    Unopened(Failure),
    /// Another holds its lock.
    Held,
}

/// What is read at a path.
#[derive(Clone, Copy, PartialEq, Eq)]
pub enum Readable {
    /// Whatever it leads to, a pipe too.
    Any,
    /// A regular file: a pipe might wait for ever.
    File,
    /// A regular file that stands at the path itself, and is no link to one.
    FileItself,
}

/// Why a call of the system failed: for want of memory exactly where the system says so, and else in the input.
pub fn failure_of(error: &io::Error) -> Failure
    ensures read { IsReadFailure result }
    ensures memory { (result ≡ Failure.Memory) ↔ (error_kind error.now ≡ ErrorKind.OutOfMemory) }
{
    if error.kind() == ErrorKind::OutOfMemory {
        Failure::Memory
    } else {
        Failure::Input
    }
}

/// Takes the lock of an open file, if its file system knows locks, and answers whether another holds it.
pub fn is_held<H: Host>(host: &mut H, file: &H::File, lock: Lock) -> bool
    ensures looked { IsTrue (H.state host.old).honest → IsLooking (H.state host.old) (H.state host.new) }
    ensures locked { IsTrue (H.state host.old).honest
        → HasLock (H.place file.now) lock (H.state host.new) }
    ensures held { IsTrue (H.state host.old).honest → IsTrue result
        → IsRefused (locking (H.place file.now)) (H.state host.new) }
{
    match host.lock(file, lock) {
        Ok(()) => false,
        Err(error) => error.kind() == ErrorKind::WouldBlock,
    }
}

/// Opens the file to which a path leads, to be read. Its lock, if the file system knows locks, is shared with others
/// that read it, and is held until the file is let go.
///
/// # Errors
/// `Unopened` where the system does not open it, `Held` where another holds its lock.
pub fn open_shared<H: Host>(host: &mut H, path: &str) -> Result<H::File, OpenFault>
    ensures fault { IfErr result IsOpenFault }
    ensures looked { IsTrue (H.state host.old).honest → IsLooking (H.state host.old) (H.state host.new) }
    ensures opened { IsTrue (H.state host.old).honest → IfOk result (λ file.
        IsOpened (H.place file) (H.unread file) path.now Lock.Shared (H.state host.old) (H.state host.new)) }
    ensures refused { IsTrue (H.state host.old).honest → OnErr result (IsUnopened path.now (H.state host.new)) }
{
    let file = match host.open(path, Access::Read) {
        Ok(file) => file,
        Err(error) => return Err(OpenFault::Unopened(failure_of(&error))),
    };
    if is_held(host, &file, Lock::Shared) {
        return Err(OpenFault::Held);
    }
    Ok(file)
}

// Looks whether what is wanted stands at a path.
fn look_for<H: Host>(host: &mut H, path: &str, readable: Readable) -> Result<(), Failure>
    ensures failed { IfErr result IsReadFailure }
    ensures looked { IsTrue (H.state host.old).honest → IsLooking (H.state host.old) (H.state host.new) }
{
    let looked = match readable {
        Readable::Any => return Ok(()),
        Readable::File => host.found(path),
        Readable::FileItself => host.found_itself(path),
    };
    match looked {
        Ok(found) if found.is_file() => Ok(()),
        Ok(_) => Err(Failure::Input),
        Err(error) => Err(failure_of(&error)),
    }
}

/// The file at a path, open to be read, if it is what is wanted; and its lock is shared as `open_shared` says.
///
/// # Errors
/// `Input` where it is not what is wanted, can't be opened, or another holds its lock; `Memory`.
pub fn open_readable<H: Host>(
    host: &mut H,
    path: &str,
    readable: Readable,
) -> Result<H::File, Failure>
    ensures failed { IfErr result IsReadFailure }
    ensures looked { IsTrue (H.state host.old).honest → IsLooking (H.state host.old) (H.state host.new) }
    ensures opened { IsTrue (H.state host.old).honest → IfOk result (λ file.
        IsOpened (H.place file) (H.unread file) path.now Lock.Shared (H.state host.old) (H.state host.new)) }
{
    look_for(host, path, readable)?;
    match open_shared(host, path) {
        Ok(file) => Ok(file),
        Err(OpenFault::Unopened(failure)) => Err(failure),
        Err(OpenFault::Held) => Err(Failure::Input),
    }
}

/// The bytes of the file at a path, up to one past so many. Its lock is held until they are read.
///
/// # Errors
/// Those of `open_readable`, and of `front_of`.
pub fn read_file<H: Host>(
    host: &mut H,
    path: &str,
    readable: Readable,
    most: u32,
) -> Result<Vec<u8>, Failure>
    ensures failed { IfErr result IsReadFailure }
    ensures looked { IsTrue (H.state host.old).honest → IsLooking (H.state host.old) (H.state host.new) }
    ensures read { IsTrue (H.state host.old).honest
        → IfOk result (λ read. IsFrontOf path.now most read.items (H.state host.old) (H.state host.new)) }
{
    let mut file = open_readable(host, path, readable)?;
    front_of(host, &mut file, most)
}
