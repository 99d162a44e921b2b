// Bytes that are read up to a number, and what is noted beside the answer.
ghost use Rattle.std.specs.Prelude.{
  ◌≡◌,
  ◌≤◌,
  ◌<◌,
  ◌+◌,
  ◌++◌,
  ◌⊎◌,
  false,
  IfErr,
  IfOk,
  IfSome,
  IsTrue,
  List,
  ℕ,
  length,
  take,
};
ghost use Rattle.std.specs.Io.KnownBytes.{Consumes, IsAtEnd};
ghost use Rattle.shop_host.specs.State.{HostState, IsQuiet};
ghost use Rattle.shop_host.specs.Runs.{IsLooking, IsReadingInput};
ghost use Rattle.shop_replies.specs.Reading.{IsReadFailure};

use crate::host::Host;
use crate::reading::failure_of;
use shop_replies::Failure;
use std::alloc::{AllocError, Global};
use std::io::{self, ErrorKind};

/// How many bytes are asked for at once.
const CHUNK: usize = 65_536;

/// Bytes of a host that are read one after the other.
trait Stream<H: Host> {
    ghost use Rattle.std.specs.Prelude.{◌≡◌, IsTrue, List, Option, ℕ};
    ghost use Rattle.std.specs.Io.{ReadsAtMost};
    ghost use Rattle.std.specs.Io.KnownBytes.{ReadConsumes};
    ghost use Rattle.shop_host.specs.State.{HostState};

    /// What is still to come, where that is known.
    ghost rest: { H → Self → Option (List ℕ) };

    /// What reading changes of a host.
    ghost looks: { HostState → HostState → Type 0 };

    ghost here: { (host : HostState) → looks host host };

    ghost then: { (old between now : HostState) → looks old between → looks between now → looks old now };

    ghost honest: { (old now : HostState) → IsTrue old.honest → looks old now → IsTrue now.honest };

    fn read(&mut self, host: &mut H, bytes: &mut [u8]) -> io::Result<usize>
        ensures bound { ReadsAtMost result bytes.new }
        ensures bytes { ReadConsumes (rest host.old self.old) (rest host.new self.new) result bytes.new }
        ensures looked { IsTrue (H.state host.old).honest → looks (H.state host.old) (H.state host.new) };
}

/// An open file.
#[derive(Drop)]
struct FileStream<'a, H: Host> {
    file: &'a mut H::File,
}

/// Standard input.
#[derive(Drop)]
struct InputStream;

impl<H: Host> Stream<H> for FileStream<'_, H> {
    ghost use Rattle.shop_host.specs.Runs.{IsLooking};
    ghost use Rattle.shop_host.specs.lemmas.Runs.{look_here, look_then, honest_look};

    ghost rest = { λ host stream. H.unread stream.file.now };

    ghost looks = { IsLooking };

    ghost here = { look_here };

    ghost then = { look_then };

    ghost honest = { honest_look };

    fn read(&mut self, host: &mut H, bytes: &mut [u8]) -> io::Result<usize> {
        host.read(self.file, bytes)
    }
}

impl<H: Host> Stream<H> for InputStream {
    ghost use Rattle.shop_host.specs.Runs.{IsReadingInput};
    ghost use Rattle.shop_host.specs.lemmas.Runs.{input_here, input_then, honest_input};

    ghost rest = { λ host stream. (H.state host).input };

    ghost looks = { IsReadingInput };

    ghost here = { input_here };

    ghost then = { input_then };

    ghost honest = { honest_input };

    fn read(&mut self, host: &mut H, bytes: &mut [u8]) -> io::Result<usize> {
        host.read_input(bytes)
    }
}

// How many bytes are asked for next, of so many at most and where so many were read.
fn wanted(read: usize, most: usize) -> usize
    requires { read ≤ most }
    ensures { (result + read ≤ most) × (result ≤ CHUNK) × (result ≡ 0 → read ≡ most) }
{
    let left = most - read;
    if left < CHUNK { left } else { CHUNK }
}

// Room for as many bytes as are asked for at once.
fn room(alloc: Global) -> Result<Vec<u8>, AllocError>
    ensures { IfOk result (λ room. length room.items ≡ CHUNK) }
{
    let mut room = Vec::new(alloc);
    room.resize(CHUNK, 0)?;
    Ok(room)
}

// Reads some more bytes behind these, at most so many in all, and tells whether there may be others.
fn read_more<H: Host, S: Stream<H>>(
    host: &mut H,
    stream: &mut S,
    chunk: &mut [u8],
    bytes: &mut Vec<u8>,
    most: usize,
) -> Result<bool, Failure>
    requires chunk { length chunk.old ≡ CHUNK }
    requires few { length bytes.old.items ≤ most }
    ensures few { length bytes.new.items ≤ most }
    ensures read { IfOk result (λ more. (got : List ℕ) × (bytes.new.items ≡ bytes.old.items ++ got)
        × Consumes (S.rest host.old stream.old) (S.rest host.new stream.new) got
        × (more ≡ false → (length bytes.new.items ≡ most) ⊎ IsAtEnd (S.rest host.new stream.new))) }
    ensures failed { IfErr result IsReadFailure }
    ensures looked { IsTrue (H.state host.old).honest → S.looks (H.state host.old) (H.state host.new) }
{
    let wanted = wanted(bytes.len(), most);
    if wanted == 0 {
        return Ok(false);
    }
    match stream.read(host, &mut chunk[..wanted]) {
        Ok(0) => Ok(false),
        Ok(count) => {
            bytes.extend_from_slice(&chunk[..count])?;
            Ok(true)
        }
        Err(error) if error.kind() == ErrorKind::Interrupted => Ok(true),
        Err(error) => Err(failure_of(&error)),
    }
}

// Reads up to one byte past so many.
fn front<H: Host, S: Stream<H>>(host: &mut H, stream: &mut S, most: u32) -> Result<Vec<u8>, Failure>
    ensures read { IfSome (S.rest host.old stream.old) (λ bytes.
        IfOk result (λ read. read.items ≡ take (most + 1) bytes)) }
    ensures failed { IfErr result IsReadFailure }
    ensures looked { IsTrue (H.state host.old).honest → S.looks (H.state host.old) (H.state host.new) }
{
    let alloc = host.alloc();
    let mut room = room(alloc)?;
    let chunk = room.as_mut_slice();
    let mut bytes = Vec::new(alloc);
    let most = most as usize + 1;
    for _ in 0..u64::MAX {
        if !read_more(host, stream, chunk, &mut bytes, most)? {
            return Ok(bytes);
        }
    }
    Err(Failure::Input)
}

/// The bytes of an open file from where it stands, up to one past so many.
///
/// # Errors
/// `Input` where it can't be read, `Memory` where there is no room for it.
pub fn front_of<H: Host>(host: &mut H, file: &mut H::File, most: u32) -> Result<Vec<u8>, Failure>
    ensures read { IfSome (H.unread file.old) (λ bytes. IfOk result (λ read. read.items ≡ take (most + 1) bytes)) }
    ensures failed { IfErr result IsReadFailure }
    ensures looked { IsTrue (H.state host.old).honest → IsLooking (H.state host.old) (H.state host.new) }
{
    front(host, &mut FileStream::<H> { file }, most)
}

/// The bytes of standard input that were not read yet, up to one past so many.
///
/// # Errors
/// `Input` where it can't be read, `Memory` where there is no room for it.
pub fn front_of_input<H: Host>(host: &mut H, most: u32) -> Result<Vec<u8>, Failure>
    ensures read { IfSome (H.state host.old).input (λ bytes. IfOk result (λ read. read.items ≡ take (most + 1) bytes)) }
    ensures failed { IfErr result IsReadFailure }
    ensures looked { IsTrue (H.state host.old).honest → IsReadingInput (H.state host.old) (H.state host.new) }
{
    front(host, &mut InputStream, most)
}

/// Writes these bytes to standard error. What can't be written there is left out, with all behind it.
pub fn note<H: Host>(host: &mut H, bytes: &[u8])
    ensures { IsTrue (H.state host.old).honest → IsLooking (H.state host.old) (H.state host.new) }
{
    let mut rest = bytes;
    for _ in 0..u64::MAX {
        if rest.is_empty() {
            return;
        }
        rest = match host.note(rest) {
            Ok(0) => return,
            Ok(count) => &rest[count..],
            Err(error) if error.kind() == ErrorKind::Interrupted => rest,
            Err(_) => return,
        };
    }
}
