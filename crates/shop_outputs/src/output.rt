// A file that a job writes.
ghost use Rattle.std.specs.Prelude.{
  ◌≡◌,
  ◌↔◌,
  false,
  IfErr,
  IfSome,
  IsErrAnd,
  IsOk,
  IsTrue,
  List,
  ℕ,
  None,
  OnErr,
  OnOk,
  Some,
  ◌++◌,
  [],
  option_map,
};
ghost use Rattle.std.specs.Io.KnownBytes.{Appends};
ghost use Rattle.std.specs.IoError.{error_kind};
ghost use Rattle.shop_host.specs.Runs.{IsRun};
ghost use Rattle.shop_outputs.specs.Asides.{IsDestinationOf, destination, may_at};
ghost use Rattle.shop_outputs.specs.Protected.{IsKept};
ghost use Rattle.shop_outputs.specs.Puts.{IsHeld, IsPlaced, IsPut, IsReady, IsTouched, may_prepare};
ghost use Rattle.shop_outputs.specs.Written.{
  GoesTo,
  HasPut,
  IsFlushed,
  IsStraight,
  IsUntouched,
  failure_of,
  still_held,
};

use crate::whole::write_whole;
use crate::{AsideFile, Placing, Target};
use shop_host::Host;
use std::alloc::Global;
use std::io::{self, ErrorKind};

/// A path that is written straight, as a pipe. Its bytes are held until they are all there, and on standard output
/// until the text is told.
#[derive(Drop)]
pub struct HeldFile<'a> {
    path: &'a str,
    bytes: Vec<u8>,
    /// The bytes come behind the text.
    follows_text: bool,
    failure: Option<ErrorKind>,
}

/// A file that a job writes. What stood at its path stands until it takes its place.
#[derive(Drop)]
pub enum Output<'a, H: Host> {
    /// No file is asked for.
    Nothing,
    /// A regular file: a new one is written aside.
    Aside(AsideFile<'a, H>),
    Held(HeldFile<'a>),
}

impl<'a> HeldFile<'a> {
    // The path, of which nothing is held yet.
    fn new(alloc: Global, path: &'a str, follows_text: bool) -> HeldFile<'a>
        ensures path { (result.path.now ≡ path.now) × (result.follows_text ≡ follows_text) }
        ensures untouched { (result.bytes.items ≡ []) × (result.failure ≡ None) }
    {
        HeldFile {
            path,
            bytes: Vec::new(alloc),
            follows_text,
            failure: None,
        }
    }

    // Holds more bytes.
    fn put(&mut self, bytes: &[u8])
        ensures whole { self.new.failure ≡ None
            → Appends (Some self.old.bytes.items) (Some self.new.bytes.items) bytes.now }
        ensures place { (self.new.follows_text ≡ self.old.follows_text) × (self.new.path ≡ self.old.path) }
    {
        if self.bytes.extend_from_slice(bytes).is_err() {
            self.failure = Some(ErrorKind::OutOfMemory);
        }
    }

    // Writes what is held to the path, if anything is.
    fn write_out<H: Host>(&self, host: &mut H) -> io::Result<()>
        ensures empty { self.now.bytes.items ≡ [] → IsOk result }
        ensures run { IsTrue (H.state host.old).honest
            → IsRun (may_at ((H.state host.old).leads self.now.path.now)) (H.state host.old) (H.state host.new) }
    {
        if self.bytes.is_empty() {
            return Ok(());
        }
        let mut file = host.open_empty(self.path)?;
        write_whole(host, &mut file, self.bytes.as_slice())
    }

    // Writes what is held, but for what follows the text.
    fn write_straight<H: Host>(&mut self, host: &mut H) -> io::Result<()>
        ensures failed { IfErr result (λ error. self.new.failure ≡ Some (error_kind error)) }
        ensures done { OnOk result ((self.new.failure ≡ self.old.failure)
            × (self.new.bytes.items ≡ still_held self.old)) }
        ensures path { self.new.path ≡ self.old.path }
        ensures run { IsTrue (H.state host.old).honest
            → IsRun (may_at ((H.state host.old).leads self.old.path.now)) (H.state host.old) (H.state host.new) }
    {
        if self.follows_text {
            return Ok(());
        }
        let written = self.write_out(host);
        match &written {
            Ok(()) => self.bytes.clear(),
            Err(error) => self.failure = Some(error.kind()),
        }
        written
    }
}

impl<'a, H: Host> Output<'a, H> {
    /// The file of a path that leads to a target, which may take such a place; no file aside gets the path of the other
    /// file.
    pub fn new(
        alloc: Global,
        path: &'a str,
        target: &'a Target,
        apart: Option<&'a str>,
        placing: Placing,
    ) -> Output<'a, H>
        ensures goes { GoesTo path.now target.now placing result }
        ensures untouched { IsUntouched result }
        ensures destination { IsDestinationOf path.now target.now (option_map (λ s. s.now) apart.entry) placing
            (destination result) }
    {
        match target {
            Target::Straight => Output::Held(HeldFile::new(alloc, path, false)),
            Target::StandardOutput => Output::Held(HeldFile::new(alloc, path, true)),
            target => Output::Aside(AsideFile::new(target, apart, placing)),
        }
    }

    /// Makes the file, if it is one that is written aside, before anything is written to it.
    ///
    /// # Errors
    /// `PermissionDenied` where it is to take the place of a file that no one may write, or what the file system
    /// answers.
    pub fn open(&mut self, host: &mut H) -> io::Result<()>
        ensures failed { IfErr result (λ error. failure_of self.new ≡ Some (error_kind error)) }
        ensures opened { OnOk result (failure_of self.new ≡ failure_of self.old) }
        ensures kept { IfSome (failure_of self.old) (λ kind. failure_of self.new ≡ Some kind) }
        ensures protected { IsKept self.old → failure_of self.new ≡ Some ErrorKind.PermissionDenied }
        ensures straight { IsStraight self.old → self.new ≡ self.old }
        ensures destination { destination self.new ≡ destination self.old }
        ensures run { IsTrue (H.state host.old).honest
            → IsRun (may_prepare (H.state host.old).leads (destination self.old))
            (H.state host.old) (H.state host.new) }
        ensures held { IsTrue (H.state host.old).honest → (held : List ℕ)
            → IsPut H.place self.old held (H.state host.old).files
            → IsPut H.place self.new held (H.state host.new).files }
    {
        match self {
            Output::Aside(file) => file.open(host),
            Output::Nothing | Output::Held(_) => Ok(()),
        }
    }

    /// Whether nothing was to be written.
    pub fn is_empty(&self) -> bool
        ensures { IsTrue result ↔ IsUntouched self.now }
    {
        match self {
            Output::Nothing => true,
            Output::Aside(file) => file.is_empty(),
            Output::Held(file) => file.bytes.is_empty() && file.failure.is_none(),
        }
    }

    /// Why a write or the flush to the disk failed, if one has.
    pub fn failure(&self) -> Option<ErrorKind>
        ensures { result ≡ failure_of self.now }
    {
        match self {
            Output::Nothing => None,
            Output::Aside(file) => file.failure(),
            Output::Held(file) => file.failure,
        }
    }

    /// Writes bytes to the last. Where that fails, the file can't be put onto the disk and does not take its place.
    pub fn put(&mut self, host: &mut H, bytes: &[u8])
        ensures whole { failure_of self.new ≡ None → HasPut bytes.now self.old self.new }
        ensures kept { IfSome (failure_of self.old) (λ kind. failure_of self.new ≡ Some kind) }
        ensures touched { IsTouched self.new }
        ensures straight { IsStraight self.old → IsStraight self.new }
        ensures destination { destination self.new ≡ destination self.old }
        ensures held { IsTrue (H.state host.old).honest → (held : List ℕ)
            → IsPut H.place self.old held (H.state host.old).files
            → IsPut H.place self.new (held ++ bytes.now) (H.state host.new).files
            × IsRun (may_prepare (H.state host.old).leads (destination self.old))
            (H.state host.old) (H.state host.new) }
    {
        let None = self.failure() else {
            return;
        };
        match self {
            Output::Nothing => {}
            Output::Aside(file) => {
                // The file keeps why a write failed.
                let _ = file.put(host, bytes);
            }
            Output::Held(file) => file.put(bytes),
        }
    }

    /// Puts what was written aside onto the disk, and writes what is held for a path that is written straight, but for
    /// standard output: that comes behind the text.
    ///
    /// # Errors
    /// A call that failed before, or what the file system answers.
    pub fn flush_to_disk(&mut self, host: &mut H) -> io::Result<()>
        ensures failed { IfErr result (λ error. failure_of self.new ≡ Some (error_kind error)) }
        ensures kept { IfSome (failure_of self.old) (λ kind. failure_of self.new ≡ Some kind) }
        ensures done { OnOk result (IsFlushed self.old self.new) }
        ensures destination { destination self.new ≡ destination self.old }
        ensures held { IsTrue (H.state host.old).honest → (held : List ℕ)
            → IsPut H.place self.old held (H.state host.old).files
            → IsRun (may_prepare (H.state host.old).leads (destination self.old)) (H.state host.old) (H.state host.new)
            × OnOk result (IsReady H.place self.new held (H.state host.new).files)
            × OnErr result (IsPut H.place self.new held (H.state host.new).files) }
    {
        if let Some(kind) = self.failure() {
            return Err(io::Error::from(kind));
        }
        match self {
            Output::Nothing => Ok(()),
            Output::Aside(file) => file.flush_to_disk(host),
            Output::Held(file) => file.write_straight(host),
        }
    }

    /// Takes the place, or writes what is still held.
    ///
    /// # Errors
    /// A call that failed before, or what the file system answers; what stood at a place then stands.
    pub fn take_place(self, host: &mut H) -> io::Result<()>
        ensures failed { IfSome (failure_of self.entry) (λ kind. IsErrAnd result (λ error. error_kind error ≡ kind)) }
        ensures untouched { IsUntouched self.entry → IsOk result }
        ensures placed { IsTrue (H.state host.old).honest → (held : List ℕ)
            → IsReady H.place self.entry held (H.state host.old).files
            → IsPlaced self.entry held result (H.state host.old) (H.state host.new) }
    {
        if let Some(kind) = self.failure() {
            self.discard(host);
            return Err(io::Error::from(kind));
        }
        match self {
            Output::Nothing => Ok(()),
            Output::Aside(file) => file.take_place(host),
            Output::Held(file) => file.write_out(host),
        }
    }

    /// Removes what was written aside.
    pub fn discard(self, host: &mut H)
        ensures { IsTrue (H.state host.old).honest → IsHeld H.place self.entry
            → IsRun (may_prepare (H.state host.old).leads (destination self.entry))
            (H.state host.old) (H.state host.new) }
    {
        if let Output::Aside(file) = self {
            file.discard(host);
        }
    }
}
