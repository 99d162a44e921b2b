// The file aside.
ghost use Rattle.std.specs.Prelude.{
  ◌≡◌,
  ◌≢◌,
  ◌<◌,
  ◌↔◌,
  ◌++◌,
  List,
  ℕ,
  IfErr,
  IfOk,
  IfSome,
  IsErrAnd,
  IsOk,
  IsSome,
  IsTrue,
  None,
  OnErr,
  OnOk,
  Some,
  [],
  option_map,
  string_bytes,
};
ghost use Rattle.shop_host.specs.State.{IsQuiet, IsSameBut, unflushed, whole};
ghost use Rattle.shop_host.specs.Runs.{IsLooking, IsRun};
ghost use Rattle.shop_outputs.specs.Asides.{
  IsAside,
  IsGone,
  IsMadeAside,
  IsOnDisk,
  destination_of,
  IsTaken,
  IsTakenBack,
  TakesPlace,
  content_of,
  may_aside,
  may_at,
  may_beside,
};
ghost use Rattle.shop_outputs.specs.Protected.{IsProtected};
ghost use Rattle.std.specs.IoError.{error_kind};

use crate::folder::{MOST_NAMES, path_beside};
use crate::target::{Standing, Target};
use crate::whole::write_whole;
use shop_host::{Host, Node};
use std::io::{self, ErrorKind};
use std::os::unix::fs::PermissionsExt;

/// The access mode of a file aside, until it gets that of the file whose place it takes: nobody else may look into it.
const OWN_MODE: u32 = 0o600;

/// Which place a file may take.
#[derive(Clone, Copy, PartialEq, Eq)]
pub enum Placing {
    /// Also that of a file that stands there.
    Over,
    /// One at which nothing stands.
    Free,
}

/// A file that is written beside the one whose place it takes. It is made when its first bytes are written.
pub struct AsideFile<'a, H: Host> {
    target: &'a Target,
    /// The path of another file of the job, which is no name for this one.
    apart: Option<&'a str>,
    placing: Placing,
    made: Option<(String, H::File)>,
    failure: Option<ErrorKind>,
}

impl<'a, H: Host> Drop for AsideFile<'a, H> {
    fn drop(self) {
        let AsideFile {
            target: _,
            apart: _,
            placing: _,
            made: _,
            failure: _,
        } = self;
    }
}

// The access mode with which a file aside is made, to take the place of one that stands there or as any new file.
fn mode_for(standing: Option<&Standing>) -> Option<u32> {
    standing.map(|_| OWN_MODE)
}

// Whether this is the path of another file of the job.
fn is_path_of(path: &str, other: Option<&str>) -> bool
    ensures { IsTrue result ↔ (Some path.now ≡ option_map (λ s. s.now) other.entry) }
{
    match other {
        Some(other) => path == other,
        None => false,
    }
}

// Makes a new file beside another one, under the name of this number, if that is free and not the path of another file
// of the job.
fn create_under<H: Host>(
    host: &mut H,
    target: &str,
    apart: Option<&str>,
    number: u32,
    mode: Option<u32>,
) -> io::Result<Option<(String, H::File)>>
    requires { number < MOST_NAMES }
    ensures run { IsTrue (H.state host.old).honest
        → IsRun (may_beside target.now (option_map (λ s. s.now) apart.entry)) (H.state host.old) (H.state host.new) }
    ensures made { IsTrue (H.state host.old).honest → IfOk result (λ made. IfSome made (λ made.
        IsAside target.now (option_map (λ s. s.now) apart.entry) (string_bytes made.0)
        × (H.place made.1 ≡ string_bytes made.0)
        × ((H.state host.new).files (string_bytes made.0) ≡ unflushed []))) }
{
    let path = path_beside(host.alloc(), target, number)?;
    if is_path_of(path.as_str(), apart) {
        return Ok(None);
    }
    match host.make(path.as_str(), mode) {
        Ok(file) => Ok(Some((path, file))),
        Err(error) if error.kind() == ErrorKind::AlreadyExists => Ok(None),
        Err(error) => Err(error),
    }
}

// Makes a new file beside another one, under the first name that is free.
fn create_beside<H: Host>(
    host: &mut H,
    target: &str,
    apart: Option<&str>,
    mode: Option<u32>,
) -> io::Result<(String, H::File)>
    ensures run { IsTrue (H.state host.old).honest
        → IsRun (may_beside target.now (option_map (λ s. s.now) apart.entry)) (H.state host.old) (H.state host.new) }
    ensures made { IsTrue (H.state host.old).honest → IfOk result (λ made.
        IsAside target.now (option_map (λ s. s.now) apart.entry) (string_bytes made.0)
        × (H.place made.1 ≡ string_bytes made.0)
        × ((H.state host.new).files (string_bytes made.0) ≡ unflushed [])) }
{
    for number in 0..MOST_NAMES {
        if let Some(made) = create_under(host, target, apart, number, mode)? {
            return Ok(made);
        }
    }
    Err(io::Error::from(ErrorKind::AlreadyExists))
}

// Gives a new file the owner and the group of another, as far as the caller may give them.
fn keep_owner<H: Host>(host: &mut H, path: &str, file: &H::File, standing: &Standing)
    ensures { IsTrue (H.state host.old).honest → IsLooking (H.state host.old) (H.state host.new) }
{
    let Ok(made) = host.found_open(file) else {
        return;
    };
    if made.group != standing.group {
        let _ = host.set_owner(path, None, Some(standing.group));
    }
    if made.owner != standing.owner {
        let _ = host.set_owner(path, Some(standing.owner), None);
    }
}

// Gives a new file the owner, the group and the access mode of the one that stands there, if one does. The mode comes
// last: a change of the owner may take bits of it away.
fn keep_standing<H: Host>(
    host: &mut H,
    path: &str,
    file: &H::File,
    standing: Option<&Standing>,
) -> io::Result<()>
    ensures { IsTrue (H.state host.old).honest → IsLooking (H.state host.old) (H.state host.new) }
{
    let Some(standing) = standing else {
        return Ok(());
    };
    keep_owner(host, path, file, standing);
    host.set_mode(file, standing.mode.mode())
}

// Whether a call failed since the file system knows no second name of a file.
fn knows_no_links(kind: ErrorKind) -> bool {
    matches!(kind, ErrorKind::Unsupported | ErrorKind::PermissionDenied)
}

// Which file an open one is, where the system tells it.
fn node_of<H: Host>(host: &mut H, file: &H::File) -> Option<Node>
    ensures { IsTrue (H.state host.old).honest → IsQuiet (H.state host.old) (H.state host.new) }
{
    match host.found_open(file) {
        Ok(found) => Some(found.node),
        Err(_) => None,
    }
}

// Takes the empty file away that was made at a place, unless something else stands there by now.
fn take_back<H: Host>(host: &mut H, place: &str, node: Option<Node>)
    ensures { IsTrue (H.state host.old).honest → (H.state host.old).files place.now ≡ unflushed []
        → IsTakenBack place.now (H.state host.old) (H.state host.new) }
{
    match host.found_itself(place) {
        Ok(found) if node == Some(found.node) && found.size == 0 => {
            let _removed = host.remove(place);
        }
        _ => {}
    }
}

// Gives a file aside its place by making an empty file there first, which fails where something stands.
fn take_made_place<H: Host>(host: &mut H, aside: &str, place: &str) -> io::Result<()>
    ensures { IsTrue (H.state host.old).honest → (bytes : List ℕ) → (H.state host.old).files aside.now ≡ whole bytes
        → aside.now ≢ place.now
        → TakesPlace Placing.Free aside.now place.now bytes result (H.state host.old) (H.state host.new) }
{
    let file = match host.make(place, None) {
        Ok(file) => file,
        Err(error) => return Err(error),
    };
    let node = node_of(host, &file);
    drop(file);
    match host.rename(aside, place) {
        Ok(()) => Ok(()),
        Err(error) => {
            take_back(host, place, node);
            Err(error)
        }
    }
}

// Gives a file aside its place, at which nothing may stand: its second name there fails where something does.
fn take_free_place<H: Host>(host: &mut H, aside: &str, place: &str) -> io::Result<()>
    ensures { IsTrue (H.state host.old).honest → (bytes : List ℕ) → (H.state host.old).files aside.now ≡ whole bytes
        → aside.now ≢ place.now
        → TakesPlace Placing.Free aside.now place.now bytes result (H.state host.old) (H.state host.new) }
{
    match host.link(aside, place) {
        Ok(()) => {
            remove_aside(host, aside);
            Ok(())
        }
        Err(error) if knows_no_links(error.kind()) => take_made_place(host, aside, place),
        Err(error) => Err(error),
    }
}

// Removes a file aside, as far as that can be done.
fn remove_aside<H: Host>(host: &mut H, path: &str)
    ensures run { IsTrue (H.state host.old).honest → IsRun (may_at path.now) (H.state host.old) (H.state host.new) }
    ensures gone { IsTrue (H.state host.old).honest → IsGone path.now (H.state host.new) }
    ensures same { IsTrue (H.state host.old).honest
        → IsSameBut path.now (H.state host.old).files (H.state host.new).files }
{
    let _removed = host.remove(path);
}

// Gives a file aside such a place.
fn give_place<H: Host>(host: &mut H, placing: Placing, aside: &str, place: &str) -> io::Result<()>
    ensures { IsTrue (H.state host.old).honest → (bytes : List ℕ) → (H.state host.old).files aside.now ≡ whole bytes
        → aside.now ≢ place.now
        → TakesPlace placing aside.now place.now bytes result (H.state host.old) (H.state host.new) }
{
    match placing {
        Placing::Over => host.rename(aside, place),
        Placing::Free => take_free_place(host, aside, place),
    }
}

// The same. Where that fails, the file aside is removed.
fn take<H: Host>(host: &mut H, placing: Placing, aside: &str, place: &str) -> io::Result<()>
    ensures { IsTrue (H.state host.old).honest → (bytes : List ℕ) → (H.state host.old).files aside.now ≡ whole bytes
        → aside.now ≢ place.now
        → TakesPlace placing aside.now place.now bytes result (H.state host.old) (H.state host.new) }
{
    match give_place(host, placing, aside, place) {
        Ok(()) => Ok(()),
        Err(error) => {
            remove_aside(host, aside);
            Err(error)
        }
    }
}

impl<'a, H: Host> AsideFile<'a, H> {
    /// A file that is to take a target's place, with the access mode of the one that stands there, without set-id bits,
    /// and with its owner and group where the caller may give them; no file aside gets the path of the other file.
    /// Nothing is made yet; of a target that is no place, each write will fail.
    pub fn new(target: &'a Target, apart: Option<&'a str>, placing: Placing) -> AsideFile<'a, H>
        ensures target { result.target.now ≡ target.now }
        ensures apart { option_map (λ s. s.now) result.apart ≡ option_map (λ s. s.now) apart.entry }
        ensures placing { result.placing ≡ placing }
        ensures untouched { (result.made ≡ None) × (result.failure ≡ None) }
    {
        AsideFile {
            target,
            apart,
            placing,
            made: None,
            failure: None,
        }
    }

    /// Whether nothing was to be written.
    pub fn is_empty(&self) -> bool
        ensures { IsTrue result ↔ (self.now.made ≡ None) × (self.now.failure ≡ None) }
    {
        self.made.is_none() && self.failure.is_none()
    }

    /// Why a write or the flush to the disk failed, if one has. A write that was interrupted is tried again, and is
    /// none.
    pub fn failure(&self) -> Option<ErrorKind>
        ensures { result ≡ self.now.failure }
    {
        self.failure
    }

    /// Puts what was written onto the disk.
    ///
    /// # Errors
    /// A call that failed before, or what the file system answers.
    pub fn flush_to_disk(&mut self, host: &mut H) -> io::Result<()>
        ensures failed { IfErr result (λ error. self.new.failure ≡ Some (error_kind error)) }
        ensures done { OnOk result ((self.old.failure ≡ None) × (self.new ≡ self.old)) }
        ensures kept { IfSome self.old.failure (λ kind. self.new.failure ≡ Some kind) }
        ensures file { self.new.made ≡ self.old.made }
        ensures destination { destination_of self.new ≡ destination_of self.old }
        ensures run { IsTrue (H.state host.old).honest → IsMadeAside H.place self.old
            → IsRun (may_aside (destination_of self.old)) (H.state host.old) (H.state host.new) }
        ensures flushed { IsTrue (H.state host.old).honest → IsMadeAside H.place self.old → (bytes : List ℕ)
            → content_of self.old.made (H.state host.old).files ≡ unflushed bytes
            → OnOk result (IsOnDisk self.old.made bytes (H.state host.new).files) }
    {
        if let Some(kind) = self.failure {
            return Err(io::Error::from(kind));
        }
        let Some((_, file)) = &self.made else {
            return Ok(());
        };
        let flushed = host.flush(file);
        if let Err(error) = &flushed {
            self.failure = Some(error.kind());
        }
        flushed
    }

    /// Takes the place. Where that fails, the file aside is removed.
    ///
    /// # Errors
    /// A call that failed before, or what the file system answers; what stood at the place then stands.
    pub fn take_place(self, host: &mut H) -> io::Result<()>
        ensures failed { IfSome self.entry.failure (λ kind. IsErrAnd result (λ error. error_kind error ≡ kind)) }
        ensures empty { self.entry.made ≡ None → self.entry.failure ≡ None → IsOk result }
        ensures taken { IsTrue (H.state host.old).honest → IsMadeAside H.place self.entry → (bytes : List ℕ)
            → IsOnDisk self.entry.made bytes (H.state host.old).files
            → IsTaken self.entry bytes result (H.state host.old) (H.state host.new) }
    {
        if let Some(kind) = self.failure {
            self.discard(host);
            return Err(io::Error::from(kind));
        }
        let AsideFile {
            target,
            apart: _,
            placing,
            made,
            failure: _,
        } = self;
        let (Some((path, file)), Target::Place(place)) = (made, target) else {
            return Ok(());
        };
        drop(file);
        take(host, placing, path.as_str(), place.path.as_str())
    }

    /// Removes the file aside.
    pub fn discard(self, host: &mut H)
        ensures run { IsTrue (H.state host.old).honest → IsMadeAside H.place self.entry
            → IsRun (may_aside (destination_of self.entry)) (H.state host.old) (H.state host.new) }
        ensures gone { IsTrue (H.state host.old).honest → IfSome self.entry.made (λ made.
            IsGone (string_bytes made.0) (H.state host.new)) }
    {
        let AsideFile {
            target: _,
            apart: _,
            placing: _,
            made,
            failure: _,
        } = self;
        if let Some((path, file)) = made {
            drop(file);
            remove_aside(host, path.as_str());
        }
    }

    /// Makes the file aside, if it is not there yet.
    ///
    /// # Errors
    /// A call that failed before, `PermissionDenied` where it is to take the place of a file that no one may write, or
    /// what the file system answers; then each write will fail.
    pub fn open(&mut self, host: &mut H) -> io::Result<()>
        ensures failed { IfErr result (λ error. self.new.failure ≡ Some (error_kind error)) }
        ensures made { OnOk result (IsSome self.new.made × (self.new.failure ≡ None)) }
        ensures kept { IfSome self.old.failure (λ kind. self.new.failure ≡ Some kind) }
        ensures once { OnOk result (IsSome self.old.made → self.new ≡ self.old) }
        ensures protected { IsProtected self.old.target.now → self.old.made ≡ None → (self.new.made ≡ None)
            × (self.old.failure ≡ None → self.new.failure ≡ Some ErrorKind.PermissionDenied) }
        ensures destination { destination_of self.new ≡ destination_of self.old }
        ensures run { IsTrue (H.state host.old).honest
            → IsRun (may_aside (destination_of self.old)) (H.state host.old) (H.state host.new) }
        ensures aside { IsTrue (H.state host.old).honest → IsMadeAside H.place self.old → IsMadeAside H.place self.new }
        ensures content { IsTrue (H.state host.old).honest → IsMadeAside H.place self.old → (held : List ℕ)
            → content_of self.old.made (H.state host.old).files ≡ unflushed held
            → content_of self.new.made (H.state host.new).files ≡ unflushed held }
    {
        if let Some(kind) = self.failure {
            return Err(io::Error::from(kind));
        }
        let made = self.make(host);
        if let Err(error) = &made {
            self.failure = Some(error.kind());
        }
        made
    }

    /// Makes the file aside, if it is not there yet, and writes all of these bytes behind what it has.
    ///
    /// # Errors
    /// `PermissionDenied` where it is to take the place of a file that no one may write, or what the file system
    /// answers; it is kept why a write failed.
    pub fn put(&mut self, host: &mut H, bytes: &[u8]) -> io::Result<()>
        ensures failed { IfErr result (λ error. self.new.failure ≡ Some (error_kind error)) }
        ensures made { OnOk result (IsSome self.new.made × (self.new.failure ≡ self.old.failure)) }
        ensures kept { IsSome self.old.failure → IsSome self.new.failure }
        ensures protected { IsProtected self.old.target.now → self.old.made ≡ None → (self.new.made ≡ None)
            × (self.new.failure ≡ Some ErrorKind.PermissionDenied) }
        ensures destination { destination_of self.new ≡ destination_of self.old }
        ensures run { IsTrue (H.state host.old).honest → IsMadeAside H.place self.old
            → IsRun (may_aside (destination_of self.old)) (H.state host.old) (H.state host.new) }
        ensures aside { IsTrue (H.state host.old).honest → IsMadeAside H.place self.old → IsMadeAside H.place self.new }
        ensures content { IsTrue (H.state host.old).honest → IsMadeAside H.place self.old → (held : List ℕ)
            → content_of self.old.made (H.state host.old).files ≡ unflushed held
            → OnOk result (content_of self.new.made (H.state host.new).files ≡ unflushed (held ++ bytes.now)) }
    {
        let written = self.write(host, bytes);
        if let Err(error) = &written {
            self.failure = Some(error.kind());
        }
        written
    }

    // Makes the file aside, if it is not there yet, and not for the place of a file that no one may write.
    fn make(&mut self, host: &mut H) -> io::Result<()>
        ensures made { OnOk result (IsSome self.new.made) }
        ensures once { IsSome self.old.made → (self.new ≡ self.old) × IsOk result }
        ensures failure { self.new.failure ≡ self.old.failure }
        ensures protected { IsProtected self.old.target.now → self.old.made ≡ None → (self.new.made ≡ None)
            × IsErrAnd result (λ error. error_kind error ≡ ErrorKind.PermissionDenied) }
        ensures destination { destination_of self.new ≡ destination_of self.old }
        ensures run { IsTrue (H.state host.old).honest
            → IsRun (may_aside (destination_of self.old)) (H.state host.old) (H.state host.new) }
        ensures aside { IsTrue (H.state host.old).honest → IsMadeAside H.place self.old → IsMadeAside H.place self.new }
        ensures content { IsTrue (H.state host.old).honest → (held : List ℕ)
            → content_of self.old.made (H.state host.old).files ≡ unflushed held
            → content_of self.new.made (H.state host.new).files ≡ unflushed held }
    {
        if self.made.is_some() {
            return Ok(());
        }
        if self.target.is_protected() {
            return Err(io::Error::from(ErrorKind::PermissionDenied));
        }
        let Target::Place(place) = self.target else {
            return Err(io::Error::from(ErrorKind::NotFound));
        };
        let standing = place.standing.as_ref();
        let (path, file) = create_beside(
            host,
            place.path.as_str(),
            self.apart,
            mode_for(standing),
        )?;
        let kept = keep_standing(host, path.as_str(), &file, standing);
        self.made = Some((path, file));
        kept
    }

    // Writes bytes to the file aside.
    fn write(&mut self, host: &mut H, bytes: &[u8]) -> io::Result<()>
        ensures made { OnOk result (IsSome self.new.made) }
        ensures failure { self.new.failure ≡ self.old.failure }
        ensures protected { IsProtected self.old.target.now → self.old.made ≡ None → (self.new.made ≡ None)
            × IsErrAnd result (λ error. error_kind error ≡ ErrorKind.PermissionDenied) }
        ensures destination { destination_of self.new ≡ destination_of self.old }
        ensures run { IsTrue (H.state host.old).honest → IsMadeAside H.place self.old
            → IsRun (may_aside (destination_of self.old)) (H.state host.old) (H.state host.new) }
        ensures aside { IsTrue (H.state host.old).honest → IsMadeAside H.place self.old → IsMadeAside H.place self.new }
        ensures content { IsTrue (H.state host.old).honest → IsMadeAside H.place self.old → (held : List ℕ)
            → content_of self.old.made (H.state host.old).files ≡ unflushed held
            → OnOk result (content_of self.new.made (H.state host.new).files ≡ unflushed (held ++ bytes.now)) }
    {
        self.make(host)?;
        match &mut self.made {
            Some((_, file)) => write_whole(host, file, bytes),
            None => Err(io::Error::from(ErrorKind::Other)),
        }
    }
}
