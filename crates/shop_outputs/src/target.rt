// Where a file is to be written.
ghost use Rattle.std.specs.Prelude.{◌≡◌, ◌↔◌, IfErr, IsTrue};
ghost use Rattle.std.specs.IoError.{error_kind};
ghost use Rattle.shop_host.specs.Runs.{IsLooking};
ghost use Rattle.shop_outputs.specs.Protected.{IsProtected};

use shop_host::{Found, FoundKind, Host, Node};
use std::fs::Permissions;
use std::io::{self, ErrorKind};
use std::os::unix::fs::PermissionsExt;

/// By which path the system shows standard output.
const STANDARD_OUTPUT: &str = "/dev/stdout";

/// How many links that lead to nothing are followed, one to the next.
const MOST_LINKS: u32 = 40;

/// What of an access mode says who may read, write and run a file, without the set-id bits and the sticky one.
const ACCESS_BITS: u32 = 0o777;

/// The file that stands at a place: which one it is, who may use it, and whose it is.
#[derive(Clone, PartialEq, Eq, Drop)]
pub struct Standing {
    pub node: Node,
    /// The access mode, without set-id bits.
    pub mode: Permissions,
    pub owner: u32,
    pub group: u32,
}

/// A place for a file: its own path, with folders resolved and links followed, and the file that stands there, if one
/// does.
#[derive(Drop)]
pub struct Place {
    pub path: String,
    pub standing: Option<Standing>,
}

/// What a path leads to.
#[derive(Drop)]
pub enum Target {
    /// A regular file, or none yet.
    Place(Place),
    /// Something that is written straight: a pipe, a terminal.
    Straight,
    /// Such a thing that is standard output, where the text is told too.
    StandardOutput,
    /// A folder, or what the file system does not show: no file can be written there.
    Nowhere,
}

impl Standing {
    fn of(found: &Found) -> Standing {
        Standing {
            node: found.node,
            mode: Permissions::from_mode(found.mode & ACCESS_BITS),
            owner: found.owner,
            group: found.group,
        }
    }
}

impl Target {
    /// Whether a file stands there that no one may write. It is weighed by its mode: the system lets some callers write
    /// it all the same.
    pub fn is_protected(&self) -> bool
        ensures { IsTrue result ↔ IsProtected self.now }
    {
        match self {
            Target::Place(place) => match &place.standing {
                Some(standing) => standing.mode.readonly(),
                None => false,
            },
            Target::Straight | Target::StandardOutput | Target::Nowhere => false,
        }
    }
}

/// What a path leads to.
///
/// # Errors
/// Want of memory.
pub fn target_of<H: Host>(host: &mut H, path: &str) -> io::Result<Target>
    ensures failed { IfErr result (λ error. error_kind error ≡ ErrorKind.OutOfMemory) }
    ensures looked { IsTrue (H.state host.old).honest → IsLooking (H.state host.old) (H.state host.new) }
{
    match look(host, path) {
        Err(error) if error.kind() != ErrorKind::OutOfMemory => Ok(Target::Nowhere),
        looked => looked,
    }
}

// What a path leads to, or what the file system answers.
fn look<H: Host>(host: &mut H, path: &str) -> io::Result<Target>
    ensures { IsTrue (H.state host.old).honest → IsLooking (H.state host.old) (H.state host.new) }
{
    match host.found(path) {
        Ok(found) if found.is_file() => Ok(Target::Place(Place {
            path: host.own_path(path)?,
            standing: Some(Standing::of(&found)),
        })),
        Ok(found) if found.is_folder() => Ok(Target::Nowhere),
        Ok(found) => Ok(straight(host, &found)),
        Err(error) if error.kind() == ErrorKind::NotFound => missing(host, path),
        Err(error) => Err(error),
    }
}

// Something that is written straight, which may be standard output.
fn straight<H: Host>(host: &mut H, found: &Found) -> Target
    ensures { IsTrue (H.state host.old).honest → IsLooking (H.state host.old) (H.state host.new) }
{
    match host.found(STANDARD_OUTPUT) {
        Ok(told) if told.node == found.node => Target::StandardOutput,
        _ => Target::Straight,
    }
}

// A path at which nothing stands, or a link that leads to nothing: the new file is to stand where the last link leads.
fn missing<H: Host>(host: &mut H, path: &str) -> io::Result<Target>
    ensures { IsTrue (H.state host.old).honest → IsLooking (H.state host.old) (H.state host.new) }
{
    let mut path = path.to_string(host.alloc())?;
    for _ in 0..MOST_LINKS {
        match host.found_itself(path.as_str()) {
            Ok(found) if found.kind == FoundKind::Link => path = behind(host, path.as_str())?,
            Ok(_) => return Ok(Target::Nowhere),
            Err(error) if error.kind() == ErrorKind::NotFound => {
                return new_place(host, path.as_str());
            }
            Err(error) => return Err(error),
        }
    }
    Ok(Target::Nowhere)
}

// The path to which a link leads.
fn behind<H: Host>(host: &mut H, link: &str) -> io::Result<String>
    ensures { IsTrue (H.state host.old).honest → IsLooking (H.state host.old) (H.state host.new) }
{
    let to = host.link_target(link)?;
    if to.as_str().starts_with('/') {
        return Ok(to);
    }
    let (folder, _) = split(link);
    Ok(format!(in host.alloc(); "{folder}/{to}")?)
}

// The folder of a path and the name in it.
fn split(path: &str) -> (&str, &str) {
    match path.rsplit_once('/') {
        None => (".", path),
        Some(("", name)) => ("/", name),
        Some((folder, name)) => (folder, name),
    }
}

// The place of a file that is new.
fn new_place<H: Host>(host: &mut H, path: &str) -> io::Result<Target>
    ensures { IsTrue (H.state host.old).honest → IsLooking (H.state host.old) (H.state host.new) }
{
    let (folder, name) = split(path);
    if matches!(name, "" | "." | "..") {
        return Ok(Target::Nowhere);
    }
    let folder = host.own_path(folder)?;
    let folder = folder.as_str();
    let slash = if folder.ends_with('/') { "" } else { "/" };
    Ok(Target::Place(Place {
        path: format!(in host.alloc(); "{folder}{slash}{name}")?,
        standing: None,
    }))
}
