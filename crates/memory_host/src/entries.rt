// What stands in a host.
ghost use Rattle.std.specs.Prelude.{◌≡◌, ◌++◌, IfOk, None, Some, true};
ghost use Rattle.memory_host.specs.Journal.{content_in, kind_in, longer, flushed as on_disk_in};

use shop_host::FoundKind;
use std::alloc::{AllocError, Global};

/// What is put into a host.
#[derive(Clone, Copy, PartialEq, Eq)]
pub enum Kind {
    File,
    Folder,
    Link,
    Pipe,
}

/// What stands at a path: of a file its bytes, and whether all of them are on the disk; of a link the path in it.
#[derive(Drop)]
pub struct Entry {
    pub kind: FoundKind,
    /// Which one it is, whatever names it has.
    pub number: u64,
    pub bytes: Vec<u8>,
    pub on_disk: bool,
}

impl Kind {
    /// The access mode of what a test puts there.
    pub fn mode(self) -> u32 {
        match self {
            Kind::File | Kind::Pipe => 0o644,
            Kind::Folder => 0o755,
            Kind::Link => 0o777,
        }
    }

    /// As a host tells it.
    pub fn found(self) -> FoundKind {
        match self {
            Kind::File => FoundKind::File,
            Kind::Folder => FoundKind::Folder,
            Kind::Link => FoundKind::Link,
            Kind::Pipe => FoundKind::Other,
        }
    }
}

impl Entry {
    /// Another of the same.
    pub fn copy(&self, alloc: Global) -> Result<Entry, AllocError>
        ensures content { IfOk result (λ copy. content_in (Some copy) ≡ content_in (Some self.now)) }
        ensures kind { IfOk result (λ copy. copy.kind ≡ self.now.kind) }
    {
        Ok(Entry {
            kind: self.kind,
            number: self.number,
            bytes: Vec::from_slice(alloc, self.bytes.as_slice())?,
            on_disk: self.on_disk,
        })
    }
}

/// With more bytes behind its own, if it is there.
pub fn lengthened(now: Option<Entry>, bytes: &[u8]) -> Result<Option<Entry>, AllocError>
    ensures content { IfOk result (λ new. content_in new ≡ longer bytes.now (content_in now)) }
    ensures kind { IfOk result (λ new. kind_in new ≡ kind_in now) }
{
    match now {
        Some(
            Entry {
                kind,
                number,
                bytes: mut own,
                on_disk: _,
            },
        ) => {
            own.extend_from_slice(bytes)?;
            Ok(Some(Entry {
                kind,
                number,
                bytes: own,
                on_disk: false,
            }))
        }
        None => Ok(None),
    }
}

/// With all its bytes on the disk, if it is there.
pub fn flushed(now: Option<Entry>) -> Option<Entry>
    ensures content { content_in result ≡ on_disk_in (content_in now) }
    ensures kind { kind_in result ≡ kind_in now }
{
    match now {
        Some(
            Entry {
                kind,
                number,
                bytes,
                on_disk: _,
            },
        ) => Some(Entry {
            kind,
            number,
            bytes,
            on_disk: true,
        }),
        None => None,
    }
}
