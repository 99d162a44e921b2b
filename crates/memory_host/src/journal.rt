// What was done to the files of a host, the oldest first.
ghost use Rattle.std.specs.Prelude.{◌≡◌, [], IfOk, None, if◌then◌else◌, nat_eq, string_bytes};
ghost use Rattle.std.specs.List.{starts_with};
ghost use Rattle.shop_host.specs.Paths.{in_folder as path_in};
ghost use Rattle.memory_host.specs.Journal.{
  IsFound,
  content_after,
  content_here,
  content_in,
  kind_after,
  kind_here,
  kind_in,
  beyond as beyond_here,
  carried as carried_by,
  content_of,
  kind_of,
};

use crate::entries::{Entry, flushed, lengthened};
use crate::paths::in_folder;
use std::alloc::{AllocError, Global};

/// What came of a path.
#[derive(Drop)]
pub enum Change {
    /// This stands there.
    Stands(Entry),
    /// This stands there, and at another path no more.
    Moved {
        entry: Entry,
        from: String,
    },
    /// This folder stands there, with all that is in it, and at another path no more.
    Carried {
        entry: Entry,
        from: String,
        pieces: Vec<Piece>,
    },
    /// These bytes came behind those that were there.
    Wrote(Vec<u8>),
    /// All that it holds is on the disk.
    Flushed,
    /// Nothing stands there.
    Gone,
    /// Nothing stands there, nor in it.
    Emptied,
}

/// What is in a folder that was carried to another path: what it is, and both its paths.
#[derive(Drop)]
pub struct Piece {
    pub entry: Entry,
    pub from: String,
    pub to: String,
}

/// A path, and what came of it.
#[derive(Drop)]
pub struct Item {
    pub path: String,
    pub change: Change,
}

impl Change {
    // What stands at its path after it.
    fn here(&self, alloc: Global, now: Option<Entry>) -> Result<Option<Entry>, AllocError>
        ensures content { IfOk result (λ new. content_in new ≡ content_here self.now (content_in now)) }
        ensures kind { IfOk result (λ new. kind_in new ≡ kind_here self.now (kind_in now)) }
    {
        match self {
            Change::Stands(entry) | Change::Moved { entry, .. } | Change::Carried { entry, .. } =>
                Ok(Some(entry.copy(alloc)?)),
            Change::Wrote(bytes) => lengthened(now, bytes.as_slice()),
            Change::Flushed => Ok(flushed(now)),
            Change::Gone | Change::Emptied => Ok(None),
        }
    }

    // What stands at another path after it.
    fn beyond(
        &self,
        alloc: Global,
        here: &str,
        path: &str,
        now: Option<Entry>,
    ) -> Result<Option<Entry>, AllocError>
        ensures content { IfOk result (λ new. content_in new
            ≡ beyond_here content_of self.now here.now path.now (content_in now)) }
        ensures kind { IfOk result (λ new. kind_in new
            ≡ beyond_here kind_of self.now here.now path.now (kind_in now)) }
    {
        match self {
            Change::Moved { from, .. } => Ok(unless(from.as_str() == path, now)),
            Change::Carried { from, .. } if from.as_str() == path => Ok(None),
            Change::Carried { pieces, .. } => carried(alloc, pieces.as_slice(), path, now),
            Change::Emptied => Ok(unless(is_within(alloc, here, path)?, now)),
            _ => Ok(now),
        }
    }
}

// What is there, unless it is gone.
fn unless(is_gone: bool, now: Option<Entry>) -> Option<Entry>
    ensures content { content_in result ≡ (if is_gone then None else content_in now) }
    ensures kind { kind_in result ≡ (if is_gone then None else kind_in now) }
{
    if is_gone { None } else { now }
}

// Whether a path is in a folder.
fn is_within(alloc: Global, folder: &str, path: &str) -> Result<bool, AllocError>
    ensures { IfOk result (λ is. is ≡ starts_with nat_eq path.now (path_in folder.now [])) }
{
    let within = in_folder(alloc, folder, "")?;
    Ok(path.starts_with(within.as_str()))
}

// What stands at a path after these were carried to theirs.
fn carried(
    alloc: Global,
    pieces: &[Piece],
    path: &str,
    now: Option<Entry>,
) -> Result<Option<Entry>, AllocError>
    ensures content { IfOk result (λ new. content_in new
        ≡ carried_by content_of pieces.now path.now (content_in now)) }
    ensures kind { IfOk result (λ new. kind_in new ≡ carried_by kind_of pieces.now path.now (kind_in now)) }
{
    let [piece, others @ ..] = pieces else {
        return Ok(now);
    };
    if piece.to.as_str() == path {
        Ok(Some(piece.entry.copy(alloc)?))
    } else if piece.from.as_str() == path {
        Ok(None)
    } else {
        carried(alloc, others, path, now)
    }
}

impl Item {
    // What stands at a path after it.
    fn after(
        &self,
        alloc: Global,
        path: &str,
        now: Option<Entry>,
    ) -> Result<Option<Entry>, AllocError>
        ensures content { IfOk result (λ new. content_in new
            ≡ content_after (string_bytes self.now.path) self.now.change path.now (content_in now)) }
        ensures kind { IfOk result (λ new. kind_in new
            ≡ kind_after (string_bytes self.now.path) self.now.change path.now (kind_in now)) }
    {
        if self.path.as_str() == path {
            return self.change.here(alloc, now);
        }
        self.change.beyond(alloc, self.path.as_str(), path, now)
    }
}

/// What stands at a path after all of these.
pub fn entry_at(alloc: Global, items: &[Item], path: &str) -> Result<Option<Entry>, AllocError>
    ensures { IfOk result (IsFound items.now path.now) }
{
    let mut found = None;
    for item in items {
        found = item.after(alloc, path, found)?;
    }
    Ok(found)
}
