// What a host in memory shows: to a test, and of a folder.
ghost use Rattle.std.specs.Prelude.{◌≡◌, IfOk, IfSome, Some, option_map};
ghost use Rattle.memory_host.specs.Paths.{rooted as from_root};

use crate::host::MemoryHost;
use crate::journal::{Change, Item, Piece};
use crate::paths::{in_folder, rooted};
use shop_host::{FoundKind, Host};
use std::io::{self, ErrorKind};

// The path of a row as a host shows it, and what stands there: its access mode and its bytes.
type Row<'a> = (&'a str, u32, &'a [u8]);

impl MemoryHost {
    /// The bytes of what stands at a path; none where nothing does.
    pub fn bytes(&self, path: &str) -> io::Result<Option<Vec<u8>>>
        ensures { IfOk result (λ bytes. IfSome ((⟦<MemoryHost as Host>⟧.state self.now).files (from_root path.now))
            (λ content. option_map (λ b. b.items) bytes ≡ Some content.bytes)) }
    {
        let own = rooted(self.alloc, path)?;
        match self.store.at(self.alloc, own.as_str())? {
            Some(entry) => Ok(Some(Vec::from_slice(self.alloc, entry.bytes.as_slice())?)),
            None => Ok(None),
        }
    }

    /// Whether these stand there, and nothing else, each with this access mode and this text.
    pub fn holds(&self, stated: &[(&str, u32, &str)]) -> bool {
        for (path, mode, text) in stated {
            if !matches!(self.has((*path, *mode, text.as_bytes())), Ok(true)) {
                return false;
            }
        }
        matches!(self.paths(), Ok(paths) if paths.len() == stated.len())
    }

    /// Whether the same stands there as in another host.
    pub fn is_like(&self, other: &MemoryHost) -> bool {
        matches!(self.is_within(other), Ok(true)) && matches!(other.is_within(self), Ok(true))
    }

    // Whether all that stands there stands in another host too.
    fn is_within(&self, other: &MemoryHost) -> io::Result<bool> {
        for path in self.paths()?.iter() {
            let entry = self.standing(path)?;
            if !other.has((path, self.mode_of(&entry), entry.bytes.as_slice()))? {
                return Ok(false);
            }
        }
        Ok(true)
    }

    // Whether such a thing stands there.
    fn has(&self, (path, mode, bytes): Row<'_>) -> io::Result<bool> {
        let own = rooted(self.alloc, path)?;
        Ok(match self.store.at(self.alloc, own.as_str())? {
            Some(entry) => self.mode_of(&entry) == mode && entry.bytes.as_slice() == bytes,
            None => false,
        })
    }

    // The paths at which something stands.
    fn paths(&self) -> io::Result<Vec<&str>> {
        let mut paths = Vec::new(self.alloc);
        for item in self.store.items.iter() {
            if let Change::Stands(_)
            | Change::Moved { .. }
            | Change::Carried { .. } = &item.change
            {
                self.add_path(item.path.as_str(), &mut paths)?;
            }
            self.add_pieces(item, &mut paths)?;
        }
        Ok(paths)
    }

    // Adds the paths at which something stands since it was carried there.
    fn add_pieces<'a>(&self, item: &'a Item, paths: &mut Vec<&'a str>) -> io::Result<()> {
        let Change::Carried { pieces, .. } = &item.change else {
            return Ok(());
        };
        for piece in pieces.iter() {
            self.add_path(piece.to.as_str(), paths)?;
        }
        Ok(())
    }

    // Adds a path at which something stands, once.
    fn add_path<'a>(&self, path: &'a str, paths: &mut Vec<&'a str>) -> io::Result<()> {
        if !paths.contains(&path) && self.store.at(self.alloc, path)?.is_some() {
            paths.push(path)?;
        }
        Ok(())
    }

    // The names in a folder.
    pub(crate) fn names_in(&self, folder: &str) -> io::Result<Vec<String>> {
        let within = in_folder(self.alloc, folder, "")?;
        let mut names = Vec::new(self.alloc);
        for path in self.paths()?.iter() {
            if let Some(name) = path.strip_prefix(within.as_str())
                && !name.is_empty()
                && !name.contains('/')
            {
                names.push(name.to_string(self.alloc)?)?;
            }
        }
        Ok(names)
    }

    // All that is in a folder that is to be carried to another path, which is not in it. No link is carried.
    pub(crate) fn pieces(&self, folder: &str, to: &str) -> io::Result<Vec<Piece>> {
        let within = in_folder(self.alloc, folder, "")?;
        if to.starts_with(within.as_str()) {
            return Err(io::Error::from(ErrorKind::InvalidInput));
        }
        let mut pieces = Vec::new(self.alloc);
        for path in self.paths()?.iter() {
            if let Some(name) = path.strip_prefix(within.as_str()) {
                pieces.push(self.piece(path, to, name)?)?;
            }
        }
        Ok(pieces)
    }

    // A thing that is to be carried to another folder.
    fn piece(&self, path: &str, folder: &str, name: &str) -> io::Result<Piece> {
        let entry = self.standing(path)?;
        if entry.kind == FoundKind::Link {
            return Err(io::Error::from(ErrorKind::PermissionDenied));
        }
        Ok(Piece {
            entry,
            from: path.to_string(self.alloc)?,
            to: in_folder(self.alloc, folder, name)?,
        })
    }
}
