// A host in memory, and what its calls share.
ghost use Rattle.std.specs.Prelude.{
  ◌≡◌,
  [],
  IfErr,
  IfOk,
  IsTrue,
  None,
  OnErr,
  OnOk,
  Some,
  string_bytes,
};
ghost use Rattle.std.specs.IoError.{error_kind};
ghost use Rattle.shop_host.specs.State.{IsNoted, IsSameBut, Path, unflushed};
ghost use Rattle.shop_host.specs.Paths.{IsIn, behind as behind_folder, in_folder};
ghost use Rattle.memory_host.specs.Journal.{content_of, done, memory_state, regular};

use crate::entries::{Entry, Kind};
use crate::journal::{Change, Item};
use crate::open::Unread;
use crate::paths::{behind, rooted, split};
use crate::store::{Link, Store};
use shop_host::{Found, FoundKind, Host, Node};
use std::alloc::Global;
use std::io::{self, ErrorKind};

/// The access mode of a file for which none is said.
pub const MODE_OF_NEW: u32 = 0o600;

/// The access mode of a new folder.
pub const MODE_OF_NEW_FOLDER: u32 = 0o755;

/// What of a mode is no kind.
const MODE_BITS: u32 = 0o7777;

/// Which calls fail.
#[derive(Clone, Copy, PartialEq, Eq)]
enum Failing {
    Never,
    /// The call after so many others.
    Once(u32),
    /// Each call after so many others, as on a system that has stopped.
    From(u32),
}

/// A host in memory.
pub struct MemoryHost {
    pub(crate) alloc: Global,
    pub(crate) store: Store,
    /// The access mode of each thing by its number.
    modes: Vec<u32>,
    pub(crate) notes: Vec<u8>,
    calls: u32,
    failing: Failing,
    pub(crate) knows_links: bool,
}

impl Drop for MemoryHost {
    fn drop(self) {
        let MemoryHost {
            alloc: _,
            store: _,
            modes: _,
            notes: _,
            calls: _,
            failing: _,
            knows_links: _,
        } = self;
    }
}

/// Refuses a path that does not begin at the root, or ends in a slash: only at the other ones something is made.
///
/// # Errors
/// `InvalidInput`.
pub fn refuse_unrooted(path: &str) -> io::Result<()> {
    if path.starts_with('/') && !path.ends_with('/') {
        Ok(())
    } else {
        Err(io::Error::from(ErrorKind::InvalidInput))
    }
}

impl MemoryHost {
    /// A host in which these stand, of whose calls the one after `failing` others fails. It knows no second names of
    /// files.
    pub fn holding(
        alloc: Global,
        entries: &[(&str, Kind, &str)],
        failing: Option<u32>,
    ) -> io::Result<MemoryHost>
        ensures { IfOk result (λ host. IsTrue (⟦<MemoryHost as Host>⟧.state host).honest) }
    {
        let mut host = MemoryHost::new(alloc, failing);
        for (path, kind, text) in entries {
            host.put(path, *kind, text.as_bytes())?;
        }
        Ok(host)
    }

    // A host in which nothing stands.
    fn new(alloc: Global, failing: Option<u32>) -> MemoryHost {
        MemoryHost {
            alloc,
            store: Store {
                links: Vec::new(alloc),
                items: Vec::new(alloc),
                locks: Vec::new(alloc),
                input: Unread::empty(alloc),
            },
            modes: Vec::new(alloc),
            notes: Vec::new(alloc),
            calls: 0,
            failing: match failing {
                Some(call) => Failing::Once(call),
                None => Failing::Never,
            },
            knows_links: false,
        }
    }

    /// Puts something at a path that is free. This is no call, but what stands then is a moment too.
    pub fn put(&mut self, path: &str, kind: Kind, bytes: &[u8]) -> io::Result<()> {
        let own = rooted(self.alloc, path)?;
        if kind == Kind::Link {
            self.put_link(path, own.as_str(), bytes)?;
        }
        let own_bytes = Vec::from_slice(self.alloc, bytes)?;
        let entry = self.new_entry(kind.found(), kind.mode(), own_bytes, true)?;
        self.keep(own.as_str(), Change::Stands(entry))
    }

    // Lets a path lead where the link leads that is put there.
    fn put_link(&mut self, path: &str, own: &str, text: &[u8]) -> io::Result<()> {
        let Ok(to) = str::from_utf8(text) else {
            return Err(io::Error::from(ErrorKind::InvalidData));
        };
        let (folder, _) = split(path);
        let there = behind(self.alloc, folder, to)?;
        let link = Link {
            path: own.to_string(self.alloc)?,
            to: self.store.leads(self.alloc, there.as_str())?,
        };
        self.store.links.push(link)?;
        Ok(())
    }

    /// Lets the host know second names of files.
    pub fn know_links(&mut self) {
        self.knows_links = true;
    }

    /// Lets each call fail after so many others, as on a system that has stopped: nothing is changed any more.
    pub fn stop_after(&mut self, calls: u32) {
        self.failing = Failing::From(calls);
    }

    /// Gives standard input these bytes.
    pub fn give_input(&mut self, bytes: &[u8]) -> io::Result<()> {
        self.store.input = Unread {
            bytes: Vec::from_slice(self.alloc, bytes)?,
            read: 0,
        };
        Ok(())
    }

    /// How many calls there were, those that failed too.
    pub fn calls(&self) -> u32 {
        self.calls
    }

    /// What was noted.
    pub fn notes(&self) -> &[u8] {
        self.notes.as_slice()
    }

    // Whether the next call fails.
    pub(crate) fn is_failing(&self) -> bool {
        match self.failing {
            Failing::Never => false,
            Failing::Once(call) => self.calls == call,
            Failing::From(call) => self.calls >= call,
        }
    }

    // Whether no call succeeds any more.
    pub(crate) fn is_stopped(&self) -> bool {
        matches!(self.failing, Failing::From(_)) && self.is_failing()
    }

    // Counts a call, and fails one that is to fail.
    pub(crate) fn count(&mut self) -> io::Result<()>
        ensures store { self.new.store ≡ self.old.store }
        ensures notes { self.new.notes ≡ self.old.notes }
        ensures failed { IfErr result (λ error. error_kind error ≡ ErrorKind.PermissionDenied) }
    {
        let fails = self.is_failing();
        self.calls = self.calls.wrapping_add(1);
        if fails {
            return Err(io::Error::from(ErrorKind::PermissionDenied));
        }
        Ok(())
    }

    // Keeps what came of a path.
    pub(crate) fn keep(&mut self, path: &str, change: Change) -> io::Result<()>
        ensures done { OnOk result (memory_state self.new.store ≡ done path.now change (memory_state self.old.store)) }
        ensures failed { OnErr result (memory_state self.new.store ≡ memory_state self.old.store) }
    {
        let path = path.to_string(self.alloc)?;
        self.store.keep(Item { path, change })?;
        Ok(())
    }

    // Something new, of such a mode.
    pub(crate) fn new_entry(
        &mut self,
        kind: FoundKind,
        mode: u32,
        bytes: Vec<u8>,
        on_disk: bool,
    ) -> io::Result<Entry>
        ensures store { self.new.store ≡ self.old.store }
        ensures content { IfOk result (λ entry. content_of entry ≡ regular kind bytes.items on_disk) }
    {
        let number = self.modes.len() as u64;
        self.modes.push(mode)?;
        Ok(Entry {
            kind,
            number,
            bytes,
            on_disk,
        })
    }

    // Gives a thing an access mode.
    pub(crate) fn give_mode(&mut self, number: u64, mode: u32) -> io::Result<()>
        ensures store { self.new.store ≡ self.old.store }
    {
        let Some(own) = self.modes.get_mut(number as usize) else {
            return Err(io::Error::from(ErrorKind::NotFound));
        };
        *own = mode & MODE_BITS;
        Ok(())
    }

    // The access mode of a thing.
    pub(crate) fn mode_of(&self, entry: &Entry) -> u32 {
        match self.modes.get(entry.number as usize) {
            Some(mode) => *mode,
            None => MODE_OF_NEW,
        }
    }

    // What is told of a thing.
    pub(crate) fn found_of(&self, entry: &Entry) -> Found
        ensures { result.kind ≡ entry.now.kind }
    {
        Found {
            kind: entry.kind,
            node: Node {
                device: 1,
                number: entry.number,
            },
            size: entry.bytes.len() as u64,
            mode: self.mode_of(entry),
            owner: 0,
            group: 0,
        }
    }

    // What stands at a path from the root on.
    pub(crate) fn standing(&self, path: &str) -> io::Result<Entry>
        ensures { IfOk result (λ entry. (memory_state self.now.store).files path.now ≡ content_of entry) }
    {
        match self.store.at(self.alloc, path)? {
            Some(entry) => Ok(entry),
            None => Err(io::Error::from(ErrorKind::NotFound)),
        }
    }

    // The own path of what a path leads to, and what that is.
    pub(crate) fn led(&self, path: &str) -> io::Result<(String, Entry)>
        ensures place { IfOk result (λ led. string_bytes led.0 ≡ (memory_state self.now.store).leads path.now) }
        ensures content { IfOk result (λ led. (memory_state self.now.store).files
            ((memory_state self.now.store).leads path.now) ≡ content_of led.1) }
        ensures kind { IfOk result (λ led. (memory_state self.now.store).kind
            ((memory_state self.now.store).leads path.now) ≡ Some led.1.kind) }
        ensures missing { IfErr result (λ error. error_kind error ≡ ErrorKind.NotFound
            → (memory_state self.now.store).files ((memory_state self.now.store).leads path.now) ≡ None) }
    {
        let own = self.store.leads(self.alloc, path)?;
        match self.store.at(self.alloc, own.as_str())? {
            Some(entry) => Ok((own, entry)),
            None => Err(io::Error::from(ErrorKind::NotFound)),
        }
    }

    // What stands at a path itself.
    pub(crate) fn standing_itself(&self, path: &str) -> io::Result<Entry>
        ensures kind { IfOk result (λ entry. (memory_state self.now.store).kind path.now ≡ Some entry.kind) }
        ensures missing { IfErr result (λ error. error_kind error ≡ ErrorKind.NotFound
            → ((memory_state self.now.store).kind path.now ≡ None)
            × ((folder name : Path) → IsIn folder name path.now → (memory_state self.now.store).leads path.now
            ≡ in_folder ((memory_state self.now.store).leads folder) name)) }
    {
        let own = rooted(self.alloc, path)?;
        if let Some(entry) = self.store.at(self.alloc, own.as_str())? {
            return Ok(entry);
        }
        if self.store.leads_to_its_name(self.alloc, path)? {
            Err(io::Error::from(ErrorKind::NotFound))
        } else {
            Err(io::Error::from(ErrorKind::PermissionDenied))
        }
    }

    // Refuses a path at which something stands.
    pub(crate) fn refuse_taken(&self, path: &str) -> io::Result<()>
        ensures { OnOk result ((memory_state self.now.store).files path.now ≡ None) }
    {
        match self.store.at(self.alloc, path)? {
            Some(_) => Err(io::Error::from(ErrorKind::AlreadyExists)),
            None => Ok(()),
        }
    }

    // Refuses a path whose place a thing may not take: that of a link, of a folder where it is none or where something
    // is in that, and of any other thing where it is a folder.
    pub(crate) fn refuse_unreplaced(&self, entry: &Entry, path: &str) -> io::Result<()> {
        let Some(standing) = self.store.at(self.alloc, path)? else {
            return Ok(());
        };
        let is_free = match standing.kind {
            FoundKind::Folder => {
                entry.kind == FoundKind::Folder && self.names_in(path)?.is_empty()
            }
            FoundKind::Link => false,
            FoundKind::File | FoundKind::Other => entry.kind != FoundKind::Folder,
        };
        if is_free {
            Ok(())
        } else {
            Err(io::Error::from(ErrorKind::PermissionDenied))
        }
    }

    // The path of what a path leads to. The root is a folder.
    pub(crate) fn own(&self, path: &str) -> io::Result<String>
        ensures { IfOk result (λ own. string_bytes own ≡ (memory_state self.now.store).leads path.now) }
    {
        let own = self.store.leads(self.alloc, path)?;
        if own.as_str() != "/" {
            let _entry = self.standing(own.as_str())?;
        }
        Ok(own)
    }

    // The path in a link.
    pub(crate) fn target(&self, path: &str) -> io::Result<String>
        ensures { IfOk result (λ to. (folder name : Path) → IsIn folder name path.now
            → (memory_state self.now.store).leads path.now
            ≡ (memory_state self.now.store).leads (behind_folder folder (string_bytes to))) }
    {
        let Entry { kind, bytes, .. } = self.standing_itself(path)?;
        let to = match str::from_utf8(bytes.as_slice()) {
            Ok(to) if kind == FoundKind::Link => to.to_string(self.alloc)?,
            _ => return Err(io::Error::from(ErrorKind::InvalidInput)),
        };
        if self.store.leads_by(self.alloc, path, to.as_str())? {
            Ok(to)
        } else {
            Err(io::Error::from(ErrorKind::PermissionDenied))
        }
    }

    // Makes a new empty file.
    pub(crate) fn make_file(&mut self, path: &str, mode: u32) -> io::Result<()>
        ensures done { OnOk result (IsNoted (memory_state self.old.store) (memory_state self.new.store)
            × ((memory_state self.new.store).files path.now ≡ unflushed [])
            × IsSameBut path.now (memory_state self.old.store).files (memory_state self.new.store).files) }
        ensures failed { OnErr result (memory_state self.new.store ≡ memory_state self.old.store) }
    {
        let entry = self.new_entry(FoundKind::File, mode, Vec::new(self.alloc), false)?;
        self.keep(path, Change::Stands(entry))
    }

    // Takes the bytes of a regular file away, which stands at a path. No other thing loses any; a folder is refused.
    pub(crate) fn empty(&mut self, path: &str, entry: &Entry) -> io::Result<()>
        ensures { IsNoted (memory_state self.old.store) (memory_state self.new.store)
            × IsSameBut path.now (memory_state self.old.store).files (memory_state self.new.store).files }
    {
        match entry.kind {
            FoundKind::Folder => Err(io::Error::from(ErrorKind::PermissionDenied)),
            FoundKind::File => self.keep(
                path,
                Change::Stands(Entry {
                    kind: FoundKind::File,
                    number: entry.number,
                    bytes: Vec::new(self.alloc),
                    on_disk: false,
                }),
            ),
            _ => Ok(()),
        }
    }
}
