// What the program asks of its system.
use crate::found::Found;
use a2_media::PositionedFile;
use std::alloc::Global;
use std::io;

/// What an open file is used for.
#[derive(Clone, Copy, PartialEq, Eq)]
pub enum Access {
    Read,
    /// It is read, and written where it stands.
    Change,
}

/// The lock of an open file.
#[derive(Clone, Copy, PartialEq, Eq)]
pub enum Lock {
    /// Others may hold such a lock too.
    Shared,
    /// Nobody else holds one.
    Exclusive,
}

/// The files, the folders and the streams of a system, but for standard output. Each method is one call, which may be
/// refused; what it answers then is of the kind `OutOfMemory` exactly where memory ran out. What is said of the files
/// holds where the host is honest, and then it stays so: nobody else changes them, and each of them has one path of its
/// own.
pub trait Host {
    ghost use Rattle.std.specs.Prelude.{◌≡◌, IfOk, IsTrue, List, Option, ℕ};
    ghost use Rattle.std.specs.Io.{ReadsAtMost, WritesAtMost};
    ghost use Rattle.std.specs.Io.KnownBytes.{ReadConsumes, WriteAppends};
    ghost use Rattle.a2_media.specs.File.{FileState};
    ghost use Rattle.shop_host.specs.State.{
      HostState,
      IsQuiet,
      Path,
      giving,
      listing,
      looking,
      reading,
    };
    ghost use Rattle.shop_host.specs.Calls.{
      Asks,
      Finds,
      FindsItself,
      FindsOwnPath,
      Flushes,
      FollowsLink,
      Keeps,
      LendsUnits,
      Links,
      Locks,
      Makes,
      MakesFolder,
      Opens,
      OpensEmpty,
      ReadsInput,
      Removes,
      RemovesFolder,
      Renames,
      Writes,
    };

    /// An open file, which is closed, and its lock let go, when this is dropped.
    type File: Drop;

    /// The bytes of an open file at their positions: a second handle, which shares its lock.
    type Units: PositionedFile + Drop;

    /// The names in a folder that are still to come.
    type Names: Drop;

    /// What the host is.
    ghost state: { Self → HostState };

    /// The own path of an open file.
    ghost place: { Self.File → Path };

    /// What an open file has behind what was read of it, where that is known.
    ghost unread: { Self.File → Option (List ℕ) };

    /// The own path of the bytes of an open file.
    ghost units_place: { Self.Units → Path };

    /// What was noted, where that is known.
    ghost noted: { Self → Option (List ℕ) };

    /// Where memory comes from.
    fn alloc(&self) -> Global;

    // ---- what a path leads to

    /// What a path leads to, links followed. `NotFound` where nothing is there.
    fn found(&mut self, path: &str) -> io::Result<Found>
        ensures { IsTrue (state self.old).honest → Finds path.now result (state self.old) (state self.new) };

    /// What stands at a path itself, which may be a link.
    fn found_itself(&mut self, path: &str) -> io::Result<Found>
        ensures { IsTrue (state self.old).honest → FindsItself path.now result (state self.old) (state self.new) };

    /// What an open file is.
    fn found_open(&mut self, file: &Self::File) -> io::Result<Found>
        ensures { IsTrue (state self.old).honest
            → Asks (looking (place file.now)) result (state self.old) (state self.new) };

    /// The path of what a path leads to, from the root on and without links.
    fn own_path(&mut self, path: &str) -> io::Result<String>
        ensures { IsTrue (state self.old).honest → FindsOwnPath path.now result (state self.old) (state self.new) };

    /// The path in a link.
    fn link_target(&mut self, path: &str) -> io::Result<String>
        ensures { IsTrue (state self.old).honest → FollowsLink path.now result (state self.old) (state self.new) };

    // ---- files

    /// Opens the file to which a path leads.
    fn open(&mut self, path: &str, access: Access) -> io::Result<Self::File>
        ensures { IsTrue (state self.old).honest
            → Opens place unread path.now result (state self.old) (state self.new) };

    /// Makes a new file, where nothing stands, a link neither (`AlreadyExists`), and opens it to be written. Its access
    /// mode is this one, or that of any new file.
    fn make(&mut self, path: &str, mode: Option<u32>) -> io::Result<Self::File>
        ensures { IsTrue (state self.old).honest → Makes place path.now result (state self.old) (state self.new) };

    /// Opens what a path leads to, to be written from its front on; of a file nothing is left then.
    fn open_empty(&mut self, path: &str) -> io::Result<Self::File>
        ensures { IsTrue (state self.old).honest → OpensEmpty place path.now result (state self.old) (state self.new) };

    /// Takes the lock of an open file, without waiting. `WouldBlock` where another holds it.
    fn lock(&mut self, file: &Self::File, lock: Lock) -> io::Result<()>
        ensures { IsTrue (state self.old).honest
            → Locks (place file.now) lock result (state self.old) (state self.new) };

    /// Reads bytes behind those that were read, and answers how many: none at the end. `Interrupted` where it is to be
    /// tried again.
    fn read(&mut self, file: &mut Self::File, bytes: &mut [u8]) -> io::Result<usize>
        ensures bound { ReadsAtMost result bytes.new }
        ensures bytes { ReadConsumes (unread file.old) (unread file.new) result bytes.new }
        ensures place { place file.new ≡ place file.old }
        ensures file { IsTrue (state self.old).honest
            → Asks (reading (place file.old)) result (state self.old) (state self.new) };

    /// Writes a front of these bytes behind those that were written, and answers how many they are. `Interrupted` where
    /// it is to be tried again.
    fn write(&mut self, file: &mut Self::File, bytes: &[u8]) -> io::Result<usize>
        ensures bound { WritesAtMost result bytes.now }
        ensures place { place file.new ≡ place file.old }
        ensures file { IsTrue (state self.old).honest
            → Writes (place file.old) bytes.now result (state self.old) (state self.new) };

    /// Puts what was written to an open file onto the disk.
    fn flush(&mut self, file: &Self::File) -> io::Result<()>
        ensures { IsTrue (state self.old).honest → Flushes (place file.now) result (state self.old) (state self.new) };

    /// Gives an open file an access mode.
    fn set_mode(&mut self, file: &Self::File, mode: u32) -> io::Result<()>
        ensures { IsTrue (state self.old).honest
            → Asks (giving (place file.now)) result (state self.old) (state self.new) };

    /// Gives what stands at a path an owner or a group or both.
    fn set_owner(&mut self, path: &str, owner: Option<u32>, group: Option<u32>) -> io::Result<()>
        ensures { IsTrue (state self.old).honest → Asks (giving path.now) result (state self.old) (state self.new) };

    /// The bytes of an open file at their positions. Nothing was written to them.
    fn units(&mut self, file: &Self::File) -> io::Result<Self::Units>
        ensures standing { IfOk result (λ units. (Self.Units.state units).standing ≡ 0) }
        ensures file { IsTrue (state self.old).honest
            → LendsUnits units_place Self.Units.state (place file.now) result (state self.old) (state self.new) };

    /// Puts what was written to the bytes of an open file onto the disk.
    fn flush_units(&mut self, units: &Self::Units) -> io::Result<()>
        ensures { IsTrue (state self.old).honest
            → Keeps (units_place units.now) (Self.Units.state units.now).bytes result
            (state self.old) (state self.new) };

    // ---- names

    /// Gives what stands at a path another path, in the place of what stands there.
    fn rename(&mut self, from: &str, to: &str) -> io::Result<()>
        ensures { IsTrue (state self.old).honest → Renames from.now to.now result (state self.old) (state self.new) };

    /// Gives a file a second path, at which nothing stands (`AlreadyExists`). `Unsupported` or `PermissionDenied` where
    /// the file system knows no second names.
    fn link(&mut self, from: &str, to: &str) -> io::Result<()>
        ensures { IsTrue (state self.old).honest → Links from.now to.now result (state self.old) (state self.new) };

    /// Takes a file's path away, or a link.
    fn remove(&mut self, path: &str) -> io::Result<()>
        ensures { IsTrue (state self.old).honest → Removes path.now result (state self.old) (state self.new) };

    // ---- folders

    /// Makes a folder where nothing stands.
    fn make_folder(&mut self, path: &str) -> io::Result<()>
        ensures { IsTrue (state self.old).honest → MakesFolder path.now result (state self.old) (state self.new) };

    /// Gives a folder an access mode.
    fn set_folder_mode(&mut self, path: &str, mode: u32) -> io::Result<()>
        ensures { IsTrue (state self.old).honest → Asks (giving path.now) result (state self.old) (state self.new) };

    /// Removes a folder with all that it holds. No link in it is followed.
    fn remove_folder(&mut self, path: &str) -> io::Result<()>
        ensures { IsTrue (state self.old).honest → RemovesFolder path.now result (state self.old) (state self.new) };

    /// The names in a folder.
    fn names(&mut self, path: &str) -> io::Result<Self::Names>
        ensures { IsTrue (state self.old).honest → Asks (listing path.now) result (state self.old) (state self.new) };

    /// The next name in a folder, in no order; none at the end. `InvalidFilename` of a name that is no UTF-8, behind
    /// which others may come.
    fn next_name(&mut self, names: &mut Self::Names) -> Option<io::Result<String>>
        ensures { IsTrue (state self.old).honest → IsQuiet (state self.old) (state self.new) };

    // ---- streams

    /// Reads bytes of standard input, and answers how many: none at its end.
    fn read_input(&mut self, bytes: &mut [u8]) -> io::Result<usize>
        ensures bound { ReadsAtMost result bytes.new }
        ensures bytes { ReadConsumes (state self.old).input (state self.new).input result bytes.new }
        ensures input { IsTrue (state self.old).honest → ReadsInput result (state self.old) (state self.new) };

    /// Writes a front of these bytes to standard error, and answers how many they are.
    fn note(&mut self, bytes: &[u8]) -> io::Result<usize>
        ensures bound { WritesAtMost result bytes.now }
        ensures bytes { WriteAppends (noted self.old) (noted self.new) result bytes.now }
        ensures quiet { IsTrue (state self.old).honest → IsQuiet (state self.old) (state self.new) };
}
