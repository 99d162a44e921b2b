// The system itself.
use crate::found::Found;
use crate::host::{Access, Host, Lock};
use a2_media::SystemFile;
use std::alloc::Global;
use std::fs::{self, File, OpenOptions, Permissions, ReadDir, TryLockError};
use std::io::{self, ErrorKind, Read, Write};
use std::os::unix::fs::{OpenOptionsExt, PermissionsExt, lchown};
use std::rt::Files;

/// The system that the program was started by. No contract can say what it holds, so nothing is said of what its calls
/// do: each is one call of the runtime's.
#[derive(Drop)]
pub struct SystemHost<'a> {
    rt: &'a HostRuntime,
}

impl<'a> SystemHost<'a> {
    /// The system of a program.
    pub fn new(rt: &'a HostRuntime) -> SystemHost<'a> {
        SystemHost { rt }
    }
}

// What the system answers to a lock that is asked for.
fn lock_error(error: TryLockError) -> io::Error {
    match error {
        TryLockError::WouldBlock => io::Error::from(ErrorKind::WouldBlock),
        TryLockError::Error(error) => error,
    }
}

impl Host for SystemHost<'_> {
    type File = File;

    type Units = SystemFile;

    type Names = ReadDir<HostRuntime, Global>;

    ghost use Rattle.std.specs.Prelude.{[], None};
    ghost use Rattle.shop_host.specs.System.{system_host};

    ghost state = { λ _. system_host };

    ghost place = { λ _. [] };

    ghost unread = { λ _. None };

    ghost units_place = { λ _. [] };

    ghost noted = { λ _. None };

    fn alloc(&self) -> Global {
        self.rt.alloc()
    }

    fn found(&mut self, path: &str) -> io::Result<Found> {
        Ok(Found::of(&fs::metadata(self.rt, path)?))
    }

    fn found_itself(&mut self, path: &str) -> io::Result<Found> {
        Ok(Found::of(&fs::symlink_metadata(self.rt, path)?))
    }

    fn found_open(&mut self, file: &File) -> io::Result<Found> {
        Ok(Found::of(&file.metadata()?))
    }

    fn own_path(&mut self, path: &str) -> io::Result<String> {
        let own = fs::canonicalize(self.rt, path)?;
        Ok(own.as_str().to_string(self.rt.alloc())?)
    }

    fn link_target(&mut self, path: &str) -> io::Result<String> {
        let to = fs::read_link(self.rt, path)?;
        Ok(to.as_str().to_string(self.rt.alloc())?)
    }

    fn open(&mut self, path: &str, access: Access) -> io::Result<File> {
        let is_changed = access == Access::Change;
        OpenOptions::new()
            .read(true)
            .write(is_changed)
            .open(self.rt, path)
    }

    fn make(&mut self, path: &str, mode: Option<u32>) -> io::Result<File> {
        let mut options = OpenOptions::new();
        options.write(true).create_new(true);
        if let Some(mode) = mode {
            options.mode(mode);
        }
        options.open(self.rt, path)
    }

    fn open_empty(&mut self, path: &str) -> io::Result<File> {
        File::create(self.rt, path)
    }

    fn lock(&mut self, file: &File, lock: Lock) -> io::Result<()> {
        let locked = match lock {
            Lock::Shared => file.try_lock_shared(),
            Lock::Exclusive => file.try_lock(),
        };
        match locked {
            Ok(()) => Ok(()),
            Err(error) => Err(lock_error(error)),
        }
    }

    fn read(&mut self, file: &mut File, bytes: &mut [u8]) -> io::Result<usize> {
        file.read(bytes)
    }

    fn write(&mut self, file: &mut File, bytes: &[u8]) -> io::Result<usize> {
        file.write(bytes)
    }

    fn flush(&mut self, file: &File) -> io::Result<()> {
        file.sync_all()
    }

    fn set_mode(&mut self, file: &File, mode: u32) -> io::Result<()> {
        file.set_permissions(Permissions::from_mode(mode))
    }

    fn set_owner(&mut self, path: &str, owner: Option<u32>, group: Option<u32>) -> io::Result<()> {
        lchown(self.rt, path, owner, group)
    }

    fn units(&mut self, file: &File) -> io::Result<SystemFile> {
        SystemFile::of(file)
    }

    fn flush_units(&mut self, units: &SystemFile) -> io::Result<()> {
        match units.flush_to_disk() {
            Ok(()) => Ok(()),
            Err(_) => Err(io::Error::from(ErrorKind::Other)),
        }
    }

    fn rename(&mut self, from: &str, to: &str) -> io::Result<()> {
        fs::rename(self.rt, from, to)
    }

    fn link(&mut self, from: &str, to: &str) -> io::Result<()> {
        self.rt.hard_link(from, to)
    }

    fn remove(&mut self, path: &str) -> io::Result<()> {
        fs::remove_file(self.rt, path)
    }

    fn make_folder(&mut self, path: &str) -> io::Result<()> {
        fs::create_dir(self.rt, path)
    }

    fn set_folder_mode(&mut self, path: &str, mode: u32) -> io::Result<()> {
        fs::set_permissions(self.rt, path, Permissions::from_mode(mode))
    }

    fn remove_folder(&mut self, path: &str) -> io::Result<()> {
        self.rt.remove_dir_all(self.rt.alloc(), path)
    }

    fn names(&mut self, path: &str) -> io::Result<ReadDir<HostRuntime, Global>> {
        fs::read_dir(self.rt, path)
    }

    fn next_name(
        &mut self,
        names: &mut ReadDir<HostRuntime, Global>,
    ) -> Option<io::Result<String>> {
        match names.next()? {
            Ok(entry) => Some(
                entry
                    .file_name()
                    .to_string(self.rt.alloc())
                    .map_err(io::Error::from),
            ),
            Err(error) => Some(Err(error)),
        }
    }

    fn read_input(&mut self, bytes: &mut [u8]) -> io::Result<usize> {
        self.rt.stdin().read(bytes)
    }

    fn note(&mut self, bytes: &[u8]) -> io::Result<usize> {
        self.rt.stderr().write(bytes)
    }
}
