// A new folder of the host.
ghost use Rattle.std.specs.Prelude.{◌≡◌, ◌<◌, ◌++◌, ⊤, IfOk, codes, string_bytes};
ghost use Rattle.host_folders.specs.NewFolder.{IsFolderName};
ghost use Rattle.shop_outputs.specs.Folders.{IsBeside, host_folder};

use crate::whole::write_whole;
use host_folders::{Folder, FolderFailure};
use shop_host::Host;
use std::alloc::{AllocError, Global};
use std::io::{self, ErrorKind};
use thiserror::Error;

/// How many names are tried for a file or a folder aside.
pub(crate) const MOST_NAMES: u32 = 100;

/// What of an access mode lets its owner read, fill and enter a folder.
const OWN_ACCESS: u32 = 0o700;

/// Why a new folder can't be begun. Nothing stays of it.
#[derive(Clone, Copy, Debug, PartialEq, Eq, Error)]
pub enum StartError {
    #[error("something stands at the path that is no empty folder")]
    Taken,
    #[error("the folder can't be made")]
    Failed,
    #[error("memory ran out")]
    Memory,
}

impl From<AllocError> for StartError {
    ghost use Rattle.shop_outputs.specs.declared.folder.StartError.TheVariants.{Memory};

    ghost from_gives = { λ _ error. error ≡ Memory };

    fn from(_: AllocError) -> Self {
        StartError::Memory
    }
}

impl From<io::Error> for StartError {
    ghost use Rattle.std.specs.IoError.{error_kind};
    ghost use Rattle.shop_outputs.specs.Start.{start_error_of};

    ghost from_gives = { λ error start. start ≡ start_error_of (error_kind error) };

    fn from(error: io::Error) -> Self {
        match error.kind() {
            ErrorKind::OutOfMemory => StartError::Memory,
            _ => StartError::Failed,
        }
    }
}

/// A new folder of a host, which is filled aside and then takes its place. No contract can say what the host holds, so
/// its state says nothing of what was made: what is proved of every honest folder is believed of it.
///
/// One that is dropped is abandoned.
pub struct NewFolder<'h, H: Host> {
    host: &'h mut H,
    folder: String,
    aside: String,
}

// The access mode of the empty folder that stands at a path; none where nothing stands there.
fn standing_mode<H: Host>(host: &mut H, folder: &str) -> Result<Option<u32>, StartError> {
    match host.found_itself(folder) {
        Ok(found) if !found.is_folder() => Err(StartError::Taken),
        Ok(found) => {
            if !is_empty(host, folder)? {
                return Err(StartError::Taken);
            }
            if found.mode & OWN_ACCESS != OWN_ACCESS {
                return Err(StartError::Failed);
            }
            Ok(Some(found.mode))
        }
        Err(error) if error.kind() == ErrorKind::NotFound => Ok(None),
        Err(error) => Err(StartError::from(error)),
    }
}

// Whether a folder holds nothing. A name that is no text is one.
fn is_empty<H: Host>(host: &mut H, folder: &str) -> io::Result<bool> {
    let mut names = host.names(folder)?;
    match host.next_name(&mut names) {
        None => Ok(true),
        Some(Err(error)) if error.kind() != ErrorKind::InvalidFilename => Err(error),
        Some(_) => Ok(false),
    }
}

// Makes a new folder beside another one, under the first name that is free.
fn create_beside<H: Host>(host: &mut H, folder: &str) -> io::Result<String>
    ensures { IfOk result (λ path. IsBeside folder.now (string_bytes path)) }
{
    for number in 0..MOST_NAMES {
        let path = path_beside(host.alloc(), folder, number)?;
        if create_where_free(host, path.as_str())? {
            return Ok(path);
        }
    }
    Err(io::Error::from(ErrorKind::AlreadyExists))
}

/// The path beside that of a folder or of a file, of this number.
pub(crate) fn path_beside(alloc: Global, folder: &str, number: u32) -> Result<String, AllocError>
    requires { number < MOST_NAMES }
    ensures { IfOk result (λ path. IsBeside folder.now (string_bytes path)) }
{
    format!(in alloc; "{folder}.{number}.new")
}

// Makes a new folder at a path, and tells whether it could: not where something stands there.
fn create_where_free<H: Host>(host: &mut H, path: &str) -> io::Result<bool> {
    match host.make_folder(path) {
        Ok(()) => Ok(true),
        Err(error) if error.kind() == ErrorKind::AlreadyExists => Ok(false),
        Err(error) => Err(error),
    }
}

// Gives a new folder an access mode, if there is one to give. Where that fails, the folder is removed.
fn give_mode<H: Host>(host: &mut H, folder: &str, mode: Option<u32>) -> io::Result<()> {
    let Some(mode) = mode else {
        return Ok(());
    };
    let given = host.set_folder_mode(folder, mode);
    if given.is_err() {
        let _removed = host.remove_folder(folder);
    }
    given
}

// The path of what stands in a folder.
fn path_in(alloc: Global, folder: &str, path: &str) -> Result<String, AllocError>
    ensures { IfOk result (λ whole. string_bytes whole ≡ folder.now ++ codes "/" ++ path.now) }
{
    format!(in alloc; "{folder}/{path}")
}

impl<H: Host> Drop for NewFolder<'_, H> {
    fn drop(self) {
        let NewFolder {
            host,
            folder: _,
            aside,
        } = self;
        let _removed = host.remove_folder(aside.as_str());
    }
}

impl<'h, H: Host> NewFolder<'h, H> {
    /// Begins a folder at a path at which nothing stands, or an empty folder that is no link; its parent must be
    /// there. The folder aside is made: beside that path, under the first of a hundred names that is free, with the
    /// access mode of the empty folder.
    ///
    /// # Errors
    /// `Taken` where something else stands at the path; `Memory`; and `Failed` where a call of the file system fails,
    /// where no name is free, or where the mode of the empty folder does not let its owner fill it.
    pub fn start(host: &'h mut H, folder: &str) -> Result<NewFolder<'h, H>, StartError>
        requires { IsFolderName folder.now }
        ensures state { IfOk result (λ made. ⟦<NewFolder<'h, H> as Folder>⟧.state made ≡ host_folder) }
        ensures folder { IfOk result (λ made. string_bytes made.folder ≡ folder.now) }
        ensures aside { IfOk result (λ made. IsBeside folder.now (string_bytes made.aside)) }
    {
        let mode = standing_mode(host, folder)?;
        let own = folder.to_string(host.alloc())?;
        let aside = create_beside(host, folder)?;
        give_mode(host, aside.as_str(), mode)?;
        Ok(NewFolder {
            host,
            folder: own,
            aside,
        })
    }

    /// Takes the place, in one step. Where that fails, the folder aside is removed.
    ///
    /// # Errors
    /// `Memory` for want of memory, `Failed` where a call of the file system fails; what stood at the place then
    /// stands.
    pub fn finish(self) -> Result<(), FolderFailure> {
        let NewFolder {
            host,
            folder,
            aside,
        } = self;
        match host.rename(aside.as_str(), folder.as_str()) {
            Ok(()) => Ok(()),
            Err(error) => {
                let _removed = host.remove_folder(aside.as_str());
                Err(FolderFailure::from(error))
            }
        }
    }

    /// Removes the folder aside, with all that was made in it.
    pub fn abandon(self) {
        drop(self);
    }
}

impl<H: Host> Folder for NewFolder<'_, H> {
    ghost state = { λ _. host_folder };

    ghost may_fail = { λ _ _. ⊤ };

    fn make_folder(&mut self, path: &str) -> Result<(), FolderFailure> {
        let path = path_in(self.host.alloc(), self.aside.as_str(), path)?;
        self.host.make_folder(path.as_str())?;
        Ok(())
    }

    fn put(&mut self, path: &str, bytes: &[u8]) -> Result<(), FolderFailure> {
        let path = path_in(self.host.alloc(), self.aside.as_str(), path)?;
        let mut file = self.host.make(path.as_str(), None)?;
        write_whole(self.host, &mut file, bytes)?;
        Ok(())
    }
}
