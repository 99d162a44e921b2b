// What is asked of a folder.
ghost use Rattle.std.specs.Prelude.{◌≡◌, IfErr, IsTrue, OnErr, OnOk};
ghost use Rattle.host_folders.specs.Folder.{FolderState, IsCutShort, after_file, after_folder};
ghost use Rattle.host_folders.specs.Path.{IsSafePath};

use std::alloc::AllocError;
use std::io::{self, ErrorKind};
use thiserror::Error;

/// Nothing can be made in the folder.
#[derive(Clone, Copy, Debug, PartialEq, Eq, Error)]
pub enum FolderFailure {
    #[error("memory ran out")]
    Memory,
    #[error("the folder failed")]
    Failed,
}

impl From<AllocError> for FolderFailure {
    ghost use Rattle.host_folders.specs.declared.folder.FolderFailure.TheVariants.{Memory};

    ghost from_gives = { λ _ failure. failure ≡ Memory };

    fn from(_: AllocError) -> Self {
        FolderFailure::Memory
    }
}

impl From<io::Error> for FolderFailure {
    ghost use Rattle.std.specs.IoError.{error_kind};
    ghost use Rattle.host_folders.specs.Failures.{failure_of};

    ghost from_gives = { λ error failure. failure ≡ failure_of (error_kind error) };

    fn from(error: io::Error) -> Self {
        match error.kind() {
            ErrorKind::OutOfMemory => FolderFailure::Memory,
            _ => FolderFailure::Failed,
        }
    }
}

/// A folder in which folders are made and files are put, each at a path of safe names. Each says which failures a call
/// may answer. What is said of what was made holds where the folder is honest, which no call changes.
pub trait Folder {
    ghost use Rattle.host_folders.specs.declared.folder.FolderFailure.{FolderFailure};

    ghost state: { Self → FolderState };

    ghost may_fail: { Self → FolderFailure → Type 0 };

    /// Makes a folder.
    ///
    /// # Errors
    /// `Memory` for want of memory, `Failed` where a call of the file system fails; nothing is made then.
    fn make_folder(&mut self, path: &str) -> Result<(), FolderFailure>
        requires safe { IsSafePath path.now }

        // every folder
        ensures same { (state self.new).honest ≡ (state self.old).honest }
        ensures cause { IfErr result (may_fail self.old) }

        // an honest folder
        ensures made { IsTrue (state self.old).honest
            → OnOk result (state self.new ≡ after_folder path.now (state self.old)) }
        ensures failed { IsTrue (state self.old).honest → OnErr result (state self.new ≡ state self.old) };

    /// Puts a file of these bytes into the folder.
    ///
    /// # Errors
    /// `Memory` for want of memory, `Failed` where a call of the file system fails; nothing is made then, or a file of
    /// a front of the bytes.
    fn put(&mut self, path: &str, bytes: &[u8]) -> Result<(), FolderFailure>
        requires safe { IsSafePath path.now }

        // every folder
        ensures same { (state self.new).honest ≡ (state self.old).honest }
        ensures cause { IfErr result (may_fail self.old) }

        // an honest folder
        ensures made { IsTrue (state self.old).honest
            → OnOk result (state self.new ≡ after_file path.now bytes.now (state self.old)) }
        ensures failed { IsTrue (state self.old).honest
            → OnErr result (IsCutShort path.now bytes.now (state self.old) (state self.new)) };
}
