// A file of the system.
ghost use Rattle.a2_media.specs.System.{system_file};
ghost use Rattle.std.specs.Prelude.{◌≡◌, IfOk};
ghost use Rattle.std.proofs.Common.{rules};

use crate::file::{FileFailure, PositionedFile};
use std::fs::File;
use std::io::{self, ErrorKind};
use std::os::unix::fs::FileExt;

/// An open file of the system. No contract can say what it gives, so its state says nothing of its bytes: what is
/// proved of every honest file is believed of it.
#[derive(Drop)]
pub struct SystemFile {
    file: File,
    size: u64,
}

impl SystemFile {
    /// A second handle of an open file, which shares its lock, and the bytes that the file has now.
    ///
    /// # Errors
    /// `InvalidInput` where it is no regular file, or what the system answers.
    pub fn of(file: &File) -> io::Result<SystemFile>
        ensures { IfOk result (λ f. ⟦<SystemFile as PositionedFile>⟧.state f ≡ system_file f.size) }
    {
        let found = file.metadata()?;
        if !found.is_file() {
            return Err(io::Error::from(ErrorKind::InvalidInput));
        }
        Ok(SystemFile {
            file: file.try_clone()?,
            size: found.len(),
        })
    }

    /// Puts what was written onto the disk.
    ///
    /// # Errors
    /// `FileFailure` where the system can't.
    pub fn flush_to_disk(&self) -> Result<(), FileFailure> {
        self.file.sync_all().map_err(|_| FileFailure)
    }
}

impl PositionedFile for SystemFile {
    ghost state = { λ f. system_file f.size };

    ghost whole = { λ f h. Prim.search rules };

    fn size(&self) -> u64 {
        self.size
    }

    fn read_whole(&mut self, position: u64, bytes: &mut [u8]) -> Result<(), FileFailure> {
        match self.file.read_exact_at(bytes, position) {
            Ok(()) => Ok(()),
            Err(_) => Err(FileFailure),
        }
    }

    fn write_whole(&mut self, position: u64, bytes: &[u8]) -> Result<(), FileFailure> {
        match self.file.write_all_at(bytes, position) {
            Ok(()) => Ok(()),
            Err(_) => Err(FileFailure),
        }
    }
}
