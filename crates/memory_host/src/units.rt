// The bytes of an open file of a host in memory.
ghost use Rattle.std.proofs.Common.{rules};

use a2_media::{FileFailure, MemoryFile, PositionedFile};

/// A copy of the bytes of a file, with its own path. The host takes them over when they are put onto the disk.
#[derive(Drop)]
pub struct MemoryUnits {
    pub place: String,
    pub file: MemoryFile,
}

impl PositionedFile for MemoryUnits {
    ghost state = { λ f. ⟦<MemoryFile as PositionedFile>⟧.state f.file };

    ghost whole = { λ f _. Prim.search rules };

    fn size(&self) -> u64 {
        self.file.size()
    }

    fn read_whole(&mut self, position: u64, bytes: &mut [u8]) -> Result<(), FileFailure> {
        self.file.read_whole(position, bytes)
    }

    fn write_whole(&mut self, position: u64, bytes: &[u8]) -> Result<(), FileFailure> {
        self.file.write_whole(position, bytes)
    }
}
