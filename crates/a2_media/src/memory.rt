// A file in memory.
ghost use Rattle.std.specs.Prelude.{◌≡◌, ◌≤◌, ◌+◌, length, true};
ghost use Rattle.a2_image.specs.Lending.{written};
ghost use Rattle.std.proofs.Common.{rules};
ghost use Rattle.a2_media.specs.File.{FileState};

use crate::file::{FileFailure, PositionedFile};
use std::alloc::{Allocator, Global};

/// Bytes in memory, as a file: no call of it fails.
#[derive(Drop)]
pub struct MemoryFile<A: Allocator = Global> {
    bytes: Vec<u8, A>,
    standing: u64,
}

// Writes bytes over others from a position on.
fn overwrite(bytes: &mut [u8], at: usize, content: &[u8])
    requires { at + length content.now ≤ length bytes.old }
    ensures { bytes.new ≡ written bytes.old at content.now }
{
    bytes[at..at + content.len()].copy_from_slice(content);
}

impl<A: Allocator> MemoryFile<A> {
    pub fn new(bytes: Vec<u8, A>) -> Self
        ensures { ⟦<MemoryFile<A> as PositionedFile>⟧.state result
            ≡ record { size = length bytes.items; honest = true; bytes = bytes.items; standing = 0 } }
    {
        MemoryFile { bytes, standing: 0 }
    }

    /// The bytes as they are now.
    pub fn as_bytes(&self) -> &[u8]
        ensures { result.now ≡ (⟦<MemoryFile<A> as PositionedFile>⟧.state self.now).bytes }
    {
        self.bytes.as_slice()
    }

    /// The bytes as they are now.
    pub fn into_bytes(self) -> Vec<u8, A>
        ensures { result.items ≡ (⟦<MemoryFile<A> as PositionedFile>⟧.state self).bytes }
    {
        let MemoryFile { bytes, .. } = self;
        bytes
    }
}

impl<A: Allocator> PositionedFile for MemoryFile<A> {
    ghost state = { λ f. record
        { size = length f.bytes.items; honest = true; bytes = f.bytes.items; standing = f.standing } };

    ghost whole = { λ f _. Prim.search rules };

    fn size(&self) -> u64 {
        self.bytes.len() as u64
    }

    fn read_whole(&mut self, position: u64, bytes: &mut [u8]) -> Result<(), FileFailure> {
        let from = position as usize;
        bytes.copy_from_slice(&self.bytes[from..from + bytes.len()]);
        Ok(())
    }

    fn write_whole(&mut self, position: u64, bytes: &[u8]) -> Result<(), FileFailure> {
        overwrite(self.bytes.as_mut_slice(), position as usize, bytes);
        self.standing += 1;
        Ok(())
    }
}
