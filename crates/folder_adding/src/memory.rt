// Files in memory.
ghost use Rattle.std.specs.Prelude.{◌≡◌, IfErr, IfOk, Some};
ghost use Rattle.folder_adding.specs.Files.{read_bytes};
ghost use Rattle.folder_adding.specs.Memory.{bytes_of};
ghost use Rattle.shop_replies.specs.Reading.{IsReadFailure};

use crate::host_files::HostFiles;
use shop_changes::MOST_INPUT;
use shop_replies::Failure;
use std::alloc::Global;

/// Files of known bytes.
#[derive(Drop)]
pub struct MemoryFiles {
    files: Vec<Vec<u8>>,
}

// As many of these bytes as are read of a file.
fn front_of(bytes: &[u8]) -> &[u8]
    ensures { result.now ≡ read_bytes bytes.now }
{
    let len = (MOST_INPUT + 1).min(bytes.len());
    &bytes[..len]
}

impl MemoryFiles {
    /// Files of these bytes, numbered from 0.
    pub fn new(files: Vec<Vec<u8>>) -> Self
        ensures { result ≡ record { files = files } }
    {
        MemoryFiles { files }
    }
}

impl HostFiles for MemoryFiles {
    ghost use Rattle.folder_adding.specs.Memory.{MayFail};

    ghost holds = { λ files. Some (bytes_of files.files.items) };

    ghost may_fail = { λ files. MayFail files.files.items };

    /// Reads a file.
    ///
    /// # Errors
    /// `Input` where there are not so many files, `Memory` where there is no room for its bytes.
    fn read(&mut self, alloc: Global, file: usize) -> Result<Vec<u8>, Failure>
        ensures same { self.new ≡ self.old }
        ensures read { IfOk result (λ read. read.items ≡ read_bytes (bytes_of self.old.files.items file)) }
        ensures failed { IfErr result IsReadFailure }
        ensures cause { IfErr result (MayFail self.old.files.items file) }
    {
        match self.files.get(file) {
            Some(bytes) => match Vec::from_slice(alloc, front_of(bytes.as_slice())) {
                Ok(read) => Ok(read),
                Err(_) => Err(Failure::Memory),
            },
            None => Err(Failure::Input),
        }
    }
}
