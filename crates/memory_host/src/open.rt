// Bytes that are read one after the other, and open files.
ghost use Rattle.std.specs.Prelude.{◌≡◌, ◌≤◌, ◌<◌, ℕ, [], Some, length, take};
ghost use Rattle.std.specs.Io.KnownBytes.{Consumes, IsAtEnd};
ghost use Rattle.memory_host.specs.Journal.{rest};

use std::alloc::Global;

/// The most bytes that one call writes or reads.
const MOST_MOVED: usize = 3;

/// Bytes, and how many of them were read.
#[derive(Drop)]
pub struct Unread {
    pub bytes: Vec<u8>,
    pub read: usize,
}

/// An open file: its own path, and what it has to be read.
#[derive(Drop)]
pub struct OpenEntry {
    pub place: String,
    pub unread: Unread,
}

/// How many bytes one call moves, of so many and into so much room.
pub fn moved(bytes: usize, room: usize) -> usize
    ensures within { (result ≤ bytes) × (result ≤ room) }
    ensures some { result ≡ 0 → 0 < room → bytes ≡ 0 }
{
    let most = if bytes < room { bytes } else { room };
    if most < MOST_MOVED { most } else { MOST_MOVED }
}

impl Unread {
    /// Nothing to be read.
    pub fn empty(alloc: Global) -> Unread {
        Unread {
            bytes: Vec::new(alloc),
            read: 0,
        }
    }

    // What is left.
    fn left(&self) -> &[u8]
        ensures { result.now ≡ rest self.now }
    {
        match self.bytes.as_slice().get(self.read..) {
            Some(left) => left,
            None => &[],
        }
    }

    /// Reads a front of what is left, and answers how many bytes that is: none at the end.
    pub fn take(&mut self, bytes: &mut [u8]) -> usize
        ensures bound { result ≤ length bytes.new }
        ensures bytes { Consumes (Some (rest self.old)) (Some (rest self.new)) (take result bytes.new) }
        ensures end { result ≡ 0 → 0 < length bytes.new → IsAtEnd (Some (rest self.new)) }
    {
        let left = self.left();
        let count = moved(left.len(), bytes.len());
        bytes[..count].copy_from_slice(&left[..count]);
        self.read += count;
        count
    }
}
