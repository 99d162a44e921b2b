// What is told of an entry of a volume.

use crate::places::Placed;

/// What is told of the contents of a file: how many bytes, and their SHA-256.
#[derive(Clone, Copy, PartialEq, Eq)]
pub struct Digest {
    pub count: u64,
    pub sha256: [u8; 32],
}

/// Whether digests are told, and that of an entry.
#[derive(Clone, Copy, PartialEq, Eq)]
pub enum Digested {
    /// Digests are not told.
    Untold,
    /// They are, and this entry has none.
    Missing,
    /// That of this entry.
    Of(Digest),
}

/// What is told of an entry of a volume. What its file system does not have is left out.
#[derive(Clone, Copy)]
pub struct Row<'a> {
    /// The access byte of ProDOS.
    pub access: Option<u8>,
    /// The aux type of ProDOS, or the address of a binary file of DOS 3.3.
    pub aux: Option<u16>,
    /// When it was made, as `YYYY-MM-DDTHH:MM`.
    pub created: Option<[u8; 16]>,
    pub directory: bool,
    /// How many bytes its text has, as ProDOS says.
    pub eof: Option<u32>,
    /// The number of its kind or type, without the lock.
    pub kind: u8,
    pub locked: bool,
    /// When it was changed last, as `YYYY-MM-DDTHH:MM`.
    pub modified: Option<[u8; 16]>,
    /// Its name or path, to be shown.
    pub path: &'a [u8],
    /// How many sectors or blocks it has.
    pub size: u16,
    /// The bytes of its name or path as they are stored.
    pub stored: &'a [u8],
    /// The word for its kind.
    pub type_word: &'a [u8],
    pub digest: Digested,
    pub places: Placed<'a>,
}
