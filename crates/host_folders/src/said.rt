// An entry, as far as a name on the host says it.
use std::alloc::Allocator;

/// What the bytes of a file of the host are.
#[derive(Clone, Copy)]
pub enum Content {
    /// Those that the file is to have on the volume.
    Bytes,
    /// A text in UTF-8 that is to be turned into a text of the volume.
    Text,
    /// The listing of a program in Applesoft, in UTF-8, that is to be turned into the program.
    Program,
}

/// A file that is to be made on a volume.
#[derive(Drop)]
pub struct HostFile<A: Allocator> {
    /// Its stored name; in DOS 3.3 without the spaces that fill it up.
    pub name: Vec<u8, A>,
    /// The type of ProDOS.
    pub file_type: u8,
    pub aux_type: u16,
    /// What its bytes on the host are.
    pub content: Content,
}
