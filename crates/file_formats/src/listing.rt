// What a catalog shows of a volume.
use crate::StoredName;
use pro_dir::ProDate;
use std::alloc::{Allocator, Global};

/// An entry of a listing.
#[derive(Drop)]
pub struct ListEntry<A: Allocator = Global> {
    pub locked: bool,
    /// The kind of the file; for DOS without the bit that locks it.
    pub kind: u8,
    /// The length in units, as it is stored.
    pub size: u16,
    /// The length in bytes; for DOS 0.
    pub eof: u32,
    /// The access byte; for DOS 0.
    pub access: u8,
    /// The auxiliary type; for DOS 0.
    pub aux: u16,
    /// The creation and the last modification, as they are stored; for DOS the four bytes 0, which name no moment.
    pub created: ProDate,
    pub modified: ProDate,
    /// Whether it is a directory's.
    pub directory: bool,
    /// For DOS the 30 bytes of the name, as they are stored.
    pub path: StoredName<A>,
}

/// What a catalog shows.
#[derive(Drop)]
pub struct Listing<A: Allocator = Global> {
    /// For DOS the one byte of the volume number.
    pub volume: StoredName<A>,
    pub entries: Vec<ListEntry<A>, A>,
    /// How many units are marked free.
    pub free: u32,
}
