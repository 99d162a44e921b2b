// Where the entry of a new file goes, and what is said there.
use pro_dir::ProDate;

/// A slot of a directory: the unit in which the directory begins, the unit that has the slot, and its number there.
#[derive(Clone, Copy, PartialEq, Eq)]
pub struct Slot {
    pub directory: u32,
    pub place: u32,
    pub number: u32,
}

/// What the path of a new file leads to.
#[derive(Clone, Copy, PartialEq, Eq)]
pub enum Target {
    /// The volume has no such directory.
    NoDirectory,
    /// No file can have this name.
    NoName,
    /// The directory has an entry of this name.
    InUse,
    /// The directory has no free slot.
    Full,
    /// The first free slot of the directory.
    At(Slot),
}

/// What the owner says of a new file: its kind, for DOS 3.3 with the bit that locks it; for ProDOS the auxiliary type,
/// the length in bytes, and the date of its creation.
#[derive(Clone, Copy)]
pub struct Attributes {
    pub kind: u8,
    pub aux: u16,
    pub eof: u32,
    pub date: ProDate,
}

/// The size of a new file, and where it begins: how many units it has, stored or not, how many parts, and the place of
/// the first of these.
#[derive(Clone, Copy)]
pub struct Extent {
    pub units: u32,
    pub parts: u16,
    pub first: u32,
}
