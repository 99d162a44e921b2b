// The ways to read an image, and what is found in each.
use a2_device::Order;
use shop_jobs::FileSystem;

/// What the checker says of a volume whose directory can be read.
#[derive(Clone, Copy, PartialEq, Eq)]
pub enum Standing {
    /// It is accepted, and has so many files and lost places.
    Accepted { files: u32, lost: usize },
    /// It has a fault, or a unit of it can't be read.
    Refused,
}

/// What is found of a volume whose directory can be read.
#[derive(Clone, Copy, PartialEq, Eq)]
pub struct Found {
    /// How many entries are in use, those of directories among them.
    pub entries: u32,
    /// How many units the directory has: the sectors of a catalog, or the blocks of all directories.
    pub units: usize,
    pub standing: Standing,
}

/// The ways to read an image, and what is found in each.
#[derive(Clone, Copy, PartialEq, Eq)]
pub enum Finding {
    /// No header of a volume, or a unit of the header or the directory can't be read.
    Unreadable,
    /// A header, and a directory or a map's pointer that has a fault.
    Broken,
    Volume(Found),
}

/// A way to read an image, and what is found so.
#[derive(Clone, Copy)]
pub struct Reading {
    pub file_system: FileSystem,
    pub order: Order,
    pub finding: Finding,
}
