// The units of files.

/// What a unit of a file is: a track/sector list (DOS), a master index or an index (ProDOS), or a unit of its body.
#[derive(Clone, Copy, PartialEq, Eq)]
pub enum PartKind {
    List,
    Master,
    Index,
    Body,
}

/// One unit of a file: the number of the file's entry among those in use, its kind, its number among the units of that
/// kind, and its place.
#[derive(Clone, Copy, PartialEq, Eq)]
pub struct Part {
    pub file: u32,
    pub kind: PartKind,
    pub number: u32,
    pub place: u32,
}
