// Which file a path leads to.

/// A file, by what its system tells it apart with: the device that it is on, and its number there.
#[derive(Clone, Copy, PartialEq, Eq, Hash)]
pub struct FileId {
    pub device: u64,
    pub number: u64,
}
