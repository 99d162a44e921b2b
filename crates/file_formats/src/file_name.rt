// How a file of a volume is named.

/// How a file of a volume is named.
#[derive(Clone, Copy)]
pub enum FileName<'a> {
    /// By a path, as it is given.
    Path(&'a [u8]),
    /// By the bytes of the path that is stored.
    Stored(&'a [u8]),
}
