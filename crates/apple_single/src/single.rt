// What an AppleSingle file keeps.

/// The ProDOS file info of a file: access, type and aux type.
#[derive(Clone, Copy, PartialEq, Eq)]
pub struct FileInfo {
    pub access: u16,
    pub file_type: u8,
    pub aux_type: u16,
}

/// What an AppleSingle file says of a file of the Apple II.
#[derive(Clone, Copy, PartialEq, Eq)]
pub struct Single<'a> {
    /// What ProDOS knows of the file, where the file says it.
    pub info: Option<FileInfo>,
    /// The bytes of the data fork.
    pub fork: &'a [u8],
}
