// How a volume is listed.

/// How the entries of a volume are told as data, a line each.
#[derive(Clone, Copy)]
pub enum EntryStyle {
    /// The path of each, with a slash behind a directory's.
    Names,
    /// The digest of each file and its path.
    Sums,
    /// An object of JSON for the volume, and one for each entry.
    Json,
    /// Comma-separated values, behind a line with the names of the fields.
    Csv { digests: bool },
}

/// How a volume is listed.
#[derive(Clone, Copy)]
pub enum Style {
    /// As the file system does: the volume's name, a line of facts for each entry, and what is free.
    Catalog,
    /// Its entries as data.
    Entries(EntryStyle),
}
