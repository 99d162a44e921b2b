// What is asked of a volume that is only read.
use file_forms::FileForm;

/// How the words name a file of a volume.
#[derive(PartialEq, Eq, Drop)]
pub enum FileName {
    /// By its path.
    Path(String),
    /// By the bytes of the path that is stored.
    Stored(Vec<u8>),
}

/// In which form the entries of a volume are told.
#[derive(Clone, Copy, PartialEq, Eq)]
pub enum ListForm {
    /// The path of each on a line.
    Names,
    /// An object of JSON on a line.
    Json,
    /// Comma-separated values.
    Csv,
}

/// How the entries of a volume are told as data.
#[derive(Clone, Copy, PartialEq, Eq)]
pub struct ListOptions {
    pub form: ListForm,
    /// Whether the digest of each file is told.
    pub digests: bool,
    /// Whether the places of each file are told.
    pub places: bool,
    /// How many bytes the files that are read for their digests may have in all, and the units of the parts whose
    /// places are told.
    pub most: u64,
}

/// How the volume of an image is compared with that of another.
#[derive(Clone, Copy, PartialEq, Eq)]
pub struct CompareOptions {
    /// Whether files that are alike are told too.
    pub all: bool,
    /// How many bytes the files of each image may have in all.
    pub most: u64,
}

/// As what a file is read.
#[derive(Clone, Copy, PartialEq, Eq)]
pub enum ReadForm {
    /// Its body.
    Body,
    /// All bytes of its units.
    Whole,
    /// A form of it.
    As(FileForm),
    /// The form that files of its type have.
    Shown,
}

/// What is asked of a volume that is only read.
#[derive(PartialEq, Eq)]
pub enum Look {
    /// Its files, listed.
    Catalog,
    /// Its entries, as data.
    Entries(ListOptions),
    /// Whether it is accepted, or what is wrong with it.
    Check {
        /// Whether the units of the files' bodies are read too.
        bodies: bool,
    },
    /// Where the parts of its files stand, as a picture.
    Map,
    /// Whether the files of another image's volume are the same.
    Compare(CompareOptions),
    /// The contents of a file.
    Read {
        /// The name of the file in the volume.
        name: FileName,
        form: ReadForm,
        /// Whether they go to a new file, and are not told.
        to_file: bool,
    },
    /// The fewest moves that bring its files into order.
    Plan {
        /// Whether lost places are marked free.
        reclaim: bool,
        /// Whether the moves are told in words, and not as a certificate.
        words: bool,
    },
    /// Whether a certificate shows that no plan is shorter.
    Verify {
        /// Whether lost places are marked free.
        reclaim: bool,
    },
}

impl Drop for Look {
    fn drop(self) {
        match self {
            Look::Catalog => {}
            Look::Entries(_) => {}
            Look::Check { bodies: _ } => {}
            Look::Map => {}
            Look::Compare(_) => {}
            Look::Read {
                name: _,
                form: _,
                to_file: _,
            } => {}
            Look::Plan {
                reclaim: _,
                words: _,
            } => {}
            Look::Verify { reclaim: _ } => {}
        }
    }
}
