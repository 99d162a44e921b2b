// What is kept of an entry.

/// What the name of an entry says beside its own name.
#[derive(Clone, Copy)]
pub struct Tail {
    pub kind: u8,
    pub aux: u16,
    /// Whether a readable form stands there in the place of its file.
    pub text: bool,
}

/// What an entry's name on the host says, and where it stands.
#[derive(Clone, Copy, PartialEq, Eq)]
pub struct Head {
    /// The entry of its directory, unless that is the volume's.
    pub above: Option<u32>,
    /// Its number among those of its folder with its bare name.
    pub number: u32,
    /// In how many directories it stands.
    pub depth: u8,
    pub kind: u8,
    pub aux: u16,
    pub directory: bool,
    /// Whether a readable form stands there in the place of its file.
    pub text: bool,
}

/// What was made of an entry.
#[derive(Clone, Copy)]
pub enum Outcome {
    Folder,
    /// A file of so many bytes.
    File(u64),
    /// A file of so many bytes, and beside it its readable form of so many.
    Both(u64, u64),
    /// A readable form of so many bytes, in the place of its file.
    Text(u64),
    /// Nothing, since it can't be read.
    Unreadable,
}

/// What is kept of an entry.
#[derive(Clone, Copy)]
pub struct Kept {
    pub head: Head,
    pub outcome: Outcome,
}
