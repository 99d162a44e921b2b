// What becomes of an entry.
use crate::item::Item;
use shop_jobs::FileSystem;
use shop_replies::Refusal;

/// Where on a volume the files of a folder go.
#[derive(Clone, Copy)]
pub(crate) struct Destination<'a> {
    pub file_system: FileSystem,
    /// The path of a directory, where one is said.
    pub into: Option<&'a str>,
}

/// What is done with an entry.
#[derive(Drop)]
pub(crate) enum Step {
    /// It is saved.
    Adds(Item),
    /// A directory of this path is made, where none is there.
    Makes(Vec<u8>),
    /// It is passed over with a word.
    Passes,
}

/// What is done with an entry, or why it is refused.
#[derive(Drop)]
pub(crate) enum Weighed {
    Step(Step),
    Refused(Refusal),
}
