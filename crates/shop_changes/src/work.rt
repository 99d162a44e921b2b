// Work that changes a volume, with the bytes of its files read.
use crate::said_file::SaidFile;
use file_formats::FileName;
use pro_dir::ProDate;
use shop_jobs::Edit;

/// What is changed of a volume, with the bytes of its files read.
#[derive(Clone, Copy)]
pub enum Work<'a> {
    /// Its files are brought into order, by at most so many writes.
    Optimize { reclaim: bool, limit: u64 },
    /// A file of it is changed.
    Edit { edit: &'a Edit, name: FileName<'a> },
    /// A new file is saved to it.
    Save { path: &'a [u8], said: SaidFile<'a> },
    /// A new file takes the place of the one that has its path, if one does. A stop between the two would leave
    /// neither, so this is done in memory alone.
    Replace { path: &'a [u8], said: SaidFile<'a> },
    /// Its lost places are marked free.
    Reclaim,
    /// A new directory is made in it.
    MakeDirectory { path: &'a [u8], date: ProDate },
}
