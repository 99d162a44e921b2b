// What is changed of a volume.
use crate::looks::FileName;
use apple_text::HighBit;

/// What is changed of a file.
#[derive(PartialEq, Eq, Drop)]
pub enum Edit {
    /// It is locked: the system then refuses to delete it, to rename it or to write it.
    Lock,
    /// It is unlocked.
    Unlock,
    /// It is deleted.
    Delete,
    /// It gets another name, in the directory in which it stands.
    Rename { new: String },
}

/// What the words say of a new file.
#[derive(PartialEq, Eq, Drop)]
pub struct SaveAttributes {
    /// The type, as it is said: a letter in DOS 3.3, two hexadecimal digits in ProDOS.
    pub kind: Option<String>,
    /// The auxiliary type; in DOS 3.3 the address of a binary file.
    pub aux: Option<u16>,
    /// The date and time of its creation, as they are said.
    pub date: Option<String>,
}

/// The form in which a new file is given.
#[derive(Clone, Copy, PartialEq, Eq)]
pub enum SaveForm {
    /// Text.
    Text {
        /// The highest bit of its bytes; `None` is that of texts of the file system.
        high: Option<HighBit>,
    },
    /// The listing of a program in Applesoft BASIC.
    Applesoft,
    /// AppleSingle.
    Single,
}

/// What is changed of a volume.
#[derive(PartialEq, Eq)]
pub enum Change {
    /// Its files are brought into order.
    Optimize {
        /// Whether lost places are marked free.
        reclaim: bool,
        /// After how many writes to stop; `None` is when all is done.
        stop_after: Option<u64>,
    },
    /// A file of it is changed.
    Edit {
        /// The name of the file in the volume.
        name: FileName,
        edit: Edit,
    },
    /// A new file is saved to it.
    Save {
        /// The name of the file in the volume.
        name: String,
        attributes: SaveAttributes,
        /// The form in which it is given; `None` is its bytes as they are.
        form: Option<SaveForm>,
        /// Whether it takes the place of a file that has the name.
        replace: bool,
    },
    /// Its lost places are marked free.
    Reclaim,
    /// A new directory is made in it.
    MakeDirectory {
        /// The path of the directory in the volume.
        path: String,
        /// The date and time of its creation, as they are said.
        date: Option<String>,
    },
}

impl Drop for Change {
    fn drop(self) {
        match self {
            Change::Optimize {
                reclaim: _,
                stop_after: _,
            } => {}
            Change::Edit { name: _, edit: _ } => {}
            Change::Save {
                name: _,
                attributes: _,
                form: _,
                replace: _,
            } => {}
            Change::Reclaim => {}
            Change::MakeDirectory { path: _, date: _ } => {}
        }
    }
}
