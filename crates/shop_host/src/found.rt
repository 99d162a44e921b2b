// What a path leads to.
use std::fs::Metadata;
use std::os::unix::fs::MetadataExt;

/// A file by its device and its number there, whatever names it has.
#[derive(Clone, Copy, PartialEq, Eq)]
pub struct Node {
    pub device: u64,
    pub number: u64,
}

/// What stands at a path.
#[derive(Clone, Copy, PartialEq, Eq)]
pub enum FoundKind {
    /// A regular file.
    File,
    Folder,
    /// A link, which was not followed.
    Link,
    /// A pipe, a terminal or another device.
    Other,
}

/// What a path leads to: what it is, which one, how many bytes a file has, who may use it and whose it is.
#[derive(Clone, Copy)]
pub struct Found {
    pub kind: FoundKind,
    pub node: Node,
    pub size: u64,
    /// The access mode, with all bits that the system tells of it.
    pub mode: u32,
    pub owner: u32,
    pub group: u32,
}

// What it is.
fn kind_of(told: &Metadata) -> FoundKind {
    if told.is_file() {
        FoundKind::File
    } else if told.is_dir() {
        FoundKind::Folder
    } else if told.is_symlink() {
        FoundKind::Link
    } else {
        FoundKind::Other
    }
}

impl Found {
    /// What the system tells.
    pub fn of(told: &Metadata) -> Found {
        Found {
            kind: kind_of(told),
            node: Node {
                device: told.dev(),
                number: told.ino(),
            },
            size: told.len(),
            mode: told.mode(),
            owner: told.uid(),
            group: told.gid(),
        }
    }

    /// Whether it is a regular file.
    pub fn is_file(&self) -> bool {
        self.kind == FoundKind::File
    }

    /// Whether it is a folder.
    pub fn is_folder(&self) -> bool {
        self.kind == FoundKind::Folder
    }
}
