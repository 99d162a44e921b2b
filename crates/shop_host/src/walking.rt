// A folder of the host, looked through with all folders in it.
use crate::found::Found;
use crate::host::Host;
use crate::reading::failure_of;
use shop_replies::Failure;
use std::alloc::{AllocError, Global};
use std::io::{self, ErrorKind};

/// What a path in a folder leads to, where no link is followed.
#[derive(Clone, Copy)]
pub enum Kind {
    File,
    Folder,
    /// A link, a pipe or a device.
    Other,
    /// It can't be looked at.
    Unread,
    /// A folder with a name in it that is no UTF-8.
    Unnamed,
}

/// Who takes what is found in a folder.
pub trait Finder {
    /// Whether a name is passed over.
    fn passes_over(&self, name: &str) -> bool;

    /// Takes what a path in the folder leads to; the path of the folder itself is empty.
    fn take(&mut self, path: String, kind: Kind) -> Result<(), Failure>;
}

/// A folder of the host.
#[derive(Clone, Copy)]
pub struct Root<'a> {
    pub alloc: Global,
    /// Its path, without a slash at the end.
    pub path: &'a str,
}

// The path of a name in a folder; that of the whole is empty.
fn path_in(alloc: Global, folder: &str, name: &str) -> Result<String, AllocError> {
    if folder.is_empty() {
        name.to_string(alloc)
    } else {
        format!(in alloc; "{folder}/{name}")
    }
}

fn kind_of(found: &Found) -> Kind {
    if found.is_file() {
        Kind::File
    } else {
        Kind::Other
    }
}

// What is taken where the system fails: want of memory ends the walk.
fn unread(error: &io::Error) -> Result<Kind, Failure> {
    match failure_of(error) {
        Failure::Memory => Err(Failure::Memory),
        _ => Ok(Kind::Unread),
    }
}

// What is taken of a folder, one of whose names can't be told.
fn without_name(error: &io::Error) -> Result<Kind, Failure> {
    if error.kind() == ErrorKind::InvalidFilename {
        Ok(Kind::Unnamed)
    } else {
        unread(error)
    }
}

impl Root<'_> {
    /// The path of a thing in the folder, or of the folder itself, as the system takes it.
    pub fn place_of(&self, path: &str) -> Result<String, AllocError> {
        let root = self.path;
        if path.is_empty() && !root.is_empty() {
            root.to_string(self.alloc)
        } else {
            format!(in self.alloc; "{root}/{path}")
        }
    }

    // Finds what a path leads to: a folder is looked through later.
    fn find<H: Host, F: Finder>(
        &self,
        host: &mut H,
        path: String,
        finder: &mut F,
        folders: &mut Vec<String>,
    ) -> Result<(), Failure> {
        let place = self.place_of(path.as_str())?;
        match host.found_itself(place.as_str()) {
            Ok(found) if found.is_folder() => {
                folders.push(path)?;
                Ok(())
            }
            Ok(found) => finder.take(path, kind_of(&found)),
            Err(error) => finder.take(path, unread(&error)?),
        }
    }

    // Finds what a name in a folder leads to, or that the name can't be told.
    fn find_name<H: Host, F: Finder>(
        &self,
        host: &mut H,
        folder: &str,
        name: io::Result<String>,
        finder: &mut F,
        folders: &mut Vec<String>,
    ) -> Result<(), Failure> {
        match name {
            Ok(name) if finder.passes_over(name.as_str()) => Ok(()),
            Ok(name) => {
                let path = path_in(self.alloc, folder, name.as_str())?;
                self.find(host, path, finder, folders)
            }
            Err(error) => {
                let kind = without_name(&error)?;
                finder.take(folder.to_string(self.alloc)?, kind)
            }
        }
    }

    // Finds what is in a folder.
    fn find_names<H: Host, F: Finder>(
        &self,
        host: &mut H,
        folder: &str,
        finder: &mut F,
        folders: &mut Vec<String>,
    ) -> Result<(), Failure> {
        let place = self.place_of(folder)?;
        let mut names = match host.names(place.as_str()) {
            Ok(names) => names,
            Err(error) if folder.is_empty() => return Err(failure_of(&error)),
            Err(error) => {
                let kind = unread(&error)?;
                return finder.take(folder.to_string(self.alloc)?, kind);
            }
        };
        for _ in 0..u64::MAX {
            let Some(name) = host.next_name(&mut names) else {
                break;
            };
            self.find_name(host, folder, name, finder, folders)?;
        }
        Ok(())
    }

    /// Looks through the folder and all folders in it, in no order.
    ///
    /// # Errors
    /// Those of the finder, want of memory, and where the folder itself can't be read.
    pub fn look_through<H: Host, F: Finder>(
        &self,
        host: &mut H,
        finder: &mut F,
    ) -> Result<(), Failure> {
        let mut folders = Vec::new(self.alloc);
        folders.push(String::new(self.alloc))?;
        for _ in 0..u64::MAX {
            let Some(folder) = folders.pop() else {
                break;
            };
            self.find_names(host, folder.as_str(), finder, &mut folders)?;
            if !folder.is_empty() {
                finder.take(folder, Kind::Folder)?;
            }
        }
        Ok(())
    }
}
