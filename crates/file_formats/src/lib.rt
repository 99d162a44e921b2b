//! Formats of volumes whose files are named, listed and read.
//!
//! What this asks of a format, beside its parts, is the trait `FileFormat`; its model is the record `FileMeaning`
//! (`specs/Files.antt`); DOS 3.3 and ProDOS have it (`specs/DosFiles.antt`, `specs/ProFiles.antt`). A listing shows
//! what a directory says (`specs/Listing.antt`). A file is named by a path as it is given, or by the bytes of
//! the path that is stored (`FileName`), and `find` is the first file that has a name.
//!
//! What always holds: each call is exact over the directory that was read, and touches no device.
#![tactic(auto)]

mod dos;
mod file_name;
mod finding;
mod format;
mod listing;
mod name;
mod pro;

pub use dos::address_of;
pub use file_name::FileName;
pub use finding::find;
pub use format::FileFormat;
pub use listing::{ListEntry, Listing};
pub use name::StoredName;
pub use pro::listed_entry;
