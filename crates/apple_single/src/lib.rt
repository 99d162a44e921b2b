//! AppleSingle files: one file of a host that keeps a file of the Apple II with its type and its aux type.
//!
//! The model is the list of a file's bytes. A file is read exactly where it is one (`specs/Single.antt`): it begins
//! with the header of version 2 (`specs/Format.antt`), each entry lies within it, and its data fork and its ProDOS file
//! info can be told. What is printed is one list of bytes (`specs/Printed.antt`).
//!
//! What always holds: a file says one thing at most (`a_file_says_one_thing`), and what is printed is read back
//! (`what_is_printed_is_read`).
#![tactic(auto)]

mod entries;
mod error;
mod header;
mod law;
mod numbers;
mod printing;
mod reading;
mod single;

pub use error::PrintError;
pub use law::{a_file_says_one_thing, what_is_printed_is_read};
pub use printing::print;
pub use reading::read;
pub use single::{FileInfo, Single};
