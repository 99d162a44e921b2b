//! Commands that read the files of a volume, over any device that has its units and any format of files.
//!
//! `catalog` reads what a listing shows. `read` gives the units of one file in order, or what is wrong with this file
//! (`specs/Text.antt`, `specs/Read.antt`), and `read_entry` those of an entry of a volume that was read: the checker of
//! volumes walks over the volume that has the file alone (`specs/OneFile.antt`). Who reads many files goes on where one
//! can't be read: `file_text` says why (`specs/FileText.antt`), and `specs/ReadingOn.antt` what such readings do to a
//! device. `VolumeFiles` reads many files of one volume at the cost of their parts: the volume is checked once, and
//! where it is accepted, each file is read by its own run of the parts of all files; else each is walked over by
//! itself, on the same tables (`specs/EachFile.antt`). It gives the parts of a file alike (`specs/FileParts.antt`). A
//! file is told to have failed only where the read of a unit of that file did. `is_binary` says which files begin with
//! their address (`specs/Address.antt`).
//!
//! What always holds: a command leaves the device's store as it is.
#![tactic(auto)]

mod address;
mod command;
mod each_file;
mod error;
mod file_parts;
mod file_texts;
mod known_volume;
mod law;
mod one_file;
mod reading;
mod text;

pub use address::is_binary;
pub use command::{catalog, listing_of, read_volume};
pub use each_file::VolumeFiles;
pub use error::CmdError;
pub use file_parts::FileParts;
pub use file_texts::{FileText, file_text};
pub use law::{a_read_answers_by_the_list_of_files, answers_exclude_one_another};
pub use reading::{read, read_entry};
