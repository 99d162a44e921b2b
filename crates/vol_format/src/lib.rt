//! What a format of volumes is, for code that is the same in each: where the files' entries stand, what a pointer
//! names, which places the system has, and how a pointer or a place's mark is written.
//!
//! The model of a format is one record, `Meaning` (`specs/Meaning.antt`): what its units mean, with no walk in it. What
//! the header, the directory and the map of a volume say is another, `Directory` (`specs/Directory.antt`), made of
//! lists and numbers. Over these two stands, once for all formats, what is true of a store: the parts of its files
//! (`specs/Reach.antt`), when it is accepted and which faults it has (`specs/Accepted.antt`), where its parts stand and
//! what is lost (`specs/Standing.antt`), and where the pointer to a part stands (`specs/Holding.antt`).
//! `specs/Laws.antt` has what a format must meet: `Format` is what reading asks for, `WritableFormat` what moving parts
//! asks for besides.
//!
//! The files of a volume are one list (`specs/Files.antt`): the path of each, the bytes of its entry and the units of
//! its body by their numbers, without a place or the number of an entry. `specs/Layout.antt` has the parts of one file,
//! and the one layout of a volume. Laws, functions with an empty body and their contract for the statement, say that a
//! store has one list of files and one layout at most (`files`, `layouts`), that a volume whose parts are known has
//! both, and that what keeps the contents of the files keeps their list.
#![tactic(auto)]

mod files;
mod format;
mod layouts;
mod link;
mod order;
mod writable;

pub use files::{
    a_store_has_one_list_of_files, a_volume_has_its_files, same_contents_are_the_same_files,
    the_files_are_those_of_the_entries,
};
pub use format::Format;
pub use layouts::{
    a_file_has_its_parts_of_the_volume, a_store_has_one_layout, a_volume_has_its_layout,
};
pub use link::{Holder, Link};
pub use order::PlaceOrder;
pub use writable::WritableFormat;
