//! What a volume's files are on the host: the names under which they stand in a folder, what names say of entries that
//! are to be made, and what is asked of a folder that files are put into.
//!
//! **Names** (`specs/HostNames.antt`). A name is a stem, a number and a tail: the stored name, byte by byte, with `%`
//! and two digits in the place of what is no plain character; nothing for the first entry of a folder with its bare
//! name, and else `~2`, `~3` and so on; and `#` with the type and the aux type, of files where they are told (`Naps`),
//! or `.txt` of a readable form that stands in a file's place where they are not (`Plain`). Then the first and the last
//! character are escaped where a system takes them for something else, and the first one of a name of a device. A
//! readable form that stands beside its file has `.utf8.txt` behind that file's name (`text_beside`). Whoever names a
//! folder counts: an entry's number is one more than the number of earlier entries of the folder with its bare name,
//! letters of either case taken as one (`bare_name` gives that name to compare).
//!
//! What always holds: a name is safe on every system (`a_host_name_is_safe`), says its entry
//! (`a_host_name_says_its_entry`), and is another's even without regard to case only where both have one bare name and
//! one number (`host_names_are_apart`).
//!
//! **What names say** (`specs/HostEntries.antt`). The way back is a relation between a name and what it says. The name
//! of a folder is a stem, piece by piece the bytes of the stored name, and maybe a number, which says nothing. The name
//! of a file is such a name, and behind `#` a type and an aux type; what stands behind these says what the bytes of the
//! file are. `file_of` and `folder_of` are exact against it: they find what a name says, and nothing only where it says
//! nothing. Whoever reads a name knows whether it is that of a file or of a folder. `file_beside` gives the name of the
//! file that a readable form stands beside.
//!
//! What always holds: a name says one thing at most (`a_host_name_says_one_file`, `a_host_name_says_one_folder`), and
//! the names that are made here say the entries that they were made for (`a_host_name_is_read_back`,
//! `the_name_of_a_text_is_read_back`, `the_name_of_a_folder_is_read_back`).
//!
//! **Folders.** `Folder` is what is asked of a folder: that folders are made in it and files put into it, by paths of
//! safe names (`specs/Path.antt`). Of an honest folder it is known what was made in it, in order, after each call and
//! after each failure (`specs/Folder.antt`). `MemoryFolder` is a folder in memory, and honest; `FailingFolder` refuses
//! one call of another folder, and passes all others on (`specs/Failing.antt`). `folder_name` says which names a folder
//! that is to be made may have (`specs/NewFolder.antt`).
//!
//! What always holds: no call makes a folder honest or dishonest.
#![tactic(auto)]

mod digits;
mod entry;
mod failing;
mod folder;
mod law;
mod letters;
mod memory;
mod names;
mod new_folder;
mod path;
mod pieces;
mod read_back;
mod safe;
mod said;
mod said_stem;
mod said_tail;
mod saying;
mod stem;
mod tail;

pub use entry::{Naming, Stored};
pub use failing::FailingFolder;
pub use folder::{Folder, FolderFailure};
pub use law::{
    a_host_name_is_safe, a_host_name_says_its_entry, host_names_are_apart,
    names_of_texts_are_apart, the_name_of_a_text_is_safe,
};
pub use memory::{MadeItem, MemoryFolder};
pub use names::{bare_name, host_name, text_beside};
pub use new_folder::folder_name;
pub use path::is_safe_path;
pub use read_back::{
    a_host_name_is_read_back, a_host_name_says_one_file, a_host_name_says_one_folder,
    the_name_of_a_folder_is_read_back, the_name_of_a_text_is_read_back,
};
pub use said::{Content, HostFile};
pub use saying::{file_beside, file_of, folder_of};
pub use stem::name_bytes;
