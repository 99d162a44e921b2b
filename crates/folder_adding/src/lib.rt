//! The files of a folder of the host, added to a volume: which entries of the folder are added, as which files, and
//! these files saved one after the other. All of them are, or the first that was not is told.
//!
//! The model of a plan. `specs/HostEntries.antt` has the entries of a folder, `specs/HostPaths.antt` what their paths
//! say of files and directories of a volume, and `specs/Verdicts.antt` what becomes of an entry: an item is added, a
//! directory is made where none is there, the entry is passed over with a word, or it is refused for a cause. `plan`
//! answers the plan of a folder (`specs/Plan.antt`), in which each entry makes its step, or the first entry that is
//! refused. That an entry has one verdict alone is a law (`specs/OneVerdict.antt`).
//!
//! The model of directories. `make_all` looks for each of a list of paths, and makes the directory where none is there
//! (`specs/Directories.antt`). That the volume keeps its files by that is a law. All directories are made before the
//! first file is read, so that each file finds its own.
//!
//! The model of what is saved. `specs/Items.antt` has a `Batch`: its `Item`s, each with its path on the volume, what is
//! said of it and the form in which its bytes are given, and what all of them share, the file system and the date. An
//! item and the bytes of its file are a new file, as `shop_changes` saves it. The bytes are asked of `HostFiles` by the
//! number of the file (`specs/Files.antt`), which in a plan is that of its entry: where it is known what the files
//! hold, it is known what is read of each. `MemoryFiles` are files in memory, and `FailingFiles` refuse one reading of
//! others.
//!
//! The model of readable forms. One that stands beside the file of an item is its `Second`, and what is in it is not
//! saved: it is read behind the file, and just the bytes of that have to be taken from it (`specs/Reads.antt`). That an
//! entry of a plan is passed over for no other cause is a law (`specs/Passed.antt`).
//!
//! `add_all` saves the items in order, each to the volume that the one before it left (`specs/Added.antt`): on every
//! device there is a chain of states, `AreAdded`, and on an honest one, of known files, a chain of volumes, `HasAdded`.
//! What is not saved is `Refused`, with the number of its item (`specs/Refused.antt`): the items before it were saved,
//! nothing was done to the device after it, and the reply has its cause. What the chain of volumes is to the list of
//! their files is a law (`specs/Entered.antt`). `added_text` tells what was saved and what was passed over
//! (`specs/AddedText.antt`), each path of an item as a listing shows that of its file, which is a law too
//! (`specs/Listed.antt`).
//!
//! `add_reply` answers the job (`specs/AddReply.antt`): where the volume is known, the plan of the folder, its
//! directories made and its items saved on the volume of the image, and the image handed out where all of that was
//! done. A refusal for an entry is told with the entry's path.
//!
//! What always holds: the files of one item are in memory at a time; after a failure of the device nothing of it is
//! called again; and where no failure of the device is told and an item is not saved, the volume is that of the items
//! before it.
#![tactic(auto)]

mod adding;
mod beside;
mod failing;
mod host_entry;
mod host_files;
mod item;
mod law;
mod making;
mod memory;
mod passing;
mod planned;
mod planning;
mod reading;
mod refusing;
mod replying;
mod said_path;
mod seconds;
mod step;
mod telling;
mod volume_path;
mod weighing;

pub use adding::{Refused, add_all};
pub use failing::FailingFiles;
pub use host_entry::{HostEntry, HostKind, is_hidden};
pub use host_files::HostFiles;
pub use item::{Batch, Item, Second};
pub use law::{
    a_saved_file_is_told_as_it_is_listed, added_files_are_entered, an_entry_makes_one_step,
    directories_keep_the_files, what_is_passed_over_stands_beside_an_item,
};
pub use making::{Unmade, make_all};
pub use memory::MemoryFiles;
pub use planned::{Plan, PlanError};
pub use planning::plan;
pub use replying::add_reply;
pub use telling::added_text;
