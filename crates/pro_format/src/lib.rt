//! ProDOS as a format of volumes.
//!
//! `Prodos` says what the blocks of a ProDOS volume mean (`specs/Pro.antt`), over the directories, the map and the
//! indexes that the crates below read, and meets the laws of `vol_format`: those of reading
//! (`specs/lemmas/ProLaws.antt`, `specs/lemmas/ProDirectory.antt`), of moves (`specs/lemmas/ProMovable.antt`) and of
//! writes to the system's blocks (`specs/lemmas/ProWritable.antt`).
//!
//! A `ProVolume` is what was read of a volume: its directories, its map and which of its places are the system's.
//! Invariant: whatever the device told, the entries stand in slots of blocks of the volume, the map has a bit for each
//! block, and the available places are all that are not the system's, upward (`specs/Sound.antt`).
//!
//! **What is written.** Laws, functions with an empty body and their contract for the statement, say of a store that a
//! volume's directory describes (`DescribesPro`) what the directory is after one write of `pro_dir` to a directory
//! block:
//!
//! - a file's entry gets other access bits or another name, and keeps what it points to (`rewriting`,
//!   `specs/Rewritten.antt`),
//! - a file's entry is written into a free slot of a directory, or is erased; a directory's count of files is written;
//!   and the slot that a walk over the directories kept is a free one (`entering`, `specs/Slots.antt`).
//!
//! What the blocks of a file mean does not depend on the number of its entry (`numbering`). So `vol_laws` tells from
//! these laws what becomes of the files. The blocks of a new file are built after a plan, pointer by pointer
//! (`planning`, `specs/Plan.antt`).
//!
//! The entries form one list over a tree of directories. The proofs go over this list: a slot that is filled is one
//! entry more in it, at the same place in the list of its block, of its directory and of the volume
//! (`specs/Filled.antt`).
#![tactic(auto)]

mod entering;
mod numbering;
mod places;
mod planning;
mod prodos;
mod prodos_writes;
mod rewriting;
mod volume;
mod walks;

pub use entering::{
    a_file_count_keeps_the_directory, a_new_file_has_its_entry,
    an_entry_is_entered_into_a_directory, an_entry_is_erased_from_a_directory,
    an_entry_stands_in_its_directory, the_free_slot_of_a_directory,
};
pub use numbering::pro_units_mean_the_same_in_every_file;
pub use planning::{a_planned_file_is_built, an_index_is_written_pointer_by_pointer};
pub use prodos::Prodos;
pub use rewriting::an_entry_of_a_directory_is_rewritten;
pub use volume::ProVolume;
pub use walks::a_walk_tells_the_parts_of_its_file;
