//! Commands that change the files of a volume, mark its lost places free, or make a directory, over any device that has
//! its units and any format that is edited.
//!
//! A file is locked, unlocked or renamed by one write into its entry (`locking`, `naming`), and deleted by two writes
//! or more (`deleting`). What an edit is, what it asks of a format and what it does to the list of the volume's files
//! is said in `edit_formats`. Laws say that the writes of a deletion together delete the file (`deletion`), and that a
//! volume has one answer to a rename and to a deletion (`answers`).
//!
//! A new file is given as its path, its attributes and its units, of which some may be holes (`specs/Given.antt`). Its
//! parts get the first free places of the volume (`specs/Places.antt`, `places`); each part has its unit, that of the
//! body as it is given and that of a table as the format builds it (`specs/Parts.antt`, `building`). Its entry gets the
//! slot to which the path leads (`specs/Slots.antt`, `slots`). The writes are all made ready (`specs/Placing.antt`,
//! `preparing`) before the first is made (`saving`). What saving leaves and why it is refused is told by
//! `specs/Saved.antt`. A saving says whether it is known that the volume is accepted (`acceptance`): where nothing is
//! known, the volume is checked first, and else only its header, directory and map are read (`accepting`).
//!
//! Lost places are marked free by one write for each unit of the map that has marks of them, and nothing else is
//! changed (`reclaiming`). What these writes are and what they leave is told by `specs/Reclaimed.antt`.
//!
//! A directory is made on a ProDOS volume (`making`). It has one block, at the first free place, with its header and no
//! entry (`specs/NewDirectory.antt`). Its entry gets the first free slot of the directory to which its path leads,
//! which counts one file more. The block is written first, then the unit of the map in which its place is marked used,
//! then the entry: all are made ready (`preparing`) before the first is written. What these writes leave is told by
//! `specs/Made.antt`. The block is one of the system's from then on, so the available places are one fewer, and the
//! tree of the volume's directories has a leaf more (`specs/Leaf.antt`, `specs/WithDirectory.antt`); the list of the
//! files is that of before. Laws say so of the entry alone (`directory_laws`). Whoever makes directories on a volume of
//! any format asks a `DirectoryFormat` (`specs/Directories.antt`): ProDOS is one, and DOS 3.3, which has no directories
//! and in which none is made.
//!
//! What always holds: all room is taken and all is weighed before the first write; a refusal leaves the device as it
//! was; where a read or a write fails, the files are those of before or those of after.
#![tactic(auto)]

mod acceptance;
mod accepting;
mod answers;
mod block_marking;
mod building;
mod deleting;
mod deletion;
mod directory_entering;
mod directory_format;
mod directory_laws;
mod directory_slots;
mod dos_directories;
mod free_block;
mod given;
mod locking;
mod making;
mod naming;
mod new_block;
mod places;
mod preparing;
mod pro_directories;
mod reclaiming;
mod saving;
mod slots;

pub use acceptance::Acceptance;
pub use accepting::accepted_volume;
pub use answers::{a_deletion_has_one_answer, a_rename_has_one_answer};
pub use building::part_writes;
pub use deleting::delete;
pub use deletion::{
    a_deletion_made_takes_out_one_file, a_dos_entry_is_erased_by_one_write,
    an_erased_entry_and_released_places_are_a_deletion,
};
pub use directory_format::DirectoryFormat;
pub use directory_laws::{
    a_new_directory_keeps_the_files, an_empty_directory_is_entered_into_another,
};
pub use given::NewFile;
pub use locking::{lock, unlock};
pub use making::make_directory;
pub use naming::rename;
pub use places::first_places;
pub use reclaiming::reclaim;
pub use saving::save;
