//! The formats of volumes: DOS 3.3.
//!
//! `Dos33` says what the units of a DOS 3.3 volume mean (`specs/Dos.antt`), over the map, the catalog and the lists
//! that the crates below read, and meets the laws of `vol_format`: those of reading (`specs/lemmas/DosLaws.antt`), of
//! moves (`specs/lemmas/DosMovable.antt`) and of writes to the system's sectors (`specs/lemmas/DosWritable.antt`).
//!
//! **What is written.** One slot of the catalog is filled, emptied or rewritten, and the lists and the body of a new
//! file are written. `dos_catalog` writes a slot in a sector that is lent to it, and `dos_tslist` a pointer of a list;
//! here nothing of that runs: each function is a law, with an empty body and its contract for the statement. The laws
//! say what the store with that sector means, for every directory that described it before:
//!
//! - a new entry in a free slot is one entry more, with the number that the slot has among the entries in use
//!   (`specs/Slots.antt`, `entering`), and the first free slot that a walk over the catalog answers is such a slot,
//! - units of files and marks of places, written before that, leave the slot free and under the same number
//!   (`specs/SameCatalog.antt`, `elsewhere`),
//! - an entry deleted is one entry less (`specs/Erasing.antt`, `erasing`),
//! - a kind or a name written gives one entry that kind or that name (`specs/Rewriting.antt`, `rewriting`),
//! - lists whose pairs and links name the planned places are, with the units of the body there, what an entry that
//!   points to the first list leads to; and each pair or link that is written brings the unit of a list nearer to that
//!   (`specs/Plan.antt`, `planning`).
//!
//! With each goes that the slot stands in a sector of the system, so that the units of the files are as they were.
//! These are the premises of the laws of `vol_laws`, of which one more asks that a unit means the same in a file of
//! any number (`formats`).
#![tactic(auto)]

mod dos;
mod dos_writes;
mod elsewhere;
mod entering;
mod erasing;
mod formats;
mod planning;
mod rewriting;
mod walks;

pub use dos::{Dos33, DosVolume, read_vtoc};
pub use elsewhere::a_write_elsewhere_leaves_the_catalog;
pub use entering::{an_entry_is_entered_into_the_catalog, the_free_slot_of_the_catalog};
pub use erasing::an_entry_is_erased_from_the_catalog;
pub use formats::dos_units_mean_the_same_in_every_file;
pub use planning::{
    a_list_is_written_pair_by_pair, a_planned_file_is_built, the_link_of_a_list_is_written,
};
pub use rewriting::an_entry_of_the_catalog_is_rewritten;
pub use walks::a_walk_tells_the_parts_of_its_file;
