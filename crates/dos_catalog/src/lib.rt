//! The catalog of a DOS 3.3 volume: a chain of sectors on track 17, with seven entries each.
//!
//! The model is what a store of 560 sectors says (`specs/Catalog.antt`): the sectors that the links lead over from the
//! VTOC, each once, and the entries in use of these sectors, in order. A walk answers exactly these, or names the
//! sector whose link leads to no catalog sector or to one already met. It reads alone, and keeps a table of the sectors
//! that it met. It also answers the first slot that has no entry in use. Slots are written in a lent sector
//! (`specs/Writes.antt`).
#![tactic(auto)]

mod catalog;
mod entry;
mod slot;

pub use catalog::Catalog;
pub use entry::Entry;
pub use slot::{NewEntry, encode, erase, set_kind, set_name, set_pointer};
