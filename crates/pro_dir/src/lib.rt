//! The directories of a ProDOS volume: each a run of blocks, with thirteen entries a block.
//!
//! The model is what a store of blocks says (`specs/Tree.antt`, `specs/Volume.antt`): the tree of directories from
//! block 2 on, each entry before what is inside it, and the header of the volume. A walk answers exactly this, or names
//! a fault that is there. It follows the links of a directory first, keeps a table of the blocks that it met, and lets
//! its blocks wait on a stack on the heap; a block is read again when its entries are listed, so that no entry is kept
//! twice and no depth of nesting costs more than its blocks. Slots are written in a lent block (`specs/Writes.antt`).
#![tactic(auto)]

mod access;
mod date;
mod entry;
mod letters;
mod parents;
mod path;
mod reading;
mod slot;
mod tree;
mod volume;
mod waiting;
mod walk;

pub use access::Access;
pub use date::ProDate;
pub use entry::Entry;
pub use slot::{NewFile, count, encode, erase, set_access, set_count, set_key, set_name};
pub use volume::VolumeDir;
