//! The indexes of ProDOS files: blocks that name the blocks of a file's body, or other indexes.
//!
//! The model of an index is the bytes of its block (`specs/Pointers.antt`): 256 block numbers, whose low bytes stand in
//! the first half of the block and whose high bytes stand in the second. Pointers are read and written in a lent block
//! of 512 bytes; a write changes two bytes alone.
//!
//! What a key pointer and the pointers of an index name is `specs/Reach.antt`: the key block of a seedling is its body,
//! that of a sapling an index, and that of a tree a master index, whose first 128 pointers name indexes. A pointer 0
//! names nothing, and one to a block that the volume has not is wild. The parts of a file by its storage type are
//! `specs/File.antt`; they are what these pointers lead to.
//!
//! `specs/Content.antt` says what a move writes into an index and what it leaves. The other files of `specs/` prove
//! what formats are asked for: a part comes before those that it names, all parts below a pointer come before those
//! below the next, each part has one pointer, and a pointer that is set names its new block alone. Among parts in
//! order, `part_above` finds the one that names another (`specs/Above.antt`).
//!
//! A walk answers exactly the parts of one file, in order, or names what is wrong with it (`specs/Parts.antt`). It
//! reads alone, each index once and no unit of the body, and keeps a table of the places that it met.
#![tactic(auto)]

mod above;
mod file_walk;
mod laws;
mod links;
mod pointers;

pub use above::part_above;
pub use file_walk::walk;
pub use laws::{parts_of_a_file, set_pointer_is_read, set_pointer_keeps_others};
pub use links::{child, pointer_count, root, slot};
pub use pointers::{pointer, set_pointer};
