//! The track/sector lists of DOS 3.3 files: sectors that name the sectors of a file's body.
//!
//! The model of a list is the bytes of its sector (`specs/Pointers.antt`): a link to the next list, and 122 pairs of a
//! track and a sector. Pointers are read and written in a lent sector of 256 bytes; a write changes two bytes alone.
//!
//! The parts of a file are what its pointers reach (`specs/Reach.antt`): list 0 is where its entry points, list n + 1
//! where the link of list n leads, and unit 122 n + i of its body where pair i of list n leads. A walk answers exactly
//! these, in order, or names a wild pointer or a place that is reached twice. It reads alone, each list once, and keeps
//! a table of the places that it met.
#![tactic(auto)]

mod file_walk;
mod pointers;

pub use file_walk::walk;
pub use pointers::{PAIRS, next, pair, set_next, set_pair};
