//! The volume table of contents (VTOC) of a DOS 3.3 volume: sector 0 of track 17.
//!
//! It has the geometry of the volume, the first catalog sector and a bit for each sector that says whether it is free.
//! The model of a `Vtoc` is the 256 bytes of its sector (`specs/Vtoc.antt`). Invariant: they have the geometry of
//! 35 tracks of 16 sectors of 256 bytes. Bits are also written in a lent sector.
#![tactic(auto)]

mod count;
mod marks;
mod vtoc;

pub use marks::{set_free, set_used};
pub use vtoc::{VTOC_PLACE, Vtoc};
