//! The checker of volumes, for every device and every format.
//!
//! A volume is accepted where its header, directory and map are as its format asks, each file is of a kind that is
//! read, each of its pointers names a place or nothing, and each part stands alone at an available place that is marked
//! used (`IsAccepted` of `vol_format`). The checker walks over the parts in their order, with a list on the heap of
//! what waits to be looked at and a table of the places that it met, so that each unit with pointers is read once,
//! whatever they say. What it answers of an accepted volume is a `Checked`; a refusal lists every fault that it met,
//! once for each place, in the order of the parts, and of which file each is (`specs/FaultFiles.antt`). `judge` gives
//! the volume back beside its faults. So it has a few lines a place at most, however many pointers are
//! wrong.
//!
//! `FileWalker` walks over single files on the same tables. However a walk ends, its tables are marked for its own
//! parts and faults alone (`specs/Marks.antt`), and by these they are cleared before the next walk. Where it tells that
//! the device failed, the read of a unit of that file did (`specs/Failures.antt`).
#![tactic(auto)]

mod checked;
mod checker;
mod error;
mod file_walker;
mod judgement;
mod known;
mod standing;
mod tables;
mod walk;

pub use checked::Checked;
pub use checker::{check, judge};
pub use error::{CheckError, Faults};
pub use file_walker::FileWalker;
pub use judgement::Judgement;
