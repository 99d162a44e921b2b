//! The files of a volume, put into a folder of the host.
//!
//! `extract` goes over the entries of a volume once, in the order of its directory, and makes of each an item
//! (`specs/Items.antt`): a folder for a directory, a file of its body for a file that can be read, and nothing for one
//! that can't. Where readable forms are wanted, that of a file stands beside it or in its place (`specs/Texts.antt`):
//! the text or the program as it can be read, wherever just the bytes of the file are taken from that. An item has its
//! name on the host and its number among those of its folder, and its path is its name below the folder of its
//! directory. What an extraction is, and why one is refused, says `specs/Extraction.antt`; what it tells, a line for
//! each item, `specs/ExtractText.antt`. A format whose entries stand in a tree of directories is a `TreeFormat`; DOS
//! 3.3, which has none, and ProDOS are.
//!
//! Of an item little is kept, and no path (`specs/Kept.antt`): paths are made anew from the names of the directories
//! that lead to it, of which there are at most 64.
//!
//! What always holds: the device is only read, and no call makes the folder honest or dishonest; of two items of a
//! volume the paths differ, letters of either case taken as one.
#![tactic(auto)]

mod body;
mod error;
mod extracting;
mod extraction;
mod found;
mod hosts;
mod items;
mod kept;
mod law;
mod looking;
mod making;
mod names;
mod opened;
mod placing;
mod seeing;
mod taking;
mod texts;
mod totals;
mod tree_format;

pub use error::ExtractError;
pub use extracting::extract;
pub use extraction::Extraction;
pub use law::{
    each_path_is_safe, no_text_is_made_at_another_path, no_two_are_made_at_one_path,
    the_lines_are_the_text,
};
pub use texts::Options;
pub use totals::Totals;
pub use tree_format::TreeFormat;
