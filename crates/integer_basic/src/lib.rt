//! Programs in Integer BASIC, as they are listed.
//!
//! The model is a list of lines (`specs/Program.antt`): each has its number and its body. A program is its lines, each
//! with its length before it and a $01 at its end, up to a length of 0 or the end of the bytes; a listing is the texts
//! of the lines. A body is read from the left, item by item (`specs/Items.antt`): strings, remarks, numbers, names and
//! words (`specs/Words.antt`). `list` is exact against that.
//!
//! What always holds: a program has one listing (`a_program_has_one_listing`), and what is listed is UTF-8
//! (`a_listing_is_utf8`).
#![tactic(auto)]

mod error;
mod items;
mod law;
mod listing;
mod words;

pub use error::ListError;
pub use law::{a_listing_is_utf8, a_program_has_one_listing};
pub use listing::list;
