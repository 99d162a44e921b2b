//! Texts that are not the program's own, as a terminal shows them: a word of the user, or a name from a disk or a host.
//!
//! Each control character is shown as `\x` and two hexadecimal digits, and each format character of Unicode, such as
//! one that turns the direction of writing, as `\u` and six in braces, so that a terminal shows it and does not obey
//! it; all others stay as they are (`specs/Escaping.antt`). A backslash is shown as it is, so a text may have come of
//! more than one word.
#![tactic(auto)]

mod escaping;

pub use escaping::{all_escaped, escaped};
