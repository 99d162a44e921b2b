//! Texts of the Apple II, as they can be read, and taken back from what is read.
//!
//! The model is a list of bytes on either side (`specs/Shown.antt`). Of each byte of a text its low seven bits are
//! shown: the code of a carriage return as the end of a line, a tab and what prints as themselves, and every other
//! control character as its picture. Taking a text back is exact against showing it (`specs/Taken.antt`): bytes are
//! taken from a text only where they are shown as that text, and a text is refused only at its first line that no bytes
//! show.
//!
//! What always holds: texts that are shown alike are alike but for their highest bits (`each_text_has_one_form`), what
//! was shown is UTF-8 (`what_is_shown_is_utf8`) and is taken back (`what_was_shown_is_taken_back`), as nothing else
//! (`a_text_is_taken_in_one_way`).
#![tactic(auto)]

mod character;
mod form;
mod law;
mod plain;
mod shown;
mod taken;

pub use character::{first_character, push_character};
pub use form::{HighBit, TakeError, TextForm};
pub use law::{
    a_text_is_taken_in_one_way, each_text_has_one_form, what_is_shown_is_utf8,
    what_was_shown_is_taken_back,
};
pub use shown::text_of;
pub use taken::bytes_of;
