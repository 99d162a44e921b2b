//! Forms in which files of a volume are read, and from which new ones are taken.
//!
//! The model is a file as it was read (`specs/Found.antt`): its name, access, type and aux type, the text of its units
//! and its body. `in_form` shows it as a text, as the listing of a program in Applesoft or Integer BASIC, or as an
//! AppleSingle file (`specs/Shown.antt`), and is exact: `Form` comes only for a file that has no such form.
//! `FileForm::of_type` is the form that files of a type have. `taken_from` is the way back (`specs/Taken.antt`): which
//! bytes, type and aux type a new file gets that is given as a text, a listing or an AppleSingle file.
//!
//! `readable` is the form of a file of text or of a program in Applesoft, where that form is taken for just the bytes
//! of the file (`specs/Readable.antt`), and `is_taken_back` says of any text whether it is taken so.
#![tactic(auto)]

mod coming_back;
mod error;
mod form;
mod found;
mod showing;
mod taking;

pub use coming_back::{is_taken_back, readable};
pub use error::{FormError, TakingError};
pub use form::{FileForm, GivenForm};
pub use found::FoundFile;
pub use showing::in_form;
pub use taking::{TakenFile, taken_from};
