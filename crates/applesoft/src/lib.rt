//! Programs in Applesoft BASIC, as they are listed, and made from what is listed.
//!
//! The model is a list of lines (`specs/Program.antt`): each has its link, its number and its body, characters and
//! tokens. A program is its lines, each with a $00 at its end, and two bytes $00 behind them; a listing is the texts of
//! the lines. `list` is exact against that. `tokens` reads a text as the machine does (`specs/Scan.antt`), line by line
//! (`specs/Tokens.antt`), and is exact too: a text is refused only at the first line with which the lines before it are
//! no program.
//!
//! What always holds: a program has one listing (`a_program_has_one_listing`), a text is one program
//! (`a_text_is_one_program`), and a program that was made from a text is linked (`a_tokenized_program_is_linked`).
#![tactic(auto)]

mod codes;
mod error;
mod items;
mod law;
mod line;
mod listing;
mod numbers;
mod tokenizing;
mod words;

pub use error::{ListError, TokenError};
pub use law::{
    a_listing_is_its_program, a_program_has_one_listing, a_text_is_one_program,
    a_tokenized_program_is_linked,
};
pub use listing::list;
pub use tokenizing::tokens;
