//! What is told of the words of the command line: help, usage, and why they are refused (`WordsFault`).
//!
//! The texts are made of the table of commands (`shop_words`) and of what is told of each command and parameter
//! (`src/help.rt`, `src/notes.rt`). They are made only where they are wanted: `clap` is then asked once more, of the
//! words as they are shown (`shown_text`), and by commands that have their texts; their usage says what may be left
//! out.
//!
//! `read_fault` tells of words that are not read, `misfit_fault` of words that are no job. `parse_words` reads words,
//! makes the job of them where they leave nothing to an image, and tells why there is none.
//!
//! What always holds: help is told only of words that may ask for it, a refusal only of words in which something else
//! is wrong (`specs/Fault.antt`), and want of memory stays that.
#![tactic(auto)]

mod fault;
mod help;
mod misfits;
mod notes;
mod telling;
mod usage;
mod words;

pub use fault::WordsFault;
pub use misfits::misfit_fault;
pub use telling::read_fault;
pub use words::parse_words;
