//! The words of the command line: `read_words` reads them by `clap` and gives what they ask for, and `Asked::job` the
//! job of that. What is told of other words, and of those that ask for help, is made by `shop_help`.
//!
//! A command has a *form*: its name, what it does, how its words say in which way its image is read, and its parameters
//! in order (`Form`). The forms stand in one table. `clap`'s commands, usage lines, lists of values and the list of all
//! commands are made of it, so a new command is a new row, a new case of what is asked (`shop_jobs`) and its arms in
//! `ask_in`, and where it reads a file beside the image or makes one, in `beside_in` and `output_in`.
//!
//! What words leave out of `--fs` and `--order`, or say as `auto` or `2img`, is left to the images (`said` of
//! `specs/Ways.antt`). It stands in the job as such, until what the images have is put into its place (`Input::settle`
//! of `shop_jobs`).
//!
//! A *plain list* is no word at all, or printed from a form: the command's name, its positional words, then its flags
//! and options in any order, each option as `--name` and its value apart, `--fs` and `--order` said; a command that
//! may change its image in place says exactly one of `--out` and `--in-place`. With no word the job is that of `catalog
//! --fs dos --order dos -`.
//!
//! What always holds: a job that is answered is the stated function of the words, whatever they are; a plain list is
//! read, leaves nothing to its images, and has the job that its form says, where there is memory; other words are not
//! read for one of the ends that clap's reading of them may come to (`specs/Unread.antt`), or are a job or a named
//! `Misfit`.
#![tactic(auto)]

mod asked;
mod asking;
mod changing;
mod converting;
mod creating;
mod extracting;
mod given;
mod grammar;
mod help;
mod hexadecimal;
mod input;
mod leaving;
mod looking;
mod misfit;
mod output;
mod reading;
mod saving;
mod table;
mod unread;
mod words;

pub use asked::{Asked, form_named};
pub use grammar::{argument, bare_program, command_of};
pub use help::Help;
pub use misfit::Misfit;
pub use table::{Form, Kind, LeftOut, Parameter, Reading, Values, Verb, all_forms};
pub use unread::Unread;
pub use words::{asks_explain, read_words};
