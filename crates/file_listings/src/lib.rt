//! The text of a listing and of a plan in words, to the byte.
//!
//! A volume is listed as its file system does, or its entries are told as data (`Style`): a row for each
//! (`specs/Rows.antt`), with what is known of its file beside the entry (`KnownFiles`, `specs/Known.antt`): the facts
//! of each, kept packed, and their parts in one list, so that no line takes memory for them. The listing of a DOS 3.3
//! volume is one text (`specs/DosText.antt`, `specs/DosEntries.antt`). A path is as long as its directories are deep,
//! so the lines of a ProDOS volume (`specs/ProText.antt`) are made one at a time, into room that is taken first, so
//! that no line asks for memory (`ProLines`, `specs/ProLines.antt`).
//!
//! The text of a plan is a line for each of its steps, which part of which file goes from where to where, and the line
//! of their number (`specs/Steps.antt`, `plan_words_text`). Those of a ProDOS volume are made one at a time too
//! (`ProSteps`, `specs/ProSteps.antt`).
//!
//! What always holds: the lines of `ProLines` are those of one directory in one style, whichever was made last; a line
//! of `ProSteps` that is made is that of its step, and the volume and its steps stay as they are.
#![tactic(auto)]

mod count;
mod dos_entries;
mod dos_text;
mod facts;
mod known;
mod pro_lines;
mod pro_steps;
mod pro_text;
mod rows;
mod shown_path;
mod step;
mod style;

pub use count::CountText;
pub use dos_entries::dos_entries_text;
pub use dos_text::{dos_listing_text, shown_part};
pub use facts::{Facts, KnownFile, KnownParts};
pub use known::KnownFiles;
pub use pro_lines::{ProLines, most_path_bytes};
pub use pro_steps::ProSteps;
pub use shown_path::ShownPath;
pub use step::{Step, StepText};
pub use style::{EntryStyle, Style};
