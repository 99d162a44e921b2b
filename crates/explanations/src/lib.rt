//! What the program's words mean, for people who know little of disk formats, and what to do next.
//!
//! A row of the tables `REFUSALS` and `FINDINGS` has the words with which a line of the program begins, as `REFUSED
//! Length` or `FAULT Shared`, what they mean, and what to do next. `explained` answers the rows of a table whose words
//! begin a line of a text, each once and in the order of the table (`specs/Explained.antt`). `Overheard` is a writer
//! that hands all on to another and keeps a copy of the front of what that one took (`specs/Overheard.antt`), so what
//! was told can be explained when all is told.
#![tactic(auto)]

mod explanation;
mod findings;
mod overheard;
mod refusals;
mod selection;

pub use explanation::Explanation;
pub use findings::FINDINGS;
pub use overheard::Overheard;
pub use refusals::REFUSALS;
pub use selection::explained;
