//! A host in memory, for tests: its files, folders and links by their paths, standard input, and what is noted.
//!
//! It is honest, and that is proved: what it holds is what came of all that was put into it and done to it. It counts
//! its calls, and one of them may fail, or each from one on. A call writes and reads at most three bytes, as that of a
//! system may.
#![tactic(auto)]

mod calls;
mod entries;
mod host;
mod journal;
mod open;
mod paths;
mod shown;
mod store;
mod units;

pub use entries::Kind;
pub use host::MemoryHost;
pub use open::OpenEntry;
pub use units::MemoryUnits;
