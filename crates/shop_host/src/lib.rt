//! The system that the program runs on.
//!
//! `Host` is what the program asks of it, one method for each call: what a path leads to (`Found`), files that are
//! opened, made, locked, read and written, names that are given and taken away, folders, and the streams beside
//! standard output. `SystemHost` is the system itself: each of its methods is one call, so that it can be read
//! aloud. `Input` reads standard input of a host, `Reader` reads a file of one, `Writer` writes one, and `Notes`
//! writes what is noted beside the answer.
//!
//! `open_readable` and `read_file` are how every file is read whose bytes are wanted: with a lock that readers share,
//! which is held until it is let go. `look_through` goes through a folder and all folders in it (`Finder` takes what is
//! found).
//!
//! The model: what was written to an open file, and what it and standard input still have to be read, where a host
//! knows that (`written`, `unread`, `input`); the system knows nothing of it. What always holds: what is read is a
//! front of what there is to be read; a write appends what it is given, once; bytes that can't be read are told as a
//! failure of the input, or as want of memory where that is why (`specs/Reading.antt`); and a link is not followed on
//! the way through a folder.
#![tactic(auto)]

mod found;
mod host;
mod reading;
mod streams;
mod system;
mod walking;

pub use found::{Found, FoundKind, Node};
pub use host::{Access, Host, Lock};
pub use reading::{
    OpenFault, Readable, failure_of, is_held, open_readable, open_shared, read_file,
};
pub use streams::{front_of, front_of_input, note};
pub use system::SystemHost;
pub use walking::{Finder, Kind, Root};
