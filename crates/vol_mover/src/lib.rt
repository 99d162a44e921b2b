//! The mover of parts: it brings the parts of a volume to their targets, one write at a time.
//!
//! An opening (`Opening`) reads a volume and writes nothing. It answers only for a volume that is accepted, that has no
//! lost place unless the owner reclaims them, and that has a free place or is in order already. Its model is what the
//! checker and the planner tell (`specs/Opening.antt`); `specs/Refused.antt` says when each refusal comes.
//!
//! An agenda (`Agenda`) is the list of the writes that make the plan's moves: before a part moves to a place that is
//! not marked used, the map's unit with its mark; then a copy of the part's unit; then the pointer that names it; and
//! at the end the map's units with the marks of the places that were left. It is made whole before the first write, so
//! that no write needs memory, and so that it is known how many there are. Its model is the list of the writes that are
//! still to be made (`specs/Tasks.antt`): each fits how far the work has come, and the last leaves each part at its
//! target and no place lost. Which they are says `specs/Writes.antt`, with an example in `specs/Example.antt`, and how
//! many `specs/Work.antt`. The marks of all writes of the map stand in one list, of which each has a range
//! (`specs/Entries.antt`).
//!
//! A session (`Session`) over a device makes the writes of an agenda, one a step at most. Its model is what it shows
//! (`Present`, `specs/Present.antt`), and its invariant is `IsSession` there, for the course that its work has taken:
//! of every device the sizes agree, the writes left fit the course and finish the work, and their moves are a shortest
//! plan; of an honest device, unless a write has failed, the volume stands as the course says (`IsOpen`,
//! `specs/Open.antt`). No struct holds the course: each clause is for every course of which the session is one.
//! `specs/Steps.antt` says what a step does, `specs/Resuming.antt` on which devices a session that was paused can go
//! on, `specs/Begun.antt` what an opened session is and how many writes it takes.
//!
//! `optimize` makes all steps or so many of them; `specs/Report.antt` says what it has done at every limit and after
//! every failure. That two stores hold the same volume is `SameVolume` of `specs/Volume.antt`; such stores have the
//! same list of files (`the_same_volume_has_the_same_files`).
//!
//! What always holds: whatever a step answers, what then stands is accepted, has the same files and the same units of
//! the system, few places of it are lost, and its parts stand where the agenda says before that write or after it. So
//! the work may be stopped between any two writes, or fail in one, and opened again.
#![tactic(auto)]

mod agenda;
mod change;
mod draft;
mod entry;
mod error;
mod laws;
mod making;
mod open;
mod opening;
mod optimizer;
mod paused;
mod progress;
mod readers;
mod report;
mod run;
mod session;
mod units;
mod write;

pub use agenda::Agenda;
pub use error::OpenError;
pub use laws::the_same_volume_has_the_same_files;
pub use opening::{Opening, Options};
pub use optimizer::optimize;
pub use paused::Paused;
pub use progress::{Progress, StepError, Wrote};
pub use report::{OptError, Report};
pub use session::Session;
pub use write::Write;
