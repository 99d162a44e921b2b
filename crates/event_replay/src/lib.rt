//! Any list of events over a volume: steps of a session, reads of files, failures of the device to order, and stops.
//!
//! `replay` answers the events one after the other over a session of `vol_mover`. Its model is a run
//! (`specs/Runs.antt`): the moments between the events, each with the store that stands, the session, the failures
//! ordered and what was written so far (`specs/Moments.antt`), and between two moments one line for what the event did.
//! What a line says of the volume is in `specs/Volumes.antt`. Over every run from a volume the files stay, few places
//! are lost, each read that gives bytes gives those of the first volume, and the changes of the layout and the deficit
//! now are together the deficit at first (`KeepsAll`): so neither a stop nor a failure costs a move.
//!
//! Inside, a replay holds a session over its device, or the device alone (`specs/Holds.antt`, over every device); that
//! this is what a moment says is the invariant (`specs/Held.antt`). The device that was handed in stands in one that
//! counts as standing what it counts as written (`specs/Unfailing.antt`), so that the count of writes that is handed
//! back is known; and that one in a device that fails to order, whose state tells that no write has come through since
//! one was ordered to fail (`specs/Orders.antt`). A read that comes leaves the state of a device as it is: so each
//! event that reads meets an order to fail a read before it reads.
#![tactic(auto)]

mod event;
mod laws;
mod ordered;
mod replaying;
mod stepping;
mod turning;
mod unfailing;

pub use event::{Answer, Event};
pub use laws::parts_that_stand_have_their_layout;
pub use replaying::replay;
