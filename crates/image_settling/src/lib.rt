//! What a job leaves to its images, found in them: the container that an image stands in, and the file system and the
//! order in which it is read.
//!
//! `open_container` takes the image out of bytes that are read as a container. `found_way` is the way to read an image:
//! what is said of it, and in the place of the rest what the best of its readings has (`image_readings`), of those that
//! have what is said. `found_order` is the order of an image beside it, whose volume has the same file system. A job
//! gets what was found by `Input::settle`.
//!
//! What always holds: what is said is never passed over; of an image in a container the best reading is in the order
//! that the header says, or none is taken; and the image's bytes are as they were, but for the shell that is taken off
//! them.
#![tactic(auto)]

mod container;
mod unsettled;
mod way;

pub use container::{OpenContainer, open_container};
pub use unsettled::Unsettled;
pub use way::{found_order, found_way};
