//! What a job answers, the volume that an image has, and the conversion of an image, which needs no file system.
//!
//! A `Reply` is the answer of any job: a status, what is told, and the image that it hands out or none.
//! `specs/Reply.antt` gives the text of what is told, and says what the writers hold once a reply is delivered.
//! `specs/Disk.antt` says which bytes are an image of a disk; `specs/ConvertReply.antt` what `convert` answers to them,
//! `specs/ContainerReply.antt` what `wrap` and `unwrap` answer, and what is handed out of a job on the payload of a
//! container: the new payload in the old shell.
//!
//! The volume of an image is told by its file system (`specs/Volume.antt`): DOS 3.3 has sectors and a disk's bytes;
//! ProDOS has blocks, 16 to 65,535 of them in an image of its own order. `device_of` is the device of those units,
//! `meaning_of` what they mean, `OfVolume` says something of the device of an image that is taken, and `LacksUnit` that
//! a unit of it can't be read.
//!
//! What always holds: an image is handed out after its text was told, and a reply without an image leaves the output
//! file's writer as it is; bytes are taken exactly at a length that the order and the file system allow, and the image
//! that is taken has these bytes.
#![tactic(auto)]

mod container;
mod convert;
mod disk;
mod opening;
mod plan_writing;
mod reading;
mod refusal;
mod reply;
mod writing;

pub use container::{unwrap_reply, wrap_reply};
pub use convert::convert_reply;
pub use disk::{most_bytes, open_disk};
pub use opening::{device_of, form_of, open_volume};
pub use reading::{most_beside, most_of_image, read_front};
pub use refusal::{Failure, Refusal, Side};
pub use reply::{FAILED, Reply, Status, Told};
pub use writing::{write_whole, written};
