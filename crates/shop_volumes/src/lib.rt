//! What every job on a volume shares, whether it looks at the volume or changes it.
//!
//! `reserved_by` reads the places that words reserve, and `reserve_reply` tells why they name none; `volume_in` makes
//! a device of the volume of an image in memory, and reads these places with it. `format_of` makes the format of a
//! volume, by its file system: whoever works on a volume matches that, and calls what works on any format.
//! `unopened_reply` tells why a volume can't be brought into order.
//!
//! The model: `specs/Reserving.antt` says which places the words reserve, and what is told where they name none;
//! `specs/VolumeReply.antt` what is refused before there is a device, and that what is told of an image is told of the
//! device of its units; `specs/VolumeFormat.antt` which format a volume has; `specs/Unopened.antt` what is told of a
//! volume with faults, lost places or no free place; `specs/TellingFailures.antt` which replies tell that the device
//! failed; and `specs/VolumeFiles.antt` what the files of each file system are.
//!
//! What always holds: each refusal has its cause in the words, in the length of the image or in the units of the
//! volume, and words that reserve no places are refused before the length of the image is.
#![tactic(auto)]

mod image_volume;
mod reserving;
mod unopened;
mod volume_format;

pub use image_volume::volume_in;
pub use reserving::{reserve_reply, reserved_by};
pub use unopened::unopened_reply;
pub use volume_format::{VolumeFormat, format_of};
