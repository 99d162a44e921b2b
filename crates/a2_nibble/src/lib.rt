//! Disk II tracks in 6-and-2 encoding: a track is a ring of 6,656 bytes on which up to 16 sectors
//! of 256 bytes stand, each as an address field and a data field of 343 disk bytes. (Beneath Apple
//! DOS, chapter 3.)
//!
//! The model is the track's bytes alone. A sector is read from its field: the one from the least
//! place where its address field stands and its data field counts, that is, all 343 bytes are disk
//! bytes and the checksum is right. Reading goes round the ring; epilogues and the volume do not
//! matter.
//!
//! What always holds: no byte of a data field that counts is D5 or AA. So a write over one field
//! leaves every field where it was and every other sector's content as it was. A caller may keep the
//! fields that `fields_of_track` finds and call `read_field` and `write_field` with no more search.
//!
//! Nothing here allocates.
#![tactic(auto)]

mod address;
mod codec;
mod copy;
mod error;
mod fields;
mod lanes;
mod make;
mod ring;
mod search;
mod sector;
mod table;

pub use address::address_field_decodes;
pub use codec::encode_sector;
pub use error::NibError;
pub use fields::fields_of_track;
pub use make::make_track;
pub use search::{Field, find_sector};
pub use sector::{read_field, read_sector, write_field, write_sector};

/// The bytes of a track.
pub const TRACK_LEN: usize = 6656;
/// The sectors of a track.
pub const SECTORS: usize = 16;
/// The bytes of a sector.
pub const SECTOR_LEN: usize = 256;
/// The disk bytes of a sector: 342 and a checksum.
pub const FIELD_LEN: usize = 343;
