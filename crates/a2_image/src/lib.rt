//! Images of 5.25-inch disks: 35 tracks of 16 sectors of 256 bytes, in memory.
//!
//! The model of an image is its order, its bytes, its sectors and the bytes that no write may change
//! (`specs/Image.antt`). The sectors are a list, one for each track and physical sector, whatever the order: nothing
//! above this crate needs to know how an image is laid out. A write may change a byte of a sector alone
//! (`specs/KeptBytes.antt`): in nibble order one of the 343 disk bytes of its field, in another order any byte.
//! Invariant: an image has a length of its order, and its sectors are those that its bytes hold. An image in nibble
//! order keeps the field of each sector from its opening on, so no later call searches a track; a write leaves every
//! field where it was.
#![tactic(auto)]

mod blocks;
mod convert;
mod error;
mod image;
mod laws;
mod lend;
mod nibble;
mod part;
mod plain;

pub use blocks::sectors_of_block;
pub use error::ImageError;
pub use image::{Image, SECTOR_BYTES};
pub use laws::{
    a_lent_sector_is_one, kept_bytes_are_one, prodos_blocks_lie_in_order, sectors_are_one,
};
