//! The bitmap of a ProDOS volume: consecutive blocks with a bit for each block of the volume that says whether it is
//! free.
//!
//! The model of a `Bitmap` is its first block, the total of blocks that have a bit, and its units, the contents of its
//! blocks in order (`specs/Bitmap.antt`). Invariant: there is one unit of 512 bytes for each 4,096 blocks of the total,
//! and a last one for what is left. Bits at or past the total are carried, and are no block's.
#![tactic(auto)]

mod bitmap;
mod count;

pub use bitmap::Bitmap;
