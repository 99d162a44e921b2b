//! The files that a job reads on a host. Each call of the host is one of `Host` (`shop_host`).
//!
//! `OpenImage` is the image, open: its file, locked for as long as it is held, or standard input; it gives the bytes,
//! or a device of the units where they stand in the file (`specs/Images.antt`). `extra_bytes` reads the file beside the
//! image, or the other image, and holds its lock until it is read (`specs/Beside.antt`).
//!
//! On an honest host: the file that is opened is the one to which the path leads, and its lock was taken, or the file
//! system refused one; what is read of a regular file is its bytes, up to one past so many, and what is lent to be
//! changed are its bytes where they stand; and nothing that stands on the host has changed.
#![tactic(auto)]

mod bytes;
mod image;

pub use bytes::extra_bytes;
pub use image::{ImageDevice, ImageFault, ImageUse, OpenImage, is_in_its_file};
