//! What has the units of a volume: the image in memory, and the file where it stands, each as a device.
//!
//! `ImageDevice` is the device over an image: its store is the units that the image has, by place, and the places that
//! can't be read are those of which the image has none (`specs/ImageDevice.antt`). A write changes the bytes of one
//! unit in the image, and no other. No call fails but at a place that can't be read, or where the count of writes is at
//! its last value. `LentDevice` is the same over an image that is lent, and only reads (`specs/LentDevice.antt`).
//!
//! `FileDevice` is the device of a file's units: the unit at a place stands at the place times the size of a unit
//! (`specs/FileDevice.antt`). `PositionedFile` is what it asks of a file: that bytes are read and written at a position
//! (`specs/File.antt`). Of an honest file it is known what a read tells and what a write leaves: the new bytes, or,
//! where it failed, the old ones or the new ones. A `Window` is a part of a file as a file, as the payload of a
//! container is (`specs/Window.antt`): each of its calls leaves what stands around it.
//!
//! What always holds: the file of a device is as long as its units, and where the file is honest, so is the device.
#![tactic(auto)]

mod file;
mod file_units;
mod image;
mod kinds;
mod lent;
mod memory;
mod opening;
mod system;
mod units;
mod window;

pub use file::{FileFailure, PositionedFile};
pub use file_units::FileDevice;
pub use image::ImageDevice;
pub use lent::LentDevice;
pub use memory::MemoryFile;
pub use opening::{FileError, is_in_place};
pub use system::SystemFile;
pub use units::UnitKind;
pub use window::{Extent, Window};
