//! Units of a disk by place: the orders of an image, the parts and faults of a volume, and the trait `Device`.
//!
//! An image of a 5.25-inch disk has its sectors in an order (`Order`): by the logical sectors of DOS, by the blocks of
//! ProDOS, or as the disk bytes of its tracks. A disk has 35 tracks of 16 sectors of 256 bytes, each with a physical
//! number; DOS and ProDOS number those of a track in ways of their own, the skew, which is told by tables
//! (`specs/Skew.antt`). The order says how long an image may be, how many blocks it has, and where in its track a
//! sector stands (`specs/Order.antt`).
//!
//! A unit is a sector of 256 bytes (DOS) or a block of 512 (ProDOS); a place is its number, for a sector 16 times the
//! track plus the logical sector. The model of a device is one record, `DeviceState` (`specs/Device.antt`): its size,
//! the counts that it tells, the store of units that it would answer now, the places that can't be read, the failures
//! that may still come, how many writes it still passes on and how many stand. `FaultDevice` fails to order, and
//! `StopDevice` stops after so many writes.
//!
//! A part is one unit of a file, named by the file's entry, its kind and its number, with the place where it stands
//! (`Part`). A fault names the rule that is broken and the place where it is (`Fault`), and a walk over a volume ends
//! with one or with a failure of the device (`WalkError`).
//!
//! What always holds: refusals are counted by every device; what a call does to the store is known of an honest one,
//! and no call makes a device honest or dishonest.
#![tactic(auto)]

mod counts;
mod device;
mod failing;
mod fault;
mod order;
mod part;
mod stop;
mod stopping;

pub use device::{Device, DeviceError};
pub use failing::FaultDevice;
pub use fault::{Fault, WalkError};
pub use order::{
    BLOCK_BYTES, DISK_BLOCKS, IMAGE_BYTES, NIBBLE_BYTES, Order, SECTORS, TRACKS, block_to_phys,
    dos_to_phys,
};
pub use part::{Part, PartKind};
pub use stop::Stop;
pub use stopping::StopDevice;
