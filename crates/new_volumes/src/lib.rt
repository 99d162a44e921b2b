//! Images of empty volumes, DOS 3.3 and ProDOS.
//!
//! Which units an empty volume has is said place by place and field by field (`specs/DosUnits.antt`,
//! `specs/ProUnits.antt`); the first of them, those that start a machine, are 00s or copied from another image
//! (`specs/NewImage.antt`). The image is made in the order of its file system, where each unit stands at its place, and
//! is put into another order afterwards.
//!
//! What always holds: an image is answered only where the checker of `vol_check` accepts what was made and tells no
//! entry and no lost place. So each volume that is handed out is empty (`specs/Empty.antt`), whatever its size, and no
//! law on maps of every size is wanted.
#![tactic(auto)]

mod boot;
mod dos;
mod empty;
mod error;
mod fields;
mod finishing;
mod making;
mod new_volume;
mod plain;
mod pro;

pub use error::NewVolumeError;
pub use making::new_image;
pub use new_volume::NewVolume;
