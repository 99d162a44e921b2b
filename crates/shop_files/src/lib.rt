//! The files of a job on a host: what its paths name, which of them are one, and what is explained of them. Each call
//! of the host is one of `Host` (`shop_host`).
//!
//! `JobFiles` says where the paths of a job lead, before anything is read (`specs/Outputs.antt`), and `clash` whether
//! two roles of the job have one file of which one is written, or the output file is to stand in the folder whose files
//! are added (`specs/Roles.antt`). It has the files that the job writes: each where the job names one, and to its own
//! path. How they are written is told in `shop_outputs`, and how the image is opened and read in `shop_inputs`.
//!
//! `explain` says on standard error what was meant, and `warn_of_order` beforehand that another way to read the image
//! is better; `foreign_of` knows files of other kinds by their first bytes (`specs/Foreign.antt`). What is noted is
//! made in memory first.
//!
//! What always holds: no call of this crate changes what stands on an honest host; two roles are told to be one file
//! exactly where that is known by their paths or by their numbers; and no file aside gets the path of another file that
//! the job writes.
#![tactic(auto)]

mod clash;
mod files;
mod foreign;
mod identity;
mod telling;
mod text_fault;
mod ways;

pub use clash::{Clash, Roles};
pub use files::JobFiles;
pub use foreign::{Foreign, foreign_of};
pub use identity::{FileIdentity, is_same_file};
pub use telling::{BootFault, Found, explain, tell_foreign, warn_of_order};
