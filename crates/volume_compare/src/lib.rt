//! What the files of two volumes of one format are to each other.
//!
//! `compare_volumes` reads both, on any two devices that have their units, and tells a line for each file of the first
//! in directory order, and behind them for each of the second that has no partner (`specs/CompareText.antt`). The k-th
//! file with a path in the first is the partner of the k-th with it in the second (`specs/Pairs.antt`). What is
//! compared is the content of a file (`specs/Contents.antt`): what its entry says beside places and lengths in units,
//! and its text. A file that can't be read is told so, and the others are read all the same. What is found of a file
//! is `specs/Findings.antt`; `specs/Comparison.antt` is all that is told, and why two volumes are not compared; when
//! their files have too many bytes says `specs/TooLarge.antt`. Volumes that are told to be equal have the same files
//! (`specs/SameFiles.antt`).
//!
//! Paths may be as long as a volume, so none is kept: partners are found by short keys of the paths of the second, in
//! rising order (`specs/Candidates.antt`). Paths that differ may have one key, so each that is found is compared.
//!
//! What always holds: the devices are only read; of the keys it is known of how many from each on the files are taken,
//! and a file of the second is taken exactly where it is the partner of a file that was looked at.
#![tactic(auto)]

mod candidates;
mod comparing;
mod content;
mod counting;
mod error;
mod finding;
mod keys;
mod law;
mod looking;
mod pairing;
mod paths;
mod progress;
mod report;
mod telling;
mod totals;

pub use comparing::compare_volumes;
pub use error::CompareError;
pub use finding::{Finding, Side};
pub use law::equal_volumes_have_the_same_files;
pub use report::Comparison;
