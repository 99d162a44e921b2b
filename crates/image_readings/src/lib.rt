//! The ways to read an image, what is found in each, and which of them is best.
//!
//! Sectors 0 and 15 of a track stand at the same bytes in DOS and in ProDOS order, so a DOS 3.3 disk can be read in
//! both: an image's bytes do not tell its order. A *reading* is a file system and an order with what is found so:
//! whether the directory can be read, how long it is, how many entries it has, and whether the volume is accepted
//! (`specs/Readings.antt`). `rank` names the one reading that beats every other, if there is one
//! (`specs/Ranking.antt`); `identify_reply` tells all readings that the image's length allows, and the verdict, of a
//! container those of its payload behind what it says (`specs/IdentifyText.antt`, `specs/IdentifyReply.antt`);
//! `best_reading` chooses among the readings in a file system, an order or both that are given
//! (`specs/BestReading.antt`).
//!
//! What always holds: an image is read where it is lent, without a copy, and its bytes are as they were after each
//! call; what is told of it follows from its bytes alone; and a reading is called best only where it beats every other.
#![tactic(auto)]

mod best;
mod identify;
mod identify_text;
mod ranking;
mod reading;
mod stop;
mod volume;

pub use best::{Choice, best_reading};
pub use identify::identify_reply;
pub use identify_text::{file_system_word, order_word};
pub use ranking::{Verdict, rank};
pub use reading::{Finding, Found, Reading, Standing};
pub use volume::reading_of;
