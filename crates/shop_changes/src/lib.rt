//! What becomes of a volume that is changed, on any device that has its units: its files are brought into order, a file
//! of it is changed, a new one is saved to it, its lost places are marked free, or a directory is made in it. And what
//! is answered to a change of the volume of an image in memory.
//!
//! `change_in_place` does `Work` and hands the device back with an `Outcome`, which `Outcome::tell` tells; the words
//! may reserve places, and `change_volume` is told them.
//!
//! The model. `specs/Work.antt` is the work as contracts see it, and `specs/EditRules.antt` what a format of volumes is
//! to it. What a change of a file and a new file are, by their writes and what these leave, stands in
//! `specs/Edits.antt` and `specs/Saves.antt`; what directories are to a format says `file_edits`. What became of
//! the work is an `Outcome` (`specs/Outcome.antt`): `OptimizeOutcome`, `EditOutcome`, `SaveOutcome`, `ReclaimOutcome`
//! and `MakingOutcome` say it of each work by what the optimizer and the commands promise, and `specs/Changing.antt` of
//! all of them.
//!
//! A new file is said in words and bytes, and these give a file (`specs/SaidFile.antt`): the bytes as they are, or what
//! is taken of a text, the listing of a program or an AppleSingle file. The bytes that are saved are the head that DOS
//! 3.3 puts before the bytes of some files, and the bytes that are given (`specs/GivenFile.antt`, `content`); they
//! stand in units of one size, the last filled with zeros. A word says the type of the file (`specs/GivenWords.antt`):
//! a letter in DOS 3.3, two hexadecimal digits in ProDOS. The date of its creation is one of `pro_dates`. A file with a
//! head is never longer than the two bytes of its length say: a longer one is refused before memory is taken.
//!
//! A file that takes the place of another one (`specs/Replaced.antt`) is saved in two steps, of which the first deletes
//! the other one: between them the volume has neither. So it is no work on a device that keeps what is written:
//! `change_volume` refuses it with `InPlace`, and who has the volume in memory calls `make_way`, then `save_in_place`.
//!
//! **The volume of an image in memory** is on a device like any other: `image_change` changes it and hands the image
//! out. Whoever does more with that device opens it by `volume_in` of `shop_volumes` and takes the bytes of its image
//! by `image_bytes`. `specs/VolumeReply.antt` of `shop_volumes` says what is refused before there is a device, and that
//! what is told is told of the device of the image's units: that is `IsChangeReply` (`specs/ChangeReply.antt`), by
//! cases of the work `OptimizeReply`, `EditReply`, `SaveReply`, `ReplaceReply`, `ReclaimReply` and `MakingReply`, which
//! say what the image is that is handed out (`specs/ImageBytes.antt`). A file takes the place of another one here
//! alone: in memory there is nothing between the two that could stay.
//!
//! What always holds: all memory is taken before the first write; after a failure of the device nothing of it is called
//! again; and where no failure of the device is told and the work is not done, the device is as it was.
//! Each reply says what the units of the image are, each refusal has its cause in them or in the words, only a change
//! hands out an image, and no byte of it is changed that no write may change.
#![tactic(auto)]

mod changing;
mod changing_image;
mod editing;
mod given_error;
mod given_file;
mod given_words;
mod law;
mod making;
mod optimizing;
mod outcome;
mod plain_file;
mod reclaiming;
mod replaced_file;
mod replacing;
mod replacing_in_image;
mod report_line;
mod said_file;
mod saving;
mod work;

pub use changing::{change_in_place, change_volume};
pub use changing_image::{image_bytes, image_change};
pub use editing::edit_refusal_reply;
pub use given_error::GivenError;
pub use given_file::{FileUnits, GivenFile, Head, MOST_INPUT, file_units};
pub use given_words::{head_of, kind_for, kind_named, usual_kind};
pub use law::{a_kind_is_got_back_from_its_type, what_takes_the_place_of_none_is_saved};
pub use making::make_in_place;
pub use outcome::Outcome;
pub use plain_file::{PlainFile, taken_plain};
pub use replaced_file::{ReplacedFile, find_replaced};
pub use replacing::make_way;
pub use report_line::line_text;
pub use said_file::{SaidFile, save_said};
pub use saving::save_in_place;
pub use work::Work;
