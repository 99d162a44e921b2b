//! A survey of files: which of them are images of disks, how each is read best, which have the same files, and which
//! are the same disk.
//!
//! `survey_image` tells of the bytes of a file what is found: an image, with the best way to read it and what is told
//! of its volume, or that it is none (`specs/Surveyed.antt`, `specs/Facts.antt`). Of a container it reads the payload.
//! The *content* of a volume is the digest of a text with a line for each of its files, in the order of their paths
//! (`specs/Content.antt`, `specs/FileLine.antt`, `specs/Ordered.antt`): two dumps of one disk have one content, in
//! whatever orders they are. The digest of the *disk* is that of all its sectors, or blocks, in rising place
//! (`specs/Disk.antt`), what no file has among them. A `Survey` tells a line for each file (`specs/Lines.antt`,
//! `specs/JsonLines.antt`), and at its end which images have one content, and which have one disk (`specs/Same.antt`),
//! and how many files there are of each kind (`specs/Survey.antt`). It knows no file system: whoever calls it walks
//! over folders, reads files, and says which file a path leads to.
//!
//! What always holds: what is found of a file follows from its bytes alone; of a survey it is known of how many files
//! of each kind was told, and of each image that may be the same as another its path, its file, its content and its
//! disk, and nothing else is kept of a file; exactly the images whose content, or disk, another has are told to be the
//! same (`each_image_with_the_content_of_another_is_told`); and paths that lead to one file are one image, so that no
//! file is told to be the same as itself (`no_file_is_the_same_as_itself`).
#![tactic(auto)]

mod content;
mod counts;
mod disk;
mod error;
mod facts;
mod file_id;
mod file_line;
mod image;
mod json_row;
mod json_string;
mod json_totals;
mod kept;
mod law;
mod likeness;
mod line;
mod ordered;
mod same;
mod survey;
mod surveyed;

pub use content::Content;
pub use error::SurveyError;
pub use facts::VolumeFacts;
pub use file_id::FileId;
pub use image::survey_image;
pub use law::{each_image_with_the_content_of_another_is_told, no_file_is_the_same_as_itself};
pub use survey::Survey;
pub use surveyed::{BestReading, ImageFile, ImageVerdict, Surveyed};
