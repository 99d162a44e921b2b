//! The files that a job writes on a host, and how they take their places. Each call of the host is one of `Host`
//! (`shop_host`).
//!
//! `target_of` says where a path leads. `Output` is a file that a job writes (`specs/Written.antt`). What is written
//! goes to a file aside (`AsideFile`), a new one in the same folder. It is flushed to the disk, and then takes the
//! place of the other in one step, a renaming; whatever fails before that, the file aside is removed and what stood
//! there stands. A link is followed: the file that it leads to is replaced, or made where there is none, and the link
//! stays. The access mode of a file that stood there is kept, without set-id bits, and so are its owner and its group
//! where the caller may give them. A file that no one may write, by its mode, is not replaced (`specs/Protected.antt`).
//! A path that is no regular file, as a pipe, has no place that could be taken, and is told as such; so is one whose
//! folder can't be found. What goes to a pipe goes before the text is told, and what goes to standard output behind it.
//!
//! `NewFolder` is a new folder, as `host_folders` asks for one: a folder aside, in which all is made, takes its place
//! in one step, a renaming; whatever fails before that, the folder aside is removed and what stood at the place stands
//! (`specs/Folders.antt`). Nothing that exists is opened, so no link is followed, and no name leads out of the folder.
//!
//! `end_by` ends a job by its reply: its image goes to such a file, its certificate to another or none, and its text is
//! told as a whole. It answers an `Ending`: the status, and what could not be written (`specs/Endings.antt`). Where
//! that is the output file or the new folder, and nothing was told yet, `tell_output` tells it on a line, of the jobs
//! that tell such (`specs/Told.antt`).
//!
//! The model: where each file goes (`Destination`), and what may come to stand where on the way (`specs/Asides.antt`,
//! `specs/Puts.antt`). What always holds, on an honest host: after each call stands at the place of a file what stood
//! there, or all of what was put into it, on the disk; a place that is to be free gets nothing where something stands;
//! and no other path but the names aside is touched. What is told of an image comes once the image is on the disk or
//! has gone through its pipe, and an image whose write failed is told as that; what has failed takes no place, and
//! nothing is made for the place of a file that no one may write.
#![tactic(auto)]

mod aside;
mod ending;
mod folder;
mod output;
mod output_line;
mod settling;
mod target;
mod whole;

pub use aside::{AsideFile, Placing};
pub use ending::{Ending, Unwritten};
pub use folder::{NewFolder, StartError};
pub use output::Output;
pub use output_line::{tell_output, tells_of_output};
pub use settling::{end_by, settle};
pub use target::{Place, Standing, Target, target_of};
