//! Commands of the workshop, from words to bytes.
//!
//! A job is taken apart once, by what it asks. `reply_to` turns the bytes of an image into one `Reply`: a look is that
//! of `shop_reads`, a change that of `shop_changes`, a conversion that of `shop_replies`, `identify` that of
//! `image_readings`, and a new volume is made by `create_reply` (`specs/CreateReply.antt`); `change_work` makes the
//! work of a change, or refuses its words. Where the order or the file system that is needed is left to the image and
//! not settled, the job is refused with `Unknown`. `run_job` reads the bytes, writes the text of the reply once and
//! hands its image to the output file. Of a container the payload is read, and `reply_to_payload` hands out the one
//! that a change makes in the shell of the old one. On the device that has the volume, `read_job_on_device` tells of a
//! look, `run_job_in_place` does a change, and `extract_on_device` puts the files into a folder.
//!
//! `job_of_words` is the job that words ask for, or tells why there is none, and `run_command` is `job_of_words`
//! followed by `run_job`. The program runs neither: it reads words by `read_words` and `Asked::job` of `shop_words`,
//! whose faults `read_fault` and `misfit_fault` of `shop_help` say in words, tells these by `tell_words_fault`, and
//! settles the job by its image before it is done.
//!
//! The model: `specs/Answer.antt` says which reply comes, by the job and the bytes, and what words are answered;
//! `specs/OnDevice.antt` says it of a device.
//!
//! What always holds: one reply is told, to the last byte of its text or to a front of it, and an image is handed out
//! once its text is told; a job in place reads no bytes; and what is read beyond the image is the one file or image
//! that the job names beside it.
#![tactic(auto)]

mod beside;
mod command;
mod creating;
mod extracting;
mod job;
mod law;
mod on_device;
mod telling;
mod work;

pub use command::{job_of_words, run_command, tell_words_fault};
pub use creating::create_reply;
pub use extracting::{NotExtracted, extract_on_device};
pub use job::{is_protected, reply_to, reply_to_payload, run_job, unread_reply};
pub use law::a_changed_container_is_one;
pub use on_device::{read_job_on_device, run_job_in_place};
pub use work::change_work;
