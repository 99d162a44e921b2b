//! Containers: files in the 2IMG (2MG) file format, as emulators write it, that have a header in front of a disk image,
//! and often a comment behind it.
//!
//! The model is the list of a file's bytes. A file is a container exactly where its header says so (`IsContainer` of
//! `specs/Container.antt`, over the header of `specs/Format.antt`); one that is none has one fault
//! (`specs/Faults.antt`). What is wrapped is one list of bytes (`specs/Wrapped.antt`). The image in a container is its
//! payload; all other bytes are its shell (`Shell`), which is carried and never looked at.
//!
//! What always holds: a file is one container at most (`a_file_is_one_container`), and one with a fault is none, and
//! has no other fault (`a_file_has_one_fault`); a container is what stands in front of its payload, the payload, and
//! what stands behind it (`a_container_is_its_parts`); another payload of the same length may be put into it
//! (`a_payload_can_be_put`); and what is wrapped is unwrapped (`what_is_wrapped_is_unwrapped`).
#![tactic(auto)]

mod container;
mod error;
mod header;
mod law;
mod numbers;
mod order;
mod reading;
mod shell;
mod wrapping;

pub use container::Container;
pub use error::{ContainerFault, WrapError};
pub use header::MOST_BYTES;
pub use law::{
    a_container_is_its_parts, a_file_has_one_fault, a_file_is_one_container, a_payload_can_be_put,
    what_is_wrapped_is_unwrapped,
};
pub use reading::{begins_like_container, container_of};
pub use shell::{Shell, keep_payload, take_shell};
pub use wrapping::wrap;
