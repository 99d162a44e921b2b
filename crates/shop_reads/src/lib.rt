//! What is told of a volume that is only looked at, on any device that has its units: its listing, its check, a map of
//! its places, a file of it, the plan that brings it into order, and whether a certificate shows that no plan is
//! shorter.
//!
//! `look_on_device` answers a `Look` by one `Reply` of `shop_replies`; the words may reserve places, and
//! `look_at_volume` is told them. It has the format of the volume made (`format_of` of `shop_volumes`), and
//! `look_reply` works on any format whose volumes are told of (`ShownFormat`). `image_look` looks at the volume of an
//! image in memory, which is on a device like any other. What a look reads beside the volume is an `Extra`: a file, or
//! another image in its order.
//!
//! The model: which reply comes, by the state of the device, is a relation for each look (`CatalogReply`,
//! `EntriesReply`, `ReadReply`, `CheckReply` with `CheckText` and `FaultLines`, `BodiesReply`, `MapReply` with
//! `MapStates` and `MapText`, `PlanReply`, `PlanWords` with `Steps`, and `VerifyReply`, all in `specs/`), and
//! `specs/Look.antt` is all of them, over what a format is to who is told of one. `specs/GoingOn.antt` says which looks
//! go on where a unit can't be read, and what that does to a device, and `specs/Unreserved.antt` what a format is where
//! nothing is reserved. What is told of an image is told of the device of its units (`specs/ImageLook.antt`), and
//! `specs/DosCatalogReply.antt` says the listing of a DOS 3.3 disk in its format's own words. Which places words
//! reserve, why a volume is not opened and which replies tell that the device failed says `shop_volumes`.
//!
//! What always holds: each reply says what the units of the device are, each refusal has its cause in them or in the
//! words, and the device is only read.
#![tactic(auto)]

mod bodies;
mod check;
mod check_text;
mod compare;
mod entries;
mod extra;
mod facts;
mod fault_files;
mod known;
mod listing;
mod looking;
mod looking_at_image;
mod map;
mod map_law;
mod map_lines;
mod map_states;
mod naming;
mod place_state;
mod plan;
mod plan_words;
mod reading;
mod steps;
mod verify;
mod wanted_forms;
mod wants;

pub use bodies::bodies_reply;
pub use check::check_reply;
pub use compare::{compare_beside, compare_reply};
pub use entries::entries_reply;
pub use extra::Extra;
pub use known::{FactsError, Known, known_of};
pub use listing::{ShownFormat, listing_reply};
pub use looking::{look_at_volume, look_on_device, look_reply};
pub use looking_at_image::image_look;
pub use map::map_reply;
pub use map_law::a_volume_has_one_map;
pub use map_lines::map_text;
pub use naming::file_name;
pub use place_state::PlaceState;
pub use plan::plan_reply;
pub use plan_words::plan_words_reply;
pub use reading::read_reply;
pub use verify::{MOST_CERTIFICATE, verify_reply};
