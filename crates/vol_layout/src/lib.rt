//! Layouts of parts over places, the moves that change them, and how few moves can put each part
//! where it belongs; and places that are kept for the system.
//!
//! The parts have the numbers 0, 1, 2, .. and stand at distinct places. A move takes one part to a
//! place where none stands. The target is the layout in which each part stands at the place of its
//! own number; a part that does not is misplaced. A ring is a list of at least two parts of which
//! each stands at the place of the next, and the last at that of the first. The deficit of a layout
//! is the number of its misplaced parts plus the number of its rings: no list of moves reaches the
//! target in fewer.
//!
//! The model of a `Layout` is the list of the places by part and the number of places. Its
//! invariant is that the places are distinct and exist, and that a table beside the list has the
//! part at each place, so that a look-up either way takes one step.
//!
//! **Places that are kept.** No file is put to a place that its owner keeps for the system. The model of a `Reserved`
//! is a table (`specs/Reserved.antt`): for each place up to the last reserved one, whether it is reserved. A list of
//! places is a text: words between commas, each the track and the sector of a place or a block. Which text names which
//! places is said by the words that are written for them, so each place has one word and nothing in the definition
//! reads.
#![tactic(auto)]

mod form;
mod layout;
mod lower_bound;
mod moves;
mod place_word;
mod reserve_error;
mod reserved;
mod table;
mod words;

pub use form::PlaceForm;
pub use layout::{Layout, LayoutError};
pub use lower_bound::{
    deficit_falls_slowly, each_layout_has_a_deficit, no_plan_beats_a_certificate,
    no_plan_is_shorter, the_rest_of_a_shortest_plan,
};
pub use moves::{Move, MoveError};
pub use place_word::PlaceWord;
pub use reserve_error::ReserveError;
pub use reserved::Reserved;
