//! Certificates: texts that show that a plan brings each part of a layout home, and that no plan does so in fewer
//! moves.
//!
//! A certificate tells a layout, parts that are misplaced in it, rings of it, a bound, and the moves of a plan. It is
//! good where the parts are distinct and misplaced, the rings have no part in common, the plan can be made and leads to
//! the target, and the bound is the number of the misplaced parts and the rings, and also the number of the moves. Each
//! misplaced part has to move, and each ring costs one move more: so no plan to the target is shorter than the bound of
//! a good certificate, whoever wrote it.
//!
//! The text is a function of what is told: lines of ASCII, each ended by a line feed, with decimal numbers below 2^32
//! that have no zero in front, and one space before each. `print` writes it, `read` answers exactly the texts, and
//! `verify` decides whether a certificate is good for a layout, or names the first fault. It follows the layout's table
//! from place to part and a table of the parts met so far, and never searches a list.
#![tactic(auto)]

mod board;
mod certificate;
mod laws;
mod parts;
mod printing;
mod reading;
mod sections;
mod seen;
mod verifying;
mod words;

pub use certificate::{Cert, CertError, CertFault};
pub use laws::{each_text_has_one_certificate, the_certificate_of_a_shortest_plan_is_good};
pub use parts::Parts;
pub use printing::print;
pub use reading::read;
pub use verifying::verify;
