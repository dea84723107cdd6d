//! Where a message of a type of a table is refused, and the first octet at which two messages differ.
#![tactic(auto, using(std::proofs::lemmas::Grind::common_steps))]

mod differing;
mod locating;
mod standing;
mod trail;
mod watched;

pub use differing::first_difference;
pub use locating::{Located, Refused, locate_oer, locate_per};
