//! Whether a type of one table is a newer version of a type of another (X.680 52).
#![tactic(auto, using(std::proofs::lemmas::Grind::common_steps))]

mod alternatives;
mod components;
mod constraints;
mod differences;
mod extending;
mod pairs;

pub use differences::{Difference, ExtendingError};
pub use extending::check_extends;
