//! What PER and OER see of constraints, as rules of plain data: bounds of numbers and of sizes, and permitted alphabets
//! (X.680 50 to 52, X.691 10.3, X.696 8.2).
#![tactic(auto, using(std::proofs::lemmas::Grind::common_steps))]

mod alphabets;
mod bounds;
mod constraints;

pub use alphabets::{AlphabetError, characters};
pub use bounds::{BoundsError, Limits, number_limits, size_limits};
pub use constraints::{ConstraintError, ConstraintTerm, Visible, effective};
