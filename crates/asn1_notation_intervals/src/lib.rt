//! Sets of whole numbers as intervals: unions and intersections are exact, and so are the least and the greatest
//! number.
#![tactic(auto, using(std::proofs::lemmas::Grind::common_steps))]

mod intervals;
mod joining;
mod meeting;
mod sets;

pub use intervals::Interval;
pub use sets::NumberSet;
