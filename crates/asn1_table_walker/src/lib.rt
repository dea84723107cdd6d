//! Reads a value of any type of a table onto a tape: the records of its normal form, one after another.
#![tactic(auto, using(std::proofs::lemmas::Grind::common_steps))]

mod choices;
mod frames;
mod members;
mod noting;
mod opening;
mod reading;
mod sequences;

pub use reading::read_onto;
