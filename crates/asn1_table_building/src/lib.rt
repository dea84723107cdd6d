//! Values of the types of a table are built: from events in order, exactly where they are the records of a value, or
//! part by part, as an author or a reader of another notation makes them.
#![tactic(auto, using(std::proofs::lemmas::Grind::common_steps))]

mod admitting;
mod building;
mod errors;
mod gathering;
mod pushing;
mod steps;

pub use building::build;
pub use errors::BuildError;
pub use pushing::TapeBuilder;
pub use steps::StepError;
