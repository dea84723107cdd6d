//! Extension additions in PER (X.691 19.7 to 19.9): how they are stored until their sequence or set ends, and how
//! they are then written.
#![tactic(auto)]

mod additions;
mod slots;

pub use additions::{push_additions, push_normally_few};
pub use slots::Slots;
