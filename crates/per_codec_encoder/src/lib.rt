//! The encoder of PER (X.691), unaligned and aligned, and the open parts of a value: sequences, sets, extension
//! addition groups, SEQUENCE OF, SET OF, additions and alternatives. `step_laws` states the laws of its calls.
#![tactic(auto)]

mod additions;
mod alternatives;
mod bags;
mod encoder;
mod ends;
mod frame;
mod frames;
mod members;
mod options;
mod sequences;
pub mod step_laws;

pub use encoder::Encoder;
pub use options::EncoderOptions;
