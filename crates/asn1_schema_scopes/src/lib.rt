//! The scopes that are open in a codec: those of a value that has begun and has not ended.
#![tactic(auto)]

mod stack;

pub use stack::Stack;
