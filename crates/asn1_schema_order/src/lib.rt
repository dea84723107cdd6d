//! The ascending order of encodings, in which the elements of a SET OF are encoded (X.691 22 and X.696 19), and
//! encodings in shared memory.
#![tactic(auto)]

mod encodings;

pub use encodings::{Encodings, Entry};
