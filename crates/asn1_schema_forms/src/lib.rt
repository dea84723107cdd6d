//! The form of an INTEGER between two bounds, worked out once: for types that are known only at run time.
#![tactic(auto)]

mod constraints;
mod number;

pub use number::NumberForm;
