//! The components of SEQUENCE and SET and the alternatives of CHOICE in the notation of X.680, and their tags.
#![tactic(auto, using(std::proofs::lemmas::Grind::common_steps))]

mod distinct;
mod parts;

pub use distinct::{check_sequence, check_set};
pub use parts::{
    Alternatives, Part, Parts, TaggedPart, alternatives_of, ordered, parts_of, tags_of_part,
};
