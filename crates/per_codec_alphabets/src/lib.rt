//! Effective permitted alphabets of string types, and the codes of their characters in PER (X.691 30.5).
#![tactic(auto)]

mod alphabet;
mod few;
mod octets;
mod runs;
mod single;

pub use alphabet::EffectiveAlphabet;
pub use octets::is_encoded_as_octets;
pub use runs::is_of_octets;
pub use single::CodedRun;
