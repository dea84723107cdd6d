//! The decoder of the octet encoding rules (X.696), basic and canonical, and what is open in it: the preambles of
//! sequences, sets and groups, the bitmaps of additions, and the elements still to come.
#![tactic(auto)]

mod additions;
mod choices;
pub mod decoder;
mod endings;
mod frames;
mod members;
mod missing;
pub mod options;
mod preamble;
mod scopes;

pub use decoder::Decoder;
pub use options::DecoderOptions;
