//! The decoder of the packed encoding rules (X.691), unaligned and aligned, and its open scopes: the preambles of
//! SEQUENCE, SET and groups, the presence bitmaps of extension additions, and the elements that are due.
#![tactic(auto)]

mod additions;
pub mod decoder;
mod frames;
mod members;
mod missing;
pub mod octets;
pub mod options;
mod preamble;

pub use additions::Additions;
pub use decoder::Decoder;
pub use frames::{Enclosing, Ending, Frame, Scopes};
pub use members::{DueMembers, read_members};
pub use octets::StringOctets;
pub use options::DecoderOptions;
pub use preamble::read_preamble;
