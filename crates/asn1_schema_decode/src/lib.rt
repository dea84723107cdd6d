//! The traits of decodable types and of decoders, and the laws they keep; readers of messages that follow one another;
//! and the message with which an input begins, by which the calls that read are specified in all encoding rules.
#![tactic(auto)]

pub mod bmp;
pub mod calls;
pub mod characters;
pub mod components;
pub mod constrained;
pub mod decode;
pub mod fixed;
pub mod front;
pub mod integers;
pub mod lent;
pub mod lists;
pub mod making;
pub mod markers;
pub mod message_laws;
pub mod natives;
pub mod pointers;
pub mod scalars;
pub mod sequences;
pub mod signed;
pub mod strings;
pub mod values;
pub mod wide;

pub use calls::go_on;
pub use components::{DecodeComponents, DecodeSequence};
pub use decode::{Decode, Decoder, ReadOctets};
pub use front::{FrontReader, Refusal};
pub use lists::{DecodeList, members_within, most_members};
pub use values::Iter;
