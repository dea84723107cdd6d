//! The traits of encodable types and of encoders, and the laws they keep.
#![tactic(auto)]

pub mod bmp;
pub mod calls;
pub mod characters;
pub mod components;
pub mod constrained;
pub mod encode;
pub mod fixed;
pub mod integers;
pub mod lent;
pub mod lists;
pub mod markers;
pub mod natives;
pub mod pointers;
pub mod scalars;
pub mod sequences;
pub mod strings;
pub mod wide;

pub use calls::{begin_record, go_on};
pub use components::{EncodeComponents, EncodeSequence};
pub use encode::{Encode, Encoder};
pub use lists::{EncodeList, encode_members};
