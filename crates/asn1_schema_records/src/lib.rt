//! The plain codec: an encoder that keeps the records of values without encoding them, and a decoder that reads them.
#![tactic(auto)]

pub mod decoder;
pub mod encoder;
mod fitting;
pub mod items;

pub use decoder::RecordDecoder;
pub use encoder::RecordEncoder;
pub use items::{Item, Limits, Sizes, is_extensible};
