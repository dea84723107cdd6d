//! The native integer types, and integers of up to 129 bits in two's complement.
#![tactic(auto)]

mod bytes;
pub mod laws;
mod native;
pub mod octets;
mod wide;

pub use bytes::IntegerBytes;
pub use native::NativeInteger;
pub use wide::Wide;
