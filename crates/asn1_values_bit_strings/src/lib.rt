//! Bit strings: `BitString` of any length, on the heap, and `FixedBitString` of a fixed length.
#![tactic(auto)]

mod bit_string;
mod fixed_bit_string;
mod traits;

pub use bit_string::BitString;
pub use fixed_bit_string::FixedBitString;
