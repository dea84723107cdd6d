//! The errors of this crate.

use thiserror::Error;

/// Why octets do not encode a number of the target type.
#[derive(Clone, Copy, Debug, PartialEq, Eq, Hash, Drop, Error)]
pub enum IntegerError {
    /// A number has at least one octet (X.690 8.3.1).
    #[error("no octets")]
    Empty,
    /// The number is outside the range of its type.
    #[error("the number is outside the range of its type")]
    Overflow,
    /// An allocation failed.
    #[error("out of memory")]
    Memory,
}
