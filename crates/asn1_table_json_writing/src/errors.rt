//! Why no JSON is written.
use asn1_table_names::WalkError;
use std::alloc::AllocError;
use thiserror::Error;

/// Why no JSON is written.
#[derive(Clone, Copy, Debug, PartialEq, Eq, Drop, Error)]
pub enum WriteError {
    /// The event at this index of the tape is not the next one of a value of the type, or the tape ends there.
    #[error("event {index} is out of place")]
    OutOfPlace {
        /// The index of the event, from 0.
        index: usize,
    },
    /// A BMPString has a surrogate code unit (U+D800 to U+DFFF) that is not one of a pair.
    #[error("a BMPString is not Unicode")]
    NotUnicode,
    /// An INTEGER has more than 2,048 octets.
    #[error("a number of more than 2048 octets is not written in JSON")]
    LongNumber,
    /// Memory ran out.
    #[error("out of memory")]
    OutOfMemory,
}

impl From<WalkError> for WriteError {
    fn from(error: WalkError) -> Self {
        match error {
            WalkError::OutOfPlace { index } => WriteError::OutOfPlace { index },
            WalkError::OutOfMemory => WriteError::OutOfMemory,
        }
    }
}

impl From<AllocError> for WriteError {
    fn from(_refused: AllocError) -> Self {
        WriteError::OutOfMemory
    }
}
