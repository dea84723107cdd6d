//! Why no tape is built.
use thiserror::Error;

/// Why no tape is built.
#[derive(Clone, Copy, Debug, PartialEq, Eq, Drop, Error)]
pub enum BuildError {
    /// The event at this index is not the next one of a value of the type. An index past the last event says that the
    /// value has not ended.
    #[error("event {index} is out of place")]
    OutOfPlace {
        /// The index of the event, from 0.
        index: usize,
    },
    /// The value of the event at this index is outside a constraint of its type.
    #[error("the value of event {index} is outside a constraint")]
    OutsideConstraint {
        /// The index of the event, from 0.
        index: usize,
    },
    /// Memory ran out.
    #[error("out of memory")]
    OutOfMemory,
}
