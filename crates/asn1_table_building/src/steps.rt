//! Why a step of a builder is refused.
use crate::BuildError;
use asn1_table_names::Part;
use std::alloc::{AllocError, AllocFailed};
use thiserror::Error;

/// Why a step of a builder is refused.
#[derive(Clone, Copy, Debug, PartialEq, Eq, Drop, Error)]
pub enum StepError {
    /// No value, beginning or end of this kind comes next.
    #[error("a step is out of place")]
    OutOfPlace,
    /// The SEQUENCE, SET or CHOICE has no such part.
    #[error("there is no such part")]
    NoSuchPart,
    /// The component was given before.
    #[error("a component is given twice")]
    PartTwice(Part),
    /// The component is missing.
    #[error("a component is missing")]
    PartMissing(Part),
    /// The value is not one of the type.
    #[error("{0}")]
    Refused(BuildError),
    /// Memory ran out.
    #[error("out of memory")]
    OutOfMemory,
}

impl From<AllocError> for StepError {
    fn from(_refused: AllocError) -> Self {
        StepError::OutOfMemory
    }
}

impl<T: Drop> From<AllocFailed<T>> for StepError {
    fn from(_refused: AllocFailed<T>) -> Self {
        StepError::OutOfMemory
    }
}

impl From<BuildError> for StepError {
    fn from(error: BuildError) -> Self {
        StepError::Refused(error)
    }
}
