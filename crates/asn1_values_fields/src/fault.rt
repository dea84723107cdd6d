//! Which field is wrong, and why.
use thiserror::Error;

/// Why a field is wrong.
#[derive(Debug, Clone, Copy, PartialEq, Eq, Hash, Error)]
pub enum FieldFaultKind {
    /// A number is 2^width or more, a width is over 128, or a character is outside its alphabet.
    #[error("the value does not fit")]
    DoesNotFit,
    /// Fewer bits are left than the field takes.
    #[error("too few bits are left")]
    Short,
    /// Octets are not the shortest encoding of an integer.
    #[error("the encoding of the integer is not the shortest")]
    NotShortest,
    /// No character has the code.
    #[error("no character has the code")]
    NoCharacter,
    /// An allocation failed.
    #[error("out of memory")]
    Memory,
}

/// The index of the first wrong field of a list, and why it is wrong.
#[derive(Debug, Clone, Copy, PartialEq, Eq, Hash, Error)]
#[error("field {field}: {kind}")]
pub struct FieldFault {
    /// The index of the field in the list, counted from 0.
    pub field: usize,
    /// Why it is wrong.
    pub kind: FieldFaultKind,
}
