//! Why no value is read from JSON.
use asn1_table_building::{BuildError, StepError};
use hex::FromHexError;
use std::alloc::{AllocError, AllocFailed};
use std::fmt;
use thiserror::Error;

/// Why no value is read, and where.
#[derive(Debug, Drop)]
pub struct JsonError {
    /// What is wrong.
    pub kind: JsonErrorKind,
    /// The components, alternatives and elements that lead to the value, as in `a.b[2].c`; empty for the whole value,
    /// and where memory ran out.
    pub path: String,
    /// The octet of the text at which the reader stood, from 0.
    pub offset: usize,
}

impl fmt::Display for JsonError {
    fn fmt<W: fmt::Write>(&self, f: &mut fmt::Formatter<W>) -> fmt::Result {
        let kind = self.kind;
        let offset = self.offset;
        if self.path.is_empty() {
            return write!(f, "octet {offset}: {kind}");
        }
        let path = self.path.as_str();
        write!(f, "octet {offset}: {path}: {kind}")
    }
}

impl std::error::Error for JsonError {}

/// What is wrong with a JSON text or its value.
#[derive(Clone, Copy, Debug, PartialEq, Eq, Drop, Error)]
pub enum JsonErrorKind {
    /// The text is not JSON, or ends early, or something follows the value.
    #[error("the text is not JSON")]
    NotJson,
    /// Arrays and objects nest deeper than 128 levels.
    #[error("the text nests too deep")]
    TooDeep,
    /// The type has another form in JSON.
    #[error("{0} is expected")]
    Expected(JsonForm),
    /// The type has no component or alternative of this name.
    #[error("there is no such component or alternative")]
    UnknownMember,
    /// A name comes twice.
    #[error("a component is given twice")]
    RepeatedMember,
    /// A component that is neither OPTIONAL nor has a default is missing.
    #[error("a component is missing")]
    MissingMember,
    /// A CHOICE has no alternative or several.
    #[error("one alternative is expected")]
    NotOneAlternative,
    /// A number has a fraction or an exponent.
    #[error("a whole number is expected, without an exponent")]
    NotWhole,
    /// A number has more than 4,932 digits.
    #[error("a number has more than 4932 digits")]
    LongNumber,
    /// The ENUMERATED has no item of this name.
    #[error("there is no such item")]
    UnknownItem,
    /// A string is not of pairs of hexadecimal digits.
    #[error("pairs of hexadecimal digits are expected")]
    NotHexadecimal,
    /// The digits of a BIT STRING are not those of its length, or bits after its end are not zero.
    #[error("the digits do not fit the length in bits")]
    WrongLength,
    /// A string is not the arcs of an OBJECT IDENTIFIER, separated by dots.
    #[error("an object identifier is expected")]
    NotIdentifier,
    /// The type of the string does not have one of the characters.
    #[error("a character is not permitted")]
    CharacterNotPermitted,
    /// The value is outside a constraint of its type.
    #[error("the value is outside a constraint")]
    OutsideConstraint,
    /// The value is not one of its type for another reason, as its depth.
    #[error("the value is not one of the type")]
    NotOfType,
    /// Memory ran out.
    #[error("out of memory")]
    OutOfMemory,
}

/// The forms of values in JSON.
#[derive(Clone, Copy, Debug, PartialEq, Eq, Drop, Error)]
pub enum JsonForm {
    /// `true` or `false`.
    #[error("true or false")]
    Boolean,
    /// `null`.
    #[error("null")]
    Null,
    /// A number.
    #[error("a number")]
    Number,
    /// A string.
    #[error("a string")]
    String,
    /// An array.
    #[error("an array")]
    Array,
    /// An object.
    #[error("an object")]
    Object,
    /// A string of hexadecimal digits, or an object of `value` and `length`.
    #[error("a string, or an object of value and length")]
    Bits,
}

impl From<AllocError> for JsonErrorKind {
    fn from(_refused: AllocError) -> Self {
        JsonErrorKind::OutOfMemory
    }
}

impl<T: Drop> From<AllocFailed<T>> for JsonErrorKind {
    fn from(_refused: AllocFailed<T>) -> Self {
        JsonErrorKind::OutOfMemory
    }
}

impl From<FromHexError> for JsonErrorKind {
    fn from(error: FromHexError) -> Self {
        match error {
            FromHexError::OutOfMemory => JsonErrorKind::OutOfMemory,
            _ => JsonErrorKind::NotHexadecimal,
        }
    }
}

impl From<StepError> for JsonErrorKind {
    fn from(error: StepError) -> Self {
        match error {
            StepError::PartTwice(_) => JsonErrorKind::RepeatedMember,
            StepError::PartMissing(_) => JsonErrorKind::MissingMember,
            StepError::OutOfMemory | StepError::Refused(BuildError::OutOfMemory) => {
                JsonErrorKind::OutOfMemory
            }
            _ => JsonErrorKind::NotOfType,
        }
    }
}
