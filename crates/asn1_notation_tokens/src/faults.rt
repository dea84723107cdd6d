//! Why a text has no lexical items.
use thiserror::Error;

/// What is wrong with a lexical item (X.680 12).
#[derive(Clone, Copy, Debug, PartialEq, Eq, Hash, Error)]
pub enum LexicalFault {
    /// No lexical item begins with this character.
    #[error("this character begins no lexical item")]
    UnexpectedCharacter,
    /// A name ends with a hyphen (X.680 12.2, 12.3).
    #[error("a name ends with a hyphen")]
    BadName,
    /// `&` is not followed by a letter (X.681 7).
    #[error("a letter is missing after `&`")]
    BadFieldName,
    /// A number has more than one digit, the first of them 0 (X.680 12.8).
    #[error("a number has a leading zero")]
    LeadingZero,
    /// A number is above 2^127 - 1.
    #[error("a number is above 2^127 - 1")]
    NumberTooLarge,
    /// A comment that begins with `/*` does not end (X.680 12.6).
    #[error("a comment does not end")]
    UnterminatedComment,
    /// A string does not end (X.680 12.10, 12.12, 12.14).
    #[error("a string does not end")]
    UnterminatedString,
    /// A string in apostrophes is not followed by B or H (X.680 12.10, 12.12).
    #[error("B or H is missing after a string in apostrophes")]
    MissingBase,
    /// A string in apostrophes has a character that is no digit of its base (X.680 12.10, 12.12).
    #[error("a string in apostrophes has a wrong digit")]
    BadDigit,
    /// Memory ran out.
    #[error("out of memory")]
    OutOfMemory,
}

/// Why a text has no lexical items, and where.
#[derive(Clone, Copy, Debug, PartialEq, Eq, Hash, Error)]
#[error("{fault}")]
pub struct LexicalError {
    /// The index of the octet at which the lexical item or the comment begins.
    pub offset: usize,
    /// What is wrong with it.
    pub fault: LexicalFault,
}
