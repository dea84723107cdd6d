//! Errors about characters, codes and lists of characters.
ghost use Rattle.std.specs.Prelude.{◌≡◌};

use std::alloc::AllocError;
use thiserror::Error;

/// A character that no BMPString may hold (X.680 41).
#[derive(Clone, Copy, Debug, PartialEq, Eq, Hash, Error)]
#[error("character {character} is not permitted in a BMPString")]
pub struct InvalidBmpString {
    /// The value of the first character that is not permitted.
    pub character: u32,
}

impl From<u32> for InvalidBmpString {
    ghost from_gives = { λ character e. e.character ≡ character };

    fn from(character: u32) -> InvalidBmpString {
        InvalidBmpString { character }
    }
}

/// A character that no GeneralString may hold (X.680 41).
#[derive(Clone, Copy, Debug, PartialEq, Eq, Hash, Error)]
#[error("character {character} is not permitted in a GeneralString")]
pub struct InvalidGeneralString {
    /// The value of the first character that is not permitted.
    pub character: u32,
}

impl From<u32> for InvalidGeneralString {
    ghost from_gives = { λ character e. e.character ≡ character };

    fn from(character: u32) -> InvalidGeneralString {
        InvalidGeneralString { character }
    }
}

/// A character that no GraphicString may hold (X.680 41).
#[derive(Clone, Copy, Debug, PartialEq, Eq, Hash, Error)]
#[error("character {character} is not permitted in a GraphicString")]
pub struct InvalidGraphicString {
    /// The value of the first character that is not permitted.
    pub character: u32,
}

impl From<u32> for InvalidGraphicString {
    ghost from_gives = { λ character e. e.character ≡ character };

    fn from(character: u32) -> InvalidGraphicString {
        InvalidGraphicString { character }
    }
}

/// A character that no IA5String may hold (X.680 41).
#[derive(Clone, Copy, Debug, PartialEq, Eq, Hash, Error)]
#[error("character {character} is not permitted in an IA5String")]
pub struct InvalidIA5String {
    /// The value of the first character that is not permitted.
    pub character: u32,
}

impl From<u32> for InvalidIA5String {
    ghost from_gives = { λ character e. e.character ≡ character };

    fn from(character: u32) -> InvalidIA5String {
        InvalidIA5String { character }
    }
}

/// A character that no TeletexString may hold (X.680 41).
#[derive(Clone, Copy, Debug, PartialEq, Eq, Hash, Error)]
#[error("character {character} is not permitted in a TeletexString")]
pub struct InvalidTeletexString {
    /// The value of the first character that is not permitted.
    pub character: u32,
}

impl From<u32> for InvalidTeletexString {
    ghost from_gives = { λ character e. e.character ≡ character };

    fn from(character: u32) -> InvalidTeletexString {
        InvalidTeletexString { character }
    }
}

/// A character that no VisibleString may hold (X.680 41).
#[derive(Clone, Copy, Debug, PartialEq, Eq, Hash, Error)]
#[error("character {character} is not permitted in a VisibleString")]
pub struct InvalidVisibleString {
    /// The value of the first character that is not permitted.
    pub character: u32,
}

impl From<u32> for InvalidVisibleString {
    ghost from_gives = { λ character e. e.character ≡ character };

    fn from(character: u32) -> InvalidVisibleString {
        InvalidVisibleString { character }
    }
}

/// A character that no NumericString may hold (X.680 41).
#[derive(Clone, Copy, Debug, PartialEq, Eq, Hash, Error)]
#[error("character {character} is not permitted in a NumericString")]
pub struct InvalidNumericString {
    /// The value of the first character that is not permitted.
    pub character: u32,
}

impl From<u32> for InvalidNumericString {
    ghost from_gives = { λ character e. e.character ≡ character };

    fn from(character: u32) -> InvalidNumericString {
        InvalidNumericString { character }
    }
}

/// A character that no PrintableString may hold (X.680 41).
#[derive(Clone, Copy, Debug, PartialEq, Eq, Hash, Error)]
#[error("character {character} is not permitted in a PrintableString")]
pub struct InvalidPrintableString {
    /// The value of the first character that is not permitted.
    pub character: u32,
}

impl From<u32> for InvalidPrintableString {
    ghost from_gives = { λ character e. e.character ≡ character };

    fn from(character: u32) -> InvalidPrintableString {
        InvalidPrintableString { character }
    }
}

/// A character outside the permitted alphabet of a string's type (X.680 41).
#[derive(Clone, Copy, Debug, PartialEq, Eq, Hash, Error)]
pub enum InvalidRestrictedString {
    /// In a BMPString.
    #[error(transparent)]
    InvalidBmpString(#[from] InvalidBmpString),
    /// In a GeneralString.
    #[error(transparent)]
    InvalidGeneralString(#[from] InvalidGeneralString),
    /// In a GraphicString.
    #[error(transparent)]
    InvalidGraphicString(#[from] InvalidGraphicString),
    /// In an IA5String.
    #[error(transparent)]
    InvalidIA5String(#[from] InvalidIA5String),
    /// In a NumericString.
    #[error(transparent)]
    InvalidNumericString(#[from] InvalidNumericString),
    /// In a PrintableString.
    #[error(transparent)]
    InvalidPrintableString(#[from] InvalidPrintableString),
    /// In a TeletexString.
    #[error(transparent)]
    InvalidTeletexString(#[from] InvalidTeletexString),
    /// In a VisibleString.
    #[error(transparent)]
    InvalidVisibleString(#[from] InvalidVisibleString),
}

/// Why characters or codes are not accepted.
#[derive(Debug, Drop, Error)]
pub enum PermittedAlphabetError {
    /// Any other cause.
    #[error("the characters are not permitted")]
    Other,
    /// A list of characters that does not ascend strictly, or octets that are not whole characters.
    #[error("the characters are not well formed")]
    InvalidData,
    /// A code that no permitted character has.
    #[error("no permitted character has the code {index}")]
    IndexNotFound {
        /// The code.
        index: u32,
    },
    /// A character that is not permitted.
    #[error("character {character} is not permitted")]
    CharacterNotFound {
        /// The character's value.
        character: u32,
    },
    /// A character outside the permitted alphabet of the string's type.
    #[error(transparent)]
    InvalidRestrictedString(#[from] InvalidRestrictedString),
    /// An allocation failed.
    #[error(transparent)]
    Memory(#[from(alloc)] AllocError),
}
