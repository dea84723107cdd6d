//! Errors of encoders and decoders, the greatest length of an encoding, and the encoding rules.
#![tactic(auto)]

ghost use Rattle.std.specs.Prelude.{◌≡◌};
ghost use Rattle.asn1_schema_errors.specs.declared.DecodeError.TheVariants.{OutOfMemory};
ghost use Rattle.asn1_schema_errors.specs.declared.EncodeError.TheVariants.{OutOfMemory as NoRoom};

mod bounds;
mod identifiers;
mod numbers;
mod refusals;

pub use bounds::{MOST_OCTETS, within_limit};
pub use identifiers::identifier_fault;
pub use numbers::{held_number, number_from_octets};
pub use refusals::refusal;
use std::alloc::{AllocError, AllocFailed};
use thiserror::Error;

/// The encoding rules of an encoder or a decoder.
#[derive(Clone, Copy, Debug, PartialEq, Eq)]
pub enum CodecKind {
    /// Packed encoding rules, unaligned (X.691).
    Uper,
    /// Packed encoding rules, aligned (X.691).
    Aper,
    /// Octet encoding rules (X.696).
    Oer,
    /// Canonical octet encoding rules (X.696).
    Coer,
}

/// Why octets are not decoded to a value of the type.
#[derive(Clone, Copy, Debug, PartialEq, Eq, Error)]
pub enum DecodeError {
    /// The input ends early.
    #[error("the input ends early")]
    Incomplete,
    /// In COER and strict PER, octets follow the value in an open type.
    #[error("octets follow the value in an open type")]
    SurplusOctets,
    /// A length is outside a size constraint without an extension marker, or the user-defined type cannot hold it.
    #[error("a length is outside its size constraint")]
    SizeConstraintNotSatisfied,
    /// A number is outside a value constraint without an extension marker, or outside 128 bits under any value
    /// constraint.
    #[error("a number is outside its value constraint")]
    ValueConstraintNotSatisfied,
    /// A character is outside its permitted alphabet, or no character has a code.
    #[error("a character is outside its permitted alphabet")]
    PermittedAlphabet,
    /// Octets are not UTF-8, or a BMPString has an odd number of octets.
    #[error("octets are not a character string")]
    StringConversionFailed,
    /// The enumeration has no such item.
    #[error("the enumeration has no such item")]
    DiscriminantValueNotFound,
    /// The CHOICE has no such alternative.
    #[error("the choice has no such alternative")]
    InvalidTagVariantOnChoice,
    /// A tag number has a leading group of zero bits, or does not fit 32 bits.
    #[error("a tag number is malformed")]
    InvalidTagNumberOnChoice,
    /// A length, a count, an integer or an enumeration value has no octets.
    #[error("a length, count or number has no octets")]
    ZeroLengthOfLength,
    /// A length does not fit 64 bits, or a fragment has no 16K units or more than four.
    #[error("a length is too large")]
    LengthExceedsPlatformWidth,
    /// The user-defined type cannot hold a number.
    #[error("a number is too large for its type")]
    IntegerOverflow,
    /// In COER, a BOOLEAN is neither 0x00 nor 0xFF.
    #[error("a BOOLEAN is malformed")]
    InvalidBool,
    /// A bit string has more than seven unused bits, or unused bits and no octet.
    #[error("the unused bits of a bit string are malformed")]
    InvalidBitString,
    /// An unused bit of a preamble is set.
    #[error("an unused bit of a preamble is set")]
    InvalidPreamble,
    /// A presence bitmap has no octets, or a wrong initial octet.
    #[error("a presence bitmap is malformed")]
    InvalidExtensionHeader,
    /// A required addition is absent in the presence bitmap, or there is no bitmap.
    #[error("a required addition is absent")]
    RequiredExtensionNotPresent,
    /// COER or strict PER does not allow this form of the value: it is not the one that writers produce.
    #[error("the encoding is not canonical")]
    NotValidCanonicalEncoding,
    /// A tag has no class or number. Never returned.
    #[error("a tag has no class or number")]
    MissingTagClassOrValue,
    /// A type without an extension marker has additions. Never returned.
    #[error("the type is not extensible")]
    TypeNotExtensible,
    /// An object identifier is truncated, padded or empty, or an arc does not fit 32 bits.
    #[error("an object identifier is malformed")]
    InvalidObjectIdentifier,
    /// In PER, the one octet of an empty encoding is not zero; in strict PER, any padding bit is not zero.
    #[error("padding bits are not zero")]
    InvalidPadding,
    /// A value has more than 128 nested levels.
    #[error("the value has too many nested levels")]
    ExceedsMaxParseDepth,
    /// An allocation failed.
    #[error("out of memory")]
    OutOfMemory,
    /// An earlier call of the same decoder failed.
    #[error("an earlier call failed")]
    AlreadyFailed,
}

impl From<AllocError> for DecodeError {
    ghost from_gives = { λ _ e. e ≡ OutOfMemory };

    fn from(_refused: AllocError) -> DecodeError {
        DecodeError::OutOfMemory
    }
}

impl<T: Drop> From<AllocFailed<T>> for DecodeError {
    ghost from_gives = { λ _ e. e ≡ OutOfMemory };

    fn from(_refused: AllocFailed<T>) -> DecodeError {
        DecodeError::OutOfMemory
    }
}

/// Why a value is not encoded.
#[derive(Clone, Copy, Debug, PartialEq, Eq, Error)]
pub enum EncodeError {
    /// A number is outside its value constraint.
    #[error("a number is outside its value constraint")]
    ValueConstraintNotSatisfied,
    /// A length is outside its size constraint.
    #[error("a length is outside its size constraint")]
    SizeConstraintNotSatisfied,
    /// In PER, a character is outside its permitted alphabet.
    #[error("a character is outside its permitted alphabet")]
    AlphabetConstraintNotSatisfied,
    /// The encoding has 2^60 octets or more.
    #[error("the encoding is too long")]
    TooLongValue,
    /// A length in bits does not fit 64 bits. Never returned: memory runs out before.
    #[error("a length in bits does not fit 64 bits")]
    LengthExceedsPlatformSize,
    /// A call of an encoder is out of place: nothing that is open takes such a record.
    #[error("the call is out of place")]
    CallOutOfPlace,
    /// An allocation failed.
    #[error("out of memory")]
    OutOfMemory,
    /// An earlier call of the same encoder failed.
    #[error("an earlier call failed")]
    AlreadyFailed,
}

impl From<AllocError> for EncodeError {
    ghost from_gives = { λ _ e. e ≡ NoRoom };

    fn from(_refused: AllocError) -> EncodeError {
        EncodeError::OutOfMemory
    }
}

impl<T: Drop> From<AllocFailed<T>> for EncodeError {
    ghost from_gives = { λ _ e. e ≡ NoRoom };

    fn from(_refused: AllocFailed<T>) -> EncodeError {
        EncodeError::OutOfMemory
    }
}
