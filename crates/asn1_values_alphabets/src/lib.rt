//! Permitted alphabets of character strings, the trait of string types with a permitted alphabet, and the errors for
//! characters outside it.
#![tactic(auto)]

mod alphabet;
mod error;
mod static_alphabet;

pub use alphabet::CharacterAlphabet;
pub use error::{
    InvalidBmpString, InvalidGeneralString, InvalidGraphicString, InvalidIA5String,
    InvalidNumericString, InvalidPrintableString, InvalidRestrictedString, InvalidTeletexString,
    InvalidVisibleString, PermittedAlphabetError,
};
pub use static_alphabet::{StaticPermittedAlphabet, string_of_text};
