//! The values of the character string types (X.680 41): strings with one octet per character; the BMPString, with two;
//! and octets as the text of a UTF8String (ISO/IEC 10646 annex D).
#![tactic(auto)]

pub mod bmp;
pub mod characters;
pub mod kinds;
pub mod restricted;
mod text;
pub mod utf8_texts;
pub mod wide_characters;

pub use bmp::BmpString;
pub use characters::Characters;
pub use kinds::{
    CharacterKind, General, Graphic, Ia5, Numeric, Printable, Teletex, TextKind, Visible,
};
pub use restricted::RestrictedString;
pub use wide_characters::BmpCharacters;

/// A NumericString: digits and the space (X.680 41.2).
pub type NumericString = RestrictedString<Numeric>;

/// A PrintableString: Latin letters, digits, the space and `'()+,-./:=?` (X.680 41.4).
pub type PrintableString = RestrictedString<Printable>;

/// A VisibleString: the printing characters of ISO 646, and the space (X.680 41.1).
pub type VisibleString = RestrictedString<Visible>;

/// An IA5String: the characters of ISO 646 (X.680 41.1).
pub type Ia5String = RestrictedString<Ia5>;

/// A GeneralString, represented by its octets (X.680 41.1).
pub type GeneralString = RestrictedString<General>;

/// A GraphicString, represented by its octets (X.680 41.1).
pub type GraphicString = RestrictedString<Graphic>;

/// A TeletexString, represented by its octets (X.680 41.1).
pub type TeletexString = RestrictedString<Teletex>;
