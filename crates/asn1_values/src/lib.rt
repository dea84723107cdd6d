//! The values of ASN.1: bits, whole numbers, octets, object identifiers, character strings, and lists of fields as
//! bits.
//!
//! This crate re-exports the items of the packages whose names begin with its own.
#![tactic(auto)]

pub use asn1_values_alphabets::{
    CharacterAlphabet, InvalidBmpString, InvalidGeneralString, InvalidGraphicString,
    InvalidIA5String, InvalidNumericString, InvalidPrintableString, InvalidRestrictedString,
    InvalidTeletexString, InvalidVisibleString, PermittedAlphabetError, StaticPermittedAlphabet,
};
pub use asn1_values_bit_strings::{BitString, FixedBitString};
pub use asn1_values_bits::{BitAppender, BitBuffer, BitReader, BitStr, bits};
pub use asn1_values_fields::{
    FieldBits, FieldFault, FieldFaultKind, FieldShape, FieldValue, read_fields, write_fields,
    written_fields_are_read,
};
pub use asn1_values_identifiers::{
    IdentifierError, ObjectIdentifier, Oid, oid_from_octets, oid_octets,
};
pub use asn1_values_integers::{
    Between, ConstrainedInteger, Ends, Integer, IntegerError, IntegerType, RangedInteger,
    TryFromIntegerError,
};
pub use asn1_values_natives::{IntegerBytes, NativeInteger, Wide};
pub use asn1_values_octets::{FixedOctetString, OctetString, WrongLength};
pub use asn1_values_strings::{
    BmpCharacters, BmpString, CharacterKind, Characters, General, GeneralString, Graphic,
    GraphicString, Ia5, Ia5String, Numeric, NumericString, Printable, PrintableString,
    RestrictedString, Teletex, TeletexString, TextKind, Visible, VisibleString,
};
