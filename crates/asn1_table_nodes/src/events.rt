//! Values that a component may have as its default.
use asn1_schema_tags::Chosen;
use asn1_values_bit_strings::BitString;
use asn1_values_identifiers::ObjectIdentifier;
use asn1_values_integers::Integer;

/// A value without parts.
#[derive(Drop)]
pub enum Event {
    /// A value of BOOLEAN (X.680 18).
    Truth(bool),
    /// NULL (X.680 24).
    Nothing,
    /// A number of INTEGER (X.680 19).
    Number(Integer),
    /// An item of ENUMERATED (X.680 20), by its number.
    Item(isize),
    /// The bits of a BIT STRING (X.680 22).
    Bits(BitString),
    /// The octets of an OCTET STRING (X.680 23).
    Octets(Vec<u8>),
    /// The characters of a restricted character string (X.680 41), by their numbers; for a UTF8String its octets. So a
    /// character above 255, which only a BMPString has, cannot be given.
    Text(Vec<u8>),
    /// The arcs of an OBJECT IDENTIFIER (X.680 32).
    Arcs(ObjectIdentifier),
}

/// The value that is meant where a component with DEFAULT is absent (X.680 25).
#[derive(Drop)]
pub enum DefaultValue {
    /// A value without parts.
    Simple(Event),
    /// A SEQUENCE OF (X.680 26), by its elements.
    SequenceOf(Vec<DefaultValue>),
    /// A SET OF (X.680 28), by its elements in any order.
    SetOf(Vec<DefaultValue>),
    /// A CHOICE (X.680 29), by the chosen alternative and its value.
    Choice(Chosen, Box<DefaultValue>),
    /// A SEQUENCE or SET (X.680 25 and 27), by its root components and its additions, present or absent, in the order
    /// of the type. Of a group of additions, its components are the first, and there are no second ones.
    Components(Vec<Option<DefaultValue>>, Vec<Option<DefaultValue>>),
}
