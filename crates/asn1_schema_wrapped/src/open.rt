//! A value of any type that an open type may contain.
use crate::UniversalString;
use crate::instances::InstanceOf;
use asn1_values_bit_strings::BitString;
use asn1_values_identifiers::ObjectIdentifier;
use asn1_values_integers::Integer;
use asn1_values_octets::OctetString;
use asn1_values_strings::VisibleString;

/// A value of an open type (X.681 14), by its type. It has no encoding itself.
#[derive(Clone, Debug, Drop, PartialEq, Eq)]
pub enum Open {
    /// BIT STRING.
    BitString(BitString),
    /// BOOLEAN.
    Bool(bool),
    /// INTEGER.
    Integer(Integer),
    /// NULL.
    Null,
    /// OBJECT IDENTIFIER.
    ObjectIdentifier(ObjectIdentifier),
    /// OCTET STRING.
    OctetString(OctetString),
    /// UniversalString.
    UniversalString(UniversalString),
    /// VisibleString.
    VisibleString(VisibleString),
    /// A value with the identifier of its type.
    InstanceOf(Box<InstanceOf<Open>>),
}
