//! What is written are octets, and exactly those that a reader without freedoms accepts.

ghost use Rattle.asn1_laws_numbers.specs.OctetLaws.{ReadAreOctets, WrittenAreOctets, WrittenIsReadWithNoFreedom};

/// What is written of a value of a well-formed type (`is_lawful`) are octets, in all rules.
pub fn written_are_octets()
    ensures { WrittenAreOctets }
{}

/// What a reader of OER or COER accepts as a value of a well-formed type (`is_lawful`) are octets.
pub fn read_are_octets()
    ensures { ReadAreOctets }
{}

/// The octets written are exactly those that a reader without freedoms accepts as the normal form of the value.
pub fn written_is_read_with_no_freedom()
    ensures { WrittenIsReadWithNoFreedom }
{}
