//! How BIT STRING, OCTET STRING, UTF8String and OBJECT IDENTIFIER are decoded (X.680 22, 23, 41 and 32).
ghost use Rattle.std.specs.Prelude.{◌≡◌, IfOk, IfErr};

use crate::decode::{Decode, Decoder, ReadOctets};
use asn1_schema_constraints::{Bounded, Constraints};
use asn1_schema_errors::DecodeError;
use asn1_schema_tags::Tag;
use asn1_values_bit_strings::BitString;
use asn1_values_identifiers::ObjectIdentifier;
use asn1_values_octets::OctetString;
use std::alloc::Global;

impl Decode for BitString {
    fn decode_with_tag_and_constraints<D: Decoder>(
        alloc: Global,
        decoder: &mut D,
        tag: Tag,
        constraints: &Constraints,
    ) -> Result<Self, DecodeError> {
        let value = decoder.decode_bit_string(alloc, tag, constraints, Bounded::None)?;
        Ok(value)
    }
}

impl Decode for OctetString {
    #[inline(always)]
    fn decode_with_tag_and_constraints<D: Decoder>(
        alloc: Global,
        decoder: &mut D,
        tag: Tag,
        constraints: &Constraints,
    ) -> Result<Self, DecodeError> {
        let value = decoder.decode_octet_string(alloc, tag, constraints, Bounded::None)?;
        match octet_string(alloc, value) {
            Ok(string) => Ok(string),
            Err(error) => Err(decoder.refuse(error)),
        }
    }
}

impl Decode for String {
    fn decode_with_tag_and_constraints<D: Decoder>(
        alloc: Global,
        decoder: &mut D,
        tag: Tag,
        constraints: &Constraints,
    ) -> Result<Self, DecodeError> {
        let value = decoder.decode_utf8_string(alloc, tag, constraints)?;
        Ok(value)
    }
}

impl Decode for ObjectIdentifier {
    fn decode_with_tag_and_constraints<D: Decoder>(
        alloc: Global,
        decoder: &mut D,
        tag: Tag,
        _constraints: &Constraints,
    ) -> Result<Self, DecodeError> {
        let value = decoder.decode_object_identifier(alloc, tag)?;
        Ok(value)
    }
}

// The decoded octets. Few ones are copied into the value, of others only borrowed ones are copied.
fn octet_string<O: ReadOctets>(alloc: Global, octets: O) -> Result<OctetString, DecodeError>
    ensures value { IfOk result (λ s. s ≡ O.items octets) }
    ensures refused { IfErr result (λ e. e ≡ DecodeError.OutOfMemory) }
{
    if let Some(few) = OctetString::from_few(octets.octets()) {
        return Ok(few);
    }
    let owned = octets.into_vec(alloc)?;
    let string = OctetString::from_vec(owned)?;
    Ok(string)
}
