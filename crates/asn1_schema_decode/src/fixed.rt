//! How BIT STRING and OCTET STRING of a fixed size are decoded (X.680 22 and 23).
ghost use Rattle.std.specs.Prelude.{◌≡◌, true, length, Some};
ghost use Rattle.asn1_model.specs.Numbers.{is_count_within};

use crate::decode::{Decode, Decoder, ReadOctets};
use asn1_schema_constraints::{Bounded, Constraints};
use asn1_schema_errors::DecodeError;
use asn1_schema_tags::Tag;
use asn1_values_bit_strings::{BitString, FixedBitString};
use asn1_values_octets::FixedOctetString;
use std::alloc::Global;

impl<const N: usize> Decode for FixedBitString<N> {
    #[inline(always)]
    fn decode_with_tag_and_constraints<D: Decoder>(
        alloc: Global,
        decoder: &mut D,
        tag: Tag,
        constraints: &Constraints,
    ) -> Result<Self, DecodeError> {
        let held = Bounded::single_value(N);
        let value = decoder.decode_bit_string(alloc, tag, constraints, held)?;
        let string = fixed_bit_string(value);
        Ok(string)
    }
}

impl<const N: usize> Decode for FixedOctetString<N> {
    #[inline(always)]
    fn decode_with_tag_and_constraints<D: Decoder>(
        alloc: Global,
        decoder: &mut D,
        tag: Tag,
        constraints: &Constraints,
    ) -> Result<Self, DecodeError> {
        let held = Bounded::single_value(N);
        let value = decoder.decode_octet_string(alloc, tag, constraints, held)?;
        let string = fixed_octet_string(value);
        Ok(string)
    }
}

// The decoded bits, of which there are exactly `N`.
fn fixed_bit_string<const N: usize>(bits: BitString) -> FixedBitString<N>
    requires held { is_count_within (record { low = N; high = Some N }) (length bits) ≡ true }
    ensures { result ≡ bits }
{
    match FixedBitString::from_bitslice(bits.as_bitslice()) {
        Some(string) => string,
        None => unreachable!(),
    }
}

// The decoded octets, of which there are exactly `N`.
fn fixed_octet_string<const N: usize, O: ReadOctets>(octets: O) -> FixedOctetString<N>
    requires held { is_count_within (record { low = N; high = Some N }) (length (O.items octets)) ≡ true }
    ensures { result ≡ O.items octets }
{
    match FixedOctetString::try_from(octets.octets()) {
        Ok(string) => string,
        Err(_) => unreachable!(),
    }
}
