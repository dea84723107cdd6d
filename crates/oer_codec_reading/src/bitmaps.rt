//! Presence bitmaps (X.696 16.4).
ghost use Rattle.std.specs.Prelude.{◌≡◌, ◌<◌, [], ◌∷◌, replicate, length, false, IsTrue, ◌↔◌, IfOk, IfErr};
ghost use Rattle.std.specs.Prelude.{IfSome, IfNone};
ghost use Rattle.asn1_model.specs.Oer.{counted_bits};
ghost use Rattle.asn1_values_bits.specs.BitStr.{bits_of};
ghost use Rattle.oer_codec_reading.specs.Fronts.{freedoms, Misses, Stands};

use crate::bit_string::{bit_count, read_bits_of_octets};
use crate::length::read_length;
use crate::{Cursor, EncodingRules};
use asn1_schema_errors::DecodeError;
use asn1_values_bits::BitStr;

/// Removes and returns the first bit, if there is one.
#[inline(always)]
pub fn take_bit(bits: &mut BitStr<'_>) -> Option<bool>
    ensures some { IfSome result (λ bit. bits_of bits.old ≡ bit ∷ bits_of bits.new) }
    ensures none { IfNone result ((bits_of bits.old ≡ []) × (bits.new ≡ bits.old)) }
{
    let Some(first) = bits.get(0) else {
        return None;
    };
    let (_first, rest) = bits.split_at(1);
    *bits = rest;
    Some(first)
}

/// Whether no bit is set.
#[inline(always)]
pub fn are_zero(bits: BitStr<'_>) -> bool
    requires { length (bits_of bits) < 8 }
    ensures { IsTrue result ↔ (bits_of bits.entry ≡ replicate (length (bits_of bits.entry)) false) }
{
    bits.first_number(bits.len() as u32) == 0
}

/// Reads a presence bitmap (X.696 16.4), a BIT STRING of variable size, of whatever length it has.
///
/// # Errors
///
/// `InvalidExtensionHeader` if its length is zero or it has more than seven unused bits or more than it has bits,
/// `Incomplete` if the octets end early, `NotValidCanonicalEncoding` if an unused bit is set, in COER, and the errors
/// of a length determinant.
#[inline]
pub fn read_bitmap<'input>(
    cursor: &mut Cursor<'input>,
    rules: EncodingRules,
) -> Result<BitStr<'input>, DecodeError>
    ensures ok { IfOk result (λ bits. Stands (freedoms rules) (counted_bits (bits_of bits)) cursor.old cursor.new) }
    ensures only { IfErr result (Misses (freedoms rules) counted_bits cursor.old) }
{
    let length = read_length(cursor, rules)?;
    if length == 0 {
        return Err(DecodeError::InvalidExtensionHeader);
    }
    if length > cursor.len() {
        return Err(DecodeError::Incomplete);
    }
    let unused = cursor.take_octet()?;
    let Some(count) = bit_count(length, unused) else {
        return Err(DecodeError::InvalidExtensionHeader);
    };
    let bits = read_bits_of_octets(cursor, rules, count)?;
    Ok(bits)
}
