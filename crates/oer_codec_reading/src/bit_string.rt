//! BIT STRING (X.696 13).
ghost use Rattle.std.specs.Prelude.{◌≡◌, ℕ, ◌+◌, ◌*◌, ◌/◌, ◌^◌, ◌<◌, ◌≤◌, ◌==◌, IsTrue, ◌↔◌, ◌⊎◌, false, true, drop};
ghost use Rattle.std.specs.Prelude.{length, replicate, IfOk, IfErr, IfSome, IfNone};
ghost use Rattle.asn1_model.specs.Numbers.{missing, octet_bits};
ghost use Rattle.asn1_model.specs.Oer.{bit_string_form};
ghost use Rattle.asn1_model.specs.Schema as Asn1;
ghost use Rattle.asn1_model.specs.Value as Asn1Value;
ghost use Rattle.asn1_schema_constraints.specs.Bounds.{counts_of};
ghost use Rattle.asn1_schema_constraints.specs.Terms.{sizes_of};
ghost use Rattle.asn1_values_bits.specs.BitStr.{bits_of};
ghost use Rattle.oer_codec_reading.specs.Fronts.{freedoms, is_basic, FrontOf, Misses, NoFront, Stands};
ghost use Rattle.oer_codec_reading.specs.Bits.{bits_in, sized_bits};

use crate::length::read_length;
use crate::{Cursor, EncodingRules};
use asn1_schema_constraints::{Bounded, Constraints};
use asn1_schema_errors::DecodeError;
use asn1_values_bit_strings::BitString;
use asn1_values_bits::bits::read_bits;
use asn1_values_bits::{BitStr, free_bits};
use std::alloc::Global;

/// Whether the bits after the first `count` are zero, up to the end of the octets that hold these.
fn has_zero_unused_bits(octets: &[u8], count: usize) -> bool
    requires whole { length octets.now * 8 ≡ count + missing count }
    requires few { length octets.now < 2 ^ 60 }
    ensures { IsTrue result ↔ (drop count (octet_bits octets.now) ≡ replicate (missing count) false) }
{
    read_bits(octets, count, free_bits(count)) == 0
}

/// Whether bits with these unused bits are accepted: in COER only if the unused bits are zero (X.696 13).
fn is_taken(rules: EncodingRules, octets: &[u8], count: usize) -> bool
    requires whole { length octets.now * 8 ≡ count + missing count }
    requires few { length octets.now < 2 ^ 60 }
    ensures taken { result ≡ true → (is_basic rules ≡ true)
        ⊎ (drop count (octet_bits octets.now) ≡ replicate (missing count) false) }
    ensures refused { result ≡ false → (is_basic rules ≡ false)
        × (drop count (octet_bits octets.now) ≡ replicate (missing count) false → ⊥) }
{
    if rules.is_oer() {
        return true;
    }
    has_zero_unused_bits(octets, count)
}

/// Reads `count` bits, and unused bits up to whole octets (X.696 13), and returns the former borrowed.
///
/// # Errors
///
/// `Incomplete` if the octets end early, and `NotValidCanonicalEncoding` if an unused bit is set, in COER.
#[inline(always)]
pub(crate) fn read_bits_of_octets<'input>(
    cursor: &mut Cursor<'input>,
    rules: EncodingRules,
    count: usize,
) -> Result<BitStr<'input>, DecodeError>
    ensures ok { IfOk result (λ bits. Stands (freedoms rules) (bits_in count (bits_of bits)) cursor.old cursor.new) }
    ensures only { IfErr result (Misses (freedoms rules) (bits_in count) cursor.old) }
{
    let octets = cursor.take(count.div_ceil(8))?;
    if !is_taken(rules, octets, count) {
        return Err(DecodeError::NotValidCanonicalEncoding);
    }
    Ok(BitStr::front_of(octets, count))
}

/// The number of bits, from a length and the number of unused bits (X.696 13), if that many bits can be unused.
#[inline(always)]
pub(crate) fn bit_count(length: usize, unused: u8) -> Option<usize>
    requires some { 1 ≤ length }
    requires most { length ≤ 2 ^ 60 }
    ensures some { IfSome result (λ n. ((n + 7) / 8 + 1 ≡ length) × (missing n ≡ unused)) }
    ensures none { IfNone result ((n : ℕ) → (n + 7) / 8 + 1 ≡ length → missing n ≡ unused → ⊥) }
{
    let held = (length - 1) * 8;
    if unused > 7 || unused as usize > held {
        return None;
    }
    Some(held - unused as usize)
}

/// Reads bits after a length determinant and the number of unused bits (X.696 13), and returns them borrowed.
///
/// # Errors
///
/// `Incomplete` if the octets end early, `InvalidBitString` if there are more than seven unused bits, or unused bits
/// and no octet, `NotValidCanonicalEncoding` if an unused bit is set or the length is zero, in COER, and the errors
/// of a length determinant.
fn read_varying<'input>(
    cursor: &mut Cursor<'input>,
    rules: EncodingRules,
) -> Result<BitStr<'input>, DecodeError>
    ensures ok { IfOk result (λ bits. Stands (freedoms rules) (bit_string_form false (bits_of bits)) cursor.old
        cursor.new) }
    ensures only { IfErr result (Misses (freedoms rules) (bit_string_form false) cursor.old) }
{
    let length = read_length(cursor, rules)?;
    if length == 0 {
        if rules.is_coer() {
            return Err(DecodeError::NotValidCanonicalEncoding);
        }
        return Ok(BitStr::new());
    }
    if length > cursor.len() {
        return Err(DecodeError::Incomplete);
    }
    let unused = cursor.take_octet()?;
    let Some(count) = bit_count(length, unused) else {
        return Err(DecodeError::InvalidBitString);
    };
    read_bits_of_octets(cursor, rules, count)
}

/// Reads bits, after a length determinant unless the size is fixed, and returns them borrowed.
fn read_sized_bits<'input>(
    cursor: &mut Cursor<'input>,
    rules: EncodingRules,
    size: Option<usize>,
) -> Result<BitStr<'input>, DecodeError>
    ensures ok { IfOk result (λ bits. Stands (freedoms rules) (sized_bits size (bits_of bits)) cursor.old cursor.new) }
    ensures only { IfErr result (Misses (freedoms rules) (sized_bits size) cursor.old) }
{
    match size {
        Some(count) => {
            let bits = read_bits_of_octets(cursor, rules, count)?;
            Ok(bits)
        }
        None => {
            let bits = read_varying(cursor, rules)?;
            Ok(bits)
        }
    }
}

/// Reads a BIT STRING (X.696 13) under a size constraint, for a Rust type that holds `held`.
///
/// # Errors
///
/// `SizeConstraintNotSatisfied` if the constraint or the Rust type does not admit the number of bits, `Incomplete` if
/// the octets end early, `InvalidBitString` if there are more than seven unused bits, or unused bits and no octet,
/// `NotValidCanonicalEncoding` if an unused bit is set or the length is zero, in COER, the errors of a length
/// determinant, and `OutOfMemory`.
pub fn read_bit_string(
    alloc: Global,
    cursor: &mut Cursor<'_>,
    rules: EncodingRules,
    constraints: &Constraints,
    held: Bounded<usize>,
) -> Result<BitString, DecodeError>
    ensures ok { IfOk result (λ x. FrontOf (freedoms rules)
        (Asn1.bit_string (sizes_of constraints.now.size) (counts_of held)) (Asn1Value.bit_list x) cursor.old
        cursor.new) }
    ensures only { IfErr result (NoFront (freedoms rules)
        (Asn1.bit_string (sizes_of constraints.now.size) (counts_of held)) cursor.old) }
{
    let sizes = constraints.sizes();
    let bits = read_sized_bits(cursor, rules, sizes.fixed())?;
    if !sizes.admits(held, bits.len()) {
        return Err(DecodeError::SizeConstraintNotSatisfied);
    }
    let string = BitString::from_bitslice(alloc, bits)?;
    Ok(string)
}
