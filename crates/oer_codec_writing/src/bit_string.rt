//! BIT STRING (X.696 13).
ghost use Rattle.std.specs.Prelude.{◌≡◌, ◌*◌, ◌≤◌, ◌++◌, length, take, MatchResult, OnErr};
ghost use Rattle.asn1_model.specs.Form.{written};
ghost use Rattle.asn1_model.specs.Numbers.{missing, octet_bits, packed};
ghost use Rattle.asn1_model.specs.Oer.{bit_string_form, form};
ghost use Rattle.asn1_model.specs.Schema.{bit_string};
ghost use Rattle.asn1_model.specs.Value.{bit_list};
ghost use Rattle.asn1_model.specs.Versions.{Begins};
ghost use Rattle.asn1_schema_constraints.specs.Bounds.{counts_of};
ghost use Rattle.asn1_schema_constraints.specs.Terms.{sizes_of};
ghost use Rattle.asn1_values_bits.specs.BitStr.{bits_of};
ghost use Rattle.asn1_values_bits.specs.Octets.{padded};
ghost use Rattle.oer_codec_writing.specs.Writing.{Adds, Refuses, bits_heading};

use crate::length::push_length;
use asn1_schema_constraints::{Bounded, Constraints};
use asn1_schema_errors::EncodeError;
use asn1_values_bits::{BitStr, free_bits};

/// The octet that counts the unused bits of the last octet (X.696 13).
fn unused_bits(count: usize) -> u8
    ensures { result ≡ missing count }
{
    free_bits(count) as u8
}

/// Adds bits as octets, one octet at a time. The unused bits of the last octet are zero.
fn push_by_octets(octets: &mut Vec<u8>, value: BitStr) -> Result<(), EncodeError>
    ensures text { MatchResult result (λ _. octets.new.items ≡ octets.old.items
        ++ packed (padded (bits_of value.entry))) (λ e. e ≡ EncodeError.OutOfMemory) }
    ensures kept { OnErr result (Begins octets.old.items octets.new.items) }
{
    let mut rest = value;
    while rest.len() > 0 {
        let few = rest.len().min(8);
        let octet = (rest.first_number(few as u32) << (8 - few)) as u8;
        octets.push(octet)?;
        rest = rest.split_at(few).1;
    }
    Ok(())
}

/// Adds the first `count` bits of octets. The unused bits of the last octet are zero (X.696 13). Whole octets are
/// copied in one run.
fn push_first_bits(octets: &mut Vec<u8>, held: &[u8], count: usize) -> Result<(), EncodeError>
    requires { count ≤ length held.now * 8 }
    ensures text { MatchResult result (λ _. octets.new.items ≡ octets.old.items
        ++ packed (padded (take count (octet_bits held.now)))) (λ e. e ≡ EncodeError.OutOfMemory) }
    ensures kept { OnErr result (Begins octets.old.items octets.new.items) }
{
    let whole = count / 8;
    let few = count % 8;
    octets.extend_from_slice(&held[..whole])?;
    if few == 0 {
        return Ok(());
    }
    octets.push(held[whole] >> (8 - few) << (8 - few))?;
    Ok(())
}

/// Adds bits as octets. The unused bits of the last octet are zero (X.696 13).
fn push_bits(octets: &mut Vec<u8>, value: BitStr) -> Result<(), EncodeError>
    ensures text { MatchResult result (λ _. octets.new.items ≡ octets.old.items
        ++ packed (padded (bits_of value.entry))) (λ e. e ≡ EncodeError.OutOfMemory) }
    ensures kept { OnErr result (Begins octets.old.items octets.new.items) }
{
    match value.holding_octets() {
        Some(held) => push_first_bits(octets, held, value.len()),
        None => push_by_octets(octets, value),
    }
}

/// Adds what precedes `count` bits if the size is not fixed: the length determinant and the number of unused bits
/// (X.696 13).
///
/// # Errors
///
/// Only `OutOfMemory`.
#[inline(always)]
pub fn push_bits_heading(octets: &mut Vec<u8>, count: usize) -> Result<(), EncodeError>
    ensures text { MatchResult result (λ _. Adds (written (bits_heading count) 0) octets.old.items octets.new.items)
        (λ e. e ≡ EncodeError.OutOfMemory) }
    ensures kept { OnErr result (Begins octets.old.items octets.new.items) }
{
    push_length(octets, count / 8 + (count % 8 + 7) / 8 + 1)?;
    octets.push(unused_bits(count))?;
    Ok(())
}

/// Adds bits, after a length determinant and the number of unused bits unless the size is fixed (X.696 13).
fn push_sized_bits(octets: &mut Vec<u8>, fixed: bool, value: BitStr) -> Result<(), EncodeError>
    ensures text { MatchResult result
        (λ _. Adds (written (bit_string_form fixed (bits_of value.entry)) 0) octets.old.items octets.new.items)
        (λ e. e ≡ EncodeError.OutOfMemory) }
    ensures kept { OnErr result (Begins octets.old.items octets.new.items) }
{
    if fixed {
        push_bits(octets, value)?;
        return Ok(());
    }
    push_bits_heading(octets, value.len())?;
    push_bits(octets, value)?;
    Ok(())
}

/// Adds a BIT STRING (X.696 13).
///
/// # Errors
///
/// `OutOfMemory`; any other only if the value has no encoding.
pub fn push_bit_string(
    octets: &mut Vec<u8>,
    constraints: &Constraints,
    held: Bounded<usize>,
    value: BitStr,
) -> Result<(), EncodeError>
    ensures text { MatchResult result (λ _. Adds
        (written (form (bit_string (sizes_of constraints.now.size) (counts_of held))
        (bit_list (bits_of value.entry))) 0) octets.old.items octets.new.items)
        (Refuses (written (form (bit_string (sizes_of constraints.now.size) (counts_of held))
        (bit_list (bits_of value.entry))) 0)) }
    ensures kept { OnErr result (Begins octets.old.items octets.new.items) }
{
    let sizes = constraints.sizes();
    if !sizes.admits(held, value.len()) {
        return Err(EncodeError::SizeConstraintNotSatisfied);
    }
    push_sized_bits(octets, sizes.is_fixed(), value)?;
    Ok(())
}
