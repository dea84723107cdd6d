//! Length determinants, counts, and octets after a length determinant (X.696 8.6 and 17).
ghost use Rattle.std.specs.Prelude.{◌≡◌, ◌<◌, IfSome, IfNone, ◌≤◌, MatchResult, OnErr};
ghost use Rattle.asn1_model.specs.Form.{only_if, written};
ghost use Rattle.asn1_model.specs.Numbers.{digits, is_count_within};
ghost use Rattle.asn1_model.specs.Oer.{length_form, counted, unsigned};
ghost use Rattle.asn1_model.specs.Versions.{Begins};
ghost use Rattle.asn1_schema_constraints.specs.Bounds.{members_of};
ghost use Rattle.oer_codec_writing.specs.Writing.{Adds, Refuses};

use crate::digits::{natural_len, push_digits};
use asn1_schema_constraints::Bounded;
use asn1_schema_errors::EncodeError;
use asn1_values_natives::octets::octet_width;

/// A length below 128, as its one octet (X.696 8.6).
#[inline(always)]
pub fn short_length(length: usize) -> Option<u8>
    ensures some { IfSome result (λ octet. (octet ≡ length) × (length < 128)) }
    ensures none { IfNone result (128 ≤ length) }
{
    if length < 0x80 {
        Some(length as u8)
    } else {
        None
    }
}

/// Adds a length determinant (X.696 8.6): one octet below 128, else the fewest octets after their count.
#[inline(always)]
pub(crate) fn push_length(octets: &mut Vec<u8>, length: usize) -> Result<(), EncodeError>
    ensures text { MatchResult result
        (λ _. Adds (written (length_form length) 0) octets.old.items octets.new.items)
        (λ e. e ≡ EncodeError.OutOfMemory) }
    ensures kept { OnErr result (Begins octets.old.items octets.new.items) }
{
    if let Some(octet) = short_length(length) {
        octets.push(octet)?;
        return Ok(());
    }
    let number = length as u128;
    let count = octet_width(number);
    octets.push(0x80 + count as u8)?;
    push_digits(octets, number, count)?;
    Ok(())
}

/// Adds the low `count` octets of a number, after a length determinant (X.696 8.6 and 10).
#[inline]
pub(crate) fn push_counted_digits(
    octets: &mut Vec<u8>,
    number: u128,
    count: usize,
) -> Result<(), EncodeError>
    requires { count ≤ 16 }
    ensures text { MatchResult result
        (λ _. Adds (written (counted (digits 256 count number)) 0) octets.old.items octets.new.items)
        (λ e. e ≡ EncodeError.OutOfMemory) }
    ensures kept { OnErr result (Begins octets.old.items octets.new.items) }
{
    push_length(octets, count)?;
    push_digits(octets, number, count)?;
    Ok(())
}

/// Adds octets, after a length determinant (X.696 8.6).
///
/// # Errors
///
/// Only `OutOfMemory`.
#[inline(always)]
pub fn push_counted(octets: &mut Vec<u8>, contents: &[u8]) -> Result<(), EncodeError>
    ensures text { MatchResult result
        (λ _. Adds (written (counted contents.now) 0) octets.old.items octets.new.items)
        (λ e. e ≡ EncodeError.OutOfMemory) }
    ensures kept { OnErr result (Begins octets.old.items octets.new.items) }
{
    push_length(octets, contents.len())?;
    octets.extend_from_slice(contents)?;
    Ok(())
}

/// Adds the quantity field of a SEQUENCE OF or SET OF (X.696 17 and 19): the count in its fewest octets, at least
/// one, after a length determinant. `held` are the counts that the Rust type can hold.
///
/// # Errors
///
/// `SizeConstraintNotSatisfied` if the Rust type cannot hold `count` elements, and `OutOfMemory`.
pub fn push_count(
    octets: &mut Vec<u8>,
    held: Bounded<usize>,
    count: usize,
) -> Result<(), EncodeError>
    ensures text { MatchResult result
        (λ _. Adds (written (only_if (is_count_within (members_of held) count) (unsigned count)) 0)
        octets.old.items octets.new.items)
        (Refuses (written (only_if (is_count_within (members_of held) count) (unsigned count)) 0)) }
    ensures kept { OnErr result (Begins octets.old.items octets.new.items) }
{
    if !held.holds(count) {
        return Err(EncodeError::SizeConstraintNotSatisfied);
    }
    let number = count as u128;
    push_counted_digits(octets, number, natural_len(number))?;
    Ok(())
}
