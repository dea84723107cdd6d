//! INTEGER (X.696 10).
ghost use Rattle.std.specs.Prelude.{◌≡◌, ◌≤◌, false, true, MatchResult, IfSome, OnErr};
ghost use Rattle.asn1_model.specs.Form.{written};
ghost use Rattle.asn1_model.specs.Numbers.{is_within, signed_octets};
ghost use Rattle.asn1_model.specs.Oer.{bounded, integer_form, natural_form, signed_form};
ghost use Rattle.asn1_model.specs.Schema.{Range, wide_range};
ghost use Rattle.asn1_model.specs.Versions.{Begins};
ghost use Rattle.asn1_schema_constraints.specs.Bounds.{admits_number, lower, upper};
ghost use Rattle.asn1_schema_constraints.specs.Terms.{bounds_of, held_of};
ghost use Rattle.asn1_schema_forms.specs.Forms.{form_bounds};
ghost use Rattle.asn1_values_natives.specs.Octets.{is_below_zero};
ghost use Rattle.oer_codec_writing.specs.Writing.{Adds, Refuses};

use crate::digits::{natural_len, push_digits, signed_len};
use crate::length::{push_counted, push_counted_digits};
use asn1_schema_constraints::{Bounded, Constraints, Extensible, Value};
use asn1_schema_errors::EncodeError;
use asn1_schema_forms::NumberForm;
use asn1_values_integers::IntegerType;

/// Adds a signed number, in `width` octets, or in its fewest after a length determinant (X.696 10).
#[inline]
fn push_signed(octets: &mut Vec<u8>, width: Option<u8>, number: i128) -> Result<(), EncodeError>
    requires { IfSome width (λ k. (signed_octets number ≤ k) × (k ≤ 16)) }
    ensures text { MatchResult result
        (λ _. Adds (written (signed_form width number) 0) octets.old.items octets.new.items)
        (λ e. e ≡ EncodeError.OutOfMemory) }
    ensures kept { OnErr result (Begins octets.old.items octets.new.items) }
{
    let bits = number.cast_unsigned();
    match width {
        Some(width) => {
            push_digits(octets, bits, usize::from(width))?;
            Ok(())
        }
        None => {
            push_counted_digits(octets, bits, signed_len(number))?;
            Ok(())
        }
    }
}

/// Adds a number that is not negative, in `width` octets, or in its fewest after a length determinant (X.696 10).
#[inline(always)]
fn push_natural(octets: &mut Vec<u8>, width: Option<u8>, number: i128) -> Result<(), EncodeError>
    requires sign { is_below_zero number ≡ false }
    requires width { IfSome width (λ k. k ≤ 16) }
    ensures text { MatchResult result
        (λ _. Adds (written (natural_form width number) 0) octets.old.items octets.new.items)
        (λ e. e ≡ EncodeError.OutOfMemory) }
    ensures kept { OnErr result (Begins octets.old.items octets.new.items) }
{
    let magnitude = number.cast_unsigned();
    match width {
        Some(width) => {
            push_digits(octets, magnitude, usize::from(width))?;
            Ok(())
        }
        None => {
            push_counted_digits(octets, magnitude, natural_len(magnitude))?;
            Ok(())
        }
    }
}

/// Adds a number within bounds, in the form that the bounds determine (X.696 10).
#[inline(always)]
fn push_bounded(
    octets: &mut Vec<u8>,
    bounds: Bounded<i128>,
    number: i128,
) -> Result<(), EncodeError>
    requires { admits_number bounds number ≡ true }
    ensures text { MatchResult result (λ _. Adds (written (bounded (lower bounds) (upper bounds) number) 0)
        octets.old.items octets.new.items) (λ e. e ≡ EncodeError.OutOfMemory) }
    ensures kept { OnErr result (Begins octets.old.items octets.new.items) }
{
    let (signed, width) = bounds.range_in_bytes();
    if signed {
        push_signed(octets, width, number)?;
    } else {
        push_natural(octets, width, number)?;
    }
    Ok(())
}

/// Adds a 128-bit number under a value constraint, if there is one. An extensible constraint does not affect the
/// encoding (X.696 10).
#[inline(always)]
fn push_number(
    octets: &mut Vec<u8>,
    limits: Option<Extensible<'_, Value>>,
    number: i128,
) -> Result<(), EncodeError>
    ensures text { (h : Range) → is_within h number ≡ true → MatchResult result
        (λ _. Adds (written (integer_form (bounds_of limits.entry) (held_of limits.entry h) number) 0)
        octets.old.items octets.new.items)
        (Refuses (written (integer_form (bounds_of limits.entry) (held_of limits.entry h) number) 0)) }
    ensures kept { OnErr result (Begins octets.old.items octets.new.items) }
{
    let Some(limits) = limits else {
        push_signed(octets, None, number)?;
        return Ok(());
    };
    if limits.extensible.is_some() {
        push_signed(octets, None, number)?;
        return Ok(());
    }
    let bounds = limits.constraint.value;
    if !bounds.contains(&number) {
        return Err(EncodeError::ValueConstraintNotSatisfied);
    }
    push_bounded(octets, bounds, number)?;
    Ok(())
}

/// Adds an INTEGER (X.696 10). Under a value constraint it has at most 128 bits. An extensible constraint does not
/// affect the encoding.
///
/// # Errors
///
/// `OutOfMemory`; any other only if the value has no encoding.
#[inline(always)]
pub fn push_integer<I: IntegerType>(
    octets: &mut Vec<u8>,
    constraints: &Constraints,
    value: &I,
) -> Result<(), EncodeError>
    ensures text { MatchResult result (λ _. Adds
        (written (integer_form (bounds_of constraints.now.value) (held_of constraints.now.value I.held)
        (I.value value.now)) 0) octets.old.items octets.new.items)
        (Refuses (written (integer_form (bounds_of constraints.now.value) (held_of constraints.now.value I.held)
        (I.value value.now)) 0)) }
    ensures kept { OnErr result (Begins octets.old.items octets.new.items) }
{
    if let Some(number) = value.to_i128() {
        return push_number(octets, constraints.value, number);
    }
    if constraints.value.is_some() {
        return Err(EncodeError::ValueConstraintNotSatisfied);
    }
    push_counted(octets, value.to_signed_bytes_be().as_slice())?;
    Ok(())
}

/// Adds an INTEGER (X.696 10) between two bounds, in its form.
///
/// # Errors
///
/// `ValueConstraintNotSatisfied` if the number is not between the bounds, and `OutOfMemory`.
#[inline(always)]
pub fn push_in_form(
    octets: &mut Vec<u8>,
    form: &NumberForm,
    number: i128,
) -> Result<(), EncodeError>
    ensures text { MatchResult result (λ _. Adds
        (written (integer_form (form_bounds form.now) wide_range number) 0) octets.old.items octets.new.items)
        (Refuses (written (integer_form (form_bounds form.now) wide_range number) 0)) }
    ensures kept { OnErr result (Begins octets.old.items octets.new.items) }
{
    if number < form.low() || form.high() < number {
        return Err(EncodeError::ValueConstraintNotSatisfied);
    }
    push_digits(octets, number.cast_unsigned(), usize::from(form.octets()))?;
    Ok(())
}
