//! INTEGER (X.696 10).
ghost use Rattle.asn1_model.specs.Schema.{wide_range};
ghost use Rattle.std.specs.Prelude.{◌≡◌, ◌-◌, ◌^◌, ◌≤◌, ◌<◌, ◌⊎◌, ℕ, true, false, is_some, length, IfOk, OnOk, IfErr};
ghost use Rattle.std.specs.Prelude.{IfSome};
ghost use Rattle.asn1_model.specs.Numbers.{is_within};
ghost use Rattle.asn1_model.specs.Schema as Asn1;
ghost use Rattle.asn1_model.specs.Value as Asn1Value;
ghost use Rattle.asn1_schema_constraints.specs.Terms.{admits_whole, bounds_of, held_of};
ghost use Rattle.asn1_schema_forms.specs.Forms.{form_bounds};
ghost use Rattle.asn1_values_natives.specs.Octets.{own_number};
ghost use Rattle.oer_codec_reading.specs.Fronts.{freedoms, FrontOf, NoFront};
ghost use Rattle.oer_codec_reading.specs.Integers.{sign_under, width_under};

use crate::magnitudes::{fixed_number, short_number};
use crate::numbers::read_number;
use crate::octet_string::read_sized;
use crate::{Cursor, EncodingRules};
use asn1_schema_constraints::Constraints;
use asn1_schema_errors::{DecodeError, held_number, number_from_octets};
use asn1_schema_forms::NumberForm;
use asn1_values_integers::IntegerType;
use asn1_values_natives::Wide;
use std::alloc::Global;

/// The form of numbers under a value constraint (X.696 10): whether they are signed, and their number of octets, if
/// it is fixed.
#[inline(always)]
fn form_under(constraints: &Constraints) -> (bool, Option<usize>)
    ensures sign { result.0 ≡ sign_under (bounds_of constraints.now.value) }
    ensures width { result.1 ≡ width_under (bounds_of constraints.now.value) }
    ensures some { IfSome result.1 (λ k. 1 ≤ k) }
{
    let Some(constraint) = constraints.value else {
        return (true, None);
    };
    if constraint.extensible.is_some() {
        return (true, None);
    }
    let (signed, width) = constraint.constraint.value.range_in_bytes();
    match width {
        Some(octets) => (signed, Some(usize::from(octets))),
        None => (signed, None),
    }
}

/// The number in octets, signed or unsigned, if it fits in 128 bits of two's complement.
#[inline(always)]
fn whole_number(signed: bool, octets: &[u8]) -> Option<i128>
    ensures value { IfSome result (λ z. z ≡ own_number signed octets.now) }
    ensures fits { is_some result ≡ is_within wide_range (own_number signed octets.now) }
{
    if octets.len() <= 8 {
        return Some(short_number(signed, octets));
    }
    further_number(signed, octets)
}

/// Calls [`long_number`] and moves its result, so that the path of few octets in the caller needs no space for it.
#[inline(always)]
fn further_number(signed: bool, octets: &[u8]) -> Option<i128>
    ensures value { IfSome result (λ z. z ≡ own_number signed octets.now) }
    ensures fits { is_some result ≡ is_within wide_range (own_number signed octets.now) }
{
    let number = long_number(signed, octets)?;
    Some(number)
}

/// The same for any number of octets.
#[inline(never)]
fn long_number(signed: bool, octets: &[u8]) -> Option<i128>
    ensures value { IfSome result (λ z. z ≡ own_number signed octets.now) }
    ensures fits { is_some result ≡ is_within wide_range (own_number signed octets.now) }
{
    if signed {
        return Wide::from_signed_octets(octets)?.to_whole(i128::MAX);
    }
    Wide::from_unsigned_octets(octets)?.to_whole(i128::MAX)
}

/// Whether a value constraint, if there is one, admits a number of 128 bits: the constraint is extensible, or the
/// number is within its bounds.
#[inline(always)]
fn is_admitted(constraints: &Constraints, number: i128) -> bool
    ensures { result ≡ admits_whole constraints.now.value number }
{
    let Some(constraint) = constraints.value else {
        return true;
    };
    constraint.extensible.is_some() || constraint.constraint.value.contains(&number)
}

/// A number that does not fit in 128 bits, as a value of the Rust type. No value constraint admits it.
#[inline(never)]
fn value_past<I: IntegerType>(
    alloc: Global,
    constraints: &Constraints,
    signed: bool,
    octets: &[u8],
) -> Result<I, DecodeError>
    requires past { is_within wide_range (own_number signed octets.now) ≡ false }
    requires some { 0 < length octets.now }
    ensures value { IfOk result (λ x. I.value x ≡ own_number signed octets.now) }
    ensures admitted { OnOk result (admits_whole constraints.now.value (own_number signed octets.now) ≡ true) }
    ensures held { OnOk result (is_within I.held (own_number signed octets.now) ≡ true) }
    ensures refused { IfErr result (λ e. (e ≡ DecodeError.OutOfMemory)
        ⊎ ((admits_whole constraints.now.value (own_number signed octets.now) ≡ false)
        ⊎ (is_within I.held (own_number signed octets.now) ≡ false))) }
    ensures fresh { IfErr result (λ e. e ≡ DecodeError.AlreadyFailed → ⊥) }
{
    if constraints.value.is_some() {
        return Err(DecodeError::ValueConstraintNotSatisfied);
    }
    number_from_octets(alloc, signed, octets)
}

/// Calls [`value_past`] and moves its result.
#[inline(always)]
fn further_value<I: IntegerType>(
    alloc: Global,
    constraints: &Constraints,
    signed: bool,
    octets: &[u8],
) -> Result<I, DecodeError>
    requires past { is_within wide_range (own_number signed octets.now) ≡ false }
    requires some { 0 < length octets.now }
    ensures value { IfOk result (λ x. I.value x ≡ own_number signed octets.now) }
    ensures admitted { OnOk result (admits_whole constraints.now.value (own_number signed octets.now) ≡ true) }
    ensures held { OnOk result (is_within I.held (own_number signed octets.now) ≡ true) }
    ensures refused { IfErr result (λ e. (e ≡ DecodeError.OutOfMemory)
        ⊎ ((admits_whole constraints.now.value (own_number signed octets.now) ≡ false)
        ⊎ (is_within I.held (own_number signed octets.now) ≡ false))) }
    ensures fresh { IfErr result (λ e. e ≡ DecodeError.AlreadyFailed → ⊥) }
{
    let value = value_past(alloc, constraints, signed, octets)?;
    Ok(value)
}

/// The number in octets as a value of the Rust type, if the value constraint, where there is one, admits it and the
/// type holds it.
#[inline(always)]
fn admitted_value<I: IntegerType>(
    alloc: Global,
    constraints: &Constraints,
    signed: bool,
    octets: &[u8],
) -> Result<I, DecodeError>
    requires { 0 < length octets.now }
    ensures value { IfOk result (λ x. I.value x ≡ own_number signed octets.now) }
    ensures admitted { OnOk result (admits_whole constraints.now.value (own_number signed octets.now) ≡ true) }
    ensures held { OnOk result (is_within I.held (own_number signed octets.now) ≡ true) }
    ensures refused { IfErr result (λ e. (e ≡ DecodeError.OutOfMemory)
        ⊎ ((admits_whole constraints.now.value (own_number signed octets.now) ≡ false)
        ⊎ (is_within I.held (own_number signed octets.now) ≡ false))) }
    ensures fresh { IfErr result (λ e. e ≡ DecodeError.AlreadyFailed → ⊥) }
{
    let Some(number) = whole_number(signed, octets) else {
        return further_value(alloc, constraints, signed, octets);
    };
    if !is_admitted(constraints, number) {
        return Err(DecodeError::ValueConstraintNotSatisfied);
    }
    held_number(number)
}

/// Reads an INTEGER (X.696 10) under a value constraint, as a value of the Rust type.
///
/// # Errors
///
/// `Incomplete` if the octets end early, `ZeroLengthOfLength` if there are none, `NotValidCanonicalEncoding` if the
/// first one is redundant, in COER, `ValueConstraintNotSatisfied` if the constraint does not admit the number,
/// `IntegerOverflow` if the Rust type does not hold it, the errors of a length determinant, and `OutOfMemory`.
#[inline(always)]
pub fn read_integer<I: IntegerType>(
    alloc: Global,
    cursor: &mut Cursor<'_>,
    rules: EncodingRules,
    constraints: &Constraints,
) -> Result<I, DecodeError>
    ensures ok { IfOk result (λ x. FrontOf (freedoms rules)
        (Asn1.integer (bounds_of constraints.now.value) (held_of constraints.now.value I.held))
        (Asn1Value.number (I.value x)) cursor.old cursor.new) }
    ensures only { IfErr result (NoFront (freedoms rules)
        (Asn1.integer (bounds_of constraints.now.value) (held_of constraints.now.value I.held)) cursor.old) }
{
    let (signed, width) = form_under(constraints);
    let octets = read_number(cursor, rules, signed, width)?;
    admitted_value(alloc, constraints, signed, octets)
}

/// Reads an INTEGER (X.696 10) between two bounds, in its form.
///
/// # Errors
///
/// `Incomplete` if the octets end early, and `ValueConstraintNotSatisfied` if the number is not between the bounds.
#[inline(always)]
pub fn read_in_form(
    cursor: &mut Cursor<'_>,
    rules: EncodingRules,
    form: &NumberForm,
) -> Result<i128, DecodeError>
    ensures ok { IfOk result (λ x. FrontOf (freedoms rules) (Asn1.integer (form_bounds form.now) wide_range)
        (Asn1Value.number x) cursor.old cursor.new) }
    ensures only { IfErr result (NoFront (freedoms rules) (Asn1.integer (form_bounds form.now) wide_range)
        cursor.old) }
{
    let octets = read_sized(cursor, rules, Some(usize::from(form.octets())))?;
    let number = fixed_number(form.is_signed(), octets);
    if number < form.low() || form.high() < number {
        return Err(DecodeError::ValueConstraintNotSatisfied);
    }
    Ok(number)
}
