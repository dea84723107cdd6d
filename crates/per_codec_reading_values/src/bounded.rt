//! Numbers under bounds (X.691 13.1 and 13.2).
ghost use Rattle.asn1_model.specs.Schema.{wide_range};
ghost use Rattle.std.specs.Prelude.{◌≡◌, ◌≤◌, ◌+ℤ◌, pos, true, false, Some, None, IfOk, OnOk, IfErr, OnErr};
ghost use Rattle.asn1_model.specs.Numbers.{is_within, width};
ghost use Rattle.asn1_model.specs.Per as Per;
ghost use Rattle.asn1_schema_constraints.specs.Bounds.{lower, range_of, upper};
ghost use Rattle.asn1_schema_constraints.specs.Sets.{has_additions};
ghost use Rattle.per_codec_laws.specs.Takes.{Front};
ghost use Rattle.per_codec_reading.specs.Fronts as fronts;
ghost use Rattle.per_codec_reading.specs.Fronts.{freedoms, IsFresh, Misses};
ghost use Rattle.per_codec_reading.specs.Headings.{may_be_outside};
ghost use Rattle.per_codec_reading_values.specs.Integers.{behind_extension_bit, in_128_bits, under_constraint};

use crate::number_octets::{read_semi_constrained, read_unconstrained};
use asn1_schema_constraints::{Bounded, Extensible, Value};
use asn1_schema_errors::DecodeError;
use asn1_schema_forms::NumberForm;
use per_codec_reading::boolean::read_bit;
use per_codec_reading::numbers::{read_constrained, read_number_within};
use per_codec_reading::{Cursor, PackedRules};
use std::alloc::Global;

/// The number `above` a lower bound, if it fits in 128 bits of two's complement.
#[inline(always)]
fn number_above(low: i128, above: u128) -> Result<i128, DecodeError>
    ensures number { IfOk result (λ number. number ≡ low +ℤ pos above) }
    ensures held { OnOk result (is_within wide_range (low +ℤ pos above) ≡ true) }
    ensures refused { OnErr result (is_within wide_range (low +ℤ pos above) ≡ false) }
    ensures fresh { IfErr result IsFresh }
{
    match low.checked_add_unsigned(above) {
        Some(number) => Ok(number),
        None => Err(DecodeError::ValueConstraintNotSatisfied),
    }
}

/// Reads a number between two bounds (X.691 13.2.1 and 13.2.2).
///
/// # Errors
///
/// `ValueConstraintNotSatisfied` if it is not between them, and the errors of a constrained whole number.
#[inline(always)]
fn read_between(
    cursor: &mut Cursor<'_>,
    rules: PackedRules,
    low: i128,
    high: i128,
) -> Result<i128, DecodeError>
    ensures ok { IfOk result (λ number. Front (freedoms rules)
        (in_128_bits (Per.whole_number (fronts.is_aligned rules) (Some low) (Some high)) number) cursor.old
        cursor.new) }
    ensures only { IfErr result (Misses (freedoms rules)
        (in_128_bits (Per.whole_number (fronts.is_aligned rules) (Some low) (Some high))) cursor.old) }
{
    if high < low {
        return Err(DecodeError::ValueConstraintNotSatisfied);
    }
    let above = read_constrained(cursor, rules, high.abs_diff(low))?;
    number_above(low, above)
}

/// Reads a number with only a lower bound (X.691 13.2.3).
///
/// # Errors
///
/// `ValueConstraintNotSatisfied` if it does not fit in 128 bits of two's complement, and the errors of
/// [`read_semi_constrained`].
fn read_from(
    alloc: Global,
    cursor: &mut Cursor<'_>,
    rules: PackedRules,
    low: i128,
) -> Result<i128, DecodeError>
    ensures ok { IfOk result (λ number. Front (freedoms rules)
        (in_128_bits (Per.whole_number (fronts.is_aligned rules) (Some low) None) number) cursor.old cursor.new) }
    ensures only { IfErr result (Misses (freedoms rules)
        (in_128_bits (Per.whole_number (fronts.is_aligned rules) (Some low) None)) cursor.old) }
{
    let above = read_semi_constrained(alloc, cursor, rules)?;
    number_above(low, above)
}

/// Reads a number with only an upper bound (X.691 13.2.4).
///
/// # Errors
///
/// `ValueConstraintNotSatisfied` if it is above the bound, or does not fit in 128 bits of two's complement, and the
/// errors of [`read_unconstrained`].
fn read_up_to(
    alloc: Global,
    cursor: &mut Cursor<'_>,
    rules: PackedRules,
    high: i128,
) -> Result<i128, DecodeError>
    ensures ok { IfOk result (λ number. Front (freedoms rules)
        (in_128_bits (Per.whole_number (fronts.is_aligned rules) None (Some high)) number) cursor.old cursor.new) }
    ensures only { IfErr result (Misses (freedoms rules)
        (in_128_bits (Per.whole_number (fronts.is_aligned rules) None (Some high))) cursor.old) }
{
    let number = read_unconstrained(alloc, cursor, rules)?;
    if number > high {
        return Err(DecodeError::ValueConstraintNotSatisfied);
    }
    Ok(number)
}

/// Reads a number of the root, by its bounds (X.691 13.2).
#[inline(never)]
fn read_any_root(
    alloc: Global,
    cursor: &mut Cursor<'_>,
    rules: PackedRules,
    bounds: Bounded<i128>,
) -> Result<i128, DecodeError>
    ensures ok { IfOk result (λ number. Front (freedoms rules)
        (in_128_bits (Per.whole_number (fronts.is_aligned rules) (lower bounds) (upper bounds)) number) cursor.old
        cursor.new) }
    ensures only { IfErr result (Misses (freedoms rules)
        (in_128_bits (Per.whole_number (fronts.is_aligned rules) (lower bounds) (upper bounds))) cursor.old) }
{
    match bounds {
        Bounded::None => read_unconstrained(alloc, cursor, rules),
        Bounded::Single(value) => read_between(cursor, rules, value, value),
        Bounded::Range { start, end } => match (start, end) {
            (Some(low), Some(high)) => read_between(cursor, rules, low, high),
            (Some(low), None) => read_from(alloc, cursor, rules, low),
            (None, Some(high)) => read_up_to(alloc, cursor, rules, high),
            (None, None) => read_unconstrained(alloc, cursor, rules),
        },
    }
}

/// The same. Two bounds are looked for first, so that a call of it takes little code.
#[inline(always)]
fn read_root(
    alloc: Global,
    cursor: &mut Cursor<'_>,
    rules: PackedRules,
    bounds: Bounded<i128>,
) -> Result<i128, DecodeError>
    ensures ok { IfOk result (λ number. Front (freedoms rules)
        (in_128_bits (Per.whole_number (fronts.is_aligned rules) (lower bounds) (upper bounds)) number) cursor.old
        cursor.new) }
    ensures only { IfErr result (Misses (freedoms rules)
        (in_128_bits (Per.whole_number (fronts.is_aligned rules) (lower bounds) (upper bounds))) cursor.old) }
{
    match bounds {
        Bounded::Range { start, end } => match (start, end) {
            (Some(low), Some(high)) => read_between(cursor, rules, low, high),
            _ => read_any_root(alloc, cursor, rules, bounds),
        },
        _ => read_any_root(alloc, cursor, rules, bounds),
    }
}

/// Reads what follows an extension bit: a number of the root, or one outside it (X.691 13.1).
fn read_behind_extension_bit(
    alloc: Global,
    cursor: &mut Cursor<'_>,
    rules: PackedRules,
    is_outside: bool,
    bounds: Bounded<i128>,
) -> Result<i128, DecodeError>
    ensures ok { IfOk result (λ number. Front (freedoms rules)
        (in_128_bits (behind_extension_bit (fronts.is_aligned rules) is_outside bounds) number)
        cursor.old cursor.new) }
    ensures only { IfErr result (Misses (freedoms rules)
        (in_128_bits (behind_extension_bit (fronts.is_aligned rules) is_outside bounds)) cursor.old) }
{
    if is_outside {
        return read_unconstrained(alloc, cursor, rules);
    }
    read_any_root(alloc, cursor, rules, bounds)
}

/// Whether an extension bit is accepted for a number: in strict rules, a number within the bounds is not said to be
/// outside them (X.691 13.1).
#[inline(always)]
fn is_accepted_outside(
    rules: PackedRules,
    bounds: Bounded<i128>,
    is_outside: bool,
    number: i128,
) -> bool
    ensures { result ≡ may_be_outside (freedoms rules Per.root_told_outside) is_outside
        (is_within (range_of bounds) number) }
{
    !is_outside || !rules.is_strict() || !bounds.contains(&number)
}

/// Reads an extension bit, and the number behind it (X.691 13.1). Numbers within the bounds are accepted in either case
/// if the rules are not strict.
#[inline(never)]
fn read_extensible(
    alloc: Global,
    cursor: &mut Cursor<'_>,
    rules: PackedRules,
    constraint: Extensible<'_, Value>,
) -> Result<i128, DecodeError>
    requires { has_additions constraint ≡ true }
    ensures ok { IfOk result (λ number. Front (freedoms rules)
        (in_128_bits (under_constraint (fronts.is_aligned rules) constraint.entry) number) cursor.old cursor.new) }
    ensures only { IfErr result (Misses (freedoms rules)
        (in_128_bits (under_constraint (fronts.is_aligned rules) constraint.entry)) cursor.old) }
{
    let bounds = constraint.constraint.value;
    let is_outside = read_bit(cursor, rules)?;
    let number = read_behind_extension_bit(alloc, cursor, rules, is_outside, bounds)?;
    if !is_accepted_outside(rules, bounds, is_outside, number) {
        return Err(DecodeError::NotValidCanonicalEncoding);
    }
    Ok(number)
}

/// Reads a number of 128 bits under a value constraint (X.691 13). If the constraint is extensible, the extension bit
/// says whether the bounds apply; numbers within them are accepted in either case if the rules are not strict.
///
/// # Errors
///
/// `Incomplete` if the bits end early, `ZeroLengthOfLength` if the number has no octets,
/// `ValueConstraintNotSatisfied` if it is outside the bounds, or does not fit in 128 bits of two's complement,
/// `NotValidCanonicalEncoding` if another form is canonical, in strict rules, the errors of a length determinant, and
/// `OutOfMemory`.
#[inline(always)]
pub fn read_bounded(
    alloc: Global,
    cursor: &mut Cursor<'_>,
    rules: PackedRules,
    constraint: Extensible<'_, Value>,
) -> Result<i128, DecodeError>
    ensures ok { IfOk result (λ number. Front (freedoms rules)
        (in_128_bits (under_constraint (fronts.is_aligned rules) constraint.entry) number) cursor.old cursor.new) }
    ensures only { IfErr result (Misses (freedoms rules)
        (in_128_bits (under_constraint (fronts.is_aligned rules) constraint.entry)) cursor.old) }
{
    if constraint.extensible.is_none() {
        return read_root(alloc, cursor, rules, constraint.constraint.value);
    }
    read_extensible(alloc, cursor, rules, constraint)
}

/// Reads a constrained whole number of 0 to `span`, which has this number of bits (X.691 11.5).
///
/// # Errors
///
/// Those of [`read_constrained`].
#[inline(always)]
fn read_offset(
    cursor: &mut Cursor<'_>,
    rules: PackedRules,
    span: u64,
    bits: u8,
) -> Result<u64, DecodeError>
    requires { bits ≡ width span }
    ensures ok { IfOk result (λ number. Front (freedoms rules)
        (Per.constrained (fronts.is_aligned rules) span number) cursor.old cursor.new) }
    ensures bound { IfOk result (λ number. number ≤ span) }
    ensures only { IfErr result (Misses (freedoms rules)
        (Per.constrained (fronts.is_aligned rules) span) cursor.old) }
{
    // A span has at most 64 bits: that is said here, so that the compiler takes a word.
    if bits > 64 || rules.is_aligned() && span >= 255 {
        let number = read_constrained(cursor, rules, u128::from(span))?;
        return Ok(number as u64);
    }
    let number = read_number_within(cursor, rules, usize::from(bits), u128::from(span))?;
    Ok(number as u64)
}

/// Reads a number between two bounds, in its form (X.691 13.2.1 and 13.2.2).
///
/// # Errors
///
/// `ValueConstraintNotSatisfied` if it is not between them, and the errors of a constrained whole number.
#[inline(always)]
pub(crate) fn read_between_in_form(
    cursor: &mut Cursor<'_>,
    rules: PackedRules,
    form: &NumberForm,
) -> Result<i128, DecodeError>
    ensures ok { IfOk result (λ number. Front (freedoms rules)
        (in_128_bits (Per.whole_number (fronts.is_aligned rules) (Some form.now.low) (Some form.now.high)) number)
        cursor.old cursor.new) }
    ensures only { IfErr result (Misses (freedoms rules)
        (in_128_bits (Per.whole_number (fronts.is_aligned rules) (Some form.now.low) (Some form.now.high)))
        cursor.old) }
{
    let above = read_offset(cursor, rules, form.span(), form.bits())?;
    Ok(form.low() + i128::from(above))
}
