//! INTEGER (X.691 13).
ghost use Rattle.std.specs.Prelude.{◌≡◌, true, MatchResult};
ghost use Rattle.asn1_model.specs.Numbers.{is_within};
ghost use Rattle.asn1_model.specs.Per.{form as type_form, semi_constrained, unconstrained, with_extension_bit};
ghost use Rattle.asn1_model.specs.Per.{whole_number as number_form};
ghost use Rattle.asn1_model.specs.Schema.{integer, wide_range};
ghost use Rattle.asn1_model.specs.Value.{number as number_value};
ghost use Rattle.asn1_schema_constraints.specs.Bounds.{admits_number, lower, upper};
ghost use Rattle.asn1_schema_constraints.specs.Terms.{bounds_of, held_of};
ghost use Rattle.asn1_schema_forms.specs.Forms.{form_bounds};
ghost use Rattle.per_codec_packing.specs.FieldLists.{field_list_at};
ghost use Rattle.per_codec_writing.specs.Writing.{Adds, Refuses, place};
ghost use Rattle.per_codec_rules.specs.Variants.{is_aligned};

use crate::constrained::push_offset;
use crate::{push_constrained, push_counted_octets};
use asn1_schema_constraints::{Bounded, Constraints};
use asn1_schema_errors::EncodeError;
use asn1_schema_forms::NumberForm;
use asn1_values_integers::IntegerType;
use per_codec_packing::Packing;
use per_codec_rules::Variant;

/// Adds an unconstrained whole number: its fewest octets of two's complement, after a length determinant (X.691 11.8
/// and 13.2.4). The only error is `OutOfMemory`.
fn push_unconstrained<I: IntegerType>(
    output: &mut Packing,
    variant: Variant,
    value: &I,
) -> Result<(), EncodeError>
    ensures written { MatchResult result
        (λ _. Adds (field_list_at (unconstrained (is_aligned variant) (I.value value.now)) (place output.old))
        output.old output.new)
        (λ e. e ≡ EncodeError.OutOfMemory) }
    ensures held { is_within I.held (I.value value.now) ≡ true }
{
    let octets = value.to_signed_bytes_be();
    push_counted_octets(output, variant, octets.as_slice())?;
    Ok(())
}

/// Adds a semi-constrained whole number, by its offset from the lower bound: the fewest octets, after a length
/// determinant (X.691 11.7 and 13.2.3). The only error is `OutOfMemory`.
pub(crate) fn push_semi_constrained(
    output: &mut Packing,
    variant: Variant,
    offset: u128,
) -> Result<(), EncodeError>
    ensures { MatchResult result (λ _. Adds
        (field_list_at (semi_constrained (is_aligned variant) offset) (place output.old)) output.old output.new)
        (λ e. e ≡ EncodeError.OutOfMemory) }
{
    let octets = offset.to_unsigned_bytes_be();
    push_counted_octets(output, variant, octets.as_slice())?;
    Ok(())
}

/// Adds a number within bounds, in the form that the bounds determine (X.691 13.2).
#[inline(always)]
fn push_root(
    output: &mut Packing,
    variant: Variant,
    bounds: Bounded<i128>,
    number: i128,
) -> Result<(), EncodeError>
    requires { admits_number bounds number ≡ true }
    ensures { MatchResult result (λ _. Adds
        (field_list_at (number_form (is_aligned variant) (lower bounds) (upper bounds) number) (place output.old))
        output.old output.new)
        (Refuses (field_list_at (number_form (is_aligned variant) (lower bounds) (upper bounds) number) (place
        output.old))) }
{
    match (bounds.as_start().copied(), bounds.as_end().copied()) {
        (Some(low), Some(high)) => {
            push_constrained(output, variant, high.abs_diff(low), number.abs_diff(low))
        }
        (Some(low), None) => {
            push_semi_constrained(output, variant, number.abs_diff(low))?;
            Ok(())
        }
        (None, _) => {
            push_unconstrained(output, variant, &number)?;
            Ok(())
        }
    }
}

/// Adds a number under a value constraint. If the constraint is extensible, the extension bit comes first and says
/// whether the number is outside the bounds (X.691 13.1).
#[inline(always)]
fn push_bounded(
    output: &mut Packing,
    variant: Variant,
    bounds: Bounded<i128>,
    extensible: bool,
    number: i128,
) -> Result<(), EncodeError>
    ensures { MatchResult result (λ _. Adds
        (field_list_at (with_extension_bit extensible (admits_number bounds number)
        (number_form (is_aligned variant) (lower bounds) (upper bounds) number)
        (unconstrained (is_aligned variant) number)) (place output.old))
        output.old output.new)
        (Refuses (field_list_at (with_extension_bit extensible (admits_number bounds number)
        (number_form (is_aligned variant) (lower bounds) (upper bounds) number)
        (unconstrained (is_aligned variant) number)) (place output.old))) }
{
    let inside = bounds.contains(&number);
    if !extensible {
        if !inside {
            return Err(EncodeError::ValueConstraintNotSatisfied);
        }
        return push_root(output, variant, bounds, number);
    }
    output.push(!inside)?;
    if inside {
        push_root(output, variant, bounds, number)
    } else {
        push_unconstrained(output, variant, &number)?;
        Ok(())
    }
}

/// Adds an INTEGER (X.691 13). Under a value constraint it has at most 128 bits, and one outside the bounds is
/// refused unless the constraint is extensible.
///
/// # Errors
///
/// `OutOfMemory`; any other only if the value has no encoding.
#[inline(always)]
pub fn push_integer<I: IntegerType>(
    output: &mut Packing,
    variant: Variant,
    constraints: &Constraints,
    value: &I,
) -> Result<(), EncodeError>
    ensures { MatchResult result (λ _. Adds
        (field_list_at (type_form (is_aligned variant) (integer (bounds_of constraints.now.value)
        (held_of constraints.now.value I.held)) (number_value (I.value value.now))) (place output.old))
        output.old output.new)
        (Refuses (field_list_at (type_form (is_aligned variant)
        (integer (bounds_of constraints.now.value) (held_of constraints.now.value I.held))
        (number_value (I.value value.now))) (place output.old))) }
{
    let Some(limits) = constraints.value else {
        push_unconstrained(output, variant, value)?;
        return Ok(());
    };
    let Some(number) = value.to_i128() else {
        return Err(EncodeError::ValueConstraintNotSatisfied);
    };
    push_bounded(
        output,
        variant,
        limits.constraint.value,
        limits.extensible.is_some(),
        number,
    )
}

/// Adds an INTEGER (X.691 13) between two bounds, in its form.
///
/// # Errors
///
/// `ValueConstraintNotSatisfied` if the number is not between the bounds, and `OutOfMemory`.
#[inline(always)]
pub fn push_in_form(
    output: &mut Packing,
    variant: Variant,
    form: &NumberForm,
    number: i128,
) -> Result<(), EncodeError>
    ensures { MatchResult result (λ _. Adds
        (field_list_at (type_form (is_aligned variant) (integer (form_bounds form.now) wide_range)
        (number_value number)) (place output.old)) output.old output.new)
        (Refuses (field_list_at (type_form (is_aligned variant) (integer (form_bounds form.now) wide_range)
        (number_value number)) (place output.old))) }
{
    if number < form.low() || form.high() < number {
        return Err(EncodeError::ValueConstraintNotSatisfied);
    }
    let span = form.span();
    let offset = (number - form.low()) as u64;
    push_offset(output, variant, span, form.bits(), offset)
}
