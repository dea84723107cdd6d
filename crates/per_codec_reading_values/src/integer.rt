//! INTEGER (X.691 13).
ghost use Rattle.std.specs.Prelude.{IfOk, IfErr, None};
ghost use Rattle.asn1_model.specs.Per as Per;
ghost use Rattle.asn1_model.specs.Schema as Asn1;
ghost use Rattle.asn1_model.specs.Value as Asn1Value;
ghost use Rattle.asn1_schema_constraints.specs.Terms.{bounds_of, held_of};
ghost use Rattle.asn1_schema_forms.specs.Forms.{form_bounds};
ghost use Rattle.per_codec_laws.specs.Takes.{Front};
ghost use Rattle.per_codec_reading.specs.Fronts as fronts;
ghost use Rattle.per_codec_reading.specs.Fronts.{freedoms, Misses};

use crate::bounded::{read_between_in_form, read_bounded};
use crate::number_octets::read_number_octets;
use asn1_schema_constraints::Constraints;
use asn1_schema_errors::{DecodeError, held_number, number_from_octets};
use asn1_schema_forms::NumberForm;
use asn1_values_integers::IntegerType;
use per_codec_reading::{Cursor, PackedRules};
use std::alloc::Global;

/// Reads an INTEGER without a value constraint (X.691 13.2.4), as a value of the Rust type.
fn read_any_integer<I: IntegerType>(
    alloc: Global,
    cursor: &mut Cursor<'_>,
    rules: PackedRules,
) -> Result<I, DecodeError>
    ensures ok { IfOk result (λ x. Front (freedoms rules)
        (Per.form (fronts.is_aligned rules) (Asn1.integer (bounds_of None) (held_of None I.held))
        (Asn1Value.number (I.value x))) cursor.old cursor.new) }
    ensures only { IfErr result (Misses (freedoms rules)
        (Per.form (fronts.is_aligned rules) (Asn1.integer (bounds_of None) (held_of None I.held))) cursor.old) }
{
    let octets = read_number_octets(alloc, cursor, rules, true)?;
    number_from_octets(alloc, true, octets.as_slice())
}

/// Reads an INTEGER (X.691 13) under a value constraint, as a value of the Rust type.
///
/// # Errors
///
/// `Incomplete` if the bits end early, `ZeroLengthOfLength` if the number has no octets,
/// `ValueConstraintNotSatisfied` if the constraint does not admit it, `IntegerOverflow` if the Rust type does not
/// hold it, `NotValidCanonicalEncoding` if another form is canonical, in strict rules, the errors of a length
/// determinant, and `OutOfMemory`.
#[inline(always)]
pub fn read_integer<I: IntegerType>(
    alloc: Global,
    cursor: &mut Cursor<'_>,
    rules: PackedRules,
    constraints: &Constraints,
) -> Result<I, DecodeError>
    ensures ok { IfOk result (λ x. Front (freedoms rules)
        (Per.form (fronts.is_aligned rules)
        (Asn1.integer (bounds_of constraints.now.value) (held_of constraints.now.value I.held))
        (Asn1Value.number (I.value x))) cursor.old cursor.new) }
    ensures only { IfErr result (Misses (freedoms rules)
        (Per.form (fronts.is_aligned rules)
        (Asn1.integer (bounds_of constraints.now.value) (held_of constraints.now.value I.held))) cursor.old) }
{
    let Some(constraint) = constraints.value else {
        return read_any_integer(alloc, cursor, rules);
    };
    let number = read_bounded(alloc, cursor, rules, constraint)?;
    held_number(number)
}

/// Reads an INTEGER (X.691 13) between two bounds, in its form.
///
/// # Errors
///
/// `Incomplete` if the bits end early, `ValueConstraintNotSatisfied` if the number is not between the bounds, or the
/// count of its octets is too large, and in strict rules `InvalidPadding` if a bit of padding is not zero, and
/// `NotValidCanonicalEncoding` if the number has more octets than it needs.
#[inline(always)]
pub fn read_in_form(
    cursor: &mut Cursor<'_>,
    rules: PackedRules,
    form: &NumberForm,
) -> Result<i128, DecodeError>
    ensures ok { IfOk result (λ x. Front (freedoms rules)
        (Per.form (fronts.is_aligned rules) (Asn1.integer (form_bounds form.now) Asn1.wide_range)
        (Asn1Value.number x)) cursor.old cursor.new) }
    ensures only { IfErr result (Misses (freedoms rules)
        (Per.form (fronts.is_aligned rules) (Asn1.integer (form_bounds form.now) Asn1.wide_range)) cursor.old) }
{
    read_between_in_form(cursor, rules, form)
}
