//! Enumeration and choice indices (X.691 14 and 23).
ghost use Rattle.std.specs.Prelude.{IfOk, IfErr};
ghost use Rattle.asn1_model.specs.Per as Per;
ghost use Rattle.per_codec_laws.specs.Takes.{Front};
ghost use Rattle.per_codec_reading.specs.Fronts as fronts;
ghost use Rattle.per_codec_reading.specs.Fronts.{freedoms, Misses};
ghost use Rattle.per_codec_reading_values.specs.Indices.{root_form, added_form, index_form};

use crate::small::read_normally_small;
use asn1_schema_errors::DecodeError;
use asn1_schema_tags::Chosen;
use per_codec_reading::boolean::read_extension_bit;
use per_codec_reading::numbers::read_constrained;
use per_codec_reading::{Cursor, PackedRules};
use std::alloc::Global;

/// An index below `count` in the root: a constrained whole number.
///
/// # Errors
///
/// `ValueConstraintNotSatisfied` if it is not below `count`, and the errors of a constrained whole number.
#[inline(always)]
fn read_root(
    cursor: &mut Cursor<'_>,
    rules: PackedRules,
    count: usize,
) -> Result<usize, DecodeError>
    ensures ok { IfOk result (λ place. Front (freedoms rules)
        (root_form (fronts.is_aligned rules) count place) cursor.old cursor.new) }
    ensures only { IfErr result (Misses (freedoms rules) (root_form (fronts.is_aligned rules) count) cursor.old) }
{
    if count == 0 {
        return Err(DecodeError::ValueConstraintNotSatisfied);
    }
    let place = read_constrained(cursor, rules, (count - 1) as u128)?;
    Ok(place as usize)
}

/// An index below `count` among the additions: a normally small number.
///
/// # Errors
///
/// `ValueConstraintNotSatisfied` if it is not below `count`, and the errors of a normally small number.
fn read_added(
    alloc: Global,
    cursor: &mut Cursor<'_>,
    rules: PackedRules,
    count: usize,
) -> Result<usize, DecodeError>
    ensures ok { IfOk result (λ place. Front (freedoms rules)
        (added_form (fronts.is_aligned rules) count place) cursor.old cursor.new) }
    ensures only { IfErr result (Misses (freedoms rules) (added_form (fronts.is_aligned rules) count) cursor.old) }
{
    let place = read_normally_small(alloc, cursor, rules)?;
    if place >= count as u128 {
        return Err(DecodeError::ValueConstraintNotSatisfied);
    }
    Ok(place as usize)
}

/// Reads an enumeration or choice index (X.691 14 and 23): below `roots` in the root, or below `others` among the
/// additions, if the type is extensible.
///
/// # Errors
///
/// `ValueConstraintNotSatisfied` if the index is out of range, and the errors of a constrained whole number and of a
/// normally small number.
#[inline(always)]
fn read_index(
    alloc: Global,
    cursor: &mut Cursor<'_>,
    rules: PackedRules,
    roots: usize,
    extensible: bool,
    others: usize,
) -> Result<Chosen, DecodeError>
    ensures ok { IfOk result (λ place. Front (freedoms rules)
        (index_form (fronts.is_aligned rules) roots extensible others place) cursor.old cursor.new) }
    ensures only { IfErr result (Misses (freedoms rules)
        (index_form (fronts.is_aligned rules) roots extensible others) cursor.old) }
{
    let is_added = read_extension_bit(cursor, rules, extensible)?;
    if is_added {
        let place = read_added(alloc, cursor, rules, others)?;
        return Ok(Chosen::addition(place));
    }
    let place = read_root(cursor, rules, roots)?;
    Ok(Chosen::root(place))
}

/// Reads an enumeration index (X.691 14).
///
/// # Errors
///
/// `DiscriminantValueNotFound` if the type has no item with the index, and the errors of a constrained whole number
/// and of a normally small number.
pub(crate) fn read_item_index(
    alloc: Global,
    cursor: &mut Cursor<'_>,
    rules: PackedRules,
    roots: usize,
    extensible: bool,
    others: usize,
) -> Result<Chosen, DecodeError>
    ensures ok { IfOk result (λ place. Front (freedoms rules)
        (index_form (fronts.is_aligned rules) roots extensible others place) cursor.old cursor.new) }
    ensures only { IfErr result (Misses (freedoms rules)
        (index_form (fronts.is_aligned rules) roots extensible others) cursor.old) }
{
    match read_index(alloc, cursor, rules, roots, extensible, others) {
        Err(DecodeError::ValueConstraintNotSatisfied) => {
            Err(DecodeError::DiscriminantValueNotFound)
        }
        answer => answer,
    }
}

/// Reads a choice index (X.691 23).
///
/// # Errors
///
/// `InvalidTagVariantOnChoice` if the type has no alternative with the index, and the errors of a constrained whole
/// number and of a normally small number.
#[inline(always)]
pub fn read_alternative_index(
    alloc: Global,
    cursor: &mut Cursor<'_>,
    rules: PackedRules,
    roots: usize,
    extensible: bool,
    others: usize,
) -> Result<Chosen, DecodeError>
    ensures ok { IfOk result (λ place. Front (freedoms rules)
        (index_form (fronts.is_aligned rules) roots extensible others place) cursor.old cursor.new) }
    ensures only { IfErr result (Misses (freedoms rules)
        (index_form (fronts.is_aligned rules) roots extensible others) cursor.old) }
{
    match read_index(alloc, cursor, rules, roots, extensible, others) {
        Err(DecodeError::ValueConstraintNotSatisfied) => {
            Err(DecodeError::InvalidTagVariantOnChoice)
        }
        answer => answer,
    }
}
