//! Units after a general length determinant (X.691 11.9).
ghost use Rattle.std.specs.Prelude.{◌≡◌, ◌^◌, ◌<◌, length, MatchResult};
ghost use Rattle.asn1_model.specs.Per.{counted, counted_octets};
ghost use Rattle.per_codec_packing.specs.FieldLists.{field_list_at};
ghost use Rattle.per_codec_writing.specs.Headings.{form_due, determinants_of, IsDue};
ghost use Rattle.per_codec_writing.specs.Writing.{Adds, place};
ghost use Rattle.per_codec_rules.specs.Variants.{is_aligned};

use crate::{Due, Units, push_length_determinant};
use asn1_schema_errors::EncodeError;
use per_codec_packing::Packing;
use per_codec_rules::Variant;

/// Adds the units that are due and, while more follow another length determinant, this one and the units after it
/// (X.691 11.9.3.8). The only error is `OutOfMemory`.
#[cold]
fn push_fragments<U: Units>(
    output: &mut Packing,
    variant: Variant,
    first: Due,
    units: &U,
) -> Result<(), EncodeError>
    requires fits { length (U.forms units.now) < 2 ^ 64 }
    requires due { IsDue (length (U.forms units.now)) first }
    ensures { MatchResult result (λ _. Adds
        (field_list_at (form_due (is_aligned variant) first.units (determinants_of first.behind) (U.forms units.now))
        (place output.old)) output.old output.new) (λ e. e ≡ EncodeError.OutOfMemory) }
{
    let mut due = first;
    let mut from = 0;
    while let Some(count) = due.behind {
        units.push_range(output, from, from + due.units)?;
        from += due.units;
        due = push_length_determinant(output, variant, count)?;
    }
    units.push_range(output, from, from + due.units)?;
    Ok(())
}

/// Adds the units that are due, and those after further length determinants (X.691 11.9.3.8). The only error is
/// `OutOfMemory`.
#[inline(always)]
pub(crate) fn push_due<U: Units>(
    output: &mut Packing,
    variant: Variant,
    first: Due,
    units: &U,
) -> Result<(), EncodeError>
    requires fits { length (U.forms units.now) < 2 ^ 64 }
    requires due { IsDue (length (U.forms units.now)) first }
    ensures { MatchResult result (λ _. Adds
        (field_list_at (form_due (is_aligned variant) first.units (determinants_of first.behind) (U.forms units.now))
        (place output.old)) output.old output.new) (λ e. e ≡ EncodeError.OutOfMemory) }
{
    match first.behind {
        None => {
            units.push_range(output, 0, first.units)?;
            Ok(())
        }
        Some(_) => push_fragments(output, variant, first, units),
    }
}

/// Adds units after a general length determinant: from 16384 units on in fragments, the largest first, and the rest
/// after a short one (X.691 11.9).
///
/// # Errors
///
/// Only `OutOfMemory`.
#[inline(always)]
pub fn push_counted<U: Units>(
    output: &mut Packing,
    variant: Variant,
    units: &U,
) -> Result<(), EncodeError>
    ensures { MatchResult result (λ _. Adds
        (field_list_at (counted (is_aligned variant) (U.forms units.now)) (place output.old)) output.old output.new)
        (λ e. e ≡ EncodeError.OutOfMemory) }
{
    let due = push_length_determinant(output, variant, units.count())?;
    push_due(output, variant, due, units)?;
    Ok(())
}

/// Adds octets after a length determinant (X.691 11.9).
///
/// # Errors
///
/// Only `OutOfMemory`.
#[inline]
pub fn push_counted_octets(
    output: &mut Packing,
    variant: Variant,
    octets: &[u8],
) -> Result<(), EncodeError>
    ensures { MatchResult result (λ _. Adds
        (field_list_at (counted_octets (is_aligned variant) octets.now) (place output.old)) output.old output.new)
        (λ e. e ≡ EncodeError.OutOfMemory) }
{
    let units = octets;
    push_counted(output, variant, &units)?;
    Ok(())
}
