//! How many bits of a string or of an open type are missing.
ghost use Rattle.std.specs.Prelude.{◌≡◌, ◌≤◌, ◌<◌, ◌-◌, ◌*◌, length, OnOk, IfErr};
ghost use Rattle.asn1_schema_constraints.specs.Terms.{size_of};
ghost use Rattle.per_codec_laws.specs.Takes.{Front};
ghost use Rattle.per_codec_reading.specs.Fronts.{freedoms, is_aligned};
ghost use Rattle.per_codec_reading.specs.Lengths.{length_form, IsLength};
ghost use Rattle.per_codec_reading.specs.Headings.{contents_have_padding, sized_units};
ghost use Rattle.per_codec_reading.specs.Units.{counted_units};
ghost use Rattle.per_codec_reading.specs.declared.sized.Contents.TheVariants.{Strings};
ghost use Rattle.per_codec_decoder.specs.Missing.{StillTooShort};

use asn1_schema_constraints::Sizes;
use per_codec_reading::length::{Length, read_length};
use per_codec_reading::{Cursor, LengthDeterminant, PackedRules, read_heading};
use per_codec_reading_values::Stretch;

/// One less than the number of bits that are missing after those that are left, for this number of octets.
fn lacking(cursor: &Cursor<'_>, octets: usize) -> usize
    ensures { result ≤ octets * 8 - length cursor.now.1 - 1 }
{
    octets
        .saturating_mul(8)
        .saturating_sub(cursor.len())
        .saturating_sub(1)
}

/// Skips the octets of a fragment after its length determinant (X.691 11.9.3.8).
///
/// # Errors
///
/// If the octets are not there, or are not those of a fragment: one less than the number of bits that are missing after
/// the length determinant.
fn pass_fragment(
    cursor: &mut Cursor<'_>,
    rules: PackedRules,
    determinant: Length,
) -> Result<(), usize>
    requires { IsLength determinant }
    ensures ok { OnOk result ((a : _) (n : _)
        → Front (freedoms rules) (length_form (is_aligned rules) determinant) a cursor.old
        → StillTooShort (freedoms rules) (counted_units (is_aligned rules) 8) cursor.new n
        → StillTooShort (freedoms rules) (counted_units (is_aligned rules) 8) a n) }
    ensures fewer { OnOk result (length cursor.new.1 < length cursor.old.1) }
    ensures only { IfErr result (λ missing. (a : _)
        → Front (freedoms rules) (length_form (is_aligned rules) determinant) a cursor.old
        → StillTooShort (freedoms rules) (counted_units (is_aligned rules) 8) a missing) }
{
    let missing = lacking(cursor, determinant.count());
    let Length::Fragment(_) = determinant else {
        return Err(missing);
    };
    let Ok(_) = cursor.take(determinant.count() * 8) else {
        return Err(missing);
    };
    Ok(())
}

/// One less than the number of bits that are missing at least, for octets after their length determinant (X.691 11.9);
/// 0 if none are known to be.
#[cold]
fn missing_octets(cursor: Cursor<'_>, rules: PackedRules) -> usize
    ensures { StillTooShort (freedoms rules) (counted_units (is_aligned rules) 8) cursor.entry result }
{
    let mut behind = cursor;
    'fragments: loop {
        let Ok(length) = read_length(&mut behind, rules) else {
            return 0;
        };
        if let Err(missing) = pass_fragment(&mut behind, rules, length) {
            return missing;
        }
    }
}

/// As `missing_octets`, for octets under a size constraint (X.691 17).
#[cold]
fn missing_of_string(cursor: Cursor<'_>, rules: PackedRules, sizes: Sizes) -> usize
    ensures { (held : _) → StillTooShort (freedoms rules)
        (sized_units (is_aligned rules) (size_of sizes) held 8 (contents_have_padding Strings 8))
        cursor.entry result }
{
    let mut behind = cursor;
    let Ok(heading) = read_heading(&mut behind, rules, sizes) else {
        return 0;
    };
    match heading.determinant {
        LengthDeterminant::Constrained(count) => lacking(&behind, count),
        LengthDeterminant::General(length) => {
            match pass_fragment(&mut behind, rules, length) {
                Ok(()) => missing_octets(behind, rules),
                Err(missing) => missing,
            }
        }
    }
}

/// As [`missing_octets`], of octets at a place. Out of line, so that a reader that is not refused keeps nothing for it.
#[cold]
#[inline(never)]
pub(crate) fn missing_octets_at(place: &Stretch<'_>, rules: PackedRules) -> usize
    ensures { StillTooShort (freedoms rules) (counted_units (is_aligned rules) 8) place.now.place result }
{
    missing_octets(place.cursor(), rules)
}

/// As [`missing_of_string`], of a string at a place.
#[cold]
#[inline(never)]
pub(crate) fn missing_of_string_at(place: &Stretch<'_>, rules: PackedRules, sizes: &Sizes) -> usize
    ensures { (held : _) → StillTooShort (freedoms rules)
        (sized_units (is_aligned rules) (size_of sizes.now) held 8 (contents_have_padding Strings 8))
        place.now.place result }
{
    missing_of_string(place.cursor(), rules, *sizes)
}
