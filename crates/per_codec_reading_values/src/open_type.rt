//! Open types (X.691 11.2): octets after a length determinant or in fragments, read, or skipped as unknown additions
//! are (X.691 19.8 and 19.9). The decoder takes them by `Stretch::take_open_type`, reads the value from their start,
//! and ends with `per_codec_reading::completion::read_to_end`.
ghost use Rattle.std.specs.Prelude.{◌≡◌, ◌%◌, length, IfOk, OnOk, IfErr};
ghost use Rattle.per_codec_laws.specs.Takes.{Front, Skips};
ghost use Rattle.per_codec_reading.specs.Fronts as fronts;
ghost use Rattle.per_codec_reading.specs.Fronts.{freedoms, IsFresh, Misses};
ghost use Rattle.per_codec_reading.specs.Runs.{bits_in, EndsWithLent};
ghost use Rattle.per_codec_reading.specs.Units.{counted_units, piece_form};
ghost use Rattle.per_codec_reading_values.specs.Fields.{octets_form, HasPiece, HasUnits, LentInOneRun, NoSkip};

use crate::Stretch;
use asn1_schema_errors::DecodeError;
use per_codec_reading::length::{Length, read_length};
use per_codec_reading::{Cursor, PackedRules, RunBits, read_counted};
use std::alloc::Global;

/// Reads the octets of an open type after their length determinant (X.691 11.2). Those in one run are borrowed.
///
/// # Errors
///
/// `Incomplete` if the bits end early, `NotValidCanonicalEncoding` if the largest fragments are not first, in strict
/// rules, the errors of a length determinant, and `OutOfMemory`.
#[inline(always)]
pub(crate) fn read_open_type<'input>(
    alloc: Global,
    cursor: &mut Cursor<'input>,
    rules: PackedRules,
) -> Result<RunBits<'input>, DecodeError>
    ensures ok { IfOk result (λ bits. Front (freedoms rules)
        (octets_form (fronts.is_aligned rules) (bits_in bits)) cursor.old cursor.new) }
    ensures whole { IfOk result (λ bits. length (bits_in bits) % 8 ≡ 0) }
    ensures lent { IfOk result LentInOneRun }
    ensures last { IfOk result (λ bits. EndsWithLent bits cursor.old cursor.new) }
    ensures only { IfErr result (Misses (freedoms rules) (octets_form (fronts.is_aligned rules)) cursor.old) }
{
    let run = read_counted(alloc, cursor, rules, 8)?;
    Ok(run.bits)
}

/// Skips a length determinant and its octets.
fn skip_piece(cursor: &mut Cursor<'_>, rules: PackedRules) -> Result<Length, DecodeError>
    ensures ok { IfOk result (λ length. HasPiece (freedoms rules)
        (fronts.is_aligned rules) length cursor.old cursor.new) }
    ensures only { IfErr result (Misses (freedoms rules) (piece_form (fronts.is_aligned rules) 8) cursor.old) }
{
    let length = read_length(cursor, rules)?;
    let _octets = cursor.take(length.count() * 8)?;
    Ok(length)
}

/// Skips octets after a length determinant, in one piece or in fragments (X.691 11.9). It does not allocate.
fn skip_octets(cursor: &mut Cursor<'_>, rules: PackedRules) -> Result<(), DecodeError>
    ensures ok { OnOk result (HasUnits (freedoms rules) (fronts.is_aligned rules) cursor.old cursor.new) }
    ensures only { IfErr result (Misses (freedoms rules) (counted_units (fronts.is_aligned rules) 8) cursor.old) }
{
    // Any fragment may be the first, as after one of 65536 octets.
    let mut last = 4;
    'fragments: loop {
        let length = skip_piece(cursor, rules)?;
        if !length.may_follow(rules, last) {
            return Err(DecodeError::NotValidCanonicalEncoding);
        }
        match length {
            Length::Short(_) => return Ok(()),
            Length::Fragment(multiple) => last = multiple,
        }
    }
}

/// Skips the unknown additions whose presence bits are set, by their length determinants (X.691 19.8). It does not
/// allocate.
///
/// # Errors
///
/// `Incomplete` if the bits end early, `NotValidCanonicalEncoding` if the largest fragments are not first, in strict
/// rules, and the errors of a length determinant.
pub fn skip_unknown(
    cursor: &mut Cursor<'_>,
    rules: PackedRules,
    mut presence_bits: Stretch<'_>,
) -> Result<(), DecodeError>
    ensures ok { OnOk result (Skips (fronts.is_aligned rules)
        (freedoms rules) presence_bits.entry.place.1 cursor.old cursor.new) }
    ensures only { IfErr result (NoSkip (freedoms rules) (fronts.is_aligned rules)
        presence_bits.entry.place.1 cursor.old) }
    ensures fresh { IfErr result IsFresh }
{
    while let Some(is_there) = presence_bits.next_bit() {
        if is_there {
            skip_octets(cursor, rules)?;
        }
    }
    Ok(())
}
