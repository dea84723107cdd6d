//! Units of one width after a length determinant, in one piece or in fragments (X.691 11.9).
ghost use Rattle.std.specs.Prelude.{◌≡◌, ◌+◌, ◌*◌, ◌<◌, ◌≤◌, ◌^◌, ◌++◌, IfOk, IfErr};
ghost use Rattle.asn1_model.specs.Numbers.{octet_bits};
ghost use Rattle.asn1_model.specs.Per as Per;
ghost use Rattle.asn1_values_bits.specs.BitStr.{bits_of, offset_of};
ghost use Rattle.asn1_values_bits.specs.Octets.{padded};
ghost use Rattle.per_codec_laws.specs.Takes.{Front};
ghost use Rattle.per_codec_reading.specs.Fronts.{freedoms, Completes, Misses, MissesRest};
ghost use Rattle.per_codec_reading.specs.Fronts as fronts;
ghost use Rattle.per_codec_reading.specs.Lengths.{IsLength, length_form};
ghost use Rattle.per_codec_reading.specs.Units.{counted_units, piece_form, units_after};
ghost use Rattle.per_codec_reading.specs.Runs.{units_in, IsLent, EndsWith, EndsWithLent, Continued};

use crate::length::{Length, read_length};
use crate::{Cursor, FRAGMENT, PackedRules};
use asn1_schema_errors::DecodeError;
use asn1_values_bits::{BitBuffer, BitStr};
use std::alloc::Global;

/// The bits of units.
#[derive(Drop)]
pub enum RunBits<'input> {
    /// All are one piece of the input.
    Lent(BitStr<'input>),
    /// They were in fragments, and are joined.
    Joined(BitBuffer),
}

/// Units that were read: their number and their bits.
#[derive(Drop)]
pub struct Run<'input> {
    /// The number of units.
    pub count: usize,
    /// Their bits.
    pub bits: RunBits<'input>,
}

/// A length determinant, and the bits of its units.
#[derive(Drop)]
struct Piece<'input> {
    length: Length,
    bits: BitStr<'input>,
}

/// Reads a length determinant, and its units.
#[inline(always)]
fn read_piece<'input>(
    cursor: &mut Cursor<'input>,
    rules: PackedRules,
    width: u32,
) -> Result<Piece<'input>, DecodeError>
    ensures ok { IfOk result (λ piece. Front (freedoms rules)
        (piece_form (fronts.is_aligned rules) width (piece.length, bits_of piece.bits)) cursor.old cursor.new) }
    ensures bound { IfOk result (λ piece. IsLength piece.length) }
    ensures last { IfOk result (λ piece. EndsWith (bits_of piece.bits) cursor.old cursor.new) }
    ensures only { IfErr result (Misses (freedoms rules) (piece_form (fronts.is_aligned rules) width) cursor.old) }
{
    let length = read_length(cursor, rules)?;
    let bits = cursor.take(length.count() * width as usize)?;
    Ok(Piece { length, bits })
}

/// Reads the units after a first fragment of `multiple` times 16384 units, and joins them to it.
fn read_further(
    alloc: Global,
    cursor: &mut Cursor<'_>,
    rules: PackedRules,
    width: u32,
    multiple: usize,
    bits: BitStr<'_>,
) -> Result<(usize, BitBuffer), DecodeError>
    requires { multiple ≤ 4 }
    ensures ok { IfOk result (λ all. Continued (freedoms rules)
        (units_after (freedoms rules Per.other_fragments) multiple (fronts.is_aligned rules) width)
        (multiple * 16384, bits_of bits.entry) (all.0, all.1) cursor.old cursor.new) }
    ensures only { IfErr result (Misses (freedoms rules)
        (units_after (freedoms rules Per.other_fragments) multiple (fronts.is_aligned rules) width) cursor.old) }
{
    let mut last = multiple;
    let mut total = multiple * FRAGMENT;
    let mut joined = BitBuffer::new(alloc);
    joined.extend_from_bitslice(bits)?;
    'fragments: loop {
        let piece = read_piece(cursor, rules, width)?;
        if !piece.length.may_follow(rules, last) {
            return Err(DecodeError::NotValidCanonicalEncoding);
        }
        joined.extend_from_bitslice(piece.bits)?;
        let Some(sum) = total.checked_add(piece.length.count()) else {
            return Err(DecodeError::OutOfMemory);
        };
        total = sum;
        match piece.length {
            Length::Short(_) => return Ok((total, joined)),
            Length::Fragment(further) => last = further,
        }
    }
}

/// Reads the units after a length determinant that was read. Fewer than 16384 units in one piece are borrowed.
/// Fragments of one to four times 16384 units, in any order if the rules are not strict, are joined; memory is
/// allocated only for units that the input has.
///
/// # Errors
///
/// Those of [`read_counted`].
#[inline(always)]
pub(crate) fn read_units_behind<'input>(
    alloc: Global,
    cursor: &mut Cursor<'input>,
    rules: PackedRules,
    width: u32,
    length: Length,
) -> Result<Run<'input>, DecodeError>
    requires { IsLength length }
    ensures ok { IfOk result (λ run. Completes (freedoms rules) (length_form (fronts.is_aligned rules) length)
        (counted_units (fronts.is_aligned rules) width (units_in run)) cursor.old cursor.new) }
    ensures lent { IfOk result (λ run. run.count < 16384 → IsLent run.bits) }
    ensures joined { IfOk result (λ run. IsLent run.bits → run.count < 16384) }
    ensures last { IfOk result (λ run. EndsWithLent run.bits cursor.old cursor.new) }
    ensures only { IfErr result (MissesRest (freedoms rules) (length_form (fronts.is_aligned rules) length)
        (counted_units (fronts.is_aligned rules) width) cursor.old) }
{
    match length {
        Length::Short(count) => {
            let bits = cursor.take(count * width as usize)?;
            Ok(Run {
                count,
                bits: RunBits::Lent(bits),
            })
        }
        Length::Fragment(multiple) => {
            let bits = cursor.take(multiple * FRAGMENT * width as usize)?;
            let all = read_further(alloc, cursor, rules, width, multiple, bits)?;
            Ok(Run {
                count: all.0,
                bits: RunBits::Joined(all.1),
            })
        }
    }
}

/// Reads units of `width` bits after a length determinant (X.691 11.9). Up to 16383 units in one piece are borrowed.
/// Fragments of one to four times 16384 units, in any order if the rules are not strict, are joined; memory is
/// allocated only for units that the input has.
///
/// # Errors
///
/// `Incomplete` if the bits end early, `NotValidCanonicalEncoding` if the largest fragments are not first, in strict
/// rules, the errors of a length determinant, and `OutOfMemory`.
#[inline(always)]
pub fn read_counted<'input>(
    alloc: Global,
    cursor: &mut Cursor<'input>,
    rules: PackedRules,
    width: u32,
) -> Result<Run<'input>, DecodeError>
    ensures ok { IfOk result (λ run. Front (freedoms rules)
        (counted_units (fronts.is_aligned rules) width (units_in run)) cursor.old cursor.new) }
    ensures lent { IfOk result (λ run. run.count < 16384 → IsLent run.bits) }
    ensures joined { IfOk result (λ run. IsLent run.bits → run.count < 16384) }
    ensures last { IfOk result (λ run. EndsWithLent run.bits cursor.old cursor.new) }
    ensures only { IfErr result (Misses (freedoms rules)
        (counted_units (fronts.is_aligned rules) width) cursor.old) }
{
    let length = read_length(cursor, rules)?;
    read_units_behind(alloc, cursor, rules, width, length)
}
