//! Bits that are taken as a whole: presence bits and bitmaps.
ghost use Rattle.std.specs.Prelude.{◌≡◌, ◌||◌, not, IfOk, IfErr};
ghost use Rattle.asn1_model.specs.Per as Per;
ghost use Rattle.per_codec_laws.specs.Takes.{Front};
ghost use Rattle.per_codec_reading.specs.Fronts as fronts;
ghost use Rattle.per_codec_reading.specs.Fronts.{freedoms, Misses};
ghost use Rattle.per_codec_reading.specs.Runs.{bits_in};
ghost use Rattle.per_codec_reading_values.specs.Fields.{field_form, few_form, bits_form};

use asn1_schema_errors::DecodeError;
use per_codec_reading::boolean::read_bit;
use per_codec_reading::numbers::read_number_within;
use per_codec_reading::{Cursor, PackedRules, RunBits, read_counted};
use std::alloc::Global;

/// A field that is taken as a whole.
#[derive(Clone, Copy, Debug, PartialEq, Eq)]
pub enum Field {
    /// A number of bits, such as the presence bits of a preamble (X.691 19.2).
    Bits(usize),
    /// A bitmap after its normally small length (X.691 19.7 and 19.8).
    Bitmap,
}

/// Takes `count` bits.
#[inline(always)]
fn read_bits<'input>(
    cursor: &mut Cursor<'input>,
    rules: PackedRules,
    count: usize,
) -> Result<RunBits<'input>, DecodeError>
    ensures ok { IfOk result (λ bits. Front (freedoms rules) (bits_form count (bits_in bits)) cursor.old cursor.new) }
    ensures only { IfErr result (Misses (freedoms rules) (bits_form count) cursor.old) }
{
    let bits = cursor.take(count)?;
    Ok(RunBits::Lent(bits))
}

/// Whether a number of bits after a general length determinant is accepted: in strict rules only if it has no form in
/// six bits (X.691 11.9.3.4).
#[inline(always)]
fn is_accepted(rules: PackedRules, count: usize) -> bool
    ensures { result ≡ (freedoms rules Per.long_small_number || not (Per.is_from_1_to_64 count)) }
{
    !rules.is_strict() || !(1 <= count && count <= 64)
}

/// Reads bits after a normally small length (X.691 11.9.3.4): up to 64 bits after a length of six bits, or any number
/// after a general length determinant.
#[inline(always)]
fn read_normally_few<'input>(
    alloc: Global,
    cursor: &mut Cursor<'input>,
    rules: PackedRules,
) -> Result<RunBits<'input>, DecodeError>
    ensures ok { IfOk result (λ bits. Front (freedoms rules)
        (few_form (fronts.is_aligned rules) (bits_in bits)) cursor.old cursor.new) }
    ensures only { IfErr result (Misses (freedoms rules) (few_form (fronts.is_aligned rules)) cursor.old) }
{
    let is_long = read_bit(cursor, rules)?;
    if is_long {
        let run = read_counted(alloc, cursor, rules, 1)?;
        if !is_accepted(rules, run.count) {
            return Err(DecodeError::NotValidCanonicalEncoding);
        }
        return Ok(run.bits);
    }
    let further = read_number_within(cursor, rules, 6, 63)?;
    let bits = cursor.take(further as usize + 1)?;
    Ok(RunBits::Lent(bits))
}

/// Takes a field of bits. Those in one piece are borrowed.
///
/// # Errors
///
/// `Incomplete` if the bits end early, `NotValidCanonicalEncoding` if another form is canonical, in strict rules, the
/// errors of a length determinant, and `OutOfMemory`.
#[inline(always)]
pub(crate) fn read_field<'input>(
    alloc: Global,
    cursor: &mut Cursor<'input>,
    rules: PackedRules,
    field: Field,
) -> Result<RunBits<'input>, DecodeError>
    ensures ok { IfOk result (λ bits. Front (freedoms rules)
        (field_form (fronts.is_aligned rules) field (bits_in bits)) cursor.old cursor.new) }
    ensures only { IfErr result (Misses (freedoms rules) (field_form (fronts.is_aligned rules) field) cursor.old) }
{
    match field {
        Field::Bits(count) => read_bits(cursor, rules, count),
        Field::Bitmap => read_normally_few(alloc, cursor, rules),
    }
}
