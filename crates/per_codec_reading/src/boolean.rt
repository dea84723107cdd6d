//! Single bits, extension bits, BOOLEAN and NULL (X.691 12 and 18).
ghost use Rattle.std.specs.Prelude.{◌≡◌, [], ◌∷◌, IfOk, IfErr, OnOk};
ghost use Rattle.asn1_model.specs.Per as Per;
ghost use Rattle.asn1_model.specs.Schema as Asn1;
ghost use Rattle.asn1_model.specs.Value as Asn1Value;
ghost use Rattle.per_codec_laws.specs.Sizes.{extension_bit};
ghost use Rattle.per_codec_laws.specs.Takes.{Front};
ghost use Rattle.per_codec_reading.specs.Fronts as fronts;
ghost use Rattle.per_codec_reading.specs.Fronts.{freedoms, Misses};
ghost use Rattle.per_codec_reading.specs.Lengths.{one_bit};

use crate::{Cursor, PackedRules};
use asn1_schema_errors::DecodeError;

/// Reads a bit, such as an extension bit or a presence bit.
///
/// # Errors
///
/// `Incomplete` if there is none.
#[inline(always)]
pub fn read_bit(cursor: &mut Cursor<'_>, rules: PackedRules) -> Result<bool, DecodeError>
    ensures ok { IfOk result (λ bit. Front (freedoms rules) (one_bit bit) cursor.old cursor.new) }
    ensures only { IfErr result (Misses (freedoms rules) one_bit cursor.old) }
    ensures short { IfErr result (λ e. e ≡ DecodeError.Incomplete) }
{
    cursor.take_bit()
}

/// Reads an extension bit, if the type or size is extensible: whether a number of units, an item or an alternative is
/// outside the root (X.691 14.3, 16.6, 17.3, 20.4, 23.5 and 30.4).
///
/// # Errors
///
/// `Incomplete` if there is no bit.
#[inline(always)]
pub fn read_extension_bit(
    cursor: &mut Cursor<'_>,
    rules: PackedRules,
    is_extensible: bool,
) -> Result<bool, DecodeError>
    ensures ok { IfOk result (λ is_outside. Front (freedoms rules)
        (extension_bit is_extensible is_outside) cursor.old cursor.new) }
    ensures only { IfErr result (Misses (freedoms rules) (extension_bit is_extensible) cursor.old) }
{
    if !is_extensible {
        return Ok(false);
    }
    let is_outside = read_bit(cursor, rules)?;
    Ok(is_outside)
}

/// Reads a BOOLEAN (X.691 12).
///
/// # Errors
///
/// `Incomplete` if there is no bit.
#[inline(always)]
pub fn read_boolean(cursor: &mut Cursor<'_>, rules: PackedRules) -> Result<bool, DecodeError>
    ensures ok { IfOk result (λ b. Front (freedoms rules)
        (Per.form (fronts.is_aligned rules) Asn1.boolean (Asn1Value.truth b)) cursor.old cursor.new) }
    ensures only { IfErr result (Misses (freedoms rules)
        (Per.form (fronts.is_aligned rules) Asn1.boolean) cursor.old) }
    ensures short { IfErr result (λ e. e ≡ DecodeError.Incomplete) }
{
    read_bit(cursor, rules)
}

/// Reads a NULL (X.691 18), which has no bits.
#[inline(always)]
pub fn read_null(cursor: &mut Cursor<'_>, rules: PackedRules) -> Result<(), DecodeError>
    ensures ok { OnOk result (Front (freedoms rules)
        (Per.form (fronts.is_aligned rules) Asn1.null Asn1Value.nothing) cursor.old cursor.new) }
    ensures only { IfErr result (Misses (freedoms rules)
        (Per.form (fronts.is_aligned rules) Asn1.null) cursor.old) }
    ensures always { IfErr result (λ _. ⊥) }
{
    Ok(())
}
