//! BOOLEAN and NULL (X.696 9 and 15).
ghost use Rattle.std.specs.Prelude.{◌≡◌, ◌⊎◌, true, false, IfOk, IfErr, OnOk};
ghost use Rattle.asn1_model.specs.Schema as Asn1;
ghost use Rattle.asn1_model.specs.Value as Asn1Value;
ghost use Rattle.oer_codec_reading.specs.Fronts.{freedoms, is_basic, FrontOf, NoFront};

use crate::{Cursor, EncodingRules};
use asn1_schema_errors::DecodeError;

/// Whether an octet is accepted as a BOOLEAN: in COER only 0x00 and 0xFF (X.696 9).
#[inline(always)]
fn is_taken(rules: EncodingRules, octet: u8) -> bool
    ensures taken { result ≡ true → (octet ≡ 0) ⊎ ((octet ≡ 255) ⊎ (is_basic rules ≡ true)) }
    ensures refused { result ≡ false → (octet ≡ 0 → ⊥) × (octet ≡ 255 → ⊥) × (is_basic rules ≡ false) }
{
    octet == 0x00 || octet == 0xFF || rules.is_oer()
}

/// The truth value of an octet.
#[inline(always)]
fn truth_of(octet: u8) -> bool
    ensures yes { result ≡ true → octet ≡ 0 → ⊥ }
    ensures no { result ≡ false → octet ≡ 0 }
{
    octet != 0x00
}

/// Reads a BOOLEAN (X.696 9): zero is false, and in OER any other octet is true.
///
/// # Errors
///
/// `Incomplete` if there is no octet, and `InvalidBool` if it is neither 0x00 nor 0xFF, in COER.
#[inline(always)]
pub fn read_boolean(cursor: &mut Cursor<'_>, rules: EncodingRules) -> Result<bool, DecodeError>
    ensures ok { IfOk result (λ b. FrontOf (freedoms rules) Asn1.boolean (Asn1Value.truth b) cursor.old cursor.new) }
    ensures only { IfErr result (NoFront (freedoms rules) Asn1.boolean cursor.old) }
    ensures no_memory { IfErr result (λ e. e ≡ DecodeError.OutOfMemory → ⊥) }
{
    let octet = cursor.take_octet()?;
    if !is_taken(rules, octet) {
        return Err(DecodeError::InvalidBool);
    }
    Ok(truth_of(octet))
}

/// Reads a NULL (X.696 15), which has no octets.
#[inline(always)]
pub fn read_null(cursor: &mut Cursor<'_>, rules: EncodingRules) -> Result<(), DecodeError>
    ensures ok { OnOk result (FrontOf (freedoms rules) Asn1.null Asn1Value.nothing cursor.old cursor.new) }
    ensures only { IfErr result (NoFront (freedoms rules) Asn1.null cursor.old) }
    ensures no_memory { IfErr result (λ e. e ≡ DecodeError.OutOfMemory → ⊥) }
{
    Ok(())
}
