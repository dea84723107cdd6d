//! The end of a message (X.691 11.1), and of an open type (X.691 11.2).
ghost use Rattle.std.specs.Prelude.{◌≡◌, ◌||◌, ◌==◌, OnOk, IfErr};
ghost use Rattle.asn1_model.specs.Per;
ghost use Rattle.per_codec_laws.specs.Takes.{Front, completion, Closes};
ghost use Rattle.per_codec_reading.specs.Fronts.{freedoms, IsFresh};
ghost use Rattle.per_codec_reading.specs.Closed.{IsClosed};

use crate::padding::skip_padding;
use crate::{Cursor, PackedRules};
use asn1_schema_errors::DecodeError;

/// Skips the padding of a message after its value: the bits up to the next octet, which are zero in strict rules, or
/// one zero octet if the value has no bits (X.691 11.1).
///
/// # Errors
///
/// `InvalidPadding` if that octet is not zero or, in strict rules, a bit is not, and `Incomplete` if the bits end
/// early.
#[inline(always)]
pub fn read_completion(cursor: &mut Cursor<'_>, rules: PackedRules) -> Result<(), DecodeError>
    ensures ok { OnOk result (Front (freedoms rules) (completion cursor.old.0) cursor.old cursor.new) }
    ensures only { IfErr result (λ _. (b : _) → Front (freedoms rules) (completion cursor.old.0) cursor.old b → ⊥) }
    ensures fresh { IfErr result IsFresh }
{
    if cursor.position() == 0 {
        if cursor.take_number(8)? != 0 {
            return Err(DecodeError::InvalidPadding);
        }
        return Ok(());
    }
    skip_padding(cursor, rules)?;
    Ok(())
}

/// Whether this number of bits may be left in an open type: none in strict rules (X.691 11.2).
#[inline(always)]
fn may_be_left(rules: PackedRules, left: usize) -> bool
    ensures { result ≡ (freedoms rules Per.octets_behind || left == 0) }
{
    !rules.is_strict() || left == 0
}

/// Skips what follows the value in an open type (X.691 11.2): its padding, and any octets after that if the rules are
/// not strict.
///
/// # Errors
///
/// Those of [`read_completion`], `InvalidPadding` if what is left is not whole octets, and `SurplusOctets` if any are
/// left, in strict rules.
#[inline(always)]
pub fn read_to_end(cursor: &mut Cursor<'_>, rules: PackedRules) -> Result<(), DecodeError>
    ensures ok { OnOk result (IsClosed (freedoms rules) cursor.old) }
    ensures only { IfErr result (λ _. (rest : _) (k : _) (b : _) → Closes (freedoms rules) cursor.old rest k b → ⊥) }
    ensures fresh { IfErr result IsFresh }
{
    read_completion(cursor, rules)?;
    let left = cursor.len();
    if left == 0 {
        return Ok(());
    }
    if left % 8 != 0 {
        return Err(DecodeError::InvalidPadding);
    }
    if !may_be_left(rules, left) {
        return Err(DecodeError::SurplusOctets);
    }
    Ok(())
}
