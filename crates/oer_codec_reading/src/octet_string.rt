//! OCTET STRING (X.696 14).
ghost use Rattle.std.specs.Prelude.{IfOk, IfErr};
ghost use Rattle.asn1_model.specs.Schema as Asn1;
ghost use Rattle.asn1_model.specs.Value as Asn1Value;
ghost use Rattle.asn1_schema_constraints.specs.Bounds.{counts_of};
ghost use Rattle.asn1_schema_constraints.specs.Terms.{sizes_of};
ghost use Rattle.oer_codec_reading.specs.Fronts.{freedoms, FrontOf, Misses, NoFront, Stands};
ghost use Rattle.oer_codec_reading.specs.Sized.{sized};

use crate::length::read_counted;
use crate::{Cursor, EncodingRules};
use asn1_schema_constraints::{Bounded, Constraints};
use asn1_schema_errors::DecodeError;

/// Reads octets, after a length determinant unless the size is fixed, and returns them borrowed.
///
/// # Errors
///
/// `Incomplete` if the octets end early, and those of [`read_counted`].
#[inline(always)]
pub fn read_sized<'input>(
    cursor: &mut Cursor<'input>,
    rules: EncodingRules,
    size: Option<usize>,
) -> Result<&'input [u8], DecodeError>
    ensures ok { IfOk result (λ octets. Stands (freedoms rules) (sized size octets.now) cursor.old cursor.new) }
    ensures only { IfErr result (Misses (freedoms rules) (sized size) cursor.old) }
{
    match size {
        Some(count) => {
            let octets = cursor.take(count)?;
            Ok(octets)
        }
        None => {
            let octets = read_counted(cursor, rules)?;
            Ok(octets)
        }
    }
}

/// Reads an OCTET STRING (X.696 14) under a size constraint, for a Rust type that holds `held`, and returns its octets
/// borrowed.
///
/// # Errors
///
/// `SizeConstraintNotSatisfied` if the constraint or the Rust type does not admit their number, `Incomplete` if they
/// end early, and the errors of a length determinant.
#[inline(always)]
pub fn read_octet_string<'input>(
    cursor: &mut Cursor<'input>,
    rules: EncodingRules,
    constraints: &Constraints,
    held: Bounded<usize>,
) -> Result<&'input [u8], DecodeError>
    ensures ok { IfOk result (λ octets. FrontOf (freedoms rules)
        (Asn1.octet_string (sizes_of constraints.now.size) (counts_of held)) (Asn1Value.octet_list octets.now)
        cursor.old cursor.new) }
    ensures only { IfErr result (NoFront (freedoms rules)
        (Asn1.octet_string (sizes_of constraints.now.size) (counts_of held)) cursor.old) }
{
    let sizes = constraints.sizes();
    let octets = read_sized(cursor, rules, sizes.fixed())?;
    if !sizes.admits(held, octets.len()) {
        return Err(DecodeError::SizeConstraintNotSatisfied);
    }
    Ok(octets)
}
