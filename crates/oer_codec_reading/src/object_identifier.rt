//! OBJECT IDENTIFIER (X.696 21).
ghost use Rattle.std.specs.Prelude.{◌≡◌, IfOk, IfErr};
ghost use Rattle.asn1_model.specs.Schema as Asn1;
ghost use Rattle.asn1_model.specs.Value as Asn1Value;
ghost use Rattle.oer_codec_reading.specs.Fronts.{freedoms, FrontOf, NoFront};

use crate::length::read_counted;
use crate::{Cursor, EncodingRules};
use asn1_schema_errors::{DecodeError, identifier_fault};
use asn1_values_identifiers::{ObjectIdentifier, oid_from_octets};
use std::alloc::Global;

/// Reads an OBJECT IDENTIFIER (X.696 21): a length determinant and the contents (X.690 8.19).
///
/// # Errors
///
/// `InvalidObjectIdentifier` if the contents are empty or truncated, a subidentifier is padded or an arc does not fit
/// in 32 bits, `Incomplete` if the octets end early, the errors of a length determinant, and `OutOfMemory`.
pub fn read_object_identifier(
    alloc: Global,
    cursor: &mut Cursor<'_>,
    rules: EncodingRules,
) -> Result<ObjectIdentifier, DecodeError>
    ensures ok { IfOk result (λ x. FrontOf (freedoms rules) Asn1.object_identifier (Asn1Value.arcs x) cursor.old
        cursor.new) }
    ensures only { IfErr result (NoFront (freedoms rules) Asn1.object_identifier cursor.old) }
{
    let octets = read_counted(cursor, rules)?;
    match oid_from_octets(alloc, octets) {
        Ok(identifier) => Ok(identifier),
        Err(error) => Err(identifier_fault(error)),
    }
}
