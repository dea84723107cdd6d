//! OBJECT IDENTIFIER (X.691 24).
ghost use Rattle.std.specs.Prelude.{◌≡◌, IfOk, IfErr};
ghost use Rattle.asn1_model.specs.Per as Per;
ghost use Rattle.asn1_model.specs.Schema as Asn1;
ghost use Rattle.asn1_model.specs.Value as Asn1Value;
ghost use Rattle.per_codec_laws.specs.Takes.{Front};
ghost use Rattle.per_codec_reading.specs.Fronts.{freedoms, Misses};
ghost use Rattle.per_codec_reading.specs.Fronts as fronts;

use crate::counted_octets::read_counted_octets;
use crate::{Cursor, PackedRules};
use asn1_schema_errors::{DecodeError, identifier_fault};
use asn1_values_identifiers::{ObjectIdentifier, oid_from_octets};
use std::alloc::Global;

/// Reads an OBJECT IDENTIFIER (X.691 24): a length determinant and the contents (X.690 8.19).
///
/// # Errors
///
/// `InvalidObjectIdentifier` if the contents are empty or truncated, a subidentifier is padded or an arc does not fit
/// in 32 bits, `Incomplete` if the bits end early, `NotValidCanonicalEncoding` if the largest fragments are not first,
/// in strict rules, the errors of a length determinant, and `OutOfMemory`.
pub fn read_object_identifier(
    alloc: Global,
    cursor: &mut Cursor<'_>,
    rules: PackedRules,
) -> Result<ObjectIdentifier, DecodeError>
    ensures ok { IfOk result (λ x. Front (freedoms rules)
        (Per.form (fronts.is_aligned rules) Asn1.object_identifier (Asn1Value.arcs x)) cursor.old cursor.new) }
    ensures only { IfErr result (Misses (freedoms rules)
        (Per.form (fronts.is_aligned rules) Asn1.object_identifier) cursor.old) }
{
    let octets = read_counted_octets(alloc, cursor, rules)?;
    match oid_from_octets(alloc, octets.as_slice()) {
        Ok(identifier) => Ok(identifier),
        Err(error) => Err(identifier_fault(error)),
    }
}
