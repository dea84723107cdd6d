//! Object identifiers (X.696 21).
ghost use Rattle.std.specs.Prelude.{◌≡◌, MatchResult, OnErr};
ghost use Rattle.asn1_model.specs.Form.{written};
ghost use Rattle.asn1_model.specs.Oer.{form};
ghost use Rattle.asn1_model.specs.Schema.{object_identifier};
ghost use Rattle.asn1_model.specs.Value.{arcs};
ghost use Rattle.asn1_model.specs.Versions.{Begins};
ghost use Rattle.oer_codec_writing.specs.Writing.{Adds, Refuses};

use crate::length::push_length;
use asn1_schema_errors::EncodeError;
use asn1_values_identifiers::{Oid, content_count, push_contents, subidentifiers_of};

/// Adds an OBJECT IDENTIFIER (X.696 21): a length determinant and the contents octets, without a buffer for them. An
/// identifier of a single arc has no contents.
///
/// # Errors
///
/// `OutOfMemory`; any other only if the value has no encoding.
pub fn push_identifier(octets: &mut Vec<u8>, value: &Oid) -> Result<(), EncodeError>
    ensures text { MatchResult result (λ _. Adds (written (form object_identifier (arcs value.now)) 0) octets.old.items
        octets.new.items) (Refuses (written (form object_identifier (arcs value.now)) 0)) }
    ensures kept { OnErr result (Begins octets.old.items octets.new.items) }
{
    let Some(parts) = subidentifiers_of(value) else {
        return Err(EncodeError::ValueConstraintNotSatisfied);
    };
    let (first, others) = parts;
    push_length(octets, content_count(first, others))?;
    push_contents(octets, first, others)?;
    Ok(())
}
