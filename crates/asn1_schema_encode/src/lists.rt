//! How SEQUENCE OF types are encoded.

ghost use Rattle.std.specs.Prelude.{◌≡◌, Err, OnOk, OnErr, IfErr};
ghost use Rattle.asn1_model.specs.Value.{members};
ghost use Rattle.asn1_schema_laws.specs.Parts.{values_of};
ghost use Rattle.asn1_schema_types.specs.Told.{list_under};
ghost use Rattle.asn1_schema_encode.specs.Writes.{Writes, CannotWrite, WritesMembers, CannotWriteMembers};
ghost use Rattle.asn1_schema_encode.specs.Writes.{EndsMembers, CannotEndMembers};
ghost use Rattle.asn1_schema_errors.specs.Calls.{EncoderCall};

use crate::encode::{Encode, Encoder};
use asn1_schema_constraints::{Bounded, Constraints};
use asn1_schema_errors::EncodeError;
use asn1_schema_tags::Tag;

/// Encodes SEQUENCE OF types.
pub trait EncodeList: Encoder {
    /// Encodes a SEQUENCE OF (X.680 26) under a size constraint; `held` bounds the number of elements that the
    /// user-defined type can hold.
    final fn encode_sequence_of<T: Encode>(
        &mut self,
        tag: Tag,
        items: &[T],
        constraints: &Constraints,
        held: Bounded<usize>,
    ) -> Result<(), EncodeError>
    where
        Self: Sized,
        ensures ok { OnOk result (Writes Self.step (list_under constraints.now held T.schema)
            (members (values_of T.meaning items.now)) self.old self.new) }
        ensures only { IfErr result (CannotWrite Self.step (list_under constraints.now held T.schema)
            (members (values_of T.meaning items.now)) self.old) }
        ensures call { EncoderCall Self.has_failed Self.front self.old self.new result }
    {
        self.begin_list(tag, constraints, held, items.len())?;
        encode_members(self, items)?;
        Ok(())
    }
}

impl<E: Encoder> EncodeList for E {}

/// Encodes the elements of a SEQUENCE OF or SET OF that has begun, and its end.
///
/// # Errors
///
/// Those of an element and of the encoder.
#[inline]
pub fn encode_members<T: Encode, E: Encoder>(
    encoder: &mut E,
    items: &[T],
) -> Result<(), EncodeError>
    ensures ok { OnOk result
        (WritesMembers E.step T.schema (values_of T.meaning items.now) encoder.old encoder.new) }
    ensures only { IfErr result (CannotWriteMembers E.step T.schema (values_of T.meaning items.now) encoder.old) }
    ensures failed { OnErr result (E.has_failed encoder.new) }
    ensures front { E.front encoder.new ≡ E.front encoder.old }
    ensures after { result ≡ Err EncodeError.AlreadyFailed → E.has_failed encoder.old }
{
    for item in items {
        encoder.encode_further(true)?;
        item.encode(encoder)?;
    }
    end_members(encoder)?;
    Ok(())
}

/// Encodes the end of a SEQUENCE OF or SET OF after its last element. It is not inlined, so that the loop over the
/// elements stays small.
#[inline(never)]
fn end_members<E: Encoder>(encoder: &mut E) -> Result<(), EncodeError>
    ensures ok { OnOk result (EndsMembers E.step encoder.old encoder.new) }
    ensures only { IfErr result (CannotEndMembers E.step encoder.old) }
    ensures failed { OnErr result (E.has_failed encoder.new) }
    ensures front { E.front encoder.new ≡ E.front encoder.old }
    ensures after { result ≡ Err EncodeError.AlreadyFailed → E.has_failed encoder.old }
{
    encoder.encode_further(false)?;
    encoder.end()?;
    Ok(())
}
