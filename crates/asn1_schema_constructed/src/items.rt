//! How enumerations are encoded and decoded.
ghost use Rattle.std.specs.Prelude.{◌≡◌, ℕ, OnOk, OnErr, IfOk, IfErr};
ghost use Rattle.asn1_model.specs.Schema.{enumerated};
ghost use Rattle.asn1_model.specs.Value.{item};
ghost use Rattle.asn1_schema_encode.specs.Writes.{Writes, CannotWrite};
ghost use Rattle.asn1_schema_decode.specs.Reads.{Reads, Unread};
ghost use Rattle.asn1_schema_errors.specs.Calls.{DecoderCall, EncoderCall, SameLevel};

use asn1_schema_decode::Decoder;
use asn1_schema_encode::Encoder;
use asn1_schema_errors::{DecodeError, EncodeError};
use asn1_schema_tags::{Enumerated, Identifier, Tag};
use asn1_schema_types::AsnType;

/// A user-defined enumeration.
pub trait EnumeratedType: Enumerated + AsnType {
    /// The type is that of these items, whatever constraints it has.
    ghost is_of: { (n : ℕ) → Self.schema n ≡ enumerated Self.roots Self.extensible Self.additions };

    /// A value means its item.
    ghost means: { (x : Self) → Self.meaning x ≡ item (Self.number x) };
}

/// Encodes enumerations.
pub trait EncodeItems: Encoder {
    /// Encodes an ENUMERATED (X.680 20).
    final fn encode_item<T: EnumeratedType>(
        &mut self,
        tag: Tag,
        value: &T,
    ) -> Result<(), EncodeError>
    where
        Self: Sized,
        ensures ok { OnOk result (Writes Self.step T.schema (T.meaning value.now) self.old self.new) }
        ensures only { IfErr result (CannotWrite Self.step T.schema (T.meaning value.now) self.old) }
        ensures call { EncoderCall Self.has_failed Self.front self.old self.new result }
    {
        self.encode_enumerated(tag, value, Identifier::ENUMERATED)?;
        Ok(())
    }
}

impl<E: Encoder> EncodeItems for E {}

/// Decodes enumerations.
pub trait DecodeItems: Decoder {
    /// Decodes an ENUMERATED (X.680 20).
    final fn decode_item<T: EnumeratedType>(&mut self, tag: Tag) -> Result<T, DecodeError>
    where
        Self: Sized,
        ensures ok { IfOk result
            (λ x. Reads Self.step T.schema (Self.levels self.old) (T.meaning x) self.old self.new) }
        ensures only { IfErr result (Unread Self.step Self.too_few T.schema (Self.levels self.old) self.old self.new) }
        ensures call { DecoderCall Self.has_failed (SameLevel Self.levels) self.old self.new result }
    {
        let value = self.decode_enumerated(tag)?;
        Ok(value)
    }
}

impl<D: Decoder> DecodeItems for D {}
