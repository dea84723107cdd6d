//! SEQUENCE and SET types by their tables of fields.
ghost use Rattle.std.specs.Prelude.{◌≡◌, ◌+◌, ℕ, OnOk, OnErr, IfOk, IfErr};
ghost use Rattle.asn1_model.specs.Value.{Parts, fields};
ghost use Rattle.asn1_schema_constraints.specs.Terms.{Meant};
ghost use Rattle.asn1_schema_laws.specs.Tables.{Table, sequence_type};
ghost use Rattle.asn1_schema_encode.specs.Writes.{Writes, CannotWrite, WritesTail, CannotWriteTail};
ghost use Rattle.asn1_schema_decode.specs.Reads.{Reads, Unread, ReadsTail, UnreadTail};
ghost use Rattle.asn1_schema_laws.specs.Forms.{Form, constructed_type};
ghost use Rattle.asn1_schema_constructed.specs.Constructed.{AreFields, AreAdditions};
ghost use Rattle.asn1_schema_errors.specs.Calls.{DecoderCall, EncoderCall, OneLevelMore, SameLevel};

use crate::Fields;
use asn1_schema_decode::Decoder;
use asn1_schema_encode::Encoder;
use asn1_schema_errors::{DecodeError, EncodeError};
use asn1_schema_tags::{Identifier, Tag};
use asn1_schema_types::AsnType;
use std::alloc::Global;

/// A type with components (X.680 25 and 27): its components, and how they are encoded and decoded one after another.
pub trait Constructed: AsnType + Drop {
    /// SEQUENCE or SET.
    ghost form: { Form };

    /// The components.
    ghost table: { Table };

    /// The root components of a value.
    ghost root: { Self → Parts };

    /// The additions of a value.
    ghost added: { Self → Parts };

    /// The fields of the root, in the order of the components.
    fn fields() -> Fields<'static>
        ensures { AreFields result.fields.now table.root };

    /// The fields of the additions, or `None` if there is no extension marker.
    fn extended_fields() -> Option<Fields<'static>>
        ensures { AreAdditions result table };

    /// Whether there is an extension marker.
    fn is_extensible() -> bool
        ensures { result ≡ table.extensible };

    /// Writes the records of the components, each once, and the end.
    fn write_fields<E: Encoder>(&self, encoder: &mut E) -> Result<(), EncodeError>
        ensures ok { OnOk result (WritesTail E.step table (root self.now) (added self.now) encoder.old encoder.new) }
        ensures only { IfErr result (CannotWriteTail E.step table (root self.now) (added self.now) encoder.old) }
        ensures call { EncoderCall E.has_failed E.front encoder.old encoder.new result };

    /// Reads the components, and the end.
    fn read_fields<D: Decoder>(alloc: Global, decoder: &mut D) -> Result<Self, DecodeError>
        ensures ok { IfOk result
            (λ x. ReadsTail D.step table (D.levels decoder.old) (root x) (added x) decoder.old decoder.new) }
        ensures only { IfErr result
            (UnreadTail D.step D.too_few table (D.levels decoder.old) decoder.old decoder.new) }
        ensures call { DecoderCall D.has_failed (OneLevelMore D.levels) decoder.old decoder.new result };

    /// A value means its components.
    ghost means: { (x : Self) → Self.meaning x ≡ fields (root x) (added x) };

    /// The type is that of the components, whatever constraints it has.
    ghost is_of: { (c : Meant) (n : ℕ) → Self.under c n ≡ constructed_type form table n };
}

/// Encodes types with components.
pub trait EncodeConstructed: Encoder {
    /// Encodes a SEQUENCE (X.680 25). Its table of fields gives the number of root components that may be absent, and
    /// whether there is an extension marker.
    final fn encode_sequence<T: Constructed>(
        &mut self,
        tag: Tag,
        value: &T,
        _identifier: Identifier,
    ) -> Result<(), EncodeError>
    where
        Self: Sized,
        ensures ok { OnOk result
            (Writes Self.step (sequence_type T.table) (fields (T.root value.now) (T.added value.now)) self.old
            self.new) }
        ensures only { IfErr result
            (CannotWrite Self.step (sequence_type T.table) (fields (T.root value.now) (T.added value.now)) self.old) }
        ensures call { EncoderCall Self.has_failed Self.front self.old self.new result }
    {
        let optional = T::fields().number_of_optional_and_default_fields();
        let extensible = T::is_extensible();
        self.begin_sequence(tag, extensible, optional)?;
        value.write_fields(self)?;
        Ok(())
    }
}

impl<E: Encoder> EncodeConstructed for E {}

/// Decodes types with components.
pub trait DecodeConstructed: Decoder {
    /// Decodes a SEQUENCE (X.680 25). Its table of fields gives the number of root components that may be absent, and
    /// whether there is an extension marker.
    final fn decode_sequence<T: Constructed>(
        &mut self,
        alloc: Global,
        tag: Tag,
    ) -> Result<T, DecodeError>
    where
        Self: Sized,
        ensures ok { IfOk result
            (λ x. Reads Self.step (sequence_type T.table) (Self.levels self.old) (fields (T.root x) (T.added x))
            self.old self.new) }
        ensures only { IfErr result
            (Unread Self.step Self.too_few (sequence_type T.table) (Self.levels self.old) self.old self.new) }
        ensures call { DecoderCall Self.has_failed (SameLevel Self.levels) self.old self.new result }
    {
        let optional = T::fields().number_of_optional_and_default_fields();
        let extensible = T::is_extensible();
        self.begin_sequence(tag, extensible, optional)?;
        let value = T::read_fields(alloc, self)?;
        Ok(value)
    }
}

impl<D: Decoder> DecodeConstructed for D {}
