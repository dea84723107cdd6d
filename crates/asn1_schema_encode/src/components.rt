//! How the components of a SEQUENCE are encoded.
ghost use Rattle.std.specs.Prelude.{◌≡◌, false, OnOk, OnErr, IfErr};
ghost use Rattle.asn1_model.specs.Value.{fields, same};
ghost use Rattle.asn1_model.specs.Schema.{optional, by_default};
ghost use Rattle.asn1_schema_laws.specs.Presents.{there, left_out};
ghost use Rattle.asn1_schema_laws.specs.Tables.{optional_field_count, sequence_type};
ghost use Rattle.asn1_schema_laws.specs.Parts.{part_of, part_unless};
ghost use Rattle.asn1_schema_constraints.specs.Terms.{meant};
ghost use Rattle.asn1_schema_encode.specs.Writes.{Writes, CannotWrite, WritesPart, CannotWritePart, WritesPresent};
ghost use Rattle.asn1_schema_encode.specs.Writes.{CannotWritePresent, WritesUnless, CannotWriteUnless, WritesTail};
ghost use Rattle.asn1_schema_encode.specs.Writes.{CannotWriteTail};
ghost use Rattle.asn1_schema_errors.specs.Calls.{EncoderCall};

use crate::encode::{Encode, Encoder};
use asn1_schema_constraints::Constraints;
use asn1_schema_errors::EncodeError;
use asn1_schema_tags::Tag;
use asn1_schema_types::{ComponentsOf, DefaultOf, Defaulted, End, Optional, Required};

/// Components that can be encoded.
pub trait EncodeComponents: ComponentsOf {
    /// Writes the records of the components, and the end of the SEQUENCE.
    fn encode_components<E: Encoder>(&self, encoder: &mut E) -> Result<(), EncodeError>
        ensures ok { OnOk result
            (WritesTail E.step Self.table (Self.root self.now) (Self.added self.now) encoder.old encoder.new) }
        ensures only { IfErr result
            (CannotWriteTail E.step Self.table (Self.root self.now) (Self.added self.now) encoder.old) }
        ensures call { EncoderCall E.has_failed E.front encoder.old encoder.new result };
}

impl EncodeComponents for End {
    fn encode_components<E: Encoder>(&self, encoder: &mut E) -> Result<(), EncodeError> {
        encoder.end()?;
        Ok(())
    }
}

impl<'a, T: Encode, R: EncodeComponents> EncodeComponents for Required<'a, T, R> {
    fn encode_components<E: Encoder>(&self, encoder: &mut E) -> Result<(), EncodeError> {
        self.0.encode(encoder)?;
        self.1.encode_components(encoder)?;
        Ok(())
    }
}

impl<'a, T: Encode, R: EncodeComponents> EncodeComponents for Optional<'a, T, R> {
    fn encode_components<E: Encoder>(&self, encoder: &mut E) -> Result<(), EncodeError> {
        encoder.encode_optional(self.0)?;
        self.1.encode_components(encoder)?;
        Ok(())
    }
}

impl<'a, V: DefaultOf<T>, T: Encode, R: EncodeComponents> EncodeComponents
    for Defaulted<'a, V, T, R> {
    fn encode_components<E: Encoder>(&self, encoder: &mut E) -> Result<(), EncodeError> {
        encoder.encode_default::<V, T>(self.0)?;
        self.2.encode_components(encoder)?;
        Ok(())
    }
}

/// Encodes components and SEQUENCE types.
pub trait EncodeSequence: Encoder {
    /// Encodes an OPTIONAL component that is present.
    final fn encode_some<T: Encode>(&mut self, value: &T) -> Result<(), EncodeError>
    where
        Self: Sized,
        ensures ok { OnOk result
            (WritesPart Self.step optional T.schema (there (T.meaning value.now)) self.old self.new) }
        ensures only { IfErr result
            (CannotWritePart Self.step optional T.schema (there (T.meaning value.now)) self.old) }
        ensures call { EncoderCall Self.has_failed Self.front self.old self.new result }
    {
        self.encode_some_with_tag(T::TAG, value)
    }

    /// As `encode_some`, with another tag.
    final fn encode_some_with_tag<T: Encode>(
        &mut self,
        tag: Tag,
        value: &T,
    ) -> Result<(), EncodeError>
    where
        Self: Sized,
        ensures ok { OnOk result
            (WritesPart Self.step optional T.schema (there (T.meaning value.now)) self.old self.new) }
        ensures only { IfErr result
            (CannotWritePart Self.step optional T.schema (there (T.meaning value.now)) self.old) }
        ensures call { EncoderCall Self.has_failed Self.front self.old self.new result }
    {
        self.encode_some_with_tag_and_constraints(tag, value, &T::constraints())?;
        Ok(())
    }

    /// As `encode_some`, with another tag and under these constraints.
    final fn encode_some_with_tag_and_constraints<T: Encode>(
        &mut self,
        tag: Tag,
        value: &T,
        constraints: &Constraints,
    ) -> Result<(), EncodeError>
    where
        Self: Sized,
        ensures ok { OnOk result
            (WritesPresent Self.step (T.under (meant constraints.now)) (T.meaning value.now) self.old self.new) }
        ensures only { IfErr result
            (CannotWritePresent Self.step (T.under (meant constraints.now)) (T.meaning value.now) self.old) }
        ensures call { EncoderCall Self.has_failed Self.front self.old self.new result }
    {
        self.encode_presence_bit(true)?;
        value.encode_with_tag_and_constraints(self, tag, constraints)?;
        Ok(())
    }

    /// Encodes an OPTIONAL component that is absent.
    final fn encode_none<T: Encode>(&mut self) -> Result<(), EncodeError>
    where
        Self: Sized,
        ensures ok { OnOk result (WritesPart Self.step optional T.schema left_out self.old self.new) }
        ensures only { IfErr result (CannotWritePart Self.step optional T.schema left_out self.old) }
        ensures call { EncoderCall Self.has_failed Self.front self.old self.new result }
    {
        self.encode_none_with_tag::<T>(T::TAG)
    }

    /// As `encode_none`, with another tag.
    final fn encode_none_with_tag<T: Encode>(&mut self, _tag: Tag) -> Result<(), EncodeError>
    where
        Self: Sized,
        ensures ok { OnOk result (WritesPart Self.step optional T.schema left_out self.old self.new) }
        ensures only { IfErr result (CannotWritePart Self.step optional T.schema left_out self.old) }
        ensures call { EncoderCall Self.has_failed Self.front self.old self.new result }
    {
        self.encode_presence_bit(false)?;
        Ok(())
    }

    /// Encodes an OPTIONAL component.
    final fn encode_optional<T: Encode>(&mut self, value: &Option<T>) -> Result<(), EncodeError>
    where
        Self: Sized,
        ensures ok { OnOk result
            (WritesPart Self.step optional T.schema (part_of T.meaning value.now) self.old self.new) }
        ensures only { IfErr result
            (CannotWritePart Self.step optional T.schema (part_of T.meaning value.now) self.old) }
        ensures call { EncoderCall Self.has_failed Self.front self.old self.new result }
    {
        match value {
            None => self.encode_none::<T>(),
            Some(inner) => self.encode_some(inner),
        }
    }

    /// Encodes a component with a default. It is left out if it is equal to the default, so a default is never encoded
    /// (X.691 19.5 and X.696 16 in their canonical forms). Allocates nothing itself.
    final fn encode_default<V: DefaultOf<T>, T: Encode>(
        &mut self,
        value: &T,
    ) -> Result<(), EncodeError>
    where
        Self: Sized,
        ensures ok { OnOk result
            (WritesPart Self.step (by_default V.value) T.schema
            (part_unless (same (T.meaning value.now) V.value) (T.meaning value.now)) self.old self.new) }
        ensures only { IfErr result
            (CannotWritePart Self.step (by_default V.value) T.schema
            (part_unless (same (T.meaning value.now) V.value) (T.meaning value.now)) self.old) }
        ensures call { EncoderCall Self.has_failed Self.front self.old self.new result }
    {
        self.encode_default_with_tag::<V, T>(T::TAG, value)
    }

    /// As `encode_default`, with another tag.
    final fn encode_default_with_tag<V: DefaultOf<T>, T: Encode>(
        &mut self,
        tag: Tag,
        value: &T,
    ) -> Result<(), EncodeError>
    where
        Self: Sized,
        ensures ok { OnOk result
            (WritesPart Self.step (by_default V.value) T.schema
            (part_unless (same (T.meaning value.now) V.value) (T.meaning value.now)) self.old self.new) }
        ensures only { IfErr result
            (CannotWritePart Self.step (by_default V.value) T.schema
            (part_unless (same (T.meaning value.now) V.value) (T.meaning value.now)) self.old) }
        ensures call { EncoderCall Self.has_failed Self.front self.old self.new result }
    {
        self.encode_default_with_tag_and_constraints::<V, T>(tag, value, &T::constraints())?;
        Ok(())
    }

    /// As `encode_default`, under these constraints.
    final fn encode_default_with_constraints<V: DefaultOf<T>, T: Encode>(
        &mut self,
        value: &T,
        constraints: &Constraints,
    ) -> Result<(), EncodeError>
    where
        Self: Sized,
        ensures ok { OnOk result
            (WritesUnless (same (T.meaning value.now) V.value) Self.step (T.under (meant constraints.now))
            (T.meaning value.now) self.old self.new) }
        ensures only { IfErr result
            (CannotWriteUnless (same (T.meaning value.now) V.value) Self.step (T.under (meant constraints.now))
            (T.meaning value.now) self.old) }
        ensures call { EncoderCall Self.has_failed Self.front self.old self.new result }
    {
        self.encode_default_with_tag_and_constraints::<V, T>(T::TAG, value, constraints)
    }

    /// As `encode_default`, with another tag and under these constraints.
    final fn encode_default_with_tag_and_constraints<V: DefaultOf<T>, T: Encode>(
        &mut self,
        tag: Tag,
        value: &T,
        constraints: &Constraints,
    ) -> Result<(), EncodeError>
    where
        Self: Sized,
        ensures ok { OnOk result
            (WritesUnless (same (T.meaning value.now) V.value) Self.step (T.under (meant constraints.now))
            (T.meaning value.now) self.old self.new) }
        ensures only { IfErr result
            (CannotWriteUnless (same (T.meaning value.now) V.value) Self.step (T.under (meant constraints.now))
            (T.meaning value.now) self.old) }
        ensures call { EncoderCall Self.has_failed Self.front self.old self.new result }
    {
        if V::is_default(value) {
            self.encode_presence_bit(false)?;
            return Ok(());
        }
        self.encode_presence_bit(true)?;
        value.encode_with_tag_and_constraints(self, tag, constraints)?;
        Ok(())
    }

    /// Encodes a SEQUENCE (X.680 25) of these components, `optional` of which may be absent.
    final fn encode_sequence_components<C: EncodeComponents>(
        &mut self,
        tag: Tag,
        optional: usize,
        components: &C,
    ) -> Result<(), EncodeError>
    where
        Self: Sized,
        requires presence_bits { optional ≡ optional_field_count C.table.root }
        requires plain { C.table.extensible ≡ false }
        ensures ok { OnOk result
            (Writes Self.step (sequence_type C.table) (fields (C.root components.now) (C.added components.now))
            self.old self.new) }
        ensures only { IfErr result
            (CannotWrite Self.step (sequence_type C.table) (fields (C.root components.now) (C.added components.now))
            self.old) }
        ensures call { EncoderCall Self.has_failed Self.front self.old self.new result }
    {
        self.begin_sequence(tag, false, optional)?;
        components.encode_components(self)?;
        Ok(())
    }
}

impl<E: Encoder> EncodeSequence for E {}
