//! How the components of a SEQUENCE are decoded.
ghost use Rattle.std.specs.Prelude.{◌≡◌, ◌+◌, false, OnOk, OnErr, IfErr, IfOk};
ghost use Rattle.asn1_model.specs.Value.{fields, same};
ghost use Rattle.asn1_model.specs.Schema.{optional, by_default};
ghost use Rattle.asn1_schema_constraints.specs.Terms.{meant};
ghost use Rattle.asn1_schema_laws.specs.Tables.{optional_field_count, sequence_type};
ghost use Rattle.asn1_schema_laws.specs.Parts.{part_of, part_unless};
ghost use Rattle.asn1_schema_decode.specs.Reads.{Reads, Unread, ReadsPart, UnreadPart, ReadsOptional, UnreadOptional};
ghost use Rattle.asn1_schema_decode.specs.Reads.{ReadsDefault, UnreadDefault, ReadsTail, UnreadTail};
ghost use Rattle.asn1_schema_errors.specs.Calls.{DecoderCall, OneLevelMore, SameLevel};

use crate::decode::{Decode, Decoder};
use asn1_schema_constraints::Constraints;
use asn1_schema_errors::DecodeError;
use asn1_schema_tags::Tag;
use asn1_schema_types::{
    ComponentsOf, DefaultOf, DefaultedComponent, End, OptionalComponent, RequiredComponent,
};
use std::alloc::Global;
use std::marker::PhantomData;

/// Components that can be decoded.
pub trait DecodeComponents: ComponentsOf + Drop {
    /// Reads the components, and the end of the SEQUENCE.
    #[inline(always)]
    fn decode_components<D: Decoder>(alloc: Global, decoder: &mut D) -> Result<Self, DecodeError>
        ensures ok { IfOk result
            (λ x. ReadsTail D.step Self.table (D.levels decoder.old) (Self.root x) (Self.added x)
            decoder.old decoder.new) }
        ensures only { IfErr result
            (UnreadTail D.step D.too_few Self.table (D.levels decoder.old) decoder.old decoder.new) }
        ensures call { DecoderCall D.has_failed (OneLevelMore D.levels) decoder.old decoder.new result };
}

impl DecodeComponents for End {
    #[inline(always)]
    fn decode_components<D: Decoder>(_alloc: Global, decoder: &mut D) -> Result<Self, DecodeError> {
        decoder.end()?;
        Ok(End)
    }
}

impl<T: Decode, R: DecodeComponents> DecodeComponents for RequiredComponent<T, R> {
    #[inline(always)]
    fn decode_components<D: Decoder>(alloc: Global, decoder: &mut D) -> Result<Self, DecodeError> {
        let value = T::decode(alloc, decoder)?;
        let rest = R::decode_components(alloc, decoder)?;
        Ok(RequiredComponent(value, rest))
    }
}

impl<T: Decode, R: DecodeComponents> DecodeComponents for OptionalComponent<T, R> {
    #[inline(always)]
    fn decode_components<D: Decoder>(alloc: Global, decoder: &mut D) -> Result<Self, DecodeError> {
        let value = decoder.decode_optional(alloc)?;
        let rest = R::decode_components(alloc, decoder)?;
        Ok(OptionalComponent(value, rest))
    }
}

impl<V: DefaultOf<T> + Drop, T: Decode, R: DecodeComponents> DecodeComponents
    for DefaultedComponent<V, T, R> {
    #[inline(always)]
    fn decode_components<D: Decoder>(alloc: Global, decoder: &mut D) -> Result<Self, DecodeError> {
        let value = decoder.decode_default::<V, T>(alloc)?;
        let rest = R::decode_components(alloc, decoder)?;
        Ok(DefaultedComponent(value, PhantomData, rest))
    }
}

/// Decodes components and SEQUENCE types.
pub trait DecodeSequence: Decoder {
    /// Decodes an OPTIONAL component.
    #[inline(always)]
    final fn decode_optional<T: Decode>(&mut self, alloc: Global) -> Result<Option<T>, DecodeError>
    where
        Self: Sized,
        ensures ok { IfOk result
            (λ x. ReadsPart Self.step optional T.schema (Self.levels self.old) (part_of T.meaning x)
            self.old self.new) }
        ensures only { IfErr result
            (UnreadPart Self.step Self.too_few optional T.schema (Self.levels self.old) self.old self.new) }
        ensures call { DecoderCall Self.has_failed (SameLevel Self.levels) self.old self.new result }
    {
        self.decode_optional_with_tag(alloc, T::TAG)
    }

    /// As `decode_optional`, with another tag.
    #[inline(always)]
    final fn decode_optional_with_tag<T: Decode>(
        &mut self,
        alloc: Global,
        tag: Tag,
    ) -> Result<Option<T>, DecodeError>
    where
        Self: Sized,
        ensures ok { IfOk result
            (λ x. ReadsPart Self.step optional T.schema (Self.levels self.old) (part_of T.meaning x)
            self.old self.new) }
        ensures only { IfErr result
            (UnreadPart Self.step Self.too_few optional T.schema (Self.levels self.old) self.old self.new) }
        ensures call { DecoderCall Self.has_failed (SameLevel Self.levels) self.old self.new result }
    {
        let value = self.decode_optional_with_tag_and_constraints(alloc, tag, &T::constraints())?;
        Ok(value)
    }

    /// As `decode_optional`, under these constraints.
    #[inline(always)]
    final fn decode_optional_with_constraints<T: Decode>(
        &mut self,
        alloc: Global,
        constraints: &Constraints,
    ) -> Result<Option<T>, DecodeError>
    where
        Self: Sized,
        ensures ok { IfOk result
            (λ x. ReadsOptional Self.step (T.under (meant constraints.now)) (Self.levels self.old)
            (part_of T.meaning x) self.old self.new) }
        ensures only { IfErr result
            (UnreadOptional Self.step Self.too_few (T.under (meant constraints.now)) (Self.levels self.old)
            self.old self.new) }
        ensures call { DecoderCall Self.has_failed (SameLevel Self.levels) self.old self.new result }
    {
        self.decode_optional_with_tag_and_constraints(alloc, T::TAG, constraints)
    }

    /// As `decode_optional`, with another tag and under these constraints.
    #[inline(always)]
    final fn decode_optional_with_tag_and_constraints<T: Decode>(
        &mut self,
        alloc: Global,
        tag: Tag,
        constraints: &Constraints,
    ) -> Result<Option<T>, DecodeError>
    where
        Self: Sized,
        ensures ok { IfOk result
            (λ x. ReadsOptional Self.step (T.under (meant constraints.now)) (Self.levels self.old)
            (part_of T.meaning x) self.old self.new) }
        ensures only { IfErr result
            (UnreadOptional Self.step Self.too_few (T.under (meant constraints.now)) (Self.levels self.old)
            self.old self.new) }
        ensures call { DecoderCall Self.has_failed (SameLevel Self.levels) self.old self.new result }
    {
        let present = self.get_presence_bit()?;
        if !present {
            return Ok(None);
        }
        let value = T::decode_with_tag_and_constraints(alloc, self, tag, constraints)?;
        Ok(Some(value))
    }

    /// Decodes an OPTIONAL component with a further, explicit tag (X.680 31.2.8). PER and OER do not encode it.
    #[inline(always)]
    final fn decode_optional_with_explicit_prefix<T: Decode>(
        &mut self,
        alloc: Global,
        _tag: Tag,
    ) -> Result<Option<T>, DecodeError>
    where
        Self: Sized,
        ensures ok { IfOk result
            (λ x. ReadsPart Self.step optional T.schema (Self.levels self.old) (part_of T.meaning x)
            self.old self.new) }
        ensures only { IfErr result
            (UnreadPart Self.step Self.too_few optional T.schema (Self.levels self.old) self.old self.new) }
        ensures call { DecoderCall Self.has_failed (SameLevel Self.levels) self.old self.new result }
    {
        self.decode_optional(alloc)
    }

    /// Decodes a component with a default; if it is absent, its value is the default (X.680 25). If it is present and
    /// equal to the default, `note_default` is called, which a decoder of canonical rules, or a strict one, refuses
    /// (X.691 19.5 and X.696 16 in their canonical forms).
    #[inline(always)]
    final fn decode_default<V: DefaultOf<T>, T: Decode>(
        &mut self,
        alloc: Global,
    ) -> Result<T, DecodeError>
    where
        Self: Sized,
        ensures ok { IfOk result
            (λ x. ReadsPart Self.step (by_default V.value) T.schema (Self.levels self.old)
            (part_unless (same (T.meaning x) V.value) (T.meaning x)) self.old self.new) }
        ensures only { IfErr result
            (UnreadPart Self.step Self.too_few (by_default V.value) T.schema (Self.levels self.old) self.old self.new) }
        ensures call { DecoderCall Self.has_failed (SameLevel Self.levels) self.old self.new result }
    {
        self.decode_default_with_tag::<V, T>(alloc, T::TAG)
    }

    /// As `decode_default`, with another tag.
    #[inline(always)]
    final fn decode_default_with_tag<V: DefaultOf<T>, T: Decode>(
        &mut self,
        alloc: Global,
        tag: Tag,
    ) -> Result<T, DecodeError>
    where
        Self: Sized,
        ensures ok { IfOk result
            (λ x. ReadsPart Self.step (by_default V.value) T.schema (Self.levels self.old)
            (part_unless (same (T.meaning x) V.value) (T.meaning x)) self.old self.new) }
        ensures only { IfErr result
            (UnreadPart Self.step Self.too_few (by_default V.value) T.schema (Self.levels self.old) self.old self.new) }
        ensures call { DecoderCall Self.has_failed (SameLevel Self.levels) self.old self.new result }
    {
        let value = self.decode_default_with_tag_and_constraints::<V, T>(
            alloc,
            tag,
            &T::constraints(),
        )?;
        Ok(value)
    }

    /// As `decode_default`, under these constraints.
    #[inline(always)]
    final fn decode_default_with_constraints<V: DefaultOf<T>, T: Decode>(
        &mut self,
        alloc: Global,
        constraints: &Constraints,
    ) -> Result<T, DecodeError>
    where
        Self: Sized,
        ensures ok { IfOk result
            (λ x. ReadsDefault Self.step (T.under (meant constraints.now)) (Self.levels self.old) V.value
            (T.meaning x) self.old self.new) }
        ensures only { IfErr result
            (UnreadDefault Self.step Self.too_few (T.under (meant constraints.now)) (Self.levels self.old) V.value
            self.old self.new) }
        ensures call { DecoderCall Self.has_failed (SameLevel Self.levels) self.old self.new result }
    {
        self.decode_default_with_tag_and_constraints::<V, T>(alloc, T::TAG, constraints)
    }

    /// As `decode_default`, with another tag and under these constraints.
    #[inline(always)]
    final fn decode_default_with_tag_and_constraints<V: DefaultOf<T>, T: Decode>(
        &mut self,
        alloc: Global,
        tag: Tag,
        constraints: &Constraints,
    ) -> Result<T, DecodeError>
    where
        Self: Sized,
        ensures ok { IfOk result
            (λ x. ReadsDefault Self.step (T.under (meant constraints.now)) (Self.levels self.old) V.value
            (T.meaning x) self.old self.new) }
        ensures only { IfErr result
            (UnreadDefault Self.step Self.too_few (T.under (meant constraints.now)) (Self.levels self.old) V.value
            self.old self.new) }
        ensures call { DecoderCall Self.has_failed (SameLevel Self.levels) self.old self.new result }
    {
        let is_there = self.get_presence_bit()?;
        if !is_there {
            let Ok(default) = V::default_value(alloc) else {
                return Err(self.refuse(DecodeError::OutOfMemory));
            };
            return Ok(default);
        }
        let value = T::decode_with_tag_and_constraints(alloc, self, tag, constraints)?;
        let is_default = V::is_default(&value);
        if is_default {
            self.note_default()?;
        }
        Ok(value)
    }

    /// Decodes a SEQUENCE (X.680 25) of these components, `optional` of which may be absent.
    #[inline(always)]
    final fn decode_sequence_components<C: DecodeComponents>(
        &mut self,
        alloc: Global,
        tag: Tag,
        optional: usize,
    ) -> Result<C, DecodeError>
    where
        Self: Sized,
        requires presence_bits { optional ≡ optional_field_count C.table.root }
        requires plain { C.table.extensible ≡ false }
        ensures ok { IfOk result
            (λ x. Reads Self.step (sequence_type C.table) (Self.levels self.old) (fields (C.root x) (C.added x))
            self.old self.new) }
        ensures only { IfErr result
            (Unread Self.step Self.too_few (sequence_type C.table) (Self.levels self.old) self.old self.new) }
        ensures call { DecoderCall Self.has_failed (SameLevel Self.levels) self.old self.new result }
    {
        self.begin_sequence(tag, false, optional)?;
        let components = C::decode_components(alloc, self)?;
        Ok(components)
    }
}

impl<D: Decoder> DecodeSequence for D {}
