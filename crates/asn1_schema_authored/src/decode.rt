//! How the extension additions of a SEQUENCE or SET are decoded.
ghost use Rattle.std.specs.Prelude.{◌≡◌, ◌+◌, true, OnOk, OnErr, IfErr, IfOk};
ghost use Rattle.asn1_model.specs.Value.{fields, end, same};
ghost use Rattle.asn1_model.specs.Schema.{required, optional, by_default};
ghost use Rattle.asn1_schema_constraints.specs.Terms.{meant};
ghost use Rattle.asn1_schema_laws.specs.Presents.{there};
ghost use Rattle.asn1_schema_laws.specs.Tables.{optional_field_count, sequence_type};
ghost use Rattle.asn1_schema_laws.specs.Parts.{part_of, part_unless};
ghost use Rattle.asn1_schema_decode.specs.Reads.{Reads, Unread};
ghost use Rattle.asn1_schema_laws.specs.Additions.{group_type, group_part};
ghost use Rattle.asn1_schema_authored.specs.Reads.{ReadsExtension, UnreadExtension, ReadsExtensionDefault};
ghost use Rattle.asn1_schema_authored.specs.Reads.{UnreadExtensionDefault, ReadsAddition, UnreadAddition};
ghost use Rattle.asn1_schema_authored.specs.Reads.{ReadsAdded, UnreadAdded};
ghost use Rattle.asn1_schema_errors.specs.Calls.{DecoderCall, OneLevelMore, SameLevel};

use crate::additions::{
    AddedDefaultedComponent, AddedGroupComponent, AddedOptionalComponent, AddedRequiredComponent,
    AdditionsOf, CountOf, ExtensibleComponents, NoMore,
};
use crate::group::Group;
use asn1_schema_constraints::Constraints;
use asn1_schema_decode::{Decode, DecodeComponents, Decoder};
use asn1_schema_errors::DecodeError;
use asn1_schema_tags::Tag;
use asn1_schema_types::DefaultOf;
use std::alloc::Global;
use std::marker::PhantomData;

/// Extension additions that can be decoded.
pub trait DecodeAdditions: AdditionsOf + Drop {
    /// Reads the additions, and the end of the SEQUENCE or SET.
    #[inline(always)]
    fn decode_additions<D: Decoder>(alloc: Global, decoder: &mut D) -> Result<Self, DecodeError>
        ensures ok { IfOk result
            (λ x. ReadsAdded D.step Self.additions (D.levels decoder.old) (Self.parts x) decoder.old decoder.new) }
        ensures only { IfErr result
            (UnreadAdded D.step D.too_few Self.additions (D.levels decoder.old) decoder.old decoder.new) }
        ensures call { DecoderCall D.has_failed (OneLevelMore D.levels) decoder.old decoder.new result };
}

impl DecodeAdditions for NoMore {
    #[inline(always)]
    fn decode_additions<D: Decoder>(_alloc: Global, decoder: &mut D) -> Result<Self, DecodeError> {
        decoder.end()?;
        Ok(NoMore)
    }
}

impl<T: Decode, R: DecodeAdditions> DecodeAdditions for AddedRequiredComponent<T, R> {
    #[inline(always)]
    fn decode_additions<D: Decoder>(alloc: Global, decoder: &mut D) -> Result<Self, DecodeError> {
        let value = decoder.decode_required_extension_addition(alloc)?;
        let rest = R::decode_additions(alloc, decoder)?;
        Ok(AddedRequiredComponent(value, rest))
    }
}

impl<T: Decode, R: DecodeAdditions> DecodeAdditions for AddedOptionalComponent<T, R> {
    #[inline(always)]
    fn decode_additions<D: Decoder>(alloc: Global, decoder: &mut D) -> Result<Self, DecodeError> {
        let value = decoder.decode_extension_addition(alloc)?;
        let rest = R::decode_additions(alloc, decoder)?;
        Ok(AddedOptionalComponent(value, rest))
    }
}

impl<V: DefaultOf<T> + Drop, T: Decode, R: DecodeAdditions> DecodeAdditions
    for AddedDefaultedComponent<V, T, R> {
    #[inline(always)]
    fn decode_additions<D: Decoder>(alloc: Global, decoder: &mut D) -> Result<Self, DecodeError> {
        let value = decoder.decode_extension_addition_with_default::<V, T>(alloc)?;
        let rest = R::decode_additions(alloc, decoder)?;
        Ok(AddedDefaultedComponent(value, PhantomData, rest))
    }
}

impl<G: Group, R: DecodeAdditions> DecodeAdditions for AddedGroupComponent<G, R> {
    #[inline(always)]
    fn decode_additions<D: Decoder>(alloc: Global, decoder: &mut D) -> Result<Self, DecodeError> {
        let value = decoder.decode_extension_addition_group(alloc)?;
        let rest = R::decode_additions(alloc, decoder)?;
        Ok(AddedGroupComponent(value, rest))
    }
}

impl<M: CountOf<A> + Drop, A: DecodeAdditions> DecodeComponents for ExtensibleComponents<M, A> {
    #[inline(always)]
    fn decode_components<D: Decoder>(alloc: Global, decoder: &mut D) -> Result<Self, DecodeError> {
        let count = A::count();
        decoder.begin_additions(count)?;
        let additions = A::decode_additions(alloc, decoder)?;
        Ok(ExtensibleComponents(additions, PhantomData))
    }
}

/// Decodes extension additions, and SEQUENCE types that have them.
pub trait DecodeExtension: Decoder {
    /// Decodes an addition that is present in every value that this version of the type, or a newer one, encoded. If it
    /// is absent, the error is `RequiredExtensionNotPresent`.
    #[inline(always)]
    final fn decode_required_extension_addition<T: Decode>(
        &mut self,
        alloc: Global,
    ) -> Result<T, DecodeError>
    where
        Self: Sized,
        ensures ok { IfOk result
            (λ x. ReadsAddition Self.step required T.schema (Self.levels self.old) (there (T.meaning x))
            self.old self.new) }
        ensures only { IfErr result
            (UnreadAddition Self.step Self.too_few required T.schema (Self.levels self.old) self.old self.new) }
        ensures call { DecoderCall Self.has_failed (SameLevel Self.levels) self.old self.new result }
    {
        let present = self.get_addition()?;
        if !present {
            return Err(self.refuse(DecodeError::RequiredExtensionNotPresent));
        }
        let value = T::decode(alloc, self)?;
        self.end_addition()?;
        Ok(value)
    }

    /// Decodes an addition that may be absent (X.680 25; X.691 19.7 to 19.9, X.696 16).
    #[inline(always)]
    final fn decode_extension_addition<T: Decode>(
        &mut self,
        alloc: Global,
    ) -> Result<Option<T>, DecodeError>
    where
        Self: Sized,
        ensures ok { IfOk result
            (λ x. ReadsAddition Self.step optional T.schema (Self.levels self.old) (part_of T.meaning x)
            self.old self.new) }
        ensures only { IfErr result
            (UnreadAddition Self.step Self.too_few optional T.schema (Self.levels self.old) self.old self.new) }
        ensures call { DecoderCall Self.has_failed (SameLevel Self.levels) self.old self.new result }
    {
        self.decode_extension_addition_with_tag(alloc, T::TAG)
    }

    /// As `decode_extension_addition`, with another tag.
    #[inline(always)]
    final fn decode_extension_addition_with_tag<T: Decode>(
        &mut self,
        alloc: Global,
        tag: Tag,
    ) -> Result<Option<T>, DecodeError>
    where
        Self: Sized,
        ensures ok { IfOk result
            (λ x. ReadsAddition Self.step optional T.schema (Self.levels self.old) (part_of T.meaning x)
            self.old self.new) }
        ensures only { IfErr result
            (UnreadAddition Self.step Self.too_few optional T.schema (Self.levels self.old) self.old self.new) }
        ensures call { DecoderCall Self.has_failed (SameLevel Self.levels) self.old self.new result }
    {
        let value = self.decode_extension_addition_with_tag_and_constraints(
            alloc,
            tag,
            &T::constraints(),
        )?;
        Ok(value)
    }

    /// As `decode_extension_addition`, under these constraints.
    #[inline(always)]
    final fn decode_extension_addition_with_constraints<T: Decode>(
        &mut self,
        alloc: Global,
        constraints: &Constraints,
    ) -> Result<Option<T>, DecodeError>
    where
        Self: Sized,
        ensures ok { IfOk result
            (λ x. ReadsExtension Self.step (T.under (meant constraints.now)) (Self.levels self.old)
            (part_of T.meaning x) self.old self.new) }
        ensures only { IfErr result
            (UnreadExtension Self.step Self.too_few (T.under (meant constraints.now))
            (Self.levels self.old) self.old self.new) }
        ensures call { DecoderCall Self.has_failed (SameLevel Self.levels) self.old self.new result }
    {
        self.decode_extension_addition_with_tag_and_constraints(alloc, T::TAG, constraints)
    }

    /// As `decode_extension_addition`, under these constraints and with a further, explicit tag (X.680 31.2.8), which
    /// PER and OER do not encode.
    #[inline(always)]
    final fn decode_extension_addition_with_explicit_tag_and_constraints<T: Decode>(
        &mut self,
        alloc: Global,
        _tag: Tag,
        constraints: &Constraints,
    ) -> Result<Option<T>, DecodeError>
    where
        Self: Sized,
        ensures ok { IfOk result
            (λ x. ReadsExtension Self.step (T.under (meant constraints.now)) (Self.levels self.old)
            (part_of T.meaning x) self.old self.new) }
        ensures only { IfErr result
            (UnreadExtension Self.step Self.too_few (T.under (meant constraints.now))
            (Self.levels self.old) self.old self.new) }
        ensures call { DecoderCall Self.has_failed (SameLevel Self.levels) self.old self.new result }
    {
        self.decode_extension_addition_with_constraints(alloc, constraints)
    }

    /// As `decode_extension_addition`, with another tag and under these constraints.
    #[inline(always)]
    final fn decode_extension_addition_with_tag_and_constraints<T: Decode>(
        &mut self,
        alloc: Global,
        tag: Tag,
        constraints: &Constraints,
    ) -> Result<Option<T>, DecodeError>
    where
        Self: Sized,
        ensures ok { IfOk result
            (λ x. ReadsExtension Self.step (T.under (meant constraints.now)) (Self.levels self.old)
            (part_of T.meaning x) self.old self.new) }
        ensures only { IfErr result
            (UnreadExtension Self.step Self.too_few (T.under (meant constraints.now))
            (Self.levels self.old) self.old self.new) }
        ensures call { DecoderCall Self.has_failed (SameLevel Self.levels) self.old self.new result }
    {
        let present = self.get_addition()?;
        if !present {
            return Ok(None);
        }
        let value = T::decode_with_tag_and_constraints(alloc, self, tag, constraints)?;
        self.end_addition()?;
        Ok(Some(value))
    }

    /// Decodes an addition with a default; if it is absent, its value is the default (X.680 25). If it is present and
    /// equal to the default, `note_default` is called, which a decoder of canonical rules, or a strict one, refuses
    /// (X.691 19.5 and X.696 16 in their canonical forms).
    #[inline(always)]
    final fn decode_extension_addition_with_default<V: DefaultOf<T>, T: Decode>(
        &mut self,
        alloc: Global,
    ) -> Result<T, DecodeError>
    where
        Self: Sized,
        ensures ok { IfOk result
            (λ x. ReadsAddition Self.step (by_default V.value) T.schema (Self.levels self.old)
            (part_unless (same (T.meaning x) V.value) (T.meaning x)) self.old self.new) }
        ensures only { IfErr result
            (UnreadAddition Self.step Self.too_few (by_default V.value) T.schema
            (Self.levels self.old) self.old self.new) }
        ensures call { DecoderCall Self.has_failed (SameLevel Self.levels) self.old self.new result }
    {
        self.decode_extension_addition_with_default_and_tag::<V, T>(alloc, T::TAG)
    }

    /// As `decode_extension_addition_with_default`, with another tag.
    #[inline(always)]
    final fn decode_extension_addition_with_default_and_tag<V: DefaultOf<T>, T: Decode>(
        &mut self,
        alloc: Global,
        tag: Tag,
    ) -> Result<T, DecodeError>
    where
        Self: Sized,
        ensures ok { IfOk result
            (λ x. ReadsAddition Self.step (by_default V.value) T.schema (Self.levels self.old)
            (part_unless (same (T.meaning x) V.value) (T.meaning x)) self.old self.new) }
        ensures only { IfErr result
            (UnreadAddition Self.step Self.too_few (by_default V.value) T.schema
            (Self.levels self.old) self.old self.new) }
        ensures call { DecoderCall Self.has_failed (SameLevel Self.levels) self.old self.new result }
    {
        let value = self.decode_extension_addition_with_default_and_tag_and_constraints::<V, T>(
            alloc,
            tag,
            &T::constraints(),
        )?;
        Ok(value)
    }

    /// As `decode_extension_addition_with_default`, under these constraints.
    #[inline(always)]
    final fn decode_extension_addition_with_default_and_constraints<V: DefaultOf<T>, T: Decode>(
        &mut self,
        alloc: Global,
        constraints: &Constraints,
    ) -> Result<T, DecodeError>
    where
        Self: Sized,
        ensures ok { IfOk result
            (λ x. ReadsExtensionDefault Self.step (T.under (meant constraints.now)) (Self.levels self.old)
            V.value (T.meaning x) self.old self.new) }
        ensures only { IfErr result
            (UnreadExtensionDefault Self.step Self.too_few (T.under (meant constraints.now))
            (Self.levels self.old) V.value self.old self.new) }
        ensures call { DecoderCall Self.has_failed (SameLevel Self.levels) self.old self.new result }
    {
        self.decode_extension_addition_with_default_and_tag_and_constraints::<V, T>(
            alloc,
            T::TAG,
            constraints,
        )
    }

    /// As `decode_extension_addition_with_default`, with another tag and under these constraints.
    #[inline(always)]
    final fn decode_extension_addition_with_default_and_tag_and_constraints<
        V: DefaultOf<T>,
        T: Decode,
    >(&mut self, alloc: Global, tag: Tag, constraints: &Constraints) -> Result<T, DecodeError>
    where
        Self: Sized,
        ensures ok { IfOk result
            (λ x. ReadsExtensionDefault Self.step (T.under (meant constraints.now)) (Self.levels self.old)
            V.value (T.meaning x) self.old self.new) }
        ensures only { IfErr result
            (UnreadExtensionDefault Self.step Self.too_few (T.under (meant constraints.now))
            (Self.levels self.old) V.value self.old self.new) }
        ensures call { DecoderCall Self.has_failed (SameLevel Self.levels) self.old self.new result }
    {
        let present = self.get_addition()?;
        if !present {
            let Ok(default) = V::default_value(alloc) else {
                return Err(self.refuse(DecodeError::OutOfMemory));
            };
            return Ok(default);
        }
        let value = T::decode_with_tag_and_constraints(alloc, self, tag, constraints)?;
        self.end_addition()?;
        let is_default = V::is_default(&value);
        if is_default {
            self.note_default()?;
        }
        Ok(value)
    }

    /// Decodes the components of an extension addition group (X.680 25.1), and its end.
    #[inline(always)]
    final fn decode_group<G: Group>(&mut self, alloc: Global) -> Result<G, DecodeError>
    where
        Self: Sized,
        ensures ok { IfOk result
            (λ x. Reads Self.step (group_type G.components) (Self.levels self.old) (fields (G.parts x) end)
            self.old self.new) }
        ensures only { IfErr result
            (Unread Self.step Self.too_few (group_type G.components) (Self.levels self.old) self.old self.new) }
        ensures call { DecoderCall Self.has_failed (SameLevel Self.levels) self.old self.new result }
    {
        let optional = G::fields().number_of_optional_and_default_fields();
        self.begin_group(optional)?;
        let group = G::read_fields(alloc, self)?;
        Ok(group)
    }

    /// Decodes an extension addition group (X.680 25.1). If none of its components is present, it is `None`, and
    /// `note_empty` is called, which a decoder of canonical rules, or a strict one, refuses.
    #[inline(always)]
    final fn decode_extension_addition_group<G: Group>(
        &mut self,
        alloc: Global,
    ) -> Result<Option<G>, DecodeError>
    where
        Self: Sized,
        ensures ok { IfOk result
            (λ x. ReadsAddition Self.step optional (group_type G.components) (Self.levels self.old)
            (group_part G.parts x) self.old self.new) }
        ensures only { IfErr result
            (UnreadAddition Self.step Self.too_few optional (group_type G.components)
            (Self.levels self.old) self.old self.new) }
        ensures call { DecoderCall Self.has_failed (SameLevel Self.levels) self.old self.new result }
    {
        let present = self.get_addition()?;
        if !present {
            return Ok(None);
        }
        let group: G = self.decode_group(alloc)?;
        self.end_addition()?;
        if group.is_empty() {
            self.note_empty()?;
            return Ok(None);
        }
        Ok(Some(group))
    }

    /// Decodes a SEQUENCE (X.680 25) of these components with an extension marker; `optional` of its root components
    /// may be absent.
    #[inline(always)]
    final fn decode_extensible_components<C: DecodeComponents>(
        &mut self,
        alloc: Global,
        tag: Tag,
        optional: usize,
    ) -> Result<C, DecodeError>
    where
        Self: Sized,
        requires presence_bits { optional ≡ optional_field_count C.table.root }
        requires extensible { C.table.extensible ≡ true }
        ensures ok { IfOk result
            (λ x. Reads Self.step (sequence_type C.table) (Self.levels self.old) (fields (C.root x) (C.added x))
            self.old self.new) }
        ensures only { IfErr result
            (Unread Self.step Self.too_few (sequence_type C.table) (Self.levels self.old) self.old self.new) }
        ensures call { DecoderCall Self.has_failed (SameLevel Self.levels) self.old self.new result }
    {
        self.begin_sequence(tag, true, optional)?;
        let components = C::decode_components(alloc, self)?;
        Ok(components)
    }
}

impl<D: Decoder> DecodeExtension for D {}
