//! How the extension additions of a SEQUENCE or SET are encoded.
ghost use Rattle.std.specs.Prelude.{◌≡◌, true, OnOk, OnErr, IfErr};
ghost use Rattle.asn1_model.specs.Value.{fields, end, same};
ghost use Rattle.asn1_model.specs.Schema.{required, optional, by_default};
ghost use Rattle.asn1_schema_laws.specs.Presents.{there};
ghost use Rattle.asn1_schema_laws.specs.Tables.{optional_field_count, sequence_type};
ghost use Rattle.asn1_schema_laws.specs.Parts.{part_of, part_unless};
ghost use Rattle.asn1_schema_constraints.specs.Terms.{meant};
ghost use Rattle.asn1_schema_encode.specs.Writes.{Writes, CannotWrite};
ghost use Rattle.asn1_schema_laws.specs.Additions.{group_type, group_part};
ghost use Rattle.asn1_schema_authored.specs.Writes.{WritesEnclosed, CannotWriteEnclosed, WritesAddition};
ghost use Rattle.asn1_schema_authored.specs.Writes.{CannotWriteAddition, WritesAdded, CannotWriteAdded};
ghost use Rattle.asn1_schema_errors.specs.Calls.{EncoderCall};

use crate::additions::{AdditionsOf, NoMore};
use crate::group::Group;
use crate::written::{AddedDefaulted, AddedGroup, AddedOptional, AddedRequired, ExtensionMarker};
use asn1_schema_constraints::Constraints;
use asn1_schema_encode::{Encode, EncodeComponents, Encoder};
use asn1_schema_errors::EncodeError;
use asn1_schema_tags::Tag;
use asn1_schema_types::DefaultOf;

/// Extension additions that can be encoded.
pub trait EncodeAdditions: AdditionsOf {
    /// Writes the records of the additions, and the end of the SEQUENCE or SET.
    fn encode_additions<E: Encoder>(&self, encoder: &mut E) -> Result<(), EncodeError>
        ensures ok { OnOk result (WritesAdded E.step Self.additions (Self.parts self.now) encoder.old encoder.new) }
        ensures only { IfErr result (CannotWriteAdded E.step Self.additions (Self.parts self.now) encoder.old) }
        ensures call { EncoderCall E.has_failed E.front encoder.old encoder.new result };
}

impl EncodeAdditions for NoMore {
    fn encode_additions<E: Encoder>(&self, encoder: &mut E) -> Result<(), EncodeError> {
        encoder.end()?;
        Ok(())
    }
}

impl<'a, T: Encode, R: EncodeAdditions> EncodeAdditions for AddedRequired<'a, T, R> {
    fn encode_additions<E: Encoder>(&self, encoder: &mut E) -> Result<(), EncodeError> {
        encoder.encode_required_extension_addition(self.0)?;
        self.1.encode_additions(encoder)?;
        Ok(())
    }
}

impl<'a, T: Encode, R: EncodeAdditions> EncodeAdditions for AddedOptional<'a, T, R> {
    fn encode_additions<E: Encoder>(&self, encoder: &mut E) -> Result<(), EncodeError> {
        encoder.encode_extension_addition(self.0)?;
        self.1.encode_additions(encoder)?;
        Ok(())
    }
}

impl<'a, V: DefaultOf<T>, T: Encode, R: EncodeAdditions> EncodeAdditions
    for AddedDefaulted<'a, V, T, R> {
    fn encode_additions<E: Encoder>(&self, encoder: &mut E) -> Result<(), EncodeError> {
        encoder.encode_extension_addition_with_default::<V, T>(self.0)?;
        self.2.encode_additions(encoder)?;
        Ok(())
    }
}

impl<'a, G: Group, R: EncodeAdditions> EncodeAdditions for AddedGroup<'a, G, R> {
    fn encode_additions<E: Encoder>(&self, encoder: &mut E) -> Result<(), EncodeError> {
        encoder.encode_extension_addition_group(self.0)?;
        self.1.encode_additions(encoder)?;
        Ok(())
    }
}

impl<A: EncodeAdditions> EncodeComponents for ExtensionMarker<A> {
    fn encode_components<E: Encoder>(&self, encoder: &mut E) -> Result<(), EncodeError> {
        let count = A::count();
        encoder.begin_additions(count)?;
        self.additions.encode_additions(encoder)?;
        Ok(())
    }
}

/// Encodes extension additions, and SEQUENCE types that have them.
pub trait EncodeExtension: Encoder {
    /// Encodes an addition that is present.
    final fn encode_required_extension_addition<T: Encode>(
        &mut self,
        value: &T,
    ) -> Result<(), EncodeError>
    where
        Self: Sized,
        ensures ok { OnOk result
            (WritesAddition Self.step required T.schema (there (T.meaning value.now)) self.old self.new) }
        ensures only { IfErr result
            (CannotWriteAddition Self.step required T.schema (there (T.meaning value.now)) self.old) }
        ensures call { EncoderCall Self.has_failed Self.front self.old self.new result }
    {
        self.encode_present_addition(T::TAG, value, &T::constraints())?;
        Ok(())
    }

    /// Encodes an addition that is present, with another tag and under these constraints.
    final fn encode_present_addition<T: Encode>(
        &mut self,
        tag: Tag,
        value: &T,
        constraints: &Constraints,
    ) -> Result<(), EncodeError>
    where
        Self: Sized,
        ensures ok { OnOk result
            (WritesEnclosed Self.step (T.under (meant constraints.now)) (T.meaning value.now) self.old self.new) }
        ensures only { IfErr result
            (CannotWriteEnclosed Self.step (T.under (meant constraints.now)) (T.meaning value.now) self.old) }
        ensures call { EncoderCall Self.has_failed Self.front self.old self.new result }
    {
        self.encode_addition(true)?;
        value.encode_with_tag_and_constraints(self, tag, constraints)?;
        self.end_addition()?;
        Ok(())
    }

    /// Encodes an addition that may be absent (X.680 25; X.691 19.7 to 19.9, X.696 16).
    final fn encode_extension_addition<T: Encode>(
        &mut self,
        value: &Option<T>,
    ) -> Result<(), EncodeError>
    where
        Self: Sized,
        ensures ok { OnOk result
            (WritesAddition Self.step optional T.schema (part_of T.meaning value.now) self.old self.new) }
        ensures only { IfErr result
            (CannotWriteAddition Self.step optional T.schema (part_of T.meaning value.now) self.old) }
        ensures call { EncoderCall Self.has_failed Self.front self.old self.new result }
    {
        let Some(inner) = value else {
            self.encode_addition(false)?;
            return Ok(());
        };
        self.encode_present_addition(T::TAG, inner, &T::constraints())?;
        Ok(())
    }

    /// Encodes an addition with a default. It is left out if it is equal to the default, so a default is never encoded
    /// (X.691 19.5 and X.696 16 in their canonical forms). Allocates nothing itself.
    final fn encode_extension_addition_with_default<V: DefaultOf<T>, T: Encode>(
        &mut self,
        value: &T,
    ) -> Result<(), EncodeError>
    where
        Self: Sized,
        ensures ok { OnOk result
            (WritesAddition Self.step (by_default V.value) T.schema
            (part_unless (same (T.meaning value.now) V.value) (T.meaning value.now)) self.old self.new) }
        ensures only { IfErr result
            (CannotWriteAddition Self.step (by_default V.value) T.schema
            (part_unless (same (T.meaning value.now) V.value) (T.meaning value.now)) self.old) }
        ensures call { EncoderCall Self.has_failed Self.front self.old self.new result }
    {
        if V::is_default(value) {
            self.encode_addition(false)?;
            return Ok(());
        }
        self.encode_present_addition(T::TAG, value, &T::constraints())?;
        Ok(())
    }

    /// Encodes the components of an extension addition group (X.680 25.1), and its end.
    final fn encode_group<G: Group>(&mut self, group: &G) -> Result<(), EncodeError>
    where
        Self: Sized,
        ensures ok { OnOk result
            (Writes Self.step (group_type G.components) (fields (G.parts group.now) end) self.old self.new) }
        ensures only { IfErr result
            (CannotWrite Self.step (group_type G.components) (fields (G.parts group.now) end) self.old) }
        ensures call { EncoderCall Self.has_failed Self.front self.old self.new result }
    {
        let optional = G::fields().number_of_optional_and_default_fields();
        self.begin_group(optional)?;
        group.write_fields(self)?;
        Ok(())
    }

    /// Encodes an extension addition group (X.680 25.1) with at least one component present.
    final fn encode_present_group<G: Group>(&mut self, group: &G) -> Result<(), EncodeError>
    where
        Self: Sized,
        ensures ok { OnOk result
            (WritesEnclosed Self.step (group_type G.components) (fields (G.parts group.now) end) self.old self.new) }
        ensures only { IfErr result
            (CannotWriteEnclosed Self.step (group_type G.components) (fields (G.parts group.now) end) self.old) }
        ensures call { EncoderCall Self.has_failed Self.front self.old self.new result }
    {
        self.encode_addition(true)?;
        self.encode_group(group)?;
        self.end_addition()?;
        Ok(())
    }

    /// Encodes an extension addition group (X.680 25.1). It is absent if none of its components is present.
    final fn encode_extension_addition_group<G: Group>(
        &mut self,
        value: &Option<G>,
    ) -> Result<(), EncodeError>
    where
        Self: Sized,
        ensures ok { OnOk result
            (WritesAddition Self.step optional (group_type G.components) (group_part G.parts value.now) self.old
            self.new) }
        ensures only { IfErr result
            (CannotWriteAddition Self.step optional (group_type G.components) (group_part G.parts value.now) self.old) }
        ensures call { EncoderCall Self.has_failed Self.front self.old self.new result }
    {
        let Some(group) = value else {
            self.encode_addition(false)?;
            return Ok(());
        };
        if group.is_empty() {
            self.encode_addition(false)?;
            return Ok(());
        }
        self.encode_present_group(group)?;
        Ok(())
    }

    /// Encodes a SEQUENCE (X.680 25) of these components with an extension marker; `optional` of its root components
    /// may be absent.
    final fn encode_extensible_components<C: EncodeComponents>(
        &mut self,
        tag: Tag,
        optional: usize,
        components: &C,
    ) -> Result<(), EncodeError>
    where
        Self: Sized,
        requires presence_bits { optional ≡ optional_field_count C.table.root }
        requires extensible { C.table.extensible ≡ true }
        ensures ok { OnOk result
            (Writes Self.step (sequence_type C.table) (fields (C.root components.now) (C.added components.now))
            self.old self.new) }
        ensures only { IfErr result
            (CannotWrite Self.step (sequence_type C.table) (fields (C.root components.now) (C.added components.now))
            self.old) }
        ensures call { EncoderCall Self.has_failed Self.front self.old self.new result }
    {
        self.begin_sequence(tag, true, optional)?;
        components.encode_components(self)?;
        Ok(())
    }
}

impl<E: Encoder> EncodeExtension for E {}
