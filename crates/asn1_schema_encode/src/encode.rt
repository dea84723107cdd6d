//! The traits `Encoder` and `Encode`.
ghost use Rattle.std.specs.Prelude.{◌≡◌, ℕ, List, OnOk, OnErr, IfErr};
ghost use Rattle.asn1_model.specs.Schema.{utf8, wide_range};
ghost use Rattle.asn1_schema_errors.specs.declared.CodecKind.{CodecKind};
ghost use Rattle.asn1_schema_laws.specs.Records.{Record, flag, nil, whole, one_of};
ghost use Rattle.asn1_schema_laws.specs.Records.{identifier as object_identifier};
ghost use Rattle.asn1_schema_laws.specs.Records.{further};
ghost use Rattle.asn1_schema_laws.specs.Records.{sequence_begins, set_begins, group_begins, presence_bit};
ghost use Rattle.asn1_schema_laws.specs.Records.{additions_begin, addition, addition_ends, ends};
ghost use Rattle.asn1_schema_constraints.specs.Terms.{meant};
ghost use Rattle.asn1_schema_forms.specs.Forms.{form_bounds};
ghost use Rattle.asn1_schema_types.specs.Told.{whole_under, bits_under, octets_under, characters_under};
ghost use Rattle.asn1_schema_types.specs.Told.{list_begins_under, bag_begins_under};
ghost use Rattle.asn1_schema_encode.specs.Writes.{Refused, Writes, CannotWrite};
ghost use Rattle.asn1_schema_encode.specs.Told.{chosen_of};
ghost use Rattle.asn1_values_bits.specs.BitStr.{bits_of};
ghost use Rattle.asn1_schema_errors.specs.Calls.{EncoderCall};

use asn1_schema_constraints::{Bounded, Constraints};
use asn1_schema_errors::{CodecKind, EncodeError};
use asn1_schema_forms::NumberForm;
use asn1_schema_tags::{Chosen, Enumerated, EnumerationItems, Identifier, Tag, TypeItems};
use asn1_schema_types::AsnType;
use asn1_values_alphabets::StaticPermittedAlphabet;
use asn1_values_bits::BitStr;
use asn1_values_identifiers::Oid;
use asn1_values_integers::IntegerType;

/// An encoder of values, each given as a sequence of records, one per call. Apart from running out of memory, a call
/// fails only if no state follows the record. After an error each call returns `AlreadyFailed`, and no call does
/// before. No call changes the octets before those that are written (`front`). Tags and names of types are not
/// encoded.
pub trait Encoder {
    /// Relates the state before a record, the record, and the state after it.
    ghost step: { Self → Record → Self → Type 0 };

    /// An earlier call failed.
    ghost has_failed: { Self → Type 0 };

    /// The octets before those that are written. They never change, not even after an error. `step` does not mention
    /// them, so their use depends on what the encoder states where it is made and where its octets are taken: that of
    /// OER is made with what its buffer held, and `into_front` returns that again. An encoder that writes into its own
    /// buffer has none (`no_front`), and the clauses on them then say nothing.
    ghost front: { Self → List ℕ };

    /// The encoding rules.
    ghost rules: { Self → CodecKind };

    /// The encoding rules.
    fn codec(&self) -> CodecKind
        ensures { result ≡ rules self.now };

    /// BOOLEAN (X.680 18).
    fn encode_bool(
        &mut self,
        tag: Tag,
        value: bool,
        identifier: Identifier,
    ) -> Result<(), EncodeError>
        ensures ok { OnOk result (step self.old (flag value) self.new) }
        ensures only { IfErr result (Refused step (flag value) self.old) }
        ensures call { EncoderCall has_failed front self.old self.new result };

    /// NULL (X.680 24).
    fn encode_null(&mut self, tag: Tag, identifier: Identifier) -> Result<(), EncodeError>
        ensures ok { OnOk result (step self.old nil self.new) }
        ensures only { IfErr result (Refused step nil self.old) }
        ensures call { EncoderCall has_failed front self.old self.new result };

    /// INTEGER (X.680 19) under a value constraint.
    fn encode_integer<I: IntegerType>(
        &mut self,
        tag: Tag,
        constraints: &Constraints,
        value: &I,
        identifier: Identifier,
    ) -> Result<(), EncodeError>
        ensures ok { OnOk result (step self.old (whole_under constraints.now I.held (I.value value.now)) self.new) }
        ensures only { IfErr result (Refused step (whole_under constraints.now I.held (I.value value.now)) self.old) }
        ensures call { EncoderCall has_failed front self.old self.new result };

    /// INTEGER (X.680 19) between two bounds, in the form that was worked out of them: as `encode_integer` under these
    /// bounds as a value constraint.
    fn encode_number(&mut self, form: &NumberForm, number: i128) -> Result<(), EncodeError>
        ensures ok { OnOk result (step self.old (whole (form_bounds form.now) wide_range number) self.new) }
        ensures only { IfErr result (Refused step (whole (form_bounds form.now) wide_range number) self.old) }
        ensures call { EncoderCall has_failed front self.old self.new result }
    {
        self.encode_integer(
            Tag::INTEGER,
            &form.constraints(),
            &number,
            Identifier::INTEGER,
        )
    }

    /// ENUMERATED (X.680 20): an item of these items, by its number and its enumeration index.
    fn encode_item_of<I: EnumerationItems>(
        &mut self,
        tag: Tag,
        items: &I,
        item: &I::Item,
        identifier: Identifier,
    ) -> Result<(), EncodeError>
        ensures ok { OnOk result (step self.old
            (one_of (I.roots items.now) (I.extensible items.now) (I.additions items.now) (I.number item.now))
            self.new) }
        ensures only { IfErr result (Refused step
            (one_of (I.roots items.now) (I.extensible items.now) (I.additions items.now) (I.number item.now))
            self.old) }
        ensures call { EncoderCall has_failed front self.old self.new result };

    /// ENUMERATED (X.680 20): an item of a type.
    #[inline(always)]
    final fn encode_enumerated<T: Enumerated>(
        &mut self,
        tag: Tag,
        value: &T,
        identifier: Identifier,
    ) -> Result<(), EncodeError>
    where
        Self: Sized,
        ensures ok { OnOk result
            (step self.old (one_of T.roots T.extensible T.additions (T.number value.now)) self.new) }
        ensures only { IfErr result
            (Refused step (one_of T.roots T.extensible T.additions (T.number value.now)) self.old) }
        ensures call { EncoderCall has_failed front self.old self.new result }
    {
        self.encode_item_of(tag, &TypeItems::<T>::new(), value, identifier)?;
        Ok(())
    }

    /// BIT STRING (X.680 22) under a size constraint; `held` bounds the number of bits that the user-defined type can
    /// hold.
    fn encode_bit_string(
        &mut self,
        tag: Tag,
        constraints: &Constraints,
        held: Bounded<usize>,
        value: BitStr,
        identifier: Identifier,
    ) -> Result<(), EncodeError>
        ensures ok { OnOk result (step self.old (bits_under constraints.now held (bits_of value.entry)) self.new) }
        ensures only { IfErr result (Refused step (bits_under constraints.now held (bits_of value.entry)) self.old) }
        ensures call { EncoderCall has_failed front self.old self.new result };

    /// OCTET STRING (X.680 23) under a size constraint; `held` bounds the number of octets that the user-defined type
    /// can hold.
    fn encode_octet_string(
        &mut self,
        tag: Tag,
        constraints: &Constraints,
        held: Bounded<usize>,
        value: &[u8],
        identifier: Identifier,
    ) -> Result<(), EncodeError>
        ensures ok { OnOk result (step self.old (octets_under constraints.now held value.now) self.new) }
        ensures only { IfErr result (Refused step (octets_under constraints.now held value.now) self.old) }
        ensures call { EncoderCall has_failed front self.old self.new result };

    /// UTF8String (X.680 41) under a size constraint.
    fn encode_utf8_string(
        &mut self,
        tag: Tag,
        constraints: &Constraints,
        value: &str,
        identifier: Identifier,
    ) -> Result<(), EncodeError>
        ensures ok { OnOk result (step self.old (characters_under utf8 constraints.now value.now) self.new) }
        ensures only { IfErr result (Refused step (characters_under utf8 constraints.now value.now) self.old) }
        ensures call { EncoderCall has_failed front self.old self.new result };

    /// A restricted character string (X.680 41) of a kind with a permitted alphabet, under size and alphabet
    /// constraints.
    fn encode_characters<S: StaticPermittedAlphabet>(
        &mut self,
        tag: Tag,
        constraints: &Constraints,
        value: &S,
        identifier: Identifier,
    ) -> Result<(), EncodeError>
        ensures ok { OnOk result
            (step self.old (characters_under S.kind constraints.now (S.characters value.now)) self.new) }
        ensures only { IfErr result
            (Refused step (characters_under S.kind constraints.now (S.characters value.now)) self.old) }
        ensures call { EncoderCall has_failed front self.old self.new result };

    /// OBJECT IDENTIFIER (X.680 32).
    fn encode_object_identifier(
        &mut self,
        tag: Tag,
        value: Oid,
        identifier: Identifier,
    ) -> Result<(), EncodeError>
        ensures ok { OnOk result (step self.old (object_identifier value.entry) self.new) }
        ensures only { IfErr result (Refused step (object_identifier value.entry) self.old) }
        ensures call { EncoderCall has_failed front self.old self.new result };

    /// Begins a SEQUENCE OF (X.680 26) of `count` elements under a size constraint; `held` bounds the number of
    /// elements that the user-defined type can hold.
    fn begin_list(
        &mut self,
        tag: Tag,
        constraints: &Constraints,
        held: Bounded<usize>,
        count: usize,
    ) -> Result<(), EncodeError>
        ensures ok { OnOk result (step self.old (list_begins_under constraints.now held count) self.new) }
        ensures only { IfErr result (Refused step (list_begins_under constraints.now held count) self.old) }
        ensures call { EncoderCall has_failed front self.old self.new result };

    /// Begins a SET OF (X.680 28) of `count` elements under a size constraint; `held` bounds the number of elements
    /// that the user-defined type can hold. The elements are given in any order; the encoder writes them in the order
    /// of its rules (X.691 22 and X.696 19: ascending order of their complete encodings).
    fn begin_bag(
        &mut self,
        tag: Tag,
        constraints: &Constraints,
        held: Bounded<usize>,
        count: usize,
    ) -> Result<(), EncodeError>
        ensures ok { OnOk result (step self.old (bag_begins_under constraints.now held count) self.new) }
        ensures only { IfErr result (Refused step (bag_begins_under constraints.now held count) self.old) }
        ensures call { EncoderCall has_failed front self.old self.new result };

    /// Says whether another element follows.
    fn encode_further(&mut self, more: bool) -> Result<(), EncodeError>
        ensures ok { OnOk result (step self.old (further more) self.new) }
        ensures only { IfErr result (Refused step (further more) self.old) }
        ensures call { EncoderCall has_failed front self.old self.new result };

    /// Begins a SEQUENCE (X.680 25), with or without an extension marker; `optional` of its root components may be
    /// absent.
    fn begin_sequence(
        &mut self,
        tag: Tag,
        extensible: bool,
        optional: usize,
    ) -> Result<(), EncodeError>
        ensures ok { OnOk result (step self.old (sequence_begins extensible optional) self.new) }
        ensures only { IfErr result (Refused step (sequence_begins extensible optional) self.old) }
        ensures call { EncoderCall has_failed front self.old self.new result };

    /// Begins a SET (X.680 27), with or without an extension marker; `optional` of its root components may be absent.
    /// Its components are given in ascending order of their tags.
    fn begin_set(&mut self, tag: Tag, extensible: bool, optional: usize) -> Result<(), EncodeError>
        ensures ok { OnOk result (step self.old (set_begins extensible optional) self.new) }
        ensures only { IfErr result (Refused step (set_begins extensible optional) self.old) }
        ensures call { EncoderCall has_failed front self.old self.new result };

    /// Begins an extension addition group (X.680 25.1); `optional` of its components may be absent.
    fn begin_group(&mut self, optional: usize) -> Result<(), EncodeError>
        ensures ok { OnOk result (step self.old (group_begins optional) self.new) }
        ensures only { IfErr result (Refused step (group_begins optional) self.old) }
        ensures call { EncoderCall has_failed front self.old self.new result };

    /// Says whether the next component that may be absent is present.
    fn encode_presence_bit(&mut self, present: bool) -> Result<(), EncodeError>
        ensures ok { OnOk result (step self.old (presence_bit present) self.new) }
        ensures only { IfErr result (Refused step (presence_bit present) self.old) }
        ensures call { EncoderCall has_failed front self.old self.new result };

    /// Begins the `count` extension additions, after the root components of a type with an extension marker (X.680 25
    /// and 27).
    fn begin_additions(&mut self, count: usize) -> Result<(), EncodeError>
        ensures ok { OnOk result (step self.old (additions_begin count) self.new) }
        ensures only { IfErr result (Refused step (additions_begin count) self.old) }
        ensures call { EncoderCall has_failed front self.old self.new result };

    /// Says whether the next addition is present.
    fn encode_addition(&mut self, present: bool) -> Result<(), EncodeError>
        ensures ok { OnOk result (step self.old (addition present) self.new) }
        ensures only { IfErr result (Refused step (addition present) self.old) }
        ensures call { EncoderCall has_failed front self.old self.new result };

    /// Ends an addition that is present.
    fn end_addition(&mut self) -> Result<(), EncodeError>
        ensures ok { OnOk result (step self.old addition_ends self.new) }
        ensures only { IfErr result (Refused step addition_ends self.old) }
        ensures call { EncoderCall has_failed front self.old self.new result };

    /// Begins a CHOICE (X.680 29), given the tags of its root alternatives, whether it has an extension marker, the
    /// tags of its added alternatives, and the chosen one. `end` is called after the value of the alternative.
    fn begin_choice(
        &mut self,
        tag: Tag,
        roots: &[Tag],
        extensible: bool,
        additions: &[Tag],
        chosen: Chosen,
    ) -> Result<(), EncodeError>
        ensures ok { OnOk result (step self.old (chosen_of roots.now extensible additions.now chosen) self.new) }
        ensures only { IfErr result (Refused step (chosen_of roots.now extensible additions.now chosen) self.old) }
        ensures call { EncoderCall has_failed front self.old self.new result };

    /// Ends what was begun last and has not ended.
    fn end(&mut self) -> Result<(), EncodeError>
        ensures ok { OnOk result (step self.old ends self.new) }
        ensures only { IfErr result (Refused step ends self.old) }
        ensures call { EncoderCall has_failed front self.old self.new result };

    /// At most one state follows a record.
    ghost one_after: { (a : Self) (r : Record) (b c : Self) → step a r b → step a r c → b ≡ c };

    /// No state follows one that has failed.
    ghost none_after: { (a : Self) (r : Record) (b : Self) → has_failed a → step a r b → ⊥ };

    /// A state that follows a record has not failed.
    ghost goes_on: { (a : Self) (r : Record) (b : Self) → step a r b → has_failed b → ⊥ };

    /// No record changes the encoding rules.
    ghost same_rules: { (a : Self) (r : Record) (b : Self) → step a r b → rules b ≡ rules a };
}

/// A type whose values can be encoded.
pub trait Encode: AsnType {
    /// Writes each record of the value once, by its type under these constraints.
    fn encode_with_tag_and_constraints<E: Encoder>(
        &self,
        encoder: &mut E,
        tag: Tag,
        constraints: &Constraints,
    ) -> Result<(), EncodeError>
        ensures ok { OnOk result
            (Writes E.step (Self.under (meant constraints.now)) (Self.meaning self.now) encoder.old encoder.new) }
        ensures only { IfErr result
            (CannotWrite E.step (Self.under (meant constraints.now)) (Self.meaning self.now) encoder.old) }
        ensures call { EncoderCall E.has_failed E.front encoder.old encoder.new result };

    /// Writes each record of the value once, by its type.
    #[inline(always)]
    final fn encode<E: Encoder>(&self, encoder: &mut E) -> Result<(), EncodeError>
    where
        Self: Sized,
        ensures ok { OnOk result (Writes E.step Self.schema (Self.meaning self.now) encoder.old encoder.new) }
        ensures only { IfErr result (CannotWrite E.step Self.schema (Self.meaning self.now) encoder.old) }
        ensures call { EncoderCall E.has_failed E.front encoder.old encoder.new result }
    {
        self.encode_with_tag(encoder, Self::TAG)
    }

    /// As `encode`, with another tag.
    #[inline(always)]
    final fn encode_with_tag<E: Encoder>(
        &self,
        encoder: &mut E,
        tag: Tag,
    ) -> Result<(), EncodeError>
    where
        Self: Sized,
        ensures ok { OnOk result (Writes E.step Self.schema (Self.meaning self.now) encoder.old encoder.new) }
        ensures only { IfErr result (CannotWrite E.step Self.schema (Self.meaning self.now) encoder.old) }
        ensures call { EncoderCall E.has_failed E.front encoder.old encoder.new result }
    {
        self.encode_with_tag_and_constraints(encoder, tag, &Self::constraints())?;
        Ok(())
    }

    /// Writes each record of the value once, by its type under these constraints.
    #[inline(always)]
    final fn encode_with_constraints<E: Encoder>(
        &self,
        encoder: &mut E,
        constraints: &Constraints,
    ) -> Result<(), EncodeError>
    where
        Self: Sized,
        ensures ok { OnOk result
            (Writes E.step (Self.under (meant constraints.now)) (Self.meaning self.now) encoder.old encoder.new) }
        ensures only { IfErr result
            (CannotWrite E.step (Self.under (meant constraints.now)) (Self.meaning self.now) encoder.old) }
        ensures call { EncoderCall E.has_failed E.front encoder.old encoder.new result }
    {
        self.encode_with_tag_and_constraints(encoder, Self::TAG, constraints)
    }
}
