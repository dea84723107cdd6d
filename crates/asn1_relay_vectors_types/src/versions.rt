//! Sequences and sets that are newer versions of others.
ghost use Rattle.std.specs.Prelude.{refl, [], ◌∷◌};
ghost use Rattle.asn1_model.specs.Value.{fields};
ghost use Rattle.asn1_schema.proofs.Author.{constant_unfolds, default_gains, field_unfolds, gains_additions};
ghost use Rattle.asn1_schema.proofs.Author.{grown_field, no_fields, no_fields_unfold, same_tags, sequence_extends};
ghost use Rattle.asn1_schema.proofs.Author.{sequence_unfolds, set_gains_additions, set_of, set_tag, set_unfolds};
ghost use Rattle.asn1_schema.proofs.Author.{type_sequence, value_sequence};
ghost use Rattle.asn1_schema_laws.specs.Tables.{no_field};
ghost use Rattle.asn1_relay_types.specs.Defaults.{flag_table, new_true_stands, old_true_stands, one_optional};
ghost use Rattle.asn1_relay_vectors_types.specs.Growing.{bag_extends, boolean_stays, group_extends, optional_stays};
ghost use Rattle.asn1_relay_vectors_types.specs.Growing.{required_stays};
ghost use Rattle.asn1_relay_vectors_types.specs.Unfolding.{bag_unfolds, group_unfolds, list_unfolds, nest_unfolds};

use crate::listed::{Listed, Sequence};
use crate::written::{Lent, WriteComponents};
use asn1_relay_types::{Nest, New, NewDefault, Old, OldDefault};
use asn1_schema::{
    AddedGroupComponent, AddedOptionalComponent, AddedRequiredComponent, AdditionsOf, Components,
    ComponentsOf, Constrained, DecodeComponents, DecodeError, DecodeExtension, DecodeSequence,
    Decoder, Described, EncodeError, EncodeExtension, EncodeSequence, Encoder, End, Extends,
    ExtendsComponents, ExtensibleComponents, Heading, Implicit, NoAddition, NoMore, OneAddition,
    OptionalComponent, RequiredComponent, Set, SetOf, SizeRange, Tag, TwoAdditions, tag,
};
use asn1_schema_example::grown::GrownFields;
use asn1_values::{Integer, OctetString};
use std::alloc::Global;

/// A type with an implicit context-specific tag.
type Tagged<const NUMBER: u32, T> = Implicit<tag::Context<NUMBER>, T>;

/// SEQUENCE (SIZE (1..2)) OF.
type ListOfOneOrTwo<T> = Constrained<SizeRange<1, 2>, Vec<T>>;

/// A BOOLEAN, and these extension additions.
type Flagged<M, A> = RequiredComponent<bool, ExtensibleComponents<M, A>>;

/// SEQUENCE {a BOOLEAN, ..., n Nest OPTIONAL}.
pub type Nested = Sequence<NestedForm>;

type Nests = AddedOptionalComponent<Nest, NoMore>;

type NestedForm = Flagged<OneAddition, Nests>;

impl Listed for NestedForm {
    ghost form = { ⟦<NestedForm as ComponentsOf>⟧.table };

    ghost value = { λ x. fields (⟦<NestedForm as ComponentsOf>⟧.root x) (⟦<NestedForm as ComponentsOf>⟧.added x) };

    ghost lawful = { type_sequence _ refl (⟦<NestedForm as ComponentsOf>⟧.typed tt) refl };

    ghost each = { λ x. value_sequence _ (⟦<NestedForm as ComponentsOf>⟧.valued tt x) };

    fn write<E: Encoder>(&self, encoder: &mut E, tag: Tag) -> Result<(), EncodeError> {
        encoder.encode_extensible_components(tag, 0, &Lent(self))
    }

    fn read<D: Decoder>(alloc: Global, decoder: &mut D, tag: Tag) -> Result<Self, DecodeError> {
        decoder.decode_extensible_components(alloc, tag, 0)
    }
}

/// A BOOLEAN, and the extension addition.
impl Extends<Old> for Nested {
    ghost extends = { gains_additions _ ⟦<Nests as AdditionsOf>⟧.additions ⟦<Old as Described>⟧.typed.lawful refl };

    ghost old_unfolds = { sequence_unfolds _ (field_unfolds constant_unfolds no_fields_unfold) no_fields_unfold };

    ghost unfolds = { sequence_unfolds _ (field_unfolds constant_unfolds no_fields_unfold)
        (field_unfolds nest_unfolds no_fields_unfold) };
}

/// SEQUENCE {a BOOLEAN, ..., b INTEGER (0..255) OPTIONAL, c [1] OCTET STRING OPTIONAL}.
pub type Newest = Sequence<NewestForm>;

type Third = AddedOptionalComponent<Tagged<1, OctetString>, NoMore>;

type SecondAndThird = AddedOptionalComponent<u8, Third>;

type NewestForm = Flagged<TwoAdditions, SecondAndThird>;

impl Listed for NewestForm {
    ghost form = { ⟦<NewestForm as ComponentsOf>⟧.table };

    ghost value = { λ x. fields (⟦<NewestForm as ComponentsOf>⟧.root x) (⟦<NewestForm as ComponentsOf>⟧.added x) };

    ghost lawful = { type_sequence _ refl (⟦<NewestForm as ComponentsOf>⟧.typed tt) refl };

    ghost each = { λ x. value_sequence _ (⟦<NewestForm as ComponentsOf>⟧.valued tt x) };

    fn write<E: Encoder>(&self, encoder: &mut E, tag: Tag) -> Result<(), EncodeError> {
        encoder.encode_extensible_components(tag, 0, &Lent(self))
    }

    fn read<D: Decoder>(alloc: Global, decoder: &mut D, tag: Tag) -> Result<Self, DecodeError> {
        decoder.decode_extensible_components(alloc, tag, 0)
    }
}

/// The components of the version before it, and `c`.
impl Extends<New> for Newest {
    ghost extends = { gains_additions _ ⟦<Third as AdditionsOf>⟧.additions ⟦<New as Described>⟧.typed.lawful refl };

    ghost old_unfolds = { sequence_unfolds _ (field_unfolds constant_unfolds no_fields_unfold)
        (field_unfolds constant_unfolds no_fields_unfold) };

    ghost unfolds = { sequence_unfolds _ (field_unfolds constant_unfolds no_fields_unfold)
        (field_unfolds constant_unfolds (field_unfolds constant_unfolds no_fields_unfold)) };
}

/// The components of the first version, and `b` and `c`.
impl Extends<Old> for Newest {
    ghost extends = { gains_additions _ ⟦<SecondAndThird as AdditionsOf>⟧.additions ⟦<Old as Described>⟧.typed.lawful
        refl };

    ghost old_unfolds = { sequence_unfolds _ (field_unfolds constant_unfolds no_fields_unfold) no_fields_unfold };

    ghost unfolds = { sequence_unfolds _ (field_unfolds constant_unfolds no_fields_unfold)
        (field_unfolds constant_unfolds (field_unfolds constant_unfolds no_fields_unfold)) };
}

/// SEQUENCE {l SEQUENCE (SIZE (1..2)) OF BOOLEAN, ...}.
pub type OldList = Sequence<OldListForm>;

type OldListForm = RequiredComponent<
    ListOfOneOrTwo<bool>,
    ExtensibleComponents<NoAddition, NoMore>,
>;

impl Listed for OldListForm {
    ghost form = { ⟦<OldListForm as ComponentsOf>⟧.table };

    ghost value = { λ x. fields (⟦<OldListForm as ComponentsOf>⟧.root x) (⟦<OldListForm as ComponentsOf>⟧.added x) };

    ghost lawful = { type_sequence _ refl (⟦<OldListForm as ComponentsOf>⟧.typed tt) refl };

    ghost each = { λ x. value_sequence _ (⟦<OldListForm as ComponentsOf>⟧.valued tt x) };

    fn write<E: Encoder>(&self, encoder: &mut E, tag: Tag) -> Result<(), EncodeError> {
        encoder.encode_extensible_components(tag, 0, &Lent(self))
    }

    fn read<D: Decoder>(alloc: Global, decoder: &mut D, tag: Tag) -> Result<Self, DecodeError> {
        decoder.decode_extensible_components(alloc, tag, 0)
    }
}

/// SEQUENCE {l SEQUENCE (SIZE (1..2)) OF BOOLEAN, ..., b INTEGER OPTIONAL}.
pub type NewList = Sequence<NewListForm>;

type Numbers = AddedOptionalComponent<Integer, NoMore>;

type NewListForm = RequiredComponent<
    ListOfOneOrTwo<bool>,
    ExtensibleComponents<OneAddition, Numbers>,
>;

impl Listed for NewListForm {
    ghost form = { ⟦<NewListForm as ComponentsOf>⟧.table };

    ghost value = { λ x. fields (⟦<NewListForm as ComponentsOf>⟧.root x) (⟦<NewListForm as ComponentsOf>⟧.added x) };

    ghost lawful = { type_sequence _ refl (⟦<NewListForm as ComponentsOf>⟧.typed tt) refl };

    ghost each = { λ x. value_sequence _ (⟦<NewListForm as ComponentsOf>⟧.valued tt x) };

    fn write<E: Encoder>(&self, encoder: &mut E, tag: Tag) -> Result<(), EncodeError> {
        encoder.encode_extensible_components(tag, 0, &Lent(self))
    }

    fn read<D: Decoder>(alloc: Global, decoder: &mut D, tag: Tag) -> Result<Self, DecodeError> {
        decoder.decode_extensible_components(alloc, tag, 0)
    }
}

/// The components of the other version, and the extension addition `b`.
impl Extends<OldList> for NewList {
    ghost extends = { gains_additions _ ⟦<Numbers as AdditionsOf>⟧.additions ⟦<OldList as Described>⟧.typed.lawful
        refl };

    ghost old_unfolds = { sequence_unfolds _ (field_unfolds (list_unfolds _ _ constant_unfolds) no_fields_unfold)
        no_fields_unfold };

    ghost unfolds = { sequence_unfolds _ (field_unfolds (list_unfolds _ _ constant_unfolds) no_fields_unfold)
        (field_unfolds constant_unfolds no_fields_unfold) };
}

/// SEQUENCE {m SET OF SEQUENCE {a BOOLEAN, ...}}.
pub type OldBag = Sequence<OldBagForm>;

type OldBagForm = RequiredComponent<SetOf<Old>, End>;

impl Listed for OldBagForm {
    ghost form = { ⟦<OldBagForm as ComponentsOf>⟧.table };

    ghost value = { λ x. fields (⟦<OldBagForm as ComponentsOf>⟧.root x) (⟦<OldBagForm as ComponentsOf>⟧.added x) };

    ghost lawful = { type_sequence _ refl (⟦<OldBagForm as ComponentsOf>⟧.typed tt) refl };

    ghost each = { λ x. value_sequence _ (⟦<OldBagForm as ComponentsOf>⟧.valued tt x) };

    fn write<E: Encoder>(&self, encoder: &mut E, tag: Tag) -> Result<(), EncodeError> {
        encoder.encode_sequence_components(tag, 0, &Lent(self))
    }

    fn read<D: Decoder>(alloc: Global, decoder: &mut D, tag: Tag) -> Result<Self, DecodeError> {
        decoder.decode_sequence_components(alloc, tag, 0)
    }
}

/// SEQUENCE {m SET OF SEQUENCE {a BOOLEAN, ..., b INTEGER (0..255) OPTIONAL}}.
pub type NewBag = Sequence<NewBagForm>;

type Second = AddedOptionalComponent<u8, NoMore>;

type NewBagForm = RequiredComponent<SetOf<New>, End>;

impl Listed for NewBagForm {
    ghost form = { ⟦<NewBagForm as ComponentsOf>⟧.table };

    ghost value = { λ x. fields (⟦<NewBagForm as ComponentsOf>⟧.root x) (⟦<NewBagForm as ComponentsOf>⟧.added x) };

    ghost lawful = { type_sequence _ refl (⟦<NewBagForm as ComponentsOf>⟧.typed tt) refl };

    ghost each = { λ x. value_sequence _ (⟦<NewBagForm as ComponentsOf>⟧.valued tt x) };

    fn write<E: Encoder>(&self, encoder: &mut E, tag: Tag) -> Result<(), EncodeError> {
        encoder.encode_sequence_components(tag, 0, &Lent(self))
    }

    fn read<D: Decoder>(alloc: Global, decoder: &mut D, tag: Tag) -> Result<Self, DecodeError> {
        decoder.decode_sequence_components(alloc, tag, 0)
    }
}

/// The same SET OF, whose element type was extended.
impl Extends<OldBag> for NewBag {
    ghost extends = { sequence_extends (grown_field (same_tags ⟦<SetOf<Old> as Described>⟧.tags) required_stays
        (bag_extends _ _ (gains_additions _ ⟦<Second as AdditionsOf>⟧.additions ⟦<Old as Described>⟧.typed.lawful
        refl)) no_fields) refl no_fields };

    ghost old_unfolds = { sequence_unfolds _ (field_unfolds
        (bag_unfolds _ _ (sequence_unfolds _ (field_unfolds constant_unfolds no_fields_unfold) no_fields_unfold))
        no_fields_unfold) no_fields_unfold };

    ghost unfolds = { sequence_unfolds _ (field_unfolds
        (bag_unfolds _ _ (sequence_unfolds _ (field_unfolds constant_unfolds no_fields_unfold)
        (field_unfolds constant_unfolds no_fields_unfold))) no_fields_unfold) no_fields_unfold };
}

/// SEQUENCE {a BOOLEAN, ..., s SEQUENCE {a BOOLEAN, ...}}.
pub type OldHolder = Sequence<OldHolderForm>;

type OldHolderForm = Flagged<OneAddition, AddedRequiredComponent<Old, NoMore>>;

impl Listed for OldHolderForm {
    ghost form = { ⟦<OldHolderForm as ComponentsOf>⟧.table };

    ghost value = { λ x. fields (⟦<OldHolderForm as ComponentsOf>⟧.root x)
        (⟦<OldHolderForm as ComponentsOf>⟧.added x) };

    ghost lawful = { type_sequence _ refl (⟦<OldHolderForm as ComponentsOf>⟧.typed tt) refl };

    ghost each = { λ x. value_sequence _ (⟦<OldHolderForm as ComponentsOf>⟧.valued tt x) };

    fn write<E: Encoder>(&self, encoder: &mut E, tag: Tag) -> Result<(), EncodeError> {
        encoder.encode_extensible_components(tag, 0, &Lent(self))
    }

    fn read<D: Decoder>(alloc: Global, decoder: &mut D, tag: Tag) -> Result<Self, DecodeError> {
        decoder.decode_extensible_components(alloc, tag, 0)
    }
}

/// SEQUENCE {a BOOLEAN, ..., s SEQUENCE {a BOOLEAN, ..., b INTEGER (0..255) OPTIONAL}}.
pub type NewHolder = Sequence<NewHolderForm>;

type NewHolderForm = Flagged<OneAddition, AddedRequiredComponent<New, NoMore>>;

impl Listed for NewHolderForm {
    ghost form = { ⟦<NewHolderForm as ComponentsOf>⟧.table };

    ghost value = { λ x. fields (⟦<NewHolderForm as ComponentsOf>⟧.root x)
        (⟦<NewHolderForm as ComponentsOf>⟧.added x) };

    ghost lawful = { type_sequence _ refl (⟦<NewHolderForm as ComponentsOf>⟧.typed tt) refl };

    ghost each = { λ x. value_sequence _ (⟦<NewHolderForm as ComponentsOf>⟧.valued tt x) };

    fn write<E: Encoder>(&self, encoder: &mut E, tag: Tag) -> Result<(), EncodeError> {
        encoder.encode_extensible_components(tag, 0, &Lent(self))
    }

    fn read<D: Decoder>(alloc: Global, decoder: &mut D, tag: Tag) -> Result<Self, DecodeError> {
        decoder.decode_extensible_components(alloc, tag, 0)
    }
}

/// The same addition, whose type was extended.
impl Extends<OldHolder> for NewHolder {
    ghost extends = { sequence_extends (grown_field (same_tags ⟦<bool as Described>⟧.tags) required_stays
        boolean_stays no_fields) refl (grown_field (same_tags ⟦<Old as Described>⟧.tags) required_stays
        (gains_additions _ ⟦<Second as AdditionsOf>⟧.additions ⟦<Old as Described>⟧.typed.lawful refl) no_fields) };

    ghost old_unfolds = { sequence_unfolds _ (field_unfolds constant_unfolds no_fields_unfold)
        (field_unfolds (sequence_unfolds _ (field_unfolds constant_unfolds no_fields_unfold) no_fields_unfold)
        no_fields_unfold) };

    ghost unfolds = { sequence_unfolds _ (field_unfolds constant_unfolds no_fields_unfold)
        (field_unfolds (sequence_unfolds _ (field_unfolds constant_unfolds no_fields_unfold)
        (field_unfolds constant_unfolds no_fields_unfold)) no_fields_unfold) };
}

/// SEQUENCE {a BOOLEAN, ..., [[s SEQUENCE {a BOOLEAN, ...} DEFAULT {a TRUE}]]}.
pub type OldBracket = Sequence<OldBracketForm>;

type OldBracketForm = Flagged<OneAddition, AddedGroupComponent<OldDefault, NoMore>>;

impl Listed for OldBracketForm {
    ghost form = { ⟦<OldBracketForm as ComponentsOf>⟧.table };

    ghost value = { λ x. fields (⟦<OldBracketForm as ComponentsOf>⟧.root x)
        (⟦<OldBracketForm as ComponentsOf>⟧.added x) };

    ghost lawful = { type_sequence _ refl (⟦<OldBracketForm as ComponentsOf>⟧.typed tt) refl };

    ghost each = { λ x. value_sequence _ (⟦<OldBracketForm as ComponentsOf>⟧.valued tt x) };

    fn write<E: Encoder>(&self, encoder: &mut E, tag: Tag) -> Result<(), EncodeError> {
        encoder.encode_extensible_components(tag, 0, &Lent(self))
    }

    fn read<D: Decoder>(alloc: Global, decoder: &mut D, tag: Tag) -> Result<Self, DecodeError> {
        decoder.decode_extensible_components(alloc, tag, 0)
    }
}

/// SEQUENCE {a BOOLEAN, ..., [[s SEQUENCE {a BOOLEAN, ..., b INTEGER (0..255) OPTIONAL} DEFAULT {a TRUE}]]}.
pub type NewBracket = Sequence<NewBracketForm>;

type NewBracketForm = Flagged<OneAddition, AddedGroupComponent<NewDefault, NoMore>>;

impl Listed for NewBracketForm {
    ghost form = { ⟦<NewBracketForm as ComponentsOf>⟧.table };

    ghost value = { λ x. fields (⟦<NewBracketForm as ComponentsOf>⟧.root x)
        (⟦<NewBracketForm as ComponentsOf>⟧.added x) };

    ghost lawful = { type_sequence _ refl (⟦<NewBracketForm as ComponentsOf>⟧.typed tt) refl };

    ghost each = { λ x. value_sequence _ (⟦<NewBracketForm as ComponentsOf>⟧.valued tt x) };

    fn write<E: Encoder>(&self, encoder: &mut E, tag: Tag) -> Result<(), EncodeError> {
        encoder.encode_extensible_components(tag, 0, &Lent(self))
    }

    fn read<D: Decoder>(alloc: Global, decoder: &mut D, tag: Tag) -> Result<Self, DecodeError> {
        decoder.decode_extensible_components(alloc, tag, 0)
    }
}

/// The same group, whose component was extended.
impl Extends<OldBracket> for NewBracket {
    ghost extends = { sequence_extends (grown_field (same_tags ⟦<bool as Described>⟧.tags) required_stays
        boolean_stays no_fields) refl (grown_field (same_tags ⟦<Old as Described>⟧.tags) optional_stays
        (group_extends _ _ (grown_field (same_tags ⟦<Old as Described>⟧.tags)
        (default_gains (flag_table no_field) (one_optional _) old_true_stands (new_true_stands _))
        (gains_additions (flag_table no_field) (one_optional _) ⟦<Old as Described>⟧.typed.lawful refl) no_fields))
        no_fields) };

    ghost old_unfolds = { sequence_unfolds _ (field_unfolds constant_unfolds no_fields_unfold)
        (field_unfolds (group_unfolds _
        (field_unfolds (sequence_unfolds (flag_table no_field) (field_unfolds constant_unfolds no_fields_unfold)
        no_fields_unfold) no_fields_unfold)) no_fields_unfold) };

    ghost unfolds = { sequence_unfolds _ (field_unfolds constant_unfolds no_fields_unfold)
        (field_unfolds (group_unfolds _
        (field_unfolds (sequence_unfolds (flag_table (one_optional _))
        (field_unfolds constant_unfolds no_fields_unfold) (field_unfolds constant_unfolds no_fields_unfold))
        no_fields_unfold)) no_fields_unfold) };
}

/// SET {ready [1] BOOLEAN, level [0] INTEGER (0..255) OPTIONAL, ..., done [9] NULL OPTIONAL}.
pub type OldGrown = Set<OldGrownFields>;

type Done = AddedOptionalComponent<Tagged<9, ()>, NoMore>;

type OldGrownForm = OptionalComponent<
    Tagged<0, u8>,
    RequiredComponent<Tagged<1, bool>, ExtensibleComponents<OneAddition, Done>>,
>;

/// Its components as they are read.
#[derive(Drop)]
pub struct OldGrownFields {
    components: OldGrownForm,
}

impl Components for OldGrownFields {
    const TAG: Tag = Tag::SET;

    ghost TAG = { set_tag };

    ghost shape = { set_of ⟦<OldGrownForm as ComponentsOf>⟧ tt refl refl (λ x. x.components) };

    fn heading() -> Heading {
        Heading::set(1).extensible()
    }

    fn write_components<E: Encoder>(&self, encoder: &mut E) -> Result<(), EncodeError> {
        self.components.write_components(encoder)?;
        Ok(())
    }

    fn read_components<D: Decoder>(alloc: Global, decoder: &mut D) -> Result<Self, DecodeError> {
        let components = OldGrownForm::decode_components(alloc, decoder)?;
        Ok(OldGrownFields { components })
    }
}

type Next = AddedOptionalComponent<Tagged<2, u8>, NoMore>;

/// The components of the other version, and `next [2] INTEGER (0..255) OPTIONAL` after them.
impl ExtendsComponents<OldGrownFields> for GrownFields {
    ghost extends = { set_gains_additions ⟦<OldGrownForm as ComponentsOf>⟧.table ⟦<Next as AdditionsOf>⟧.additions
        ⟦<OldGrown as Described>⟧.typed.lawful refl };

    ghost old_unfolds = { set_unfolds ⟦<OldGrownForm as ComponentsOf>⟧.table
        (field_unfolds constant_unfolds (field_unfolds constant_unfolds no_fields_unfold))
        (field_unfolds constant_unfolds no_fields_unfold) };

    ghost unfolds = { set_unfolds _ (field_unfolds constant_unfolds (field_unfolds constant_unfolds no_fields_unfold))
        (field_unfolds constant_unfolds (field_unfolds constant_unfolds no_fields_unfold)) };
}
