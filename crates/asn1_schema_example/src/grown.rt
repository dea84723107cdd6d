//! SET {ready [1] BOOLEAN, level [0] INTEGER (0..255) OPTIONAL, ..., done [9] NULL OPTIONAL, next [2] INTEGER (0..255)
//! OPTIONAL}: the root components are encoded in the order of their tags (X.680 8.6), the additions in the order of
//! their declaration.
ghost use Rattle.std.specs.Prelude.{refl};
ghost use Rattle.asn1_schema.proofs.Author.{set_of, set_tag};

use asn1_schema::{
    AddedOptional, AddedOptionalComponent, Components, ComponentsOf, DecodeComponents, DecodeError,
    Decoder, EncodeComponents, EncodeError, Encoder, ExtensibleComponents, ExtensionMarker, Field,
    FieldTables, Fields, Global, Heading, Identifier, Implicit, NoMore, Optional,
    OptionalComponent, Required, RequiredComponent, Set, Tag, TwoAdditions, field, tag, tagged,
};

/// A SET with two extension additions.
pub type Grown = Set<GrownFields>;

/// Its components.
#[derive(Drop)]
pub struct GrownFields {
    /// The level, from 0 to 255, if it is known.
    pub level: Option<Implicit<tag::Context<0>, u8>>,
    /// Whether it is ready.
    pub ready: Implicit<tag::Context<1>, bool>,
    /// Present if it is done, an extension addition.
    pub done: Option<Implicit<tag::Context<9>, ()>>,
    /// The next level, an extension addition.
    pub next: Option<Implicit<tag::Context<2>, u8>>,
}

type Additions = AddedOptionalComponent<
    Implicit<tag::Context<9>, ()>,
    AddedOptionalComponent<Implicit<tag::Context<2>, u8>, NoMore>,
>;

type Form = OptionalComponent<
    Implicit<tag::Context<0>, u8>,
    RequiredComponent<
        Implicit<tag::Context<1>, bool>,
        ExtensibleComponents<TwoAdditions, Additions>,
    >,
>;

impl Components for GrownFields {
    const TAG: Tag = Tag::SET;

    ghost TAG = { set_tag };

    const IDENTIFIER: Identifier = Identifier(Some("Grown"));

    ghost shape = { set_of ⟦<Form as ComponentsOf>⟧ tt refl refl
        (λ x. record {
          0 = x.level;
          1 = record {
            0 = x.ready;
            1 =
                record { 0 = record { 0 = x.done; 1 = record { 0 = x.next; 1 = record {} } }; 1 = record {} };
          };
        }) };

    fn heading() -> Heading {
        Heading::set(1).extensible()
    }

    fn write_components<E: Encoder>(&self, encoder: &mut E) -> Result<(), EncodeError> {
        let additions = AddedOptional(&self.done, AddedOptional(&self.next, NoMore));
        let marker = ExtensionMarker { additions };
        Optional(&self.level, Required(&self.ready, marker)).encode_components(encoder)
    }

    fn read_components<D: Decoder>(alloc: Global, decoder: &mut D) -> Result<Self, DecodeError> {
        let form = Form::decode_components(alloc, decoder)?;
        let OptionalComponent(level, RequiredComponent(ready, ExtensibleComponents(added, _))) =
            form;
        let AddedOptionalComponent(done, AddedOptionalComponent(next, NoMore)) = added;
        Ok(GrownFields {
            level,
            ready,
            done,
            next,
        })
    }
}

impl FieldTables for GrownFields {
    fn fields() -> Fields<'static> {
        const FIELDS: &'static [Field<'static>] = &[
            field!(0, "level", Optional, tagged!(Context, 0)),
            field!(1, "ready", Required, tagged!(Context, 1)),
        ];
        Fields::from_static(FIELDS)
    }

    fn extended_fields() -> Option<Fields<'static>> {
        const FIELDS: &'static [Field<'static>] = &[
            field!(0, "done", Optional, tagged!(Context, 9)),
            field!(1, "next", Optional, tagged!(Context, 2)),
        ];
        Some(Fields::from_static(FIELDS))
    }
}
