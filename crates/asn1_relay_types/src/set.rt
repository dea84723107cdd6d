//! SET {a [444] INTEGER OPTIONAL, b [5] INTEGER OPTIONAL, c [APPLICATION 9] INTEGER OPTIONAL}. It is encoded in the
//! order of the tags: c, b, a (X.680 8.6).
ghost use Rattle.std.specs.Prelude.{refl};
ghost use Rattle.asn1_schema.proofs.Author.{set_of, set_tag};

use asn1_schema::{
    Components, ComponentsOf, DecodeComponents, DecodeError, Decoder, EncodeComponents,
    EncodeError, Encoder, End, Field, FieldTables, Fields, Heading, Identifier, Implicit, Optional,
    OptionalComponent, Tag, field, tag, tagged,
};
use asn1_values::Integer;
use std::alloc::Global;

/// Three optional integers with different tags (X.680 27).
pub type Set = asn1_schema::Set<SetFields>;

/// Its components.
#[derive(Drop)]
pub struct SetFields {
    /// The last in the order of tags.
    pub a: Option<Implicit<tag::Context<444>, Integer>>,
    /// The second in the order of tags.
    pub b: Option<Implicit<tag::Context<5>, Integer>>,
    /// The first in the order of tags.
    pub c: Option<Implicit<tag::Application<9>, Integer>>,
}

type Last = OptionalComponent<Implicit<tag::Context<444>, Integer>, End>;

type Rest = OptionalComponent<Implicit<tag::Context<5>, Integer>, Last>;

type Form = OptionalComponent<Implicit<tag::Application<9>, Integer>, Rest>;

impl Components for SetFields {
    const TAG: Tag = Tag::SET;

    ghost TAG = { set_tag };

    const IDENTIFIER: Identifier = Identifier(Some("Set"));

    ghost shape = { set_of ⟦<Form as ComponentsOf>⟧ tt refl refl
        (λ x. record { 0 = x.c; 1 = record { 0 = x.b; 1 = record { 0 = x.a; 1 = record {} } } }) };

    fn heading() -> Heading {
        Heading::set(3)
    }

    fn write_components<E: Encoder>(&self, encoder: &mut E) -> Result<(), EncodeError> {
        Optional(&self.c, Optional(&self.b, Optional(&self.a, End))).encode_components(encoder)
    }

    #[inline(always)]
    fn read_components<D: Decoder>(alloc: Global, decoder: &mut D) -> Result<Self, DecodeError> {
        let OptionalComponent(c, rest) = Form::decode_components(alloc, decoder)?;
        let OptionalComponent(b, OptionalComponent(a, End)) = rest;
        Ok(SetFields { a, b, c })
    }
}

impl FieldTables for SetFields {
    fn fields() -> Fields<'static> {
        const FIELDS: &'static [Field<'static>] = &[
            field!(0, "c", Optional, tagged!(Application, 9)),
            field!(1, "b", Optional, tagged!(Context, 5)),
            field!(2, "a", Optional, tagged!(Context, 444)),
        ];
        Fields::from_static(FIELDS)
    }

    fn extended_fields() -> Option<Fields<'static>> {
        None
    }
}
