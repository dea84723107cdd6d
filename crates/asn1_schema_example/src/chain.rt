//! Chain ::= SEQUENCE {value INTEGER, next Chain OPTIONAL}, a recursive type.
ghost use Rattle.std.specs.Prelude.{[], ◌∷◌, refl};
ghost use Rattle.asn1_schema.specs.Author.{end, no_constraint, sequence_form};

use asn1_schema::{
    AsnType, Constraints, Constructed, Decode, DecodeError, Decoder, Described, Encode,
    EncodeError, EncodeSequence, Encoder, Field, Fields, Global, Identifier, Tag, TagTree, field,
};
use asn1_values::Integer;

/// A number, and optionally more numbers after it.
#[derive(Drop)]
pub struct Chain {
    /// The number.
    pub value: Integer,
    /// The numbers after it.
    pub next: Option<Box<Chain>>,
}

impl Described for Chain {
    ghost use Rattle.asn1_schema_example.specs.Chain.{chain_schema, chain_meaning, chain_typed, chain_valued};

    ghost tags = { record { class = 0; number = 16 } ∷ [] };

    ghost own = { no_constraint };

    ghost under = { λ _. chain_schema };

    ghost schema = { chain_schema };

    ghost is_own = { λ _. refl };

    ghost meaning = { chain_meaning };

    ghost typed = { chain_typed };

    ghost valued = { chain_valued };

    ghost valued_under = { λ _ x. chain_valued x };
}

impl AsnType for Chain {
    const TAG: Tag = Tag::SEQUENCE;

    const IDENTIFIER: Identifier = Identifier(Some("Chain"));

    fn tag_tree() -> TagTree<'static> {
        TagTree::of(Self::TAG)
    }

    fn constraints() -> Constraints<'static> {
        Constraints::NONE
    }
}

impl Constructed for Chain {
    ghost use Rattle.asn1_schema_example.specs.Chain.{chain_table, chain_schema, chain_root, chain_opens, chain_is};

    ghost form = { sequence_form };

    ghost table = { chain_table chain_schema };

    ghost root = { chain_root };

    ghost added = { λ _. end };

    fn fields() -> Fields<'static> {
        const FIELDS: &'static [Field<'static>] = &[
            field!(0, "value", Required, Tag::INTEGER),
            field!(1, "next", Optional, Tag::SEQUENCE),
        ];
        Fields::from_static(FIELDS)
    }

    fn extended_fields() -> Option<Fields<'static>> {
        None
    }

    fn is_extensible() -> bool {
        false
    }

    #[cycle(writing)]
    fn write_fields<E: Encoder>(&self, encoder: &mut E) -> Result<(), EncodeError> {
        self.value.encode(encoder)?;
        encoder.encode_optional(&self.next)?;
        encoder.end()?;
        Ok(())
    }

    fn read_fields<D: Decoder>(alloc: Global, decoder: &mut D) -> Result<Self, DecodeError> {
        let value = Integer::decode(alloc, decoder)?;
        let is_there = decoder.get_presence_bit()?;
        if !is_there {
            decoder.end()?;
            return Ok(Chain { value, next: None });
        }
        let optional = Chain::fields().number_of_optional_and_default_fields();
        decoder.begin_sequence(Tag::SEQUENCE, false, optional)?;
        let inner = Chain::read_fields(alloc, decoder)?;
        let Ok(boxed) = Box::new(alloc, inner) else {
            return Err(decoder.refuse(DecodeError::OutOfMemory));
        };
        decoder.end()?;
        Ok(Chain {
            value,
            next: Some(boxed),
        })
    }

    ghost means = { chain_opens };

    ghost is_of = { λ _. chain_is };
}

impl Encode for Chain {
    #[cycle(writing)]
    fn encode_with_tag_and_constraints<E: Encoder>(
        &self,
        encoder: &mut E,
        tag: Tag,
        _constraints: &Constraints,
    ) -> Result<(), EncodeError> {
        let optional = Chain::fields().number_of_optional_and_default_fields();
        encoder.begin_sequence(tag, false, optional)?;
        self.write_fields(encoder)?;
        Ok(())
    }
}

impl Decode for Chain {
    fn decode_with_tag_and_constraints<D: Decoder>(
        alloc: Global,
        decoder: &mut D,
        tag: Tag,
        _constraints: &Constraints,
    ) -> Result<Self, DecodeError> {
        let optional = Chain::fields().number_of_optional_and_default_fields();
        decoder.begin_sequence(tag, false, optional)?;
        let chain = Chain::read_fields(alloc, decoder)?;
        Ok(chain)
    }
}
