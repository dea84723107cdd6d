//! Tree ::= SEQUENCE {value INTEGER, branches SEQUENCE OF Tree}, a recursive type.
ghost use Rattle.std.specs.Prelude.{◌≡◌, [], ◌∷◌, refl, OnOk, OnErr, IfOk, IfErr};
ghost use Rattle.asn1_schema.specs.Author.{Reads, Unread, end, members, no_constraint, sequence_form, values_of};
ghost use Rattle.asn1_schema_example.specs.Tree.{branches_schema, tree_meaning};

use asn1_schema::{
    AsnType, Bounded, Constraints, Constructed, Decode, DecodeError, Decoder, Described, Encode,
    EncodeError, Encoder, Field, Fields, Global, Identifier, Tag, TagTree, field,
};
use asn1_values::Integer;

/// A number, and the trees below it.
#[derive(Drop)]
pub struct Tree {
    /// The number.
    pub value: Integer,
    /// The trees below it.
    pub branches: Vec<Tree>,
}

impl Described for Tree {
    ghost use Rattle.asn1_schema_example.specs.Tree.{tree_schema, tree_meaning, tree_typed, tree_valued};

    ghost tags = { record { class = 0; number = 16 } ∷ [] };

    ghost own = { no_constraint };

    ghost under = { λ _. tree_schema };

    ghost schema = { tree_schema };

    ghost is_own = { λ _. refl };

    ghost meaning = { tree_meaning };

    ghost typed = { tree_typed };

    ghost valued = { tree_valued };

    ghost valued_under = { λ _ x. tree_valued x };
}

impl AsnType for Tree {
    const TAG: Tag = Tag::SEQUENCE;

    const IDENTIFIER: Identifier = Identifier(Some("Tree"));

    fn tag_tree() -> TagTree<'static> {
        TagTree::of(Self::TAG)
    }

    fn constraints() -> Constraints<'static> {
        Constraints::NONE
    }
}

impl Constructed for Tree {
    ghost use Rattle.asn1_schema_example.specs.Tree.{tree_table, branches_schema, tree_root, tree_opens};
    ghost use Rattle.asn1_schema_example.specs.Tree.{tree_is};

    ghost form = { sequence_form };

    ghost table = { tree_table branches_schema };

    ghost root = { tree_root };

    ghost added = { λ _. end };

    fn fields() -> Fields<'static> {
        const FIELDS: &'static [Field<'static>] = &[
            field!(0, "value", Required, Tag::INTEGER),
            field!(1, "branches", Required, Tag::SEQUENCE),
        ];
        Fields::from_static(FIELDS)
    }

    fn extended_fields() -> Option<Fields<'static>> {
        None
    }

    fn is_extensible() -> bool {
        false
    }

    #[cycle(writing)]
    fn write_fields<E: Encoder>(&self, encoder: &mut E) -> Result<(), EncodeError> {
        self.value.encode(encoder)?;
        self.branches.encode(encoder)?;
        encoder.end()?;
        Ok(())
    }

    #[cycle(reading)]
    fn read_fields<D: Decoder>(alloc: Global, decoder: &mut D) -> Result<Self, DecodeError> {
        let value = Integer::decode(alloc, decoder)?;
        let branches = read_branches(alloc, decoder)?;
        decoder.end()?;
        Ok(Tree { value, branches })
    }

    ghost means = { tree_opens };

    ghost is_of = { λ _. tree_is };
}

// The SEQUENCE OF the trees below. Each is decoded by a direct call; the number of remaining levels bounds these calls.
#[cycle(reading)]
fn read_branches<D: Decoder>(alloc: Global, decoder: &mut D) -> Result<Vec<Tree>, DecodeError>
    ensures ok { IfOk result (λ x. Reads D.step branches_schema (D.levels decoder.old)
        (members (values_of tree_meaning x.items)) decoder.old decoder.new) }
    ensures level { OnOk result (D.levels decoder.new ≡ D.levels decoder.old) }
    ensures only { IfErr result
        (Unread D.step D.too_few branches_schema (D.levels decoder.old) decoder.old decoder.new) }
    ensures failed { OnErr result (D.has_failed decoder.new) }
    ensures after { result ≡ Err DecodeError.AlreadyFailed → D.has_failed decoder.old }
{
    decoder.begin_list(Tag::SEQUENCE, &Constraints::NONE, Bounded::None)?;
    let mut branches = Vec::new(alloc);
    while decoder.get_further()? {
        let branch = Tree::decode_with_tag_and_constraints(
            alloc,
            decoder,
            Tag::SEQUENCE,
            &Constraints::NONE,
        )?;
        let Ok(()) = branches.push(branch) else {
            return Err(decoder.refuse(DecodeError::OutOfMemory));
        };
    }
    decoder.end()?;
    Ok(branches)
}

impl Encode for Tree {
    #[cycle(writing)]
    fn encode_with_tag_and_constraints<E: Encoder>(
        &self,
        encoder: &mut E,
        tag: Tag,
        _constraints: &Constraints,
    ) -> Result<(), EncodeError> {
        let optional = Tree::fields().number_of_optional_and_default_fields();
        encoder.begin_sequence(tag, false, optional)?;
        self.write_fields(encoder)?;
        Ok(())
    }
}

impl Decode for Tree {
    #[cycle(reading)]
    fn decode_with_tag_and_constraints<D: Decoder>(
        alloc: Global,
        decoder: &mut D,
        tag: Tag,
        _constraints: &Constraints,
    ) -> Result<Self, DecodeError> {
        let optional = Tree::fields().number_of_optional_and_default_fields();
        decoder.begin_sequence(tag, false, optional)?;
        let tree = Tree::read_fields(alloc, decoder)?;
        Ok(tree)
    }
}
