//! SEQUENCE and SET (X.680 25 and 27) as types around user-defined structs.
ghost use Rattle.std.specs.Prelude.{◌≡◌, ◌+◌, [], ◌∷◌, true, false, refl, OnOk, OnErr, IfOk, IfErr};
ghost use Rattle.asn1_schema_constraints.specs.Terms.{no_constraint};
ghost use Rattle.asn1_schema_decode.specs.Reads.{NoLevel, ReadsTail, UnreadTail};
ghost use Rattle.asn1_schema_encode.specs.Writes.{CannotWriteTail, Refused, WritesTail};
ghost use Rattle.asn1_schema_tags.specs.Tags.{tag_of};
ghost use Rattle.asn1_schema_laws.specs.Forms.{asks, begins};
ghost use Rattle.asn1_schema_authored.specs.Shapes.{IsHeading, Shape, form_of, form_tag, form_tags};
ghost use Rattle.asn1_schema_authored.specs.Shapes.{shape_type, shape_value};
ghost use Rattle.asn1_schema_constructed.specs.Constructed.{AreAdditions, AreFields};
ghost use Rattle.asn1_schema_errors.specs.Calls.{DecoderCall, EncoderCall, OneLevelLess, OneLevelMore};

use asn1_schema_constraints::Constraints;
use asn1_schema_constructed::{Constructed, Fields};
use asn1_schema_decode::{Decode, Decoder};
use asn1_schema_encode::{Encode, Encoder};
use asn1_schema_errors::{DecodeError, EncodeError};
use asn1_schema_tags::{Identifier, Tag, TagTree};
use asn1_schema_types::{AsnType, Described};
use std::alloc::Global;
use std::ops::Deref;

/// What precedes the components of a SEQUENCE or SET.
#[derive(Clone, Copy)]
pub struct Heading {
    /// Whether the type is a SET.
    pub set: bool,
    /// Whether it has an extension marker.
    pub extensible: bool,
    /// The number of root components that may be absent.
    pub optional: usize,
}

impl Heading {
    /// A SEQUENCE, `optional` of whose root components may be absent.
    pub fn sequence(optional: usize) -> Self
        ensures { result ≡ record { set = false; extensible = false; optional = optional } }
    {
        Heading {
            set: false,
            extensible: false,
            optional,
        }
    }

    /// A SET, `optional` of whose root components may be absent.
    pub fn set(optional: usize) -> Self
        ensures { result ≡ record { set = true; extensible = false; optional = optional } }
    {
        Heading {
            set: true,
            extensible: false,
            optional,
        }
    }

    /// The same with an extension marker.
    pub fn extensible(self) -> Self
        ensures { result ≡ record { set = self.set; extensible = true; optional = self.optional } }
    {
        Heading {
            extensible: true,
            ..self
        }
    }

    /// The tag of the type.
    fn tag(self) -> Tag
        ensures { tag_of result ∷ [] ≡ form_tags (form_of self.set) }
    {
        if self.set { Tag::SET } else { Tag::SEQUENCE }
    }
}

/// A user-defined struct whose fields are the components of a SEQUENCE or SET (X.680 25 and 27).
pub trait Components: Drop {
    ghost use Rattle.asn1_schema_tags.specs.declared.tags.Tag.{Tag};

    /// The tag of the type, as `sequence_tag` or `set_tag`.
    ghost TAG: { Tag };

    /// The tag of the type: `Tag::SEQUENCE` or `Tag::SET`.
    const TAG: Tag;

    /// The name of the type, if it has one.
    const IDENTIFIER: Identifier = Identifier::EMPTY;

    /// The type, and what its values mean.
    ghost shape: { Shape Self };

    /// What precedes the components: SEQUENCE or SET, as `TAG` says.
    fn heading() -> Heading
        ensures heading { IsHeading result shape.form shape.table }
        ensures tag { TAG ≡ form_tag shape.form };

    /// Encodes the components in their order, and the end.
    fn write_components<E: Encoder>(&self, encoder: &mut E) -> Result<(), EncodeError>
        ensures ok { OnOk result
            (WritesTail E.step shape.table (shape.root self.now) (shape.added self.now) encoder.old encoder.new) }
        ensures only { IfErr result
            (CannotWriteTail E.step shape.table (shape.root self.now) (shape.added self.now) encoder.old) }
        ensures call { EncoderCall E.has_failed E.front encoder.old encoder.new result };

    /// Decodes the components in their order, and the end.
    fn read_components<D: Decoder>(alloc: Global, decoder: &mut D) -> Result<Self, DecodeError>
        ensures ok { IfOk result (λ x. ReadsTail D.step shape.table (D.levels decoder.old) (shape.root x)
            (shape.added x) decoder.old decoder.new) }
        ensures only { IfErr result
            (UnreadTail D.step D.too_few shape.table (D.levels decoder.old) decoder.old decoder.new) }
        ensures call { DecoderCall D.has_failed (OneLevelMore D.levels) decoder.old decoder.new result };
}

/// The SEQUENCE or SET of the fields of a struct.
#[derive(Drop)]
#[derive_where(Clone, Debug, PartialEq, Eq; T)]
pub struct Composite<T> {
    /// The struct.
    pub value: T,
}

/// SEQUENCE (X.680 25) of the fields of a struct.
pub type Sequence<T> = Composite<T>;

/// SET (X.680 27) of the fields of a struct.
pub type Set<T> = Composite<T>;

impl<T> Composite<T> {
    /// This struct as a SEQUENCE or SET.
    pub fn new(value: T) -> Self
        ensures { result.value ≡ value }
    {
        Composite { value }
    }
}

impl<T> From<T> for Composite<T> {
    ghost from_gives = { λ v t. t.value ≡ v };

    fn from(value: T) -> Self {
        Composite::new(value)
    }
}

impl<T> Deref for Composite<T> {
    type Target = T;

    ghost deref_gives = { λ t v. v ≡ t.value };

    fn deref(&self) -> &T {
        &self.value
    }
}

impl<T: Components> Described for Composite<T> {
    ghost tags = { form_tags T.shape.form };

    ghost own = { no_constraint };

    ghost under = { λ _. shape_type T.shape };

    ghost schema = { shape_type T.shape };

    ghost is_own = { λ _. refl };

    ghost meaning = { λ x. shape_value T.shape x.value };

    ghost typed = { T.shape.typed };

    ghost valued = { λ x. T.shape.valued x.value };

    ghost valued_under = { λ _ x. T.shape.valued x.value };
}

impl<T: Components> AsnType for Composite<T> {
    const TAG: Tag = T::TAG;

    const IDENTIFIER: Identifier = T::IDENTIFIER;

    fn tag_tree() -> TagTree<'static> {
        TagTree::of(T::heading().tag())
    }

    fn constraints() -> Constraints<'static> {
        Constraints::NONE
    }
}

impl<T: Components> Encode for Composite<T> {
    fn encode_with_tag_and_constraints<E: Encoder>(
        &self,
        encoder: &mut E,
        tag: Tag,
        _constraints: &Constraints,
    ) -> Result<(), EncodeError> {
        begin_written(encoder, tag, T::heading())?;
        self.value.write_components(encoder)?;
        Ok(())
    }
}

/// Begins a SEQUENCE or SET of an encoder.
fn begin_written<E: Encoder>(encoder: &mut E, tag: Tag, heading: Heading) -> Result<(), EncodeError>
    ensures ok { OnOk result
        (E.step encoder.old (begins (form_of heading.set) heading.extensible heading.optional) encoder.new) }
    ensures only { IfErr result
        (Refused E.step (begins (form_of heading.set) heading.extensible heading.optional) encoder.old) }
    ensures call { EncoderCall E.has_failed E.front encoder.old encoder.new result }
{
    if heading.set {
        encoder.begin_set(tag, heading.extensible, heading.optional)
    } else {
        encoder.begin_sequence(tag, heading.extensible, heading.optional)
    }
}

impl<T: Components> Decode for Composite<T> {
    #[inline(always)]
    fn decode_with_tag_and_constraints<D: Decoder>(
        alloc: Global,
        decoder: &mut D,
        tag: Tag,
        _constraints: &Constraints,
    ) -> Result<Self, DecodeError> {
        begin_read(decoder, tag, T::heading())?;
        let value = T::read_components(alloc, decoder)?;
        Ok(Composite { value })
    }
}

/// Begins a SEQUENCE or SET of a decoder.
#[inline(always)]
fn begin_read<D: Decoder>(decoder: &mut D, tag: Tag, heading: Heading) -> Result<(), DecodeError>
    ensures ok { OnOk result
        (D.step decoder.old (begins (form_of heading.set) heading.extensible heading.optional) decoder.new) }
    ensures only { IfErr result
        (NoLevel D.step D.too_few (asks (form_of heading.set) heading.extensible heading.optional)
        (D.levels decoder.old) decoder.old decoder.new) }
    ensures call { DecoderCall D.has_failed (OneLevelLess D.levels) decoder.old decoder.new result }
{
    if heading.set {
        decoder.begin_set(tag, heading.extensible, heading.optional)
    } else {
        decoder.begin_sequence(tag, heading.extensible, heading.optional)
    }
}

/// The table of the fields of a struct, as `Constructed` gives it.
pub trait FieldTables: Components {
    /// The fields of the root, in the order of the components.
    fn fields() -> Fields<'static>
        ensures { AreFields result.fields.now Self.shape.table.root };

    /// The fields of the additions, or `None` if there is no extension marker.
    fn extended_fields() -> Option<Fields<'static>>
        ensures { AreAdditions result Self.shape.table };
}

impl<T: FieldTables> Constructed for Composite<T> {
    ghost form = { T.shape.form };

    ghost table = { T.shape.table };

    ghost root = { λ x. T.shape.root x.value };

    ghost added = { λ x. T.shape.added x.value };

    fn fields() -> Fields<'static> {
        T::fields()
    }

    fn extended_fields() -> Option<Fields<'static>> {
        T::extended_fields()
    }

    fn is_extensible() -> bool {
        T::heading().extensible
    }

    fn write_fields<E: Encoder>(&self, encoder: &mut E) -> Result<(), EncodeError> {
        self.value.write_components(encoder)
    }

    fn read_fields<D: Decoder>(alloc: Global, decoder: &mut D) -> Result<Self, DecodeError> {
        let value = T::read_components(alloc, decoder)?;
        Ok(Composite { value })
    }

    ghost means = { λ _. refl };

    ghost is_of = { λ _ _. refl };
}
