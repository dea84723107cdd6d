//! CHOICE types by the tables of their alternatives.
ghost use Rattle.std.specs.Prelude.{◌≡◌, ℕ, List, [], true, false, map, MatchOption, IfOk, IfErr, OnErr};
ghost use Rattle.asn1_model.specs.Value.{Value};
ghost use Rattle.asn1_schema_constraints.specs.Terms.{Meant};
ghost use Rattle.asn1_schema_tags.specs.Places.{is_table_of};
ghost use Rattle.asn1_schema_tags.specs.Tags.{tag_of};
ghost use Rattle.asn1_schema_tags.specs.declared.chosen.Chosen.{Chosen};
ghost use Rattle.asn1_schema_encode.specs.Writes.{Writes, CannotWrite};
ghost use Rattle.asn1_schema_constructed.specs.Tables.{Choices, tags_of, all_tags, choice_type};
ghost use Rattle.asn1_schema_constructed.specs.Chosen.{chosen_type, chosen_value, IsTag, AreTold, of_tag};
ghost use Rattle.asn1_schema_errors.specs.Calls.{EncoderCall};

use asn1_schema_encode::Encoder;
use asn1_schema_errors::EncodeError;
use asn1_schema_tags::{Chosen, Tag, TagPlace, TagTables};
use asn1_schema_types::AsnType;

/// CHOICE (X.680 29), by the tables of its alternatives.
pub trait Alternatives: AsnType {
    /// The alternatives.
    ghost table: { Choices };

    /// The tags of the root alternatives, in ascending order (X.680 8.6).
    fn variants() -> &'static [Tag]
        ensures { map tag_of result.now ≡ tags_of table.root };

    /// The tags of the added alternatives in their order, or `None` if there is no extension marker.
    fn extended_variants() -> Option<&'static [Tag]>
        ensures { MatchOption result ((false ≡ table.extensible) × ([] ≡ tags_of table.additions))
            (λ tags. (true ≡ table.extensible) × (map tag_of tags.now ≡ tags_of table.additions)) };

    /// The tags of all alternatives in ascending order (X.680 8.6), each with its index. The alternatives of
    /// `variants()` are numbered before those of `extended_variants()`.
    fn places() -> &'static [TagPlace]
        ensures { is_table_of result.now (all_tags table) ≡ true };

    /// The tags with which an encoding may begin are those of the alternatives (X.680 29).
    ghost tagged: { Self.tags ≡ all_tags table };

    /// The type is that of the alternatives, whatever constraints it has.
    ghost is_of: { (c : Meant) (n : ℕ) → Self.under c n ≡ choice_type table n };
}

/// The values of a CHOICE: which alternative is chosen, and how its value is encoded.
pub trait Choice: Alternatives {
    /// The chosen alternative of a value.
    ghost place: { Self → Chosen };

    /// The value of the chosen alternative.
    ghost inner: { Self → Value };

    /// The chosen alternative.
    fn chosen(&self) -> Chosen
        ensures { result ≡ place self.now };

    /// Writes each record of the value of the chosen alternative once, and returns the tag of the alternative.
    fn write_chosen<E: Encoder>(&self, encoder: &mut E) -> Result<Tag, EncodeError>
        ensures ok { IfOk result
            (λ _. Writes E.step (chosen_type Self.table (place self.now)) (inner self.now) encoder.old encoder.new) }
        ensures tag { IfOk result (λ tag. IsTag Self.table (place self.now) (tag_of tag)) }
        ensures only { IfErr result
            (CannotWrite E.step (chosen_type Self.table (place self.now)) (inner self.now) encoder.old) }
        ensures call { EncoderCall E.has_failed E.front encoder.old encoder.new result };

    /// A value means the value of its alternative.
    ghost means: { (x : Self) → Self.meaning x ≡ chosen_value (place x) (inner x) };
}

/// What a codec is given of a choice: the tags of its alternatives, and whether it has an extension marker.
pub fn tag_tables_of<T: Alternatives>() -> TagTables<'static>
    ensures told { AreTold T.table result.roots result.extensible result.additions }
    ensures closed { result.extensible ≡ false → result.additions ≡ [] }
{
    match T::extended_variants() {
        Some(additions) => TagTables::new(T::variants(), true, additions, T::places()),
        None => TagTables::new(T::variants(), false, &[], T::places()),
    }
}

/// The alternative with this tag: a root alternative or an added one, or `None`.
pub fn alternative_of<T: Alternatives>(tag: Tag) -> Option<Chosen>
    ensures { result ≡ of_tag T.table (tag_of tag) }
{
    tag_tables_of::<T>().alternative(tag)
}
