//! Fields, and tables of them.
ghost use Rattle.std.specs.Prelude.{◌≡◌, ◌<◌, ◌↔◌, IsTrue, not, length, filter};
ghost use Rattle.std.specs.List.{list_any};
ghost use Rattle.asn1_schema_constructed.specs.Fields.{may_be_absent, is_optional, is_in_order, optional_rest};
ghost use Rattle.asn1_schema_constructed.specs.declared.tables.Field.{Field};
ghost use Rattle.asn1_schema_tags.specs.Trees.{leaves, own_tag};
ghost use Rattle.std.specs.Slice.Iter.{iter_rest};
ghost use Rattle.std.specs.Iterator.{YieldsFirstRef, item_count};
ghost use Rattle.std.specs.Iterator.Adapters.{IterYieldsInOrder};

use asn1_schema_tags::{Tag, TagTree};
use asn1_schema_types::AsnType;
use std::slice;

/// Whether a field may be absent (X.680 25).
#[derive(Clone, Copy, Debug, PartialEq, Eq)]
pub enum FieldPresence {
    /// The field is always present.
    Required,
    /// The field may be absent.
    Optional,
    /// The field may be absent, and then has its default value.
    Default,
}

impl FieldPresence {
    /// Whether a field of this presence may be absent.
    pub fn is_optional_or_default(&self) -> bool
        ensures { result ≡ may_be_absent self.now }
    {
        match self {
            FieldPresence::Required => false,
            FieldPresence::Optional | FieldPresence::Default => true,
        }
    }
}

/// A field of a SEQUENCE or SET: its index in the table, its tag, the tags with which it may begin, whether it may be
/// absent, and its name.
#[derive(Clone, Copy, Debug, PartialEq, Eq)]
pub struct Field<'a> {
    /// Its index in its table, which is that of the root or that of the additions, counted from 0.
    pub index: usize,
    /// Its own tag: that of the leaf of its tag tree, or `Tag::CHOICE` if it may begin with several.
    pub tag: Tag,
    /// The tags with which it may begin.
    pub tag_tree: TagTree<'a>,
    /// Whether it may be absent.
    pub presence: FieldPresence,
    /// Its name.
    pub name: &'static str,
}

impl<'a> Field<'a> {
    /// A field that is always present.
    pub fn new_required(index: usize, tag: Tag, tag_tree: TagTree<'a>, name: &'static str) -> Self
        ensures index { result.index ≡ index }
        ensures tag { result.tag ≡ tag }
        ensures tree { result.tag_tree ≡ tag_tree.entry }
        ensures presence { result.presence ≡ FieldPresence.Required }
        ensures name { result.name.now ≡ name.now }
    {
        Field {
            index,
            tag,
            tag_tree,
            presence: FieldPresence::Required,
            name,
        }
    }

    /// A field that may be absent.
    pub fn new_optional(index: usize, tag: Tag, tag_tree: TagTree<'a>, name: &'static str) -> Self
        ensures index { result.index ≡ index }
        ensures tag { result.tag ≡ tag }
        ensures tree { result.tag_tree ≡ tag_tree.entry }
        ensures presence { result.presence ≡ FieldPresence.Optional }
        ensures name { result.name.now ≡ name.now }
    {
        Field {
            index,
            tag,
            tag_tree,
            presence: FieldPresence::Optional,
            name,
        }
    }

    /// A field that may be absent, and then has its default value.
    pub fn new_default(index: usize, tag: Tag, tag_tree: TagTree<'a>, name: &'static str) -> Self
        ensures index { result.index ≡ index }
        ensures tag { result.tag ≡ tag }
        ensures tree { result.tag_tree ≡ tag_tree.entry }
        ensures presence { result.presence ≡ FieldPresence.Default }
        ensures name { result.name.now ≡ name.now }
    {
        Field {
            index,
            tag,
            tag_tree,
            presence: FieldPresence::Default,
            name,
        }
    }

    /// Whether the field may be absent.
    pub fn is_optional_or_default(&self) -> bool
        ensures { result ≡ is_optional self.now }
    {
        self.presence.is_optional_or_default()
    }

    /// Whether the field is always present.
    pub fn is_not_optional_or_default(&self) -> bool
        ensures { result ≡ not (is_optional self.now) }
    {
        !self.is_optional_or_default()
    }
}

impl Field<'static> {
    /// A field of the type `T` that is always present. It has the tags of the type.
    pub fn new_required_type<T: AsnType>(index: usize, name: &'static str) -> Self
        ensures index { result.index ≡ index }
        ensures tag { result.tag ≡ own_tag result.tag_tree }
        ensures tree { leaves result.tag_tree ≡ T.tags }
        ensures presence { result.presence ≡ FieldPresence.Required }
        ensures name { result.name.now ≡ name.now }
    {
        let tag_tree = T::tag_tree();
        Field::new_required(index, tag_tree.own_tag(), tag_tree, name)
    }

    /// A field of the type `T` that may be absent. It has the tags of the type.
    pub fn new_optional_type<T: AsnType>(index: usize, name: &'static str) -> Self
        ensures index { result.index ≡ index }
        ensures tag { result.tag ≡ own_tag result.tag_tree }
        ensures tree { leaves result.tag_tree ≡ T.tags }
        ensures presence { result.presence ≡ FieldPresence.Optional }
        ensures name { result.name.now ≡ name.now }
    {
        let tag_tree = T::tag_tree();
        Field::new_optional(index, tag_tree.own_tag(), tag_tree, name)
    }

    /// A field of the type `T` that may be absent, and then has its default value. It has the tags of the type.
    pub fn new_default_type<T: AsnType>(index: usize, name: &'static str) -> Self
        ensures index { result.index ≡ index }
        ensures tag { result.tag ≡ own_tag result.tag_tree }
        ensures tree { leaves result.tag_tree ≡ T.tags }
        ensures presence { result.presence ≡ FieldPresence.Default }
        ensures name { result.name.now ≡ name.now }
    {
        let tag_tree = T::tag_tree();
        Field::new_default(index, tag_tree.own_tag(), tag_tree, name)
    }
}

/// A table of the fields of a SEQUENCE or SET, in the order of the type's definition.
#[derive(Clone, Copy, Debug, PartialEq, Eq)]
pub struct Fields<'a> {
    /// The fields.
    pub fields: &'a [Field<'a>],
}

impl<'a> Fields<'a> {
    /// The table of these fields.
    pub fn from_static(fields: &'a [Field<'a>]) -> Self
        ensures { result.fields.now ≡ fields.now }
    {
        Fields { fields }
    }

    /// The number of fields.
    pub fn len(&self) -> usize
        ensures { result ≡ length self.now.fields.now }
    {
        self.fields.len()
    }

    /// Whether there is no field.
    pub fn is_empty(&self) -> bool
        ensures { IsTrue result ↔ (length self.now.fields.now ≡ 0) }
    {
        self.fields.is_empty()
    }

    /// Whether there is a field.
    pub fn is_not_empty(&self) -> bool
        ensures { IsTrue result ↔ (0 < length self.now.fields.now) }
    {
        !self.fields.is_empty()
    }

    /// Whether a field is always present.
    pub fn has_required_field(&self) -> bool
        ensures { result ≡ list_any (λ f. not (is_optional f)) self.now.fields.now }
    {
        self.fields
            .iter()
            .any(|field| field.is_not_optional_or_default())
    }

    /// The number of fields that may be absent. A single loop visits the fields, so that the compiler can count those
    /// of a table of literals.
    pub fn number_of_optional_and_default_fields(&self) -> usize
        ensures { result ≡ length (filter is_optional self.now.fields.now) }
    {
        let mut count = 0;
        for field in self.fields {
            if field.is_optional_or_default() {
                count += 1;
            }
        }
        count
    }

    /// The fields in their order.
    pub fn iter(&self) -> slice::Iter<'a, Field<'a>>
        ensures rest { iter_rest result ≡ self.now.fields.now }
        ensures runs { IterYieldsInOrder Field }
    {
        self.fields.iter()
    }

    /// The fields that may be absent, in their order.
    pub fn optional_and_default_fields(&self) -> OptionalAndDefaultFields<'a>
        ensures { optional_rest result ≡ filter is_optional self.now.fields.now }
    {
        OptionalAndDefaultFields { rest: self.fields }
    }

    /// Whether the smallest tags of the fields ascend strictly, by class and then by number (X.680 8.6).
    pub fn is_canonical(&self) -> bool
        ensures { result ≡ is_in_order self.now.fields.now }
    {
        let mut before: Option<Tag> = None;
        for field in self.fields {
            let tag = field.tag_tree.smallest_tag();
            if let Some(previous) = before {
                if !previous.const_less_than(tag) {
                    return false;
                }
            }
            before = Some(tag);
        }
        true
    }
}

/// The fields of a table that may be absent, from the first to the last.
#[derive(Debug, Drop)]
pub struct OptionalAndDefaultFields<'a> {
    /// The fields that were not yet visited.
    pub rest: &'a [Field<'a>],
}

impl<'a> Iterator for OptionalAndDefaultFields<'a> {
    type Item = &'a Field<'a>;

    ghost next_gives = { YieldsFirstRef optional_rest };

    ghost remaining = { item_count optional_rest };

    fn next(&mut self) -> Option<&'a Field<'a>> {
        let fields = self.rest;
        for (i, field) in fields.iter().enumerate() {
            if field.is_optional_or_default() {
                self.rest = &fields[i + 1..];
                return Some(field);
            }
        }
        self.rest = &[];
        None
    }
}
