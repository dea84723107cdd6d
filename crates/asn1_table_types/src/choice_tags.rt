//! The tags of each CHOICE of a table, with the table that finds the alternative of a tag (X.680 29).
#![tactic(auto, using(std::proofs::lemmas::Grind::common_steps))]

ghost use Rattle.std.specs.Prelude.{◌≡◌, ◌++◌, ◌∷◌, [], true, None, List, map, IfOk, OnOk};
ghost use Rattle.std.specs.List.{list_all};
ghost use Rattle.asn1_model.specs.Lawful.{are_distinct, tag_same, tag_less};
ghost use Rattle.asn1_model.specs.Schema.{Tag as ModelTag};
ghost use Rattle.asn1_schema_tags.specs.Places.{is_table_of};
ghost use Rattle.asn1_schema_tags.specs.Tags.{tag_of};
ghost use Rattle.asn1_schema_tags.specs.Trees.{place_of};
ghost use Rattle.asn1_table_types.specs.Choices.{Lists, has_own_tags, have_own_tags, tags_in, tags_of};

use crate::choices::alternative_tags;
use crate::{AlternativeTable, TypeNode};
use asn1_schema_tags::{Tag, TagPlace, TagTables};
use std::alloc::{AllocError, Global};
use std::marker::Model;

/// The tags of a CHOICE, and the table that finds the alternative of a tag.
#[derive(Drop)]
pub struct AlternativeTags {
    roots: Vec<Tag>,
    is_extensible: bool,
    additions: Vec<Tag>,
    places: Vec<TagPlace>,
}

impl Model for AlternativeTags {
    ghost use Rattle.std.specs.Prelude.{◌≡◌, ◌++◌, map, true};
    ghost use Rattle.asn1_schema_tags.specs.Chosen.{ChoiceTags};
    ghost use Rattle.asn1_schema_tags.specs.Places.{is_table_of};
    ghost use Rattle.asn1_schema_tags.specs.Tags.{tag_of};

    ghost Value = { ChoiceTags };

    ghost view = { λ t. record {
      roots = map tag_of t.roots.items;
      extensible = t.is_extensible;
      additions = map tag_of t.additions.items;
    } };

    ghost invariant = { λ t. is_table_of t.places.items (map tag_of t.roots.items ++ map tag_of t.additions.items)
        ≡ true };
}

impl AlternativeTags {
    /// The tags of these alternatives, none of which occurs twice.
    fn new(alloc: Global, table: &AlternativeTable) -> Result<AlternativeTags, AllocError>
        requires { have_own_tags table.now ≡ true }
        ensures { IfOk result (λ tags. tags ≡ tags_of table.now) }
    {
        let roots = alternative_tags(alloc, table.root.as_slice())?;
        let additions = alternative_tags(alloc, table.additions.as_slice())?;
        let places = places_of(alloc, roots.as_slice(), additions.as_slice())?;
        Ok(AlternativeTags {
            roots,
            is_extensible: table.is_extensible,
            additions,
            places,
        })
    }

    /// The tags as a codec asks for them.
    pub fn tables(&self) -> TagTables<'_>
        ensures { result ≡ self.now }
    {
        TagTables::new(
            self.roots.as_slice(),
            self.is_extensible,
            self.additions.as_slice(),
            self.places.as_slice(),
        )
    }
}

/// The tags of each type of a table, if it is a CHOICE. No tag of one occurs twice.
pub fn choices_of(
    alloc: Global,
    nodes: &[TypeNode],
) -> Result<Vec<Option<AlternativeTags>>, AllocError>
    requires { list_all has_own_tags nodes.now ≡ true }
    ensures { IfOk result (λ choices. choices.items ≡ map tags_in nodes.now) }
{
    let mut choices = Vec::with_capacity(alloc, nodes.len())?;
    for node in nodes {
        let tags = choice_of(alloc, node)?;
        choices.push(tags)?;
    }
    Ok(choices)
}

/// The tags of a type, if it is a CHOICE.
fn choice_of(alloc: Global, node: &TypeNode) -> Result<Option<AlternativeTags>, AllocError>
    requires { has_own_tags node.now ≡ true }
    ensures { IfOk result (λ tags. tags ≡ tags_in node.now) }
{
    match node {
        TypeNode::Choice(table) => {
            let tags = AlternativeTags::new(alloc, table)?;
            Ok(Some(tags))
        }
        _ => Ok(None),
    }
}

/// The table that finds each of some tags, none of which occurs twice.
fn places_of(alloc: Global, roots: &[Tag], additions: &[Tag]) -> Result<Vec<TagPlace>, AllocError>
    requires { are_distinct tag_same (map tag_of roots.now ++ map tag_of additions.now) ≡ true }
    ensures { IfOk result (λ places. is_table_of places.items (map tag_of roots.now ++ map tag_of additions.now)
        ≡ true) }
{
    let mut places = Vec::new(alloc);
    insert_tags(&mut places, roots)?;
    insert_tags(&mut places, additions)?;
    Ok(places)
}

/// Inserts tags into the table of those before them.
fn insert_tags(places: &mut Vec<TagPlace>, tags: &[Tag]) -> Result<(), AllocError>
    ensures { OnOk result ((ts : List ModelTag) → Lists places.old.items ts
        → are_distinct tag_same (ts ++ map tag_of tags.now) ≡ true
        → Lists places.new.items (ts ++ map tag_of tags.now)) }
{
    for tag in tags {
        insert_tag(places, *tag)?;
    }
    Ok(())
}

/// Inserts a tag, which is new, into the table of those before it.
fn insert_tag(places: &mut Vec<TagPlace>, tag: Tag) -> Result<(), AllocError>
    ensures { OnOk result ((ts : List ModelTag) → Lists places.old.items ts → place_of ts (tag_of tag) ≡ None
        → Lists places.new.items (ts ++ tag_of tag ∷ [])) }
{
    let index = places.as_slice().partition_point(
        |entry: &TagPlace| -> bool
            ensures { result ≡ tag_less (tag_of entry.now.tag) (tag_of tag) }
        { entry.tag.const_less_than(tag) },
    );
    let place = places.len();
    places.insert(index, TagPlace { tag, place })?;
    Ok(())
}
