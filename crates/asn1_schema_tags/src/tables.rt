//! The description of a CHOICE for a codec.
ghost use Rattle.std.specs.Prelude.{◌≡◌, ◌++◌, map, true, false, IfSome, IfNone};
ghost use Rattle.asn1_schema_tags.specs.Chosen.{alternative_of};
ghost use Rattle.asn1_schema_tags.specs.Places.{is_table_of};
ghost use Rattle.asn1_schema_tags.specs.Tags.{tag_of};
ghost use Rattle.asn1_schema_tags.specs.Trees.{place_of};

use crate::{Chosen, Tag, TagPlace, find_numbered_place, is_place_table};
use std::marker::Model;

/// The description of a CHOICE for a codec: the tags of its root alternatives, whether there is an extension marker,
/// the tags of its added alternatives, and the table that finds the alternative of a tag.
#[derive(Debug, Drop)]
pub struct TagTables<'a> {
    roots: &'a [Tag],
    extensible: bool,
    additions: &'a [Tag],
    places: &'a [TagPlace],
}

impl<'a> Model for TagTables<'a> {
    ghost use Rattle.std.specs.Prelude.{◌≡◌, ◌++◌, map, true};
    ghost use Rattle.asn1_schema_tags.specs.Chosen.{ChoiceTags};
    ghost use Rattle.asn1_schema_tags.specs.Places.{is_table_of};
    ghost use Rattle.asn1_schema_tags.specs.Tags.{tag_of};

    ghost Value = { ChoiceTags };

    ghost view = { λ t. record {
      roots = map tag_of t.roots.now;
      extensible = t.extensible;
      additions = map tag_of t.additions.now;
    } };

    ghost invariant = { λ t. is_table_of t.places.now (map tag_of t.roots.now ++ map tag_of t.additions.now) ≡ true };
}

impl<'a> TagTables<'a> {
    /// A description with these tags and their table, which lists the root tags before the added ones.
    pub fn new(
        roots: &'a [Tag],
        extensible: bool,
        additions: &'a [Tag],
        places: &'a [TagPlace],
    ) -> Self
        requires table { is_table_of places.now (map tag_of roots.now ++ map tag_of additions.now) ≡ true }
        ensures { result ≡ record {
          roots = map tag_of roots.now;
          extensible = extensible;
          additions = map tag_of additions.now;
        } }
    {
        TagTables {
            roots,
            extensible,
            additions,
            places,
        }
    }

    /// As `new`, or `None` if `places` is not the table of these tags.
    pub fn checked(
        roots: &'a [Tag],
        extensible: bool,
        additions: &'a [Tag],
        places: &'a [TagPlace],
    ) -> Option<Self>
        ensures some { IfSome result (λ t. t ≡ record {
          roots = map tag_of roots.now;
          extensible = extensible;
          additions = map tag_of additions.now;
        }) }
        ensures none { IfNone result
            (is_table_of places.now (map tag_of roots.now ++ map tag_of additions.now) ≡ false) }
    {
        if !is_place_table(places, roots, additions) {
            return None;
        }
        Some(TagTables::new(roots, extensible, additions, places))
    }

    /// The tags of the root alternatives.
    pub fn roots(&self) -> &'a [Tag]
        ensures { map tag_of result.now ≡ self.now.roots }
    {
        self.roots
    }

    /// Whether there is an extension marker.
    pub fn extensible(&self) -> bool
        ensures { result ≡ self.now.extensible }
    {
        self.extensible
    }

    /// The tags of the added alternatives.
    pub fn additions(&self) -> &'a [Tag]
        ensures { map tag_of result.now ≡ self.now.additions }
    {
        self.additions
    }

    /// The index of a tag in the concatenation of root and added tags.
    pub fn find(&self, tag: Tag) -> Option<usize>
        ensures { result ≡ place_of (self.now.roots ++ self.now.additions) (tag_of tag) }
    {
        find_numbered_place(self.places, tag)
    }

    /// The alternative of a tag: a root alternative, or an added one if there is an extension marker.
    pub fn alternative(&self, tag: Tag) -> Option<Chosen>
        ensures { result ≡ alternative_of self.now (tag_of tag) }
    {
        let place = self.find(tag)?;
        let count = self.roots.len();
        if place < count {
            return Some(Chosen::root(place));
        }
        if !self.extensible {
            return None;
        }
        Some(Chosen::addition(place - count))
    }
}
