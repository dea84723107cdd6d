//! Tables of tags and indices, which a look-up reads only through counted comparisons.
ghost use Rattle.std.specs.Prelude.{◌≡◌, ◌+◌, ◌<◌, ◌^◌, ℕ, IsTrue, ◌↔◌, Some, length, slice_get};
ghost use Rattle.std.specs.declared.cmp.Ordering.TheVariants.{Less, Equal, Greater};
ghost use Rattle.asn1_model.specs.Lawful.{tag_less};
ghost use Rattle.asn1_schema_tags.specs.Tags.{tag_of};

use crate::Tag;
use std::cmp::Ordering;
use std::marker::Model;

/// The tag of an alternative of a CHOICE, and its index: among the root alternatives, or, counted after all of these,
/// among the added ones.
#[derive(Clone, Copy, Debug, PartialEq, Eq)]
pub struct TagPlace {
    /// The tag of the alternative.
    pub tag: Tag,
    /// Its index, from 0.
    pub place: usize,
}

/// A table of tags that is read only through comparisons, and counts them.
#[derive(Drop)]
pub struct TagProbe<'a> {
    places: &'a [TagPlace],
    count: u64,
}

impl<'a> Model for TagProbe<'a> {
    ghost use Rattle.asn1_schema_tags.specs.Places.{Probed};

    ghost Value = { Probed };

    ghost view = { λ probe. record { places = probe.places.now; count = probe.count } };
}

impl<'a> TagProbe<'a> {
    /// A probe of a table, with no comparisons made.
    pub fn new(places: &'a [TagPlace]) -> Self
        ensures { result ≡ record { places = places.now; count = 0 } }
    {
        TagProbe { places, count: 0 }
    }

    /// The number of tags in the table.
    pub fn len(&self) -> usize
        ensures { result ≡ length self.now.places }
    {
        self.places.len()
    }

    /// Whether the table is empty.
    pub fn is_empty(&self) -> bool
        ensures { IsTrue result ↔ (length self.now.places ≡ 0) }
    {
        self.places.is_empty()
    }

    /// The index of the alternative whose tag is at `index` in the table.
    pub fn place_at(&self, index: usize) -> usize
        requires { index < length self.now.places }
        ensures { (p : _) → slice_get self.now.places index ≡ Some p → result ≡ p.place }
    {
        let places = self.places;
        places[index].place
    }

    /// Compares the tag at `index` in the table with `tag` (X.680 8.6).
    pub fn compare(&mut self, index: usize, tag: Tag) -> Ordering
        requires range { index < length self.old.places }
        requires room { self.old.count < 2 ^ 63 }
        ensures less { (p : _) → slice_get self.old.places index ≡ Some p
            → (result ≡ Less) ↔ IsTrue (tag_less (tag_of p.tag) (tag_of tag)) }
        ensures equal { (p : _) → slice_get self.old.places index ≡ Some p → (result ≡ Equal) ↔ (p.tag ≡ tag) }
        ensures greater { (p : _) → slice_get self.old.places index ≡ Some p
            → (result ≡ Greater) ↔ IsTrue (tag_less (tag_of tag) (tag_of p.tag)) }
        ensures table { self.new.places ≡ self.old.places }
        ensures counted { self.new.count ≡ self.old.count + 1 }
    {
        self.count += 1;
        self.places[index].tag.const_cmp(&tag)
    }

    /// The number of comparisons so far.
    pub fn count(&self) -> u64
        ensures { result ≡ self.now.count }
    {
        self.count
    }
}
