//! Tags: their order (X.680 8.6), the smallest of several, and lists of distinct tags.

ghost use Rattle.std.specs.Prelude.{◌≡◌, ◌⊎◌, ℕ, List, Some, true, false, slice_get};
ghost use Rattle.asn1_model.specs.Schema.{Tag};
ghost use Rattle.asn1_model.specs.Lawful.{tag_less, tag_same, smallest, are_distinct};
ghost use Rattle.asn1_laws_values.specs.Places.{StandOnce, Twice};

/// The order of tags (X.680 8.6) is strict and total: of two different tags, one is less than the other.
pub fn tags_are_ordered()
    ensures itself { (t : Tag) → tag_less t t ≡ false }
    ensures through { (t u v : Tag) → tag_less t u ≡ true → tag_less u v ≡ true → tag_less t v ≡ true }
    ensures total { (t u : Tag) → tag_less t u ≡ false → tag_less u t ≡ false → t ≡ u }
{}

/// The smallest of a tag and others is one of them, and none of them is less.
pub fn smallest_is_least()
    ensures one { (d : Tag) (ts : List Tag) → (smallest d ts ≡ d)
        ⊎ ((i : ℕ) × (slice_get ts i ≡ Some (smallest d ts))) }
    ensures start { (d : Tag) (ts : List Tag) → tag_less d (smallest d ts) ≡ false }
    ensures least { (d : Tag) (ts : List Tag) (i : ℕ) (t : Tag) → slice_get ts i ≡ Some t → tag_less t (smallest d ts)
        ≡ false }
{}

/// The test for distinct tags passes exactly if no tag is at two positions.
pub fn distinct_tags_stand_once()
    ensures once { (ts : List Tag) → are_distinct tag_same ts ≡ true → StandOnce ts }
    ensures twice { (ts : List Tag) → are_distinct tag_same ts ≡ false → Twice ts }
{}
