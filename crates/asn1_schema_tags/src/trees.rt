//! Trees of tags: a type's tag, or the trees of the alternatives of an untagged CHOICE.
#![tactic(auto, using(crate::proofs::TreeLaws::leaves_and_tags))]

ghost use Rattle.std.specs.Prelude.{◌≡◌, ◌+◌, ◌^◌, ◌<◌, IsTrue, IfSome, Some, [], ◌∷◌, length, option_map, slice_get};
ghost use Rattle.asn1_model.specs.Lawful.{smallest};
ghost use Rattle.asn1_schema_tags.specs.Tags.{tag_of};
ghost use Rattle.asn1_schema_tags.specs.Trees.{leaves, leaves_of, own_tag, are_unique, is_among, share_a_tag};
ghost use Rattle.asn1_schema_tags.specs.Trees.{greatest_tag, counted, place_of};
ghost use Rattle.asn1_schema_tags.specs.Plain.{same_tree};
ghost use Rattle.asn1_schema_tags.specs.Same.{same_tree_equiv};
ghost use Rattle.std.specs.Cmp.{partial_equiv_from_equiv};

use crate::{Class, Tag};
use std::fmt;

/// The tags with which a value of a type may begin: its own, or those of its alternatives if it is an untagged CHOICE
/// (X.680 29).
#[derive(Clone, Copy)]
pub enum TagTree<'a> {
    /// The tag of a type.
    Leaf(Tag),
    /// The alternatives of an untagged CHOICE.
    Choice(&'a [TagTree<'a>]),
}

impl<'a> TagTree<'a> {
    /// The tree of one tag.
    pub fn of(tag: Tag) -> Self
        ensures leaves { leaves result ≡ tag_of tag ∷ [] }
        ensures own { own_tag result ≡ tag }
    {
        TagTree::Leaf(tag)
    }

    /// The tree with no leaf.
    pub fn empty() -> Self
        ensures { leaves result ≡ [] }
    {
        TagTree::Choice(&[])
    }

    /// The tag of a type with this tree: that of the leaf, or `Tag::CHOICE` for an untagged CHOICE.
    pub fn own_tag(&self) -> Tag
        ensures { result ≡ own_tag self.now }
    {
        match self {
            TagTree::Leaf(tag) => *tag,
            TagTree::Choice(_) => Tag::CHOICE,
        }
    }

    /// The smallest tag of the leaves, or the greatest private tag if there are no leaves (X.680 8.6).
    pub fn smallest_tag(&self) -> Tag
        ensures { tag_of result ≡ smallest greatest_tag (leaves self.now) }
    {
        self.smaller_than(Tag {
            class: Class::Private,
            value: u32::MAX,
        })
    }

    // The smallest of the leaves' tags and one more tag.
    fn smaller_than(&self, most: Tag) -> Tag
        ensures { tag_of result ≡ smallest (tag_of most) (leaves self.now) }
    {
        match self {
            TagTree::Leaf(tag) => {
                if tag.const_less_than(most) {
                    *tag
                } else {
                    most
                }
            }
            TagTree::Choice(nodes) => {
                let mut least = most;
                for node in nodes.iter() {
                    least = node.smaller_than(least);
                }
                least
            }
        }
    }

    /// Whether all leaves have distinct tags.
    pub fn is_unique(&self) -> bool
        ensures { result ≡ are_unique (leaves self.now) }
    {
        match self {
            TagTree::Leaf(_) => true,
            TagTree::Choice(nodes) => {
                for (i, node) in nodes.iter().enumerate() {
                    if !node.is_unique() || node.shares_a_tag(&nodes[i + 1..]) {
                        return false;
                    }
                }
                true
            }
        }
    }

    /// Whether a tag is among the leaves of the trees.
    pub fn tag_contains(needle: &Tag, nodes: &[TagTree<'a>]) -> bool
        ensures { result ≡ is_among (leaves_of nodes.now) (tag_of needle.now) }
    {
        for node in nodes {
            if node.has_tag(needle) {
                return true;
            }
        }
        false
    }

    // Whether a tag is among the leaves.
    fn has_tag(&self, needle: &Tag) -> bool
        ensures { result ≡ is_among (leaves self.now) (tag_of needle.now) }
    {
        match self {
            TagTree::Leaf(tag) => needle.const_eq(tag),
            TagTree::Choice(nodes) => {
                for node in nodes.iter() {
                    if node.has_tag(needle) {
                        return true;
                    }
                }
                false
            }
        }
    }

    // Whether some leaf has the tag of a leaf of the other trees.
    fn shares_a_tag(&self, others: &[TagTree<'a>]) -> bool
        ensures { result ≡ share_a_tag (leaves self.now) (leaves_of others.now) }
    {
        match self {
            TagTree::Leaf(tag) => TagTree::tag_contains(tag, others),
            TagTree::Choice(nodes) => {
                for node in nodes.iter() {
                    if node.shares_a_tag(others) {
                        return true;
                    }
                }
                false
            }
        }
    }

    /// The number of leaves, or `None` if it does not fit.
    pub fn leaf_count(&self) -> Option<usize>
        ensures counted { result ≡ counted (length (leaves self.now)) }
        ensures fits { IfSome result (λ n. n ≡ length (leaves self.now)) }
    {
        match self {
            TagTree::Leaf(_) => Some(1),
            TagTree::Choice(nodes) => {
                let mut total: usize = 0;
                for node in nodes.iter() {
                    total = total.checked_add(node.leaf_count()?)?;
                }
                Some(total)
            }
        }
    }

    /// The index of the first leaf with this tag, counted from 0, or `None` if no leaf has it. The number of leaves
    /// has to fit (see [`TagTree::leaf_count`]).
    pub fn leaf_position(&self, tag: &Tag) -> Option<usize>
        requires { length (leaves self.now) < 2 ^ 64 }
        ensures place { result ≡ place_of (leaves self.now) (tag_of tag.now) }
        ensures back { IfSome result (λ p. slice_get (leaves self.now) p ≡ Some (tag_of tag.now)) }
    {
        self.place(tag)
    }

    // The index of the first leaf with a tag.
    fn place(&self, tag: &Tag) -> Option<usize>
        requires { length (leaves self.now) < 2 ^ 64 }
        ensures { result ≡ place_of (leaves self.now) (tag_of tag.now) }
    {
        match self {
            TagTree::Leaf(own) => { if tag.const_eq(own) { Some(0) } else { None } }
            TagTree::Choice(nodes) => {
                let mut before: usize = 0;
                for node in nodes.iter() {
                    if let Some(place) = node.place(tag) {
                        return Some(before + place);
                    }
                    before += node.leaf_count().unwrap();
                }
                None
            }
        }
    }

    /// The tag of the leaf at an index, counted from 0, or `None` if there are not that many leaves.
    pub fn leaf_at(&self, position: usize) -> Option<Tag>
        ensures tag { option_map tag_of result ≡ slice_get (leaves self.now) position }
        // in a tree with distinct tags, `position` is the index of that tag
        ensures back { IsTrue (are_unique (leaves self.now))
            → IfSome result (λ t. place_of (leaves self.now) (tag_of t) ≡ Some position) }
    {
        self.tag_at(position)
    }

    // Whether another tree has the same tags at the same positions.
    fn is_same_as(&self, other: &TagTree<'_>) -> bool
        ensures { result ≡ same_tree self.now other.now }
    {
        match (self, other) {
            (TagTree::Leaf(tag), TagTree::Leaf(other)) => tag.const_eq(other),
            (TagTree::Choice(nodes), TagTree::Choice(others)) => {
                if nodes.len() != others.len() {
                    return false;
                }
                for (i, node) in nodes.iter().enumerate() {
                    if !node.is_same_as(&others[i]) {
                        return false;
                    }
                }
                true
            }
            (TagTree::Leaf(_), TagTree::Choice(_)) => false,
            (TagTree::Choice(_), TagTree::Leaf(_)) => false,
        }
    }

    // The tag of the leaf at an index.
    fn tag_at(&self, position: usize) -> Option<Tag>
        ensures { option_map tag_of result ≡ slice_get (leaves self.now) position }
    {
        match self {
            TagTree::Leaf(tag) => { if position == 0 { Some(*tag) } else { None } }
            TagTree::Choice(nodes) => {
                let mut left = position;
                for node in nodes.iter() {
                    if let Some(tag) = node.tag_at(left) {
                        return Some(tag);
                    }
                    left -= node.leaf_count().unwrap();
                }
                None
            }
        }
    }
}

impl PartialEq for TagTree<'_> {
    ghost eq = { same_tree };

    ghost laws = { partial_equiv_from_equiv same_tree_equiv };

    fn eq(&self, other: &Self) -> bool {
        self.is_same_as(other)
    }
}

impl Eq for TagTree<'_> {
    ghost laws = { same_tree_equiv };
}

impl fmt::Debug for TagTree<'_> {
    fn fmt<W: fmt::Write>(&self, f: &mut fmt::Formatter<W>) -> fmt::Result {
        match self {
            TagTree::Leaf(tag) => write!(f, "Leaf({tag})"),
            TagTree::Choice(nodes) => {
                f.write_str("Choice(")?;
                for node in nodes.iter() {
                    node.fmt(f)?;
                }
                f.write_str(")")
            }
        }
    }
}
