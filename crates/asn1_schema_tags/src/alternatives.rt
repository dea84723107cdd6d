//! The tag trees of the alternatives of a CHOICE.
ghost use Rattle.std.specs.Prelude.{◌≡◌, []};
ghost use Rattle.std.specs.Cow.{cow_slice_items};

use crate::TagTree;
use std::borrow::CowSlice;
use std::convert::AsSlice;
use std::ops::DerefSlice;

/// The tag trees of the alternatives of a CHOICE, in order.
#[derive(Debug, Drop)]
pub struct Variants<'a> {
    /// The trees.
    pub trees: CowSlice<'a, TagTree<'a>>,
}

impl<'a> Variants<'a> {
    /// The given trees.
    pub fn new(trees: Vec<TagTree<'a>>) -> Self
        ensures { cow_slice_items result.trees ≡ trees.entry.items }
    {
        Variants {
            trees: CowSlice::Owned(trees),
        }
    }

    /// No trees.
    pub fn empty() -> Self
        ensures { cow_slice_items result.trees ≡ [] }
    {
        Variants {
            trees: CowSlice::Borrowed(&[]),
        }
    }

    /// The given static trees.
    pub fn from_static(trees: &'static [TagTree<'static>]) -> Self
        ensures { cow_slice_items result.trees ≡ trees.now }
    {
        Variants {
            trees: CowSlice::Borrowed(trees),
        }
    }

    /// The given trees.
    pub fn from_slice(trees: &'a [TagTree<'a>]) -> Self
        ensures { cow_slice_items result.trees ≡ trees.now }
    {
        Variants {
            trees: CowSlice::Borrowed(trees),
        }
    }
}

impl<'a> DerefSlice for Variants<'a> {
    type Elem = TagTree<'a>;

    ghost deref_gives = { λ v trees. trees ≡ cow_slice_items v.trees };

    fn deref(&self) -> &[TagTree<'a>] {
        self.trees.as_slice()
    }
}
