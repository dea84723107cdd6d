//! Why a table of types is refused.
ghost use Rattle.std.specs.Prelude.{◌≡◌};
ghost use Rattle.asn1_table_types.specs.declared.faults.Refusal.TheVariants.{Flawed, NoMemory};

use std::alloc::AllocError;
use thiserror::Error;

/// What is wrong with a type (X.680 19 to 29, 51).
#[derive(Clone, Copy, Debug, PartialEq, Eq, Hash, Error)]
pub enum Flaw {
    /// The lower bound of an INTEGER is above the upper one.
    #[error("the lower bound is above the upper one")]
    BoundsOutOfOrder,
    /// The least size is above the greatest one.
    #[error("the minimum size is above the maximum size")]
    SizesOutOfOrder,
    /// There are additions and no extension marker.
    #[error("there are additions without an extension marker")]
    MarkerMissing,
    /// An ENUMERATED has no root item.
    #[error("there is no root item")]
    ItemMissing,
    /// The numbers of the root items, or those of the added ones, do not ascend.
    #[error("the items are not in ascending order")]
    ItemsOutOfOrder,
    /// Two items have one number.
    #[error("an item occurs twice")]
    ItemTwice,
    /// A group of additions has no component.
    #[error("there is no component")]
    ComponentMissing,
    /// A CHOICE has no root alternative.
    #[error("there is no root alternative")]
    AlternativeMissing,
    /// Two components, or two alternatives, have one tag.
    #[error("a tag occurs twice")]
    TagTwice,
    /// The root components of a SET, or the root alternatives of a CHOICE, are not in the order of their tags.
    #[error("the tags are not in ascending order")]
    TagsOutOfOrder,
    /// A component has no tag.
    #[error("a component has no tag")]
    TagMissing,
    /// The type of a component does not begin with the component's tags.
    #[error("a component has the tags of another type")]
    TagsOfOtherType,
    /// A default is no value of its component's type.
    #[error("a default is of another type")]
    DefaultOfOtherType,
    /// A group of additions is where none may be: elsewhere than among additions, or there and not as OPTIONAL.
    #[error("an extension addition group is misplaced")]
    GroupOutOfPlace,
}

/// Why a table of types is refused.
#[derive(Clone, Copy, Debug, PartialEq, Eq, Hash, Drop, Error)]
pub enum TableError {
    /// A type is not lawful.
    #[error("type {place} is not well-formed: {flaw}")]
    Unlawful {
        /// The place of the type.
        place: usize,
        /// What is wrong with it.
        flaw: Flaw,
    },
    /// A default of a type's components is not in normal form: a component in it has its own default as its value, or a
    /// group of additions in it is empty (X.691 19.5 and 19.9, X.696 16). Such a part is to be given as absent.
    #[error("type {place} has a default that gives a component its own default, or an empty group")]
    DefaultNotNormal {
        /// The place of the type.
        place: usize,
    },
    /// Memory ran out during the check.
    #[error("out of memory")]
    OutOfMemory,
}

/// Why a type of a table is refused.
#[derive(Clone, Copy)]
pub enum Refusal {
    /// This is wrong with it.
    Flawed(Flaw),
    /// Memory ran out during the check.
    NoMemory,
}

impl From<Flaw> for Refusal {
    ghost from_gives = { λ flaw r. r ≡ Flawed flaw };

    fn from(flaw: Flaw) -> Self {
        Refusal::Flawed(flaw)
    }
}

impl From<AllocError> for Refusal {
    ghost from_gives = { λ _ r. r ≡ NoMemory };

    fn from(_refused: AllocError) -> Self {
        Refusal::NoMemory
    }
}
