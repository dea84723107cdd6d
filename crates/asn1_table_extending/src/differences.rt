//! Why a type is no newer version of another.
ghost use Rattle.std.specs.Prelude.{◌≡◌};
ghost use Rattle.asn1_table_extending.specs.declared.differences.Fault.TheVariants.{Differs, NoMemory};

use std::alloc::AllocError;
use thiserror::Error;

/// What keeps a type from being a newer version of another, apart from the types of their parts (X.680 52).
#[derive(Clone, Copy, Debug, PartialEq, Eq, Hash, Error)]
pub enum Difference {
    /// One of the two is outside its table, and the other is not.
    #[error("one of the types is not there")]
    Place,
    /// They are of different kinds, such as INTEGER and BOOLEAN, or two kinds of character strings.
    #[error("the kinds differ")]
    Kind,
    /// Their value constraints differ (X.680 51.4).
    #[error("the value constraints differ")]
    Bounds,
    /// Their size constraints differ (X.680 51.5).
    #[error("the size constraints differ")]
    Sizes,
    /// Their permitted alphabets differ, or have their characters in another order (X.680 51.7).
    #[error("the permitted alphabets differ")]
    Alphabet,
    /// One of them has an extension marker, and the other has none (X.680 52).
    #[error("only one has an extension marker")]
    Marker,
    /// The root items of the ENUMERATED differ (X.680 20).
    #[error("the root items differ")]
    RootItems,
    /// The added items of the older ENUMERATED are not the first ones of the newer (X.680 20).
    #[error("an added item is missing or has another number")]
    AddedItems,
    /// A component is missing in the newer one.
    #[error("a component is missing")]
    ComponentMissing,
    /// A component is added to the root or to a group of additions, or there is no extension marker before it.
    #[error("a component is added elsewhere than after an extension marker")]
    ComponentAdded,
    /// A tag with which a component of the older one may begin is none with which that of the newer one may.
    #[error("a component has other tags")]
    ComponentTags,
    /// A component is required, OPTIONAL or with DEFAULT in one of them, and something else in the other (X.680 25).
    #[error("a component is required, OPTIONAL or with DEFAULT in one only")]
    Presence,
    /// A component has another default, or one that is of a SEQUENCE or SET with further additions.
    #[error("a component has another default")]
    Default,
    /// An alternative is missing in the newer one (X.680 29).
    #[error("an alternative is missing")]
    AlternativeMissing,
    /// An alternative is added to the root, or there is no extension marker before it.
    #[error("an alternative is added elsewhere than after an extension marker")]
    AlternativeAdded,
    /// An alternative has another tag.
    #[error("an alternative has another tag")]
    AlternativeTag,
}

/// Why a type is no newer version of another.
#[derive(Clone, Copy, Debug, PartialEq, Eq, Hash, Drop, Error)]
pub enum ExtendingError {
    /// Two types to which they lead, or they themselves, differ.
    #[error("type {newer} does not extend type {older}: {difference}")]
    NotExtended {
        /// The place of the newer type in its table.
        newer: usize,
        /// The place of the older type in its table.
        older: usize,
        /// How they differ.
        difference: Difference,
    },
    /// Memory ran out during the check.
    #[error("out of memory")]
    OutOfMemory,
}

/// Why two types are not so, wherever they are.
#[derive(Clone, Copy)]
pub enum Fault {
    /// They differ.
    Differs(Difference),
    /// Memory ran out.
    NoMemory,
}

impl From<Difference> for Fault {
    ghost from_gives = { λ difference r. r ≡ Differs difference };

    fn from(difference: Difference) -> Self {
        Fault::Differs(difference)
    }
}

impl From<AllocError> for Fault {
    ghost from_gives = { λ _ r. r ≡ NoMemory };

    fn from(_refused: AllocError) -> Self {
        Fault::NoMemory
    }
}
