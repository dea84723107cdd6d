//! The effective size constraint of a string, a SEQUENCE OF or a SET OF (X.680 51.5), as encoders and decoders need
//! it.
ghost use Rattle.std.specs.Prelude.{◌≡◌};
ghost use Rattle.asn1_model.specs.Oer.{is_fixed};
ghost use Rattle.asn1_model.specs.Numbers.{admits};
ghost use Rattle.asn1_schema_constraints.specs.Bounds.{counts_of};
ghost use Rattle.asn1_schema_constraints.specs.Terms.{sizes_of, size_of, one_size};

use crate::{Bounded, Constraints};

/// The sizes in the root, and whether there is an extension marker (X.680 51.5 and 52).
#[derive(Clone, Copy, Debug, PartialEq, Eq)]
pub struct Sizes {
    /// The sizes in the root.
    pub root: Bounded<usize>,
    /// Whether there is an extension marker.
    pub is_extensible: bool,
}

impl Constraints<'_> {
    /// The sizes that these constraints allow: all, without an extension marker, if there is no size constraint.
    #[inline(always)]
    pub fn sizes(&self) -> Sizes
        ensures { size_of result ≡ sizes_of self.now.size }
    {
        match self.size {
            None => Sizes {
                root: Bounded::None,
                is_extensible: false,
            },
            Some(size) => Sizes {
                root: size.constraint.range,
                is_extensible: size.extensible.is_some(),
            },
        }
    }
}

impl Sizes {
    /// The fixed size, if the root has only one and there is no extension marker. Then no length determinant is
    /// encoded (X.696 13, 14 and 27).
    #[inline(always)]
    pub fn fixed(&self) -> Option<usize>
        ensures { result ≡ one_size (size_of self.now) }
    {
        match self.root.as_end() {
            Some(high) if !self.is_extensible && *high == self.root.minimum() => Some(*high),
            _ => None,
        }
    }

    /// Whether the root has only one size and there is no extension marker.
    #[inline(always)]
    pub fn is_fixed(&self) -> bool
        ensures { result ≡ is_fixed (size_of self.now) }
    {
        self.fixed().is_some()
    }

    /// Whether a user-defined type with the bounds `held` holds `count` units, and `count` is in the root or there is
    /// an extension marker.
    #[inline(always)]
    pub fn admits(&self, held: Bounded<usize>, count: usize) -> bool
        ensures { result ≡ admits (size_of self.now) (counts_of held) count }
    {
        held.contains(&count) && (self.is_extensible || self.root.contains(&count))
    }
}
