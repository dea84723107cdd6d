//! Constraints with an extension marker (X.680 clause 52), and permitted alphabets.
ghost use Rattle.std.specs.Prelude.{◌≡◌, Some, None, is_some, IfSome, []};

use crate::{Size, Value};
use std::ops::DerefSlice;

/// A permitted alphabet (X.680 51.7): the characters that a string may hold, in any order.
#[derive(Clone, Copy, Debug, PartialEq, Eq)]
pub struct PermittedAlphabet<'a> {
    /// The values of the characters.
    pub characters: &'a [u32],
}

impl<'a> PermittedAlphabet<'a> {
    /// A constraint to these characters.
    pub fn new(range: &'a [u32]) -> Self
        ensures { result.characters.now ≡ range.now }
    {
        PermittedAlphabet { characters: range }
    }

    /// The characters.
    pub fn as_inner(&self) -> &'a [u32]
        ensures { result.now ≡ self.now.characters.now }
    {
        self.characters
    }

    /// The alphabet of two constraints in turn: that of the later one, `other`, as its characters are among those of
    /// the earlier one (X.680 50.8).
    pub fn intersect(&self, other: &Self) -> Self
        ensures { result ≡ other.now }
    {
        *other
    }
}

impl<'a> DerefSlice for PermittedAlphabet<'a> {
    type Elem = u32;

    ghost deref_gives = { λ a characters. characters ≡ a.characters.now };

    fn deref(&self) -> &[u32] {
        self.characters
    }
}

/// A constraint, and the constraints after its extension marker (X.680 52), if it has one.
#[derive(Clone, Copy, Debug, PartialEq, Eq)]
pub struct Extensible<'a, T> {
    /// The constraint before the extension marker: the root.
    pub constraint: T,
    /// The constraints after the extension marker, if there is one.
    pub extensible: Option<&'a [T]>,
}

impl<'a, T> Extensible<'a, T> {
    /// This constraint, without an extension marker.
    pub fn new(constraint: T) -> Self
        ensures root { result.constraint ≡ constraint }
        ensures marker { result.extensible ≡ None }
    {
        Extensible {
            constraint,
            extensible: None,
        }
    }

    /// This constraint, followed by an extension marker and these constraints.
    pub fn new_extensible(constraint: T, constraints: &'a [T]) -> Self
        ensures root { result.constraint ≡ constraint }
        ensures marker { result.extensible ≡ Some constraints.entry }
    {
        Extensible {
            constraint,
            extensible: Some(constraints),
        }
    }

    /// The same root with an extension marker and nothing after it, or without an extension marker.
    pub fn set_extensible(self, extensible: bool) -> Self
        ensures root { result.constraint ≡ self.entry.constraint }
        ensures marker { is_some result.extensible ≡ extensible }
        ensures nothing { IfSome result.extensible (λ additions. additions.now ≡ []) }
    {
        self.extensible_with_constraints(if extensible { Some(&[]) } else { None })
    }

    /// The same root, with an extension marker and these constraints after it, or without an extension marker.
    pub fn extensible_with_constraints(self, constraints: Option<&'a [T]>) -> Self
        ensures root { result.constraint ≡ self.entry.constraint }
        ensures marker { result.extensible ≡ constraints.entry }
    {
        Extensible {
            constraint: self.constraint,
            extensible: constraints,
        }
    }
}

impl From<Value> for Extensible<'_, Value> {
    ghost from_gives = { λ v e. e ≡ record { constraint = v; extensible = None } };

    fn from(constraint: Value) -> Self {
        Extensible::new(constraint)
    }
}

impl From<Size> for Extensible<'_, Size> {
    ghost from_gives = { λ v e. e ≡ record { constraint = v; extensible = None } };

    fn from(constraint: Size) -> Self {
        Extensible::new(constraint)
    }
}

impl<'a> From<PermittedAlphabet<'a>> for Extensible<'a, PermittedAlphabet<'a>> {
    ghost from_gives = { λ v e. e ≡ record { constraint = v; extensible = None } };

    fn from(constraint: PermittedAlphabet<'a>) -> Self {
        Extensible::new(constraint)
    }
}
