//! Single constraints of any kind, and the effective constraints of a list of them (X.680 clauses 50 to 52).
ghost use Rattle.std.specs.Prelude.{◌≡◌, ℕ, ℤ, ◌&&◌, Some, None, false, pos};
ghost use Rattle.std.specs.List.{list_all};
ghost use Rattle.std.specs.Option.{option_copied};
ghost use Rattle.asn1_schema_constraints.specs.Sets.{alone, kind_of, kind_number, value_part, size_part, alphabet_part};
ghost use Rattle.asn1_schema_constraints.specs.Sets.{has_marker, unconstrained, both_parts, met_values, met_sizes};
ghost use Rattle.asn1_schema_constraints.specs.Sets.{later_alphabet, both, all_of, is_extensible, admit_number};
ghost use Rattle.asn1_schema_constraints.specs.Sets.{admit_count};
ghost use Rattle.asn1_schema_constraints.specs.declared.lists.Constraint.TheVariants.{Value as OfValue, Size as OfSize};
ghost use Rattle.asn1_schema_constraints.specs.declared.lists.Constraint.TheVariants.{PermittedAlphabet as OfAlphabet};

use crate::{Extensible, PermittedAlphabet, Size, Value};

/// A constraint.
#[derive(Clone, Copy, Debug, PartialEq, Eq)]
pub enum Constraint<'a> {
    /// On the value of a number (X.680 51.4).
    Value(Extensible<'a, Value>),
    /// On a size (X.680 51.5).
    Size(Extensible<'a, Size>),
    /// On the characters of a string (X.680 51.7).
    PermittedAlphabet(Extensible<'a, PermittedAlphabet<'a>>),
    /// The type itself has an extension marker (X.680 20, 25, 27 and 29).
    Extensible,
}

/// The kind of a constraint.
#[derive(Clone, Copy, Debug, PartialEq, Eq)]
pub enum ConstraintDiscriminant {
    /// On the value of a number.
    Value,
    /// On a size.
    Size,
    /// On the characters of a string.
    PermittedAlphabet,
    /// An extension marker of the type.
    Extensible,
}

impl<'a> Constraint<'a> {
    /// The kind of the constraint.
    pub fn kind(&self) -> ConstraintDiscriminant
        ensures { result ≡ kind_of self.now }
    {
        match self {
            Constraint::Value(_) => ConstraintDiscriminant::Value,
            Constraint::Size(_) => ConstraintDiscriminant::Size,
            Constraint::PermittedAlphabet(_) => ConstraintDiscriminant::PermittedAlphabet,
            Constraint::Extensible => ConstraintDiscriminant::Extensible,
        }
    }

    /// The number of the kind: 0 for values, 1 for sizes, 2 for permitted alphabets and 3 for an extension marker.
    pub fn variant_as_isize(&self) -> isize
        ensures { result ≡ pos (kind_number (kind_of self.now)) }
    {
        match self {
            Constraint::Value(_) => 0,
            Constraint::Size(_) => 1,
            Constraint::PermittedAlphabet(_) => 2,
            Constraint::Extensible => 3,
        }
    }

    /// The constraint on a value, if it is one.
    pub fn as_value(&self) -> Option<&Extensible<'a, Value>>
        ensures { option_copied result ≡ value_part self.now }
    {
        match self {
            Constraint::Value(value) => Some(value),
            _ => None,
        }
    }

    /// The constraint on the characters, if it is one.
    pub fn as_permitted_alphabet(&self) -> Option<&Extensible<'a, PermittedAlphabet<'a>>>
        ensures { option_copied result ≡ alphabet_part self.now }
    {
        match self {
            Constraint::PermittedAlphabet(alphabet) => Some(alphabet),
            _ => None,
        }
    }

    /// The constraint on a size, if it is one.
    pub fn to_size(&self) -> Option<&Extensible<'a, Size>>
        ensures { option_copied result ≡ size_part self.now }
    {
        match self {
            Constraint::Size(size) => Some(size),
            _ => None,
        }
    }

    /// The constraint on a value, if it is one.
    pub fn to_value(&self) -> Option<&Extensible<'a, Value>>
        ensures { option_copied result ≡ value_part self.now }
    {
        self.as_value()
    }

    /// Whether it has an extension marker, or is one.
    pub fn is_extensible(&self) -> bool
        ensures { result ≡ has_marker self.now }
    {
        match self {
            Constraint::Value(value) => value.extensible.is_some(),
            Constraint::Size(size) => size.extensible.is_some(),
            Constraint::PermittedAlphabet(alphabet) => alphabet.extensible.is_some(),
            Constraint::Extensible => true,
        }
    }
}

impl From<Value> for Constraint<'_> {
    ghost from_gives = { λ v c. c ≡ OfValue (record { constraint = v; extensible = None }) };

    fn from(constraint: Value) -> Self {
        Constraint::Value(Extensible::new(constraint))
    }
}

impl<'a> From<Extensible<'a, Value>> for Constraint<'a> {
    ghost from_gives = { λ v c. c ≡ OfValue v };

    fn from(constraint: Extensible<'a, Value>) -> Self {
        Constraint::Value(constraint)
    }
}

impl From<Size> for Constraint<'_> {
    ghost from_gives = { λ v c. c ≡ OfSize (record { constraint = v; extensible = None }) };

    fn from(constraint: Size) -> Self {
        Constraint::Size(Extensible::new(constraint))
    }
}

impl<'a> From<Extensible<'a, Size>> for Constraint<'a> {
    ghost from_gives = { λ v c. c ≡ OfSize v };

    fn from(constraint: Extensible<'a, Size>) -> Self {
        Constraint::Size(constraint)
    }
}

impl<'a> From<PermittedAlphabet<'a>> for Constraint<'a> {
    ghost from_gives = { λ v c. c ≡ OfAlphabet (record { constraint = v; extensible = None }) };

    fn from(constraint: PermittedAlphabet<'a>) -> Self {
        Constraint::PermittedAlphabet(Extensible::new(constraint))
    }
}

impl<'a> From<Extensible<'a, PermittedAlphabet<'a>>> for Constraint<'a> {
    ghost from_gives = { λ v c. c ≡ OfAlphabet v };

    fn from(constraint: Extensible<'a, PermittedAlphabet<'a>>) -> Self {
        Constraint::PermittedAlphabet(constraint)
    }
}

// A value constraint followed by another, if there are any.
fn values_in_turn<'a>(
    one: Option<Extensible<'a, Value>>,
    other: Option<Extensible<'a, Value>>,
) -> Option<Extensible<'a, Value>>
    ensures { result ≡ both_parts met_values one.entry other.entry }
{
    match (one, other) {
        (Some(earlier), Some(later)) => Some(Extensible {
            constraint: earlier.constraint.intersect(&later.constraint),
            extensible: later.extensible.or(earlier.extensible),
        }),
        (Some(earlier), None) => Some(earlier),
        (None, later) => later,
    }
}

// A size constraint followed by another, if there are any.
fn sizes_in_turn<'a>(
    one: Option<Extensible<'a, Size>>,
    other: Option<Extensible<'a, Size>>,
) -> Option<Extensible<'a, Size>>
    ensures { result ≡ both_parts met_sizes one.entry other.entry }
{
    match (one, other) {
        (Some(earlier), Some(later)) => Some(Extensible {
            constraint: earlier.constraint.intersect(&later.constraint),
            extensible: later.extensible.or(earlier.extensible),
        }),
        (Some(earlier), None) => Some(earlier),
        (None, later) => later,
    }
}

// A permitted alphabet followed by another, if there are any.
fn alphabets_in_turn<'a>(
    one: Option<Extensible<'a, PermittedAlphabet<'a>>>,
    other: Option<Extensible<'a, PermittedAlphabet<'a>>>,
) -> Option<Extensible<'a, PermittedAlphabet<'a>>>
    ensures { result ≡ both_parts later_alphabet one.entry other.entry }
{
    match (one, other) {
        (Some(earlier), Some(later)) => Some(Extensible {
            constraint: earlier.constraint.intersect(&later.constraint),
            extensible: later.extensible.or(earlier.extensible),
        }),
        (Some(earlier), None) => Some(earlier),
        (None, later) => later,
    }
}

/// The effective constraints of a list: at most one of each kind, and whether the type itself has an extension marker.
#[derive(Clone, Copy, Debug, PartialEq, Eq)]
pub struct Constraints<'a> {
    /// The constraint on the value of a number.
    pub value: Option<Extensible<'a, Value>>,
    /// The constraint on the size.
    pub size: Option<Extensible<'a, Size>>,
    /// The constraint on the characters of a string.
    pub permitted_alphabet: Option<Extensible<'a, PermittedAlphabet<'a>>>,
    /// Whether the type itself has an extension marker.
    pub is_extensible: bool,
}

impl<'a> Constraints<'a> {
    /// No constraint.
    pub const NONE: Constraints<'static> = Constraints {
        value: None,
        size: None,
        permitted_alphabet: None,
        is_extensible: false,
    };

    /// The effective constraints of these constraints, applied in turn.
    pub fn new(constraints: &[Constraint<'a>]) -> Self
        ensures list { result ≡ all_of constraints.now }
        ensures numbers { (v : ℤ) → admit_number result v ≡ list_all (λ c. admit_number (alone c) v) constraints.now }
        ensures sizes { (n : ℕ) → admit_count result n ≡ list_all (λ c. admit_count (alone c) n) constraints.now }
    {
        let mut all = Constraints::NONE;
        for constraint in constraints {
            all = all.intersect(Constraints::from(*constraint));
        }
        all
    }

    /// These constraints followed by `rhs`: what both admit, with an extension marker if either has one, and after it
    /// what follows the later extension marker. Of two permitted alphabets the later one applies.
    pub fn intersect(&self, rhs: Constraints<'a>) -> Self
        ensures parts { result ≡ both self.now rhs.entry }
        ensures numbers { (v : ℤ) → admit_number result v ≡ (admit_number self.now v && admit_number rhs.entry v) }
        ensures sizes { (n : ℕ) → admit_count result n ≡ (admit_count self.now n && admit_count rhs.entry n) }
    {
        Constraints {
            value: values_in_turn(self.value, rhs.value),
            size: sizes_in_turn(self.size, rhs.size),
            permitted_alphabet: alphabets_in_turn(self.permitted_alphabet, rhs.permitted_alphabet),
            is_extensible: self.is_extensible || rhs.is_extensible,
        }
    }

    /// The constraint on the size, if there is one.
    pub fn size(&self) -> Option<&Extensible<'a, Size>>
        ensures { option_copied result ≡ self.now.size }
    {
        self.size.as_ref()
    }

    /// The constraint on the characters, if there is one.
    pub fn permitted_alphabet(&self) -> Option<&Extensible<'a, PermittedAlphabet<'a>>>
        ensures { option_copied result ≡ self.now.permitted_alphabet }
    {
        self.permitted_alphabet.as_ref()
    }

    /// Whether the type or a constraint has an extension marker.
    pub fn extensible(&self) -> bool
        ensures { result ≡ is_extensible self.now }
    {
        self.is_extensible
            || self.value.is_some_and(|value| value.extensible.is_some())
            || self.size.is_some_and(|size| size.extensible.is_some())
            || self
                .permitted_alphabet
                .is_some_and(|alphabet| alphabet.extensible.is_some())
    }

    /// The constraint on the value, if there is one.
    pub fn value(&self) -> Option<&Extensible<'a, Value>>
        ensures { option_copied result ≡ self.now.value }
    {
        self.value.as_ref()
    }
}

impl Default for Constraints<'_> {
    ghost is_default = { λ c. c ≡ unconstrained };

    fn default() -> Self {
        Constraints::NONE
    }
}

impl<'a> From<Constraint<'a>> for Constraints<'a> {
    ghost from_gives = { λ one all. all ≡ alone one };

    fn from(constraint: Constraint<'a>) -> Self {
        match constraint {
            Constraint::Value(value) => Constraints {
                value: Some(value),
                ..Constraints::NONE
            },
            Constraint::Size(size) => Constraints {
                size: Some(size),
                ..Constraints::NONE
            },
            Constraint::PermittedAlphabet(alphabet) => Constraints {
                permitted_alphabet: Some(alphabet),
                ..Constraints::NONE
            },
            Constraint::Extensible => Constraints {
                is_extensible: true,
                ..Constraints::NONE
            },
        }
    }
}
