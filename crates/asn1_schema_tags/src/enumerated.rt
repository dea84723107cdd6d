//! ENUMERATED types.
ghost use Rattle.std.specs.Prelude.{◌≡◌, ℕ, ℤ, Bool, true, false, cond, List};
ghost use Rattle.std.specs.Prelude.{◌++◌, length, map, min, ◌+◌, ◌≤◌, Some, MatchOption};
ghost use Rattle.std.specs.Str.{bytes_eq};
ghost use Rattle.asn1_model.specs.Lawful.{are_distinct};
ghost use Rattle.asn1_model.specs.Normal.{item_index};
ghost use Rattle.asn1_model.specs.Value.{same_number};
ghost use Rattle.asn1_schema_tags.specs.Items.{IsPlaced, IsNone, IsUnnamed, item_name};

use crate::chosen::Chosen;

/// ENUMERATED (X.680 20): a type whose values are items, each with a number and a name.
pub trait Enumerated: Copy {
    /// The numbers of the root items, in ascending order.
    ghost roots: { List ℤ };

    /// Whether there is an extension marker.
    ghost extensible: { Bool };

    /// The numbers of the added items, in ascending order.
    ghost additions: { List ℤ };

    /// The number of an item.
    ghost number: { Self → ℤ };

    /// The names of the items in UTF-8: those of the root items, then those of the added ones, in the order of their
    /// numbers.
    ghost names: { List (List ℕ) };

    /// The root items, in ascending order of their numbers.
    fn variants<'a>() -> &'a [Self]
    where
        Self: 'a,
        ensures { map number result.now ≡ roots };

    /// The added items, in ascending order of their numbers, or `None` if there is no extension marker.
    fn extended_variants<'a>() -> Option<&'a [Self]>
    where
        Self: 'a,
        ensures { MatchOption result (extensible ≡ false) (λ xs. (extensible ≡ true)
            × (map number xs.now ≡ additions)) };

    /// The number of the item.
    fn discriminant(&self) -> isize
        ensures { result ≡ number self.now };

    /// The name of the item.
    fn identifier(&self) -> &'static str
        ensures { result.now ≡ item_name (roots ++ additions) names (number self.now) };

    /// No number occurs twice (X.680 20.6).
    ghost distinct: { are_distinct same_number (roots ++ additions) ≡ true };

    /// Each number has a name, and no name occurs twice (X.680 20.1).
    ghost named: { (length names ≡ length (roots ++ additions)) × (are_distinct bytes_eq names ≡ true) };

    /// No two items have the same number.
    ghost one_number: { (x y : Self) → number x ≡ number y → x ≡ y };

    /// Each value is an item of the type.
    ghost listed: { (x : Self) → (added : Bool) × (i : ℕ) × IsPlaced roots extensible additions (number x) added i };

    /// The number of root items.
    final fn variance() -> usize
    where
        Self: Sized,
        ensures { result ≡ length roots }
    {
        Self::variants().len()
    }

    /// The number of added items.
    final fn extended_variance() -> usize
    where
        Self: Sized,
        ensures { result ≡ cond extensible (length additions) 0 }
    {
        match Self::extended_variants() {
            Some(items) => items.len(),
            None => 0,
        }
    }

    /// The number of all items, root and added; `usize::MAX` if it does not fit.
    final fn complete_variance() -> usize
    where
        Self: Sized,
        ensures { result ≡ min (length roots + cond extensible (length additions) 0) 18446744073709551615 }
    {
        Self::variance().saturating_add(Self::extended_variance())
    }

    /// Whether the item is an extension addition, and its enumeration index in the root or among the additions, in
    /// ascending order of the numbers (X.691 14.1 and 14.2).
    final fn item_index(&self) -> Chosen
    where
        Self: Sized,
        ensures { IsPlaced roots extensible additions (number self.now) result.added result.place }
    {
        let number = self.discriminant();
        if let Some(place) = place_of(Self::variants(), number) {
            return Chosen::root(place);
        }
        if let Some(items) = Self::extended_variants() {
            if let Some(place) = place_of(items, number) {
                return Chosen::addition(place);
            }
        }
        unreachable!()
    }

    /// Whether the item is an extension addition.
    final fn is_extended_variant(&self) -> bool
    where
        Self: Sized,
        ensures { (i : ℕ) × IsPlaced roots extensible additions (number self.now) result i }
    {
        self.item_index().added
    }

    /// The enumeration index of the item: in the root, or among the additions, from 0.
    final fn enumeration_index(&self) -> usize
    where
        Self: Sized,
        ensures { (added : Bool) × IsPlaced roots extensible additions (number self.now) added result }
    {
        self.item_index().place
    }

    /// The root item with this enumeration index, if there is one.
    final fn from_enumeration_index(index: usize) -> Option<Self>
    where
        Self: Sized,
        ensures { MatchOption result (length roots ≤ index)
            (λ x. IsPlaced roots extensible additions (number x) false index) }
    {
        Self::variants().get(index).copied()
    }

    /// The added item with this index, if there is one.
    final fn from_extended_enumeration_index(index: usize) -> Option<Self>
    where
        Self: Sized,
        ensures { MatchOption result (extensible ≡ true → length additions ≤ index)
            (λ x. IsPlaced roots extensible additions (number x) true index) }
    {
        Self::extended_variants()?.get(index).copied()
    }

    /// The item with this number, if there is one; it is the only one.
    final fn from_discriminant(wanted: isize) -> Option<Self>
    where
        Self: Sized,
        ensures found { MatchOption result (IsNone roots extensible additions wanted) (λ x. number x ≡ wanted) }
        ensures back { (x : Self) → number x ≡ wanted → result ≡ Some x }
    {
        if let Some(place) = place_of(Self::variants(), wanted) {
            return Self::variants().get(place).copied();
        }
        let items = Self::extended_variants()?;
        let place = place_of(items, wanted)?;
        items.get(place).copied()
    }

    /// The item with this name, if there is one; it is the only one.
    final fn from_identifier(wanted: &str) -> Option<Self>
    where
        Self: Sized,
        ensures found { MatchOption result
            ((x : Self) → item_name (roots ++ additions) names (number x) ≡ wanted.now → ⊥)
            (λ x. item_name (roots ++ additions) names (number x) ≡ wanted.now) }
        ensures back { (x : Self) → item_name (roots ++ additions) names (number x) ≡ wanted.now → result ≡ Some x }
    {
        if let Some(item) = named(Self::variants(), wanted) {
            return Some(item);
        }
        named(Self::extended_variants()?, wanted)
    }
}

/// The index of the first item with a number.
fn place_of<T: Enumerated>(items: &[T], number: isize) -> Option<usize>
    ensures { result ≡ item_index number (map T.number items.now) }
{
    for (place, item) in items.iter().enumerate() {
        if item.discriminant() == number {
            return Some(place);
        }
    }
    None
}

/// The first item with a name.
fn named<T: Enumerated>(items: &[T], wanted: &str) -> Option<T>
    ensures { MatchOption result
        (IsUnnamed (λ x. item_name (T.roots ++ T.additions) T.names (T.number x)) wanted.now items.now)
        (λ x. item_name (T.roots ++ T.additions) T.names (T.number x) ≡ wanted.now) }
{
    for item in items.iter() {
        if item.identifier() == wanted {
            return Some(*item);
        }
    }
    None
}
