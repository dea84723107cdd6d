//! The items of an ENUMERATED for a codec.
ghost use Rattle.std.specs.Prelude.{◌≡◌, ℤ, Bool, true, false, List, IfSome, IfNone, MatchOption, ◌++◌, map};
ghost use Rattle.asn1_model.specs.Lawful.{are_distinct};
ghost use Rattle.asn1_model.specs.Value.{same_number};
ghost use Rattle.asn1_schema_tags.specs.Items.{IsPlaced, IsNone, IsItem, NoItem};

use crate::{Chosen, Enumerated};
use std::marker::PhantomData;

/// The items of an ENUMERATED for a codec (X.680 20): those of a type ([`TypeItems`]), or numbers in tables
/// ([`ItemTables`](crate::ItemTables)).
pub trait EnumerationItems {
    /// An item, or the number of one.
    type Item: Copy;

    /// The numbers of the root items, in the order of their enumeration indices.
    ghost roots: { Self → List ℤ };

    /// Whether there is an extension marker.
    ghost extensible: { Self → Bool };

    /// The numbers of the added items, in the order of their enumeration indices.
    ghost additions: { Self → List ℤ };

    /// The number of an item.
    ghost number: { Self.Item → ℤ };

    /// The root items. No number occurs twice among all items (X.680 20.6).
    fn root_items(&self) -> &[Self::Item]
        ensures items { map number result.now ≡ roots self.now }
        ensures distinct { are_distinct same_number (roots self.now ++ additions self.now) ≡ true };

    /// The added items, or `None` if there is no extension marker.
    fn added_items(&self) -> Option<&[Self::Item]>
        ensures { MatchOption result (extensible self.now ≡ false) (λ xs. (extensible self.now ≡ true)
            × (map number xs.now ≡ additions self.now)) };

    /// The number of an item.
    fn number_of(item: &Self::Item) -> isize
        ensures { result ≡ number item.now };

    /// Whether the number is that of an item; always so for an item of a type.
    fn has(&self, item: &Self::Item) -> bool
        ensures there { result ≡ true
            → IsItem (roots self.now) (extensible self.now) (additions self.now) (number item.now) }
        ensures none { result ≡ false
            → IsNone (roots self.now) (extensible self.now) (additions self.now) (number item.now) };

    /// Whether the item with this number is an extension addition, and its enumeration index in the root or among the
    /// additions (X.691 14.1 and 14.2); `None` if no item has the number.
    fn place(&self, item: &Self::Item) -> Option<Chosen>
        ensures { MatchOption result
            (IsNone (roots self.now) (extensible self.now) (additions self.now) (number item.now))
            (λ c. IsPlaced (roots self.now) (extensible self.now) (additions self.now) (number item.now)
            c.added c.place) };

    /// The item with this number, if there is one; it is the only one.
    fn find(&self, wanted: isize) -> Option<Self::Item>
        ensures found { MatchOption result
            (IsNone (roots self.now) (extensible self.now) (additions self.now) wanted) (λ x. number x ≡ wanted) }
        ensures listed { IfSome result
            (λ x. IsItem (roots self.now) (extensible self.now) (additions self.now) (number x)) };

    /// The item with this enumeration index in the root or among the additions, if there is one.
    #[inline(always)]
    final fn item_at(&self, chosen: Chosen) -> Option<Self::Item>
    where
        Self: Sized,
        ensures some { IfSome result (λ x. IsPlaced (roots self.now) (extensible self.now) (additions self.now)
            (number x) chosen.added chosen.place) }
        ensures none { IfNone result
            (NoItem (roots self.now) (extensible self.now) (additions self.now) chosen) }
    {
        let items = self.root_items();
        if chosen.added {
            return self.added_items()?.get(chosen.place).copied();
        }
        items.get(chosen.place).copied()
    }
}

/// The items of an ENUMERATED type. The value itself is empty.
#[derive(Clone, Copy)]
pub struct TypeItems<T> {
    item_type: PhantomData<T>,
}

impl<T> TypeItems<T> {
    /// The items of the type.
    #[inline(always)]
    pub fn new() -> Self {
        TypeItems {
            item_type: PhantomData,
        }
    }
}

impl<T: Enumerated> EnumerationItems for TypeItems<T> {
    type Item = T;

    ghost roots = { λ _. T.roots };

    ghost extensible = { λ _. T.extensible };

    ghost additions = { λ _. T.additions };

    ghost number = { T.number };

    #[inline(always)]
    fn root_items(&self) -> &[T] {
        T::variants()
    }

    #[inline(always)]
    fn added_items(&self) -> Option<&[T]> {
        T::extended_variants()
    }

    #[inline(always)]
    fn number_of(item: &T) -> isize {
        item.discriminant()
    }

    #[inline(always)]
    fn has(&self, _item: &T) -> bool {
        true
    }

    #[inline(always)]
    fn place(&self, item: &T) -> Option<Chosen> {
        Some(item.item_index())
    }

    #[inline(always)]
    fn find(&self, wanted: isize) -> Option<T> {
        T::from_discriminant(wanted)
    }
}
