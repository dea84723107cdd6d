//! SET OF values.
ghost use Rattle.std.specs.List.{list_any};
ghost use Rattle.std.specs.Slice.Iter.{iter_rest};
ghost use Rattle.std.specs.Prelude.{◌≡◌, ◌<◌, ℕ, true, false, [], ◌∷◌, ◌++◌, length, map, nat_eq, get_or};
ghost use Rattle.std.specs.Prelude.{swap_remove, MatchOption, IfOk, IfErr, OnOk, OnErr};

use std::alloc::{AllocError, AllocFailed, Global};
use std::slice::Iter;

/// SET OF (X.680 28): elements whose order has no meaning. They are kept in the order in which they were added. It uses
/// the allocator that its constructor, or the vector given to it, brought.
#[derive(Clone, Debug, Drop)]
pub struct SetOf<T> {
    pub(crate) items: Vec<T>,
}

impl<T> SetOf<T> {
    /// An empty value. Allocates nothing.
    pub fn new(alloc: Global) -> Self
        ensures { result.items.items ≡ [] }
    {
        SetOf {
            items: Vec::new(alloc),
        }
    }

    /// An empty value, with room for `capacity` elements.
    ///
    /// # Errors
    ///
    /// If memory runs out.
    pub fn with_capacity(alloc: Global, capacity: usize) -> Result<Self, AllocError>
        ensures { IfOk result (λ s. s.items.items ≡ []) }
    {
        let items = Vec::with_capacity(alloc, capacity)?;
        Ok(SetOf { items })
    }

    /// A value with these elements.
    pub fn from_vec(items: Vec<T>) -> Self
        ensures { result.items ≡ items }
    {
        SetOf { items }
    }

    /// Adds an element.
    ///
    /// # Errors
    ///
    /// If memory runs out; the error returns the element, and the value is unchanged.
    pub fn insert(&mut self, item: T) -> Result<(), AllocFailed<T>>
        ensures inserted { OnOk result (self.new.items.items ≡ self.old.items.items ++ item ∷ []) }
        ensures unchanged { OnErr result (self.new.items.items ≡ self.old.items.items) }
        ensures returned { IfErr result (λ refused. refused.value ≡ item) }
    {
        self.items.push(item)
    }

    /// The number of elements.
    pub fn len(&self) -> usize
        ensures { result ≡ length self.now.items.items }
    {
        self.items.as_slice().len()
    }

    /// Whether there are no elements.
    pub fn is_empty(&self) -> bool
        ensures { result ≡ nat_eq (length self.now.items.items) 0 }
    {
        self.items.as_slice().len() == 0
    }

    /// Whether an element is equal to this one.
    pub fn contains(&self, item: &T) -> bool
    where
        T: PartialEq,
        ensures { result ≡ list_any (λ y. T.eq y item.now) self.now.items.items }
    {
        self.items.as_slice().contains(item)
    }

    /// Removes and returns the first element that is equal to this one, if there is one. The last element takes its
    /// place.
    pub fn remove(&mut self, item: &T) -> Option<T>
    where
        T: PartialEq,
        ensures { MatchOption result ((list_any (λ y. T.eq y item.now) self.old.items.items ≡ false)
            × (self.new.items.items ≡ self.old.items.items))
            (λ x. (T.eq x item.now ≡ true) × ((i : ℕ) × (i < length self.old.items.items)
            × (x ≡ get_or self.old.items.items i x) × (self.new.items.items
            ≡ swap_remove self.old.items.items i x))) }
    {
        let Some(place) = place_of(self.items.as_slice(), item) else {
            return None;
        };
        Some(self.items.swap_remove(place))
    }

    /// The elements, in the order in which they are kept.
    pub fn iter(&self) -> Iter<'_, T>
        ensures { iter_rest result ≡ self.now.items.items }
    {
        self.items.as_slice().iter()
    }

    /// References to the elements, in the order in which they are kept.
    ///
    /// # Errors
    ///
    /// If memory runs out.
    pub fn to_vec(&self, alloc: Global) -> Result<Vec<&T>, AllocError>
        ensures { IfOk result (λ v. map (λ x. x.now) v.items ≡ self.now.items.items) }
    {
        let mut members = Vec::with_capacity(alloc, self.len())?;
        for item in self.items.as_slice() {
            members.push(item)?;
        }
        Ok(members)
    }

    /// The elements, borrowed, in the order in which they are kept.
    pub fn as_slice(&self) -> &[T]
        ensures { result.now ≡ self.now.items.items }
    {
        self.items.as_slice()
    }

    /// The elements, in the order in which they are kept.
    pub fn into_vec(self) -> Vec<T>
        ensures { result ≡ self.items }
    {
        self.items
    }
}

// The index of the first item that is equal to this one.
fn place_of<T: PartialEq>(items: &[T], wanted: &T) -> Option<usize>
    ensures { MatchOption result (list_any (λ y. T.eq y wanted.now) items.now ≡ false)
        (λ i. (i < length items.now) × ((d : T) → T.eq (get_or items.now i d) wanted.now ≡ true)) }
{
    for place in 0..items.len() {
        if items[place] == *wanted {
            return Some(place);
        }
    }
    None
}
