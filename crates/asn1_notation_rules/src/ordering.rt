//! The canonical order of tags (X.680 8.6).
ghost use Rattle.std.specs.Prelude.{◌≡◌, ◌<◌, ◌+◌, true, length, slice_get};
ghost use Rattle.std.specs.Prelude.{slice_index_or, All, IfErr, IfOk, OnOk, Some};
ghost use Rattle.std.specs.List.{prefix_len};
ghost use Rattle.asn1_model.specs.Lawful.{tag_same};
ghost use Rattle.asn1_schema_tags.specs.Tags.{tag_of};
ghost use Rattle.asn1_notation_rules.specs.Ordering.{AreInOrder, IsOrderError, comes_before, key_at};
ghost use Rattle.asn1_notation_rules.specs.declared.ordering.OrderError.TheVariants.{OutOfMemory};

use asn1_schema_tags::Tag;
use std::alloc::{AllocError, AllocFailed, Global};
use thiserror::Error;

/// Why components or alternatives have no canonical order.
#[derive(Clone, Copy, Debug, PartialEq, Eq, Error)]
pub enum OrderError {
    /// Two of them have one tag.
    #[error("{first} and {second} have the same tag")]
    TagTwice {
        /// The index of the first.
        first: usize,
        /// The index of the second.
        second: usize,
    },
    /// Out of memory.
    #[error("out of memory")]
    OutOfMemory,
}

impl From<AllocError> for OrderError {
    ghost from_gives = { λ _ e. e ≡ OutOfMemory };

    fn from(_refused: AllocError) -> Self {
        OrderError::OutOfMemory
    }
}

impl<T: Drop> From<AllocFailed<T>> for OrderError {
    ghost from_gives = { λ _ e. e ≡ OutOfMemory };

    fn from(_refused: AllocFailed<T>) -> Self {
        OrderError::OutOfMemory
    }
}

/// The indices of components or alternatives in the order of their tags (X.680 8.6), by class and then by number. An
/// untagged CHOICE has its smallest tag. It takes as many comparisons as there are pairs of tags.
///
/// # Errors
///
/// Two have one tag.
pub fn canonical_order(alloc: Global, tags: &[Tag]) -> Result<Vec<usize>, OrderError>
    ensures order { IfOk result (λ order. AreInOrder tags.now (length tags.now) order.items) }
    ensures refused { IfErr result (IsOrderError tags.now) }
{
    let mut order = Vec::with_capacity(alloc, tags.len())?;
    for (index, tag) in tags.iter().enumerate() {
        insert_index(tags, &mut order, index, *tag)?;
    }
    Ok(order)
}

/// Inserts the index of a tag into the order of those below it.
fn insert_index(
    tags: &[Tag],
    order: &mut Vec<usize>,
    index: usize,
    tag: Tag,
) -> Result<(), OrderError>
    requires tag { slice_get tags.now index ≡ Some tag }
    requires order { AreInOrder tags.now index order.old.items }
    ensures order { OnOk result (AreInOrder tags.now (index + 1) order.new.items) }
    ensures refused { IfErr result (IsOrderError tags.now) }
{
    let place = place_of(tags, order.as_slice(), tag);
    if place < order.len() {
        let first = order[place];
        if is_tag_at(tags, first, tag) {
            return Err(OrderError::TagTwice {
                first,
                second: index,
            });
        }
    }
    order.insert(place, index)?;
    Ok(())
}

/// Whether the tag at an index is this.
fn is_tag_at(tags: &[Tag], index: usize, tag: Tag) -> bool
    requires { index < length tags.now }
    ensures value { result ≡ tag_same (key_at tags.now tag index) (tag_of tag) }
    ensures same { result ≡ true → (d : Tag) → slice_index_or tags.now index d ≡ tag }
{
    tags[index].const_eq(&tag)
}

/// How many of some indices are those of tags before one, up to the first that is not.
fn place_of(tags: &[Tag], order: &[usize], tag: Tag) -> usize
    requires { All (λ i. i < length tags.now) order.now }
    ensures { result ≡ prefix_len (comes_before tags.now tag) order.now }
{
    for (place, index) in order.iter().enumerate() {
        if !tags[*index].const_less_than(tag) {
            return place;
        }
    }
    order.len()
}
