//! Equality of SET OF values, in which the order of elements has no meaning.
ghost use Rattle.std.specs.Prelude.{◌≡◌, IfOk};
ghost use Rattle.std.specs.Cmp.{partial_equiv_from_equiv};
ghost use Rattle.std.proofs.Common.{rules};
ghost use Rattle.asn1_schema_wrapped.specs.Equality.{times, are_alike, same_items, bags_partial};
ghost use Rattle.asn1_schema_wrapped.specs.Equality.{bags_equal};
ghost use Rattle.asn1_schema_wrapped.specs.Hashes.{bag_hash, hash_sum, same_hash};
ghost use Rattle.asn1_schema_wrapped.specs.Meaning.{bags_agree};

use crate::set_of::SetOf;
use asn1_schema_types::EqualByMeaning;
use std::alloc::{AllocError, Global};
use std::hash::{DefaultHasher, Hash, Hasher};

/// Two SET OF values are equal if each element occurs equally often in both.
impl<T: PartialEq> PartialEq for SetOf<T> {
    ghost eq = { λ a b. same_items T.PartialEq.eq a.items.items b.items.items };

    ghost laws = { bags_partial (λ s. s.items.items) T.PartialEq.laws };

    fn eq(&self, other: &Self) -> bool {
        let (left, right) = behind_equal(self.as_slice(), other.as_slice());
        left.len() == right.len()
            && occur_alike(left, right, left)
            && occur_alike(left, right, right)
    }
}

impl<T: Ord> SetOf<T> {
    /// Whether both have the same elements; the result is that of `==`. The elements are sorted first: n of them take
    /// about n log n comparisons, while `==` takes n² for elements in another order.
    ///
    /// # Errors
    ///
    /// If memory for the sorted references runs out.
    pub fn is_same(&self, alloc: Global, other: &Self) -> Result<bool, AllocError>
        ensures { IfOk result (λ same. same ≡ same_items T.PartialEq.eq self.now.items.items other.now.items.items) }
    {
        let mut left = self.to_vec(alloc)?;
        let mut right = other.to_vec(alloc)?;
        left.sort_unstable();
        right.sort_unstable();
        Ok(left == right)
    }
}

impl<T: Eq> Eq for SetOf<T> {
    ghost laws = { bags_equal (λ s. s.items.items) T.PartialEq.laws };
}

/// The hash is that of the number of elements and of the sum of their hashes, which does not depend on the order.
impl<T: Hash> Hash for SetOf<T> {
    ghost hash_input = { λ s. bag_hash T.hash_input s.items.items };

    ghost respects_eq = { λ x y. same_hash T.hash_input T.respects_eq T.Eq.laws x.items.items y.items.items };

    fn hash<H: Hasher>(&self, state: &mut H) {
        let items = self.as_slice();
        items.len().hash(state);
        sum_of_hashes(items).hash(state);
    }
}

// The sum of the hashes of all items, each by a separate hasher, modulo 2^64.
fn sum_of_hashes<T: Hash>(items: &[T]) -> u64
    ensures { result ≡ hash_sum T.hash_input 0 items.now }
{
    let mut sum: u64 = 0;
    for item in items {
        let mut hasher = DefaultHasher::new();
        item.hash(&mut hasher);
        sum = sum.wrapping_add(hasher.finish());
    }
    sum
}

impl<T: EqualByMeaning> EqualByMeaning for SetOf<T> {
    ghost agrees = { λ x y. bags_agree T.PartialEq.laws T.Described.meaning T.agrees x.items.items y.items.items };
}

// The rests of two lists after their longest equal prefix. SET OF values with the same elements in the same order, such
// as those of one message read twice, are so compared in one pass.
fn behind_equal<'a, T: PartialEq>(left: &'a [T], right: &'a [T]) -> (&'a [T], &'a [T])
    ensures { same_items T.eq result.0.now result.1.now ≡ same_items T.eq left.now right.now }
{
    let (mut xs, mut ys) = (left, right);
    while let (Some((x, behind_x)), Some((y, behind_y))) = (xs.split_first(), ys.split_first()) {
        if *x != *y {
            break;
        }
        xs = behind_x;
        ys = behind_y;
    }
    (xs, ys)
}

// Whether each of these items occurs equally often in two lists.
fn occur_alike<T: PartialEq>(left: &[T], right: &[T], items: &[T]) -> bool
    ensures { result ≡ are_alike T.eq left.now right.now items.now }
{
    for item in items {
        if count_of(left, item) != count_of(right, item) {
            return false;
        }
    }
    true
}

// How often an item occurs in a list.
fn count_of<T: PartialEq>(items: &[T], wanted: &T) -> usize
    ensures { result ≡ times T.eq wanted.now items.now }
{
    let mut count = 0;
    for item in items {
        if *wanted != *item {
            continue;
        }
        count += 1;
    }
    count
}
