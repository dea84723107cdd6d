//! The items of an ENUMERATED in tables that are known only when the program runs.
ghost use Rattle.std.specs.Prelude.{◌≡◌, ◌++◌, true, false, not, drop, IfSome, IfNone};
ghost use Rattle.std.specs.List.{list_all};
ghost use Rattle.asn1_model.specs.Lawful.{are_distinct};
ghost use Rattle.asn1_model.specs.Normal.{item_index};
ghost use Rattle.asn1_model.specs.Value.{same_number};

use crate::{Chosen, EnumerationItems};
use std::marker::Model;

/// The items of an ENUMERATED (X.680 20) by their numbers: those of the root items, whether there is an extension
/// marker, and those of the added items. The order is that of the enumeration indices. No number occurs twice.
#[derive(Debug, Drop)]
pub struct ItemTables<'a> {
    roots: &'a [isize],
    extensible: bool,
    additions: &'a [isize],
}

impl<'a> Model for ItemTables<'a> {
    ghost use Rattle.std.specs.Prelude.{◌≡◌, ◌++◌, true};
    ghost use Rattle.asn1_model.specs.Lawful.{are_distinct};
    ghost use Rattle.asn1_model.specs.Value.{same_number};
    ghost use Rattle.asn1_schema_tags.specs.Items.{ItemNumbers};

    ghost Value = { ItemNumbers };

    ghost view = { λ t. record {
      roots = t.roots.now;
      extensible = t.extensible;
      additions = t.additions.now;
    } };

    ghost invariant = { λ t. are_distinct same_number (t.roots.now ++ t.additions.now) ≡ true };
}

impl<'a> ItemTables<'a> {
    /// The items with these numbers, of which none occurs twice.
    pub fn new(roots: &'a [isize], extensible: bool, additions: &'a [isize]) -> Self
        requires distinct { are_distinct same_number (roots.now ++ additions.now) ≡ true }
        ensures { result ≡ record { roots = roots.now; extensible = extensible; additions = additions.now } }
    {
        ItemTables {
            roots,
            extensible,
            additions,
        }
    }

    /// As `new`, or `None` if a number occurs twice. It takes as many comparisons as there are pairs of numbers.
    pub fn checked(roots: &'a [isize], extensible: bool, additions: &'a [isize]) -> Option<Self>
        ensures some { IfSome result (λ t. t ≡ record {
          roots = roots.now;
          extensible = extensible;
          additions = additions.now;
        }) }
        ensures none { IfNone result (are_distinct same_number (roots.now ++ additions.now) ≡ false) }
    {
        if !are_distinct_items(roots, additions) {
            return None;
        }
        Some(ItemTables::new(roots, extensible, additions))
    }
}

impl<'a> EnumerationItems for ItemTables<'a> {
    type Item = isize;

    ghost roots = { λ t. t.roots };

    ghost extensible = { λ t. t.extensible };

    ghost additions = { λ t. t.additions };

    ghost number = { λ n. n };

    fn root_items(&self) -> &[isize] {
        self.roots
    }

    fn added_items(&self) -> Option<&[isize]> {
        if self.extensible {
            return Some(self.additions);
        }
        None
    }

    #[inline(always)]
    fn number_of(item: &isize) -> isize
        ensures { result ≡ item.now }
    {
        *item
    }

    fn has(&self, item: &isize) -> bool {
        self.place(item).is_some()
    }

    fn place(&self, item: &isize) -> Option<Chosen> {
        if let Some(place) = number_place(self.roots, *item) {
            return Some(Chosen::root(place));
        }
        if !self.extensible {
            return None;
        }
        let place = number_place(self.additions, *item)?;
        Some(Chosen::addition(place))
    }

    fn find(&self, wanted: isize) -> Option<isize> {
        if self.has(&wanted) {
            return Some(wanted);
        }
        None
    }
}

/// The index of the first of some numbers that is this one.
fn number_place(numbers: &[isize], wanted: isize) -> Option<usize>
    ensures { result ≡ item_index wanted numbers.now }
{
    for (place, number) in numbers.iter().enumerate() {
        if *number == wanted {
            return Some(place);
        }
    }
    None
}

/// Whether no number of root items and added ones occurs twice. It takes as many comparisons as there are pairs.
pub fn are_distinct_items(roots: &[isize], additions: &[isize]) -> bool
    ensures { result ≡ are_distinct same_number (roots.now ++ additions.now) }
{
    for (index, number) in roots.iter().enumerate() {
        if !differs(*number, &roots[index + 1..]) {
            return false;
        }
        if !differs(*number, additions) {
            return false;
        }
    }
    are_distinct_numbers(additions)
}

/// Whether no number occurs twice.
fn are_distinct_numbers(numbers: &[isize]) -> bool
    ensures { result ≡ are_distinct same_number numbers.now }
{
    for (index, number) in numbers.iter().enumerate() {
        if !differs(*number, &numbers[index + 1..]) {
            return false;
        }
    }
    true
}

/// Whether a number is none of some others.
fn differs(number: isize, others: &[isize]) -> bool
    ensures { result ≡ list_all (λ y. not (same_number number y)) others.now }
{
    for other in others {
        if number == *other {
            return false;
        }
    }
    true
}
