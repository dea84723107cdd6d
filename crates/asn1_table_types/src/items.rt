//! The items of an ENUMERATED (X.680 20).
#![tactic(auto, using(crate::proofs::Orders::walks, std::proofs::lemmas::Grind::common_steps))]

ghost use Rattle.std.specs.Prelude.{◌≡◌, ◌++◌, ◌||◌, true, int_lt, IfOk, IfErr, OnOk};
ghost use Rattle.asn1_model.specs.Lawful.{are_ascending, are_distinct, is_empty};
ghost use Rattle.asn1_model.specs.Value.{same_number};
ghost use Rattle.asn1_table_types.specs.Flaws.{are_items, items_lack};
ghost use Rattle.asn1_table_types.specs.Orders.{is_above};
ghost use Rattle.asn1_table_types.specs.Tables.{IsDue};

use crate::faults::Refusal;
use crate::{Flaw, ItemTable};
use asn1_table_nodes::item_differs;
use std::alloc::{AllocError, Global};

/// The items are those of a lawful ENUMERATED (X.680 20).
pub fn check_items(alloc: Global, table: &ItemTable) -> Result<(), Refusal>
    ensures sound { OnOk result (are_items table.now.root.items table.now.is_extensible table.now.additions.items
        ≡ true) }
    ensures lacking { IfErr result (λ r. IsDue (λ f. items_lack f table.now.root.items table.now.is_extensible
        table.now.additions.items) r) }
{
    check_numbers(
        alloc,
        table.root.as_slice(),
        table.is_extensible,
        table.additions.as_slice(),
    )?;
    Ok(())
}

/// The numbers of root items and added ones are those of a lawful ENUMERATED (X.680 20).
fn check_numbers(
    alloc: Global,
    root: &[isize],
    is_extensible: bool,
    additions: &[isize],
) -> Result<(), Refusal>
    ensures sound { OnOk result (are_items root.now is_extensible additions.now ≡ true) }
    ensures lacking { IfErr result (λ r. IsDue (λ f. items_lack f root.now is_extensible additions.now) r) }
{
    if is_none(root) {
        return Err(Refusal::Flawed(Flaw::ItemMissing));
    }
    if !is_marked(is_extensible, additions) {
        return Err(Refusal::Flawed(Flaw::MarkerMissing));
    }
    if !are_ascending_items(root) {
        return Err(Refusal::Flawed(Flaw::ItemsOutOfOrder));
    }
    if !are_ascending_items(additions) {
        return Err(Refusal::Flawed(Flaw::ItemsOutOfOrder));
    }
    let is_distinct = has_distinct_items(alloc, root, additions)?;
    if !is_distinct {
        return Err(Refusal::Flawed(Flaw::ItemTwice));
    }
    Ok(())
}

/// Whether there is no item.
fn is_none(items: &[isize]) -> bool
    ensures { result ≡ is_empty items.now }
{
    items.is_empty()
}

/// Whether there is an extension marker, if there are added items.
fn is_marked(is_extensible: bool, additions: &[isize]) -> bool
    ensures { result ≡ (is_extensible || is_empty additions.now) }
{
    is_extensible || is_none(additions)
}

/// Whether no number of root items and added ones occurs twice.
fn has_distinct_items(
    alloc: Global,
    root: &[isize],
    additions: &[isize],
) -> Result<bool, AllocError>
    ensures { IfOk result (λ b. b ≡ are_distinct same_number (root.now ++ additions.now)) }
{
    let all = all_items(alloc, root, additions)?;
    Ok(are_distinct_items(all.as_slice()))
}

/// Root items and then added ones.
fn all_items(alloc: Global, root: &[isize], additions: &[isize]) -> Result<Vec<isize>, AllocError>
    ensures { IfOk result (λ all. all.items ≡ root.now ++ additions.now) }
{
    let mut all = Vec::from_slice(alloc, root)?;
    all.extend_from_slice(additions)?;
    Ok(all)
}

/// Whether each number is below the next.
fn are_ascending_items(items: &[isize]) -> bool
    ensures { result ≡ are_ascending int_lt items.now }
{
    let mut last: Option<isize> = None;
    for item in items {
        if !stands_above(last, *item) {
            return false;
        }
        last = Some(*item);
    }
    true
}

/// Whether a number is above another, if there is one.
fn stands_above(last: Option<isize>, item: isize) -> bool
    ensures { result ≡ is_above int_lt last item }
{
    match last {
        None => true,
        Some(last) => last < item,
    }
}

/// Whether no number occurs twice. It takes as many comparisons as there are pairs of numbers.
fn are_distinct_items(items: &[isize]) -> bool
    ensures { result ≡ are_distinct same_number items.now }
{
    for (index, item) in items.iter().enumerate() {
        if !item_differs(*item, &items[index + 1..]) {
            return false;
        }
    }
    true
}
