//! Whether a number is that of an item of an ENUMERATED (X.680 20).
#![tactic(auto, using(std::proofs::lemmas::Grind::common_steps))]

ghost use Rattle.std.specs.Prelude.{◌≡◌, not};
ghost use Rattle.std.specs.List.{list_all};
ghost use Rattle.asn1_model.specs.Value.{same_number};
ghost use Rattle.asn1_table_nodes.specs.Defaults.{is_item_of};

use crate::ItemTable;

/// Whether an item is one of an ENUMERATED (X.680 20).
pub fn is_item(table: &ItemTable, item: isize) -> bool
    ensures { result ≡ is_item_of table.now item }
{
    !item_differs(item, table.root.as_slice())
        || (table.is_extensible && !item_differs(item, table.additions.as_slice()))
}

/// Whether a number is none of some others.
pub fn item_differs(item: isize, others: &[isize]) -> bool
    ensures { result ≡ list_all (λ y. not (same_number item y)) others.now }
{
    for other in others {
        if item == *other {
            return false;
        }
    }
    true
}
