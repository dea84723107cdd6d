//! Where a table has groups of additions.
ghost use Rattle.std.specs.Prelude.{◌≡◌, false, true, IfErr, OnOk};
ghost use Rattle.asn1_model.specs.Lawful.{is_group};
ghost use Rattle.asn1_table_types.specs.Flaws.{members_lack};
ghost use Rattle.asn1_table_nodes.specs.Meaning.{type_at};

use crate::{Flaw, TypeNode};

/// Whether the type at an index is a group of additions.
pub fn is_group_at(nodes: &[TypeNode], place: usize) -> bool
    ensures { result ≡ is_group (type_at nodes.now 1 place) }
{
    match nodes.get(place) {
        Some(TypeNode::Group(_)) => true,
        _ => false,
    }
}

/// The elements of a list are no group of additions.
pub fn check_members(nodes: &[TypeNode], place: usize) -> Result<(), Flaw>
    ensures sound { OnOk result (is_group (type_at nodes.now 1 place) ≡ false) }
    ensures lacking { IfErr result (λ f. members_lack f (type_at nodes.now 1 place) ≡ true) }
{
    if is_group_at(nodes, place) {
        return Err(Flaw::GroupOutOfPlace);
    }
    Ok(())
}
