//! The components of a type as a table has them.
use crate::tables::Additions;
use asn1_notation_components::{Parts, ordered, tags_of_part};
use asn1_notation_resolving::{Files, NotationError};
use asn1_notation_tree::Presence;
use asn1_schema_tags::Tag;
use std::alloc::Global;

/// The indices of root components: as they are written, or for a SET in the order of their least tags (X.680 8.6).
pub(crate) fn root_order(
    alloc: Global,
    files: &mut Files<'_, '_>,
    parts: &Parts<'_>,
    is_set: bool,
) -> Result<Vec<usize>, NotationError> {
    let mut least = Vec::new(alloc);
    let mut order = Vec::new(alloc);
    for index in 0..parts.root.len() {
        order.push(index)?;
        if is_set {
            let tags = tags_of_part(alloc, files, parts.root[index], parts.root_tag(index))?;
            least.push(least_of(tags.as_slice()))?;
        }
    }
    if is_set {
        return ordered(alloc, parts.scope, parts.root.as_slice(), least.as_slice());
    }
    Ok(order)
}

/// Whether a component is always there; a single one is an addition outside version brackets.
pub(crate) fn is_required(presence: Presence, additions: Additions, is_single: bool) -> bool {
    let may_be_absent = is_single && matches!(additions, Additions::MayBeAbsent);
    matches!(presence, Presence::Required) && !may_be_absent
}

/// Whether no addition after the one at an index is in the same version brackets.
pub(crate) fn is_last_of_group(parts: &Parts<'_>, index: usize) -> bool {
    let group = parts.additions.get(index).and_then(|part| part.group);
    let next = index
        .checked_add(1)
        .and_then(|next| parts.additions.get(next));
    group.is_none() || next.and_then(|next| next.group) != group
}

/// The least tag.
fn least_of(tags: &[Tag]) -> Tag {
    let mut least = Tag::new_private(u32::MAX);
    for tag in tags {
        if tag.const_less_than(least) {
            least = *tag;
        }
    }
    least
}
