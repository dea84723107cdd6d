//! How often the types of a table are used.
use asn1_table_types::{TypeNode, Types};
use std::alloc::{AllocError, Global};

/// How often each type of a table is a part of one to which the type at an index leads, or of that type itself.
pub fn count_uses(alloc: Global, types: &Types, place: usize) -> Result<Vec<usize>, AllocError> {
    let mut counts: Vec<usize> = Vec::new(alloc);
    counts.resize(types.nodes().len(), 0)?;
    let mut found = Vec::new(alloc);
    found.push(place)?;
    for next in 0..usize::MAX {
        let Some(from) = found.get(next).copied() else {
            break;
        };
        for part in parts_of(alloc, types, from)? {
            let Some(count) = counts.get_mut(part) else {
                continue;
            };
            *count = count.saturating_add(1);
            if *count == 1 && part != place {
                found.push(part)?;
            }
        }
    }
    Ok(counts)
}

/// The indices of the types of a type's parts.
fn parts_of(alloc: Global, types: &Types, place: usize) -> Result<Vec<usize>, AllocError> {
    let mut parts = Vec::new(alloc);
    match types.node(place) {
        Some(TypeNode::SequenceOf(_, element) | TypeNode::SetOf(_, element)) => {
            parts.push(*element)?
        }
        Some(TypeNode::Sequence(table) | TypeNode::Set(table)) => {
            for component in table.root.iter().chain(table.additions.iter()) {
                parts.push(component.place)?;
            }
        }
        Some(TypeNode::Group(components)) => {
            for component in components {
                parts.push(component.place)?;
            }
        }
        Some(TypeNode::Choice(table)) => {
            for alternative in table.root.iter().chain(table.additions.iter()) {
                parts.push(alternative.place)?;
            }
        }
        _ => {}
    }
    Ok(parts)
}
