//! Types that contain themselves in each of their values, so that they have no value (X.680 3.8).
use asn1_schema_constraints::{Bounded, Sizes};
use asn1_table_types::{Component, Presence, TypeNode};
use std::alloc::{AllocError, Global};

/// What a value of a type contains: a value of each of some types, or of one of them.
#[derive(Drop)]
struct Needs {
    places: Vec<usize>,
    is_one_enough: bool,
}

/// A type that contains itself in each of its values, if there is one.
pub(crate) fn endless_type(alloc: Global, nodes: &[TypeNode]) -> Result<Option<usize>, AllocError> {
    let mut needs = Vec::new(alloc);
    for node in nodes {
        needs.push(needs_of(alloc, node, nodes.len())?)?;
    }
    let are_endless = endless_types(alloc, needs.as_slice())?;
    match are_endless.iter().position(|is_endless| *is_endless) {
        Some(first) => Ok(Some(recurring(alloc, needs.as_slice(), are_endless.as_slice(), first)?)),
        None => Ok(None),
    }
}

/// What a value of a type needs of the types of a table. A type outside it has values.
fn needs_of(alloc: Global, node: &TypeNode, count: usize) -> Result<Needs, AllocError> {
    let mut needs = Needs {
        places: Vec::new(alloc),
        is_one_enough: false,
    };
    match node {
        TypeNode::Sequence(table) | TypeNode::Set(table) => {
            add_required(&mut needs.places, table.root.as_slice(), count)?;
            add_required(&mut needs.places, table.additions.as_slice(), count)?;
        }
        TypeNode::Group(components) => add_required(
            &mut needs.places,
            components.as_slice(),
            count,
        )?,
        TypeNode::SequenceOf(sizes, place) | TypeNode::SetOf(sizes, place) => {
            if least_size(*sizes) > 0 && *place < count {
                needs.places.push(*place)?;
            }
        }
        TypeNode::Choice(table) => {
            needs.is_one_enough = true;
            for alternative in table.root.iter().chain(table.additions.iter()) {
                if alternative.place >= count {
                    needs.places.truncate(0);
                    break;
                }
                needs.places.push(alternative.place)?;
            }
        }
        _ => {}
    }
    Ok(needs)
}

/// Adds the types of components that may not be absent.
fn add_required(
    places: &mut Vec<usize>,
    components: &[Component],
    count: usize,
) -> Result<(), AllocError> {
    for component in components {
        if matches!(component.presence, Presence::Required) && component.place < count {
            places.push(component.place)?;
        }
    }
    Ok(())
}

/// The least number of elements of a list.
fn least_size(sizes: Sizes) -> usize {
    match sizes.root {
        _ if sizes.is_extensible => 0,
        Bounded::Single(size) => size,
        Bounded::Range { start, end: _ } => start.unwrap_or(0),
        Bounded::None => 0,
    }
}

/// Whether each type has no value: all do that need nothing, or only types that do.
fn endless_types(alloc: Global, needs: &[Needs]) -> Result<Vec<bool>, AllocError> {
    let users = users_of(alloc, needs)?;
    let mut missing: Vec<usize> = Vec::new(alloc);
    let mut ended = Vec::new(alloc);
    for (place, need) in needs.iter().enumerate() {
        let count = need.places.len();
        missing.push(if need.is_one_enough {
            count.min(1)
        } else {
            count
        })?;
        if count == 0 {
            ended.push(place)?;
        }
    }
    for _ in 0..usize::MAX {
        let Some(users) = ended.pop().and_then(|place| users.get(place)) else {
            break;
        };
        for user in users {
            if let Some(count) = missing.get_mut(*user) {
                if *count == 1 {
                    ended.push(*user)?;
                }
                *count = count.saturating_sub(1);
            }
        }
    }
    let mut are_endless = Vec::new(alloc);
    for count in &missing {
        are_endless.push(*count > 0)?;
    }
    Ok(are_endless)
}

/// The types that need each type, as often as they do.
fn users_of(alloc: Global, needs: &[Needs]) -> Result<Vec<Vec<usize>>, AllocError> {
    let mut users: Vec<Vec<usize>> = Vec::new(alloc);
    for _ in needs {
        users.push(Vec::new(alloc))?;
    }
    for (user, need) in needs.iter().enumerate() {
        for place in &need.places {
            if let Some(users) = users.get_mut(*place) {
                users.push(user)?;
            }
        }
    }
    Ok(users)
}

/// The first type that comes again where one without values is followed to the first of that kind that it needs.
fn recurring(
    alloc: Global,
    needs: &[Needs],
    are_endless: &[bool],
    first: usize,
) -> Result<usize, AllocError> {
    let mut are_met: Vec<bool> = Vec::new(alloc);
    are_met.resize(needs.len(), false)?;
    let mut place = first;
    for _ in 0..=needs.len() {
        match are_met.get_mut(place) {
            Some(is_met) if !*is_met => *is_met = true,
            _ => break,
        }
        let Some(need) = needs.get(place) else {
            break;
        };
        for next in &need.places {
            if are_endless.get(*next).copied().unwrap_or(false) {
                place = *next;
                break;
            }
        }
    }
    Ok(place)
}
