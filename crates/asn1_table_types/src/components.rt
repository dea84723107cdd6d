//! The components of a SEQUENCE, a SET or a group of additions (X.680 25 and 27).
#![tactic(auto, using(crate::proofs::Orders::walks, std::proofs::lemmas::Grind::common_steps))]

ghost use Rattle.std.specs.Prelude.{◌≡◌, ℕ, true, false, ◌++◌, ◌||◌, ◌&&◌, IfOk, IfErr, OnOk, map};
ghost use Rattle.asn1_model.specs.Lawful.{are_distinct, are_ascending, tag_same, tag_less, begins_with, is_empty};
ghost use Rattle.asn1_model.specs.Schema.{Schema, group};
ghost use Rattle.asn1_schema_tags.specs.Tags.{tag_of};
ghost use Rattle.asn1_table_types.specs.Flaws.{is_in_place, is_component, are_components, is_table, is_set_table};
ghost use Rattle.asn1_table_types.specs.Flaws.{is_group_table, component_lacks, some_lacks, table_lacks, set_lacks};
ghost use Rattle.asn1_table_types.specs.Flaws.{group_lacks};
ghost use Rattle.asn1_table_nodes.specs.Meaning.{presence_of, components_of, tags_in, places_in, type_at};
ghost use Rattle.asn1_table_types.specs.Tables.{IsDue};

use crate::choices::choice_begins;
use crate::faults::Refusal;
use crate::groups::is_group_at;
use crate::tags::{are_distinct_tags, are_same_tags, least_tag, may_follow};
use crate::{Component, ComponentTable, Flaw, Presence, TypeNode};
use asn1_schema_tags::Tag;
use std::alloc::{AllocError, Global};

/// The components are those of a lawful SEQUENCE (X.680 25).
pub fn check_sequence(
    alloc: Global,
    nodes: &[TypeNode],
    table: &ComponentTable,
) -> Result<(), Refusal>
    ensures sound { OnOk result (is_table (components_of (λ i. type_at nodes.now 1 i) table.now.root.items)
        table.now.is_extensible (components_of (λ i. type_at nodes.now 1 i) table.now.additions.items) ≡ true) }
    ensures lacking { IfErr result (λ r. IsDue (λ f. table_lacks f
        (components_of (λ i. type_at nodes.now 1 i) table.now.root.items) table.now.is_extensible
        (components_of (λ i. type_at nodes.now 1 i) table.now.additions.items)) r) }
{
    check_table(
        alloc,
        nodes,
        table.root.as_slice(),
        table.is_extensible,
        table.additions.as_slice(),
    )?;
    Ok(())
}

/// The components are those of a lawful SET (X.680 27).
pub fn check_set(alloc: Global, nodes: &[TypeNode], table: &ComponentTable) -> Result<(), Refusal>
    ensures sound { OnOk result (is_set_table (components_of (λ i. type_at nodes.now 1 i) table.now.root.items)
        table.now.is_extensible (components_of (λ i. type_at nodes.now 1 i) table.now.additions.items) ≡ true) }
    ensures lacking { IfErr result (λ r. IsDue (λ f. set_lacks f
        (components_of (λ i. type_at nodes.now 1 i) table.now.root.items) table.now.is_extensible
        (components_of (λ i. type_at nodes.now 1 i) table.now.additions.items)) r) }
{
    check_ordered(
        alloc,
        nodes,
        table.root.as_slice(),
        table.is_extensible,
        table.additions.as_slice(),
    )?;
    Ok(())
}

/// Root components and additions are those of a lawful SET (X.680 27).
fn check_ordered(
    alloc: Global,
    nodes: &[TypeNode],
    root: &[Component],
    is_extensible: bool,
    additions: &[Component],
) -> Result<(), Refusal>
    ensures sound { OnOk result (is_set_table (components_of (λ i. type_at nodes.now 1 i) root.now) is_extensible
        (components_of (λ i. type_at nodes.now 1 i) additions.now) ≡ true) }
    ensures lacking { IfErr result (λ r. IsDue (λ f. set_lacks f
        (components_of (λ i. type_at nodes.now 1 i) root.now) is_extensible
        (components_of (λ i. type_at nodes.now 1 i) additions.now)) r) }
{
    check_table(alloc, nodes, root, is_extensible, additions)?;
    if !are_in_order(root) {
        return Err(Refusal::Flawed(Flaw::TagsOutOfOrder));
    }
    Ok(())
}

/// Root components and additions are those of a lawful SEQUENCE (X.680 25).
fn check_table(
    alloc: Global,
    nodes: &[TypeNode],
    root: &[Component],
    is_extensible: bool,
    additions: &[Component],
) -> Result<(), Refusal>
    ensures sound { OnOk result (is_table (components_of (λ i. type_at nodes.now 1 i) root.now) is_extensible
        (components_of (λ i. type_at nodes.now 1 i) additions.now) ≡ true) }
    ensures lacking { IfErr result (λ r. IsDue (λ f. table_lacks f
        (components_of (λ i. type_at nodes.now 1 i) root.now) is_extensible
        (components_of (λ i. type_at nodes.now 1 i) additions.now)) r) }
{
    if !is_marked(is_extensible, additions) {
        return Err(Refusal::Flawed(Flaw::MarkerMissing));
    }
    let is_distinct = has_distinct_tags(alloc, root, additions)?;
    if !is_distinct {
        return Err(Refusal::Flawed(Flaw::TagTwice));
    }
    check_each(alloc, nodes, root, additions)?;
    Ok(())
}

/// The components are those of a lawful group of additions (X.680 25).
pub fn check_group(
    alloc: Global,
    nodes: &[TypeNode],
    components: &[Component],
) -> Result<(), Refusal>
    ensures sound { OnOk result (is_group_table (components_of (λ i. type_at nodes.now 1 i) components.now) ≡ true) }
    ensures lacking { IfErr result (λ r. IsDue (λ f. group_lacks f
        (components_of (λ i. type_at nodes.now 1 i) components.now)) r) }
{
    if is_none(components) {
        return Err(Refusal::Flawed(Flaw::ComponentMissing));
    }
    let is_distinct = has_distinct_tags(alloc, components, &[])?;
    if !is_distinct {
        return Err(Refusal::Flawed(Flaw::TagTwice));
    }
    check_components(alloc, nodes, components, false)?;
    Ok(())
}

/// Whether there is no component.
fn is_none(components: &[Component]) -> bool
    ensures { result ≡ is_empty components.now }
{
    components.is_empty()
}

/// Whether there is an extension marker, if there are additions.
fn is_marked(is_extensible: bool, additions: &[Component]) -> bool
    ensures { result ≡ (is_extensible || is_empty additions.now) }
{
    is_extensible || is_none(additions)
}

/// Whether no tag of root components and additions occurs twice.
fn has_distinct_tags(
    alloc: Global,
    root: &[Component],
    additions: &[Component],
) -> Result<bool, AllocError>
    ensures { IfOk result (λ b. b ≡ are_distinct tag_same (tags_in root.now ++ tags_in additions.now)) }
{
    let tags = tags_of(alloc, root, additions)?;
    Ok(are_distinct_tags(tags.as_slice()))
}

/// The tags of root components and additions, in turn.
fn tags_of(
    alloc: Global,
    root: &[Component],
    additions: &[Component],
) -> Result<Vec<Tag>, AllocError>
    ensures { IfOk result (λ tags. map tag_of tags.items ≡ tags_in root.now ++ tags_in additions.now) }
{
    let mut tags = Vec::new(alloc);
    append_tags(&mut tags, root)?;
    append_tags(&mut tags, additions)?;
    Ok(tags)
}

/// Appends the tags of components.
fn append_tags(tags: &mut Vec<Tag>, components: &[Component]) -> Result<(), AllocError>
    ensures { OnOk result (map tag_of tags.new.items ≡ map tag_of tags.old.items ++ tags_in components.now) }
{
    for component in components {
        tags.extend_from_slice(component.tags.as_slice())?;
    }
    Ok(())
}

/// Whether components are in the order of their smallest tags (X.680 8.6 and 27).
fn are_in_order(components: &[Component]) -> bool
    ensures { result ≡ are_ascending tag_less (places_in components.now) }
{
    let mut last: Option<Tag> = None;
    for component in components {
        let least = least_tag(component.tags.as_slice());
        if !may_follow(last, least) {
            return false;
        }
        last = least.or(last);
    }
    true
}

/// The root components, and the additions, are each one of a lawful type.
fn check_each(
    alloc: Global,
    nodes: &[TypeNode],
    root: &[Component],
    additions: &[Component],
) -> Result<(), Refusal>
    ensures sound { OnOk result ((are_components false (components_of (λ i. type_at nodes.now 1 i) root.now)
        && are_components true (components_of (λ i. type_at nodes.now 1 i) additions.now)) ≡ true) }
    ensures lacking { IfErr result (λ r. IsDue (λ f. some_lacks f false
        (components_of (λ i. type_at nodes.now 1 i) root.now)
        || some_lacks f true (components_of (λ i. type_at nodes.now 1 i) additions.now)) r) }
{
    check_components(alloc, nodes, root, false)?;
    check_components(alloc, nodes, additions, true)?;
    Ok(())
}

/// Root components, or additions (true), are each one of a lawful type (X.680 25).
#[tactic(auto, using(crate::proofs::Refused::raised, std::proofs::lemmas::Grind::common_steps))]
fn check_components(
    alloc: Global,
    nodes: &[TypeNode],
    components: &[Component],
    added: bool,
) -> Result<(), Refusal>
    ensures sound { OnOk result (are_components added (components_of (λ i. type_at nodes.now 1 i) components.now)
        ≡ true) }
    ensures lacking { IfErr result (λ r. IsDue (λ f. some_lacks f added
        (components_of (λ i. type_at nodes.now 1 i) components.now)) r) }
{
    for component in components {
        check_component(alloc, nodes, component, added)?;
    }
    Ok(())
}

/// A component among root components, or among additions (true), is one of a lawful type (X.680 25).
#[tactic(auto, using(crate::proofs::TagLaws::of_component, std::proofs::lemmas::Grind::common_steps))]
fn check_component(
    alloc: Global,
    nodes: &[TypeNode],
    component: &Component,
    added: bool,
) -> Result<(), Refusal>
    ensures sound { OnOk result (is_component added (map tag_of component.now.tags.items)
        (presence_of component.now.presence) (type_at nodes.now 1 component.now.place) ≡ true) }
    ensures lacking { IfErr result (λ r. IsDue (λ f. component_lacks f added (map tag_of component.now.tags.items)
        (presence_of component.now.presence) (type_at nodes.now 1 component.now.place)) r) }
{
    let tags = component.tags.as_slice();
    if tags.is_empty() {
        return Err(Refusal::Flawed(Flaw::TagMissing));
    }
    let begins = begins_with_tags(alloc, nodes, component.place, tags)?;
    if !begins {
        return Err(Refusal::Flawed(Flaw::TagsOfOtherType));
    }
    if !may_stand(nodes, component, added) {
        return Err(Refusal::Flawed(Flaw::GroupOutOfPlace));
    }
    Ok(())
}

/// Whether a component is no group of additions, or one that may be there: among additions, as optional.
fn may_stand(nodes: &[TypeNode], component: &Component, added: bool) -> bool
    ensures { result ≡ is_in_place added (presence_of component.now.presence)
        (type_at nodes.now 1 component.now.place) }
{
    !is_group_at(nodes, component.place)
        || (added && matches!(component.presence, Presence::Optional))
}

/// Whether the type at an index may begin with these tags: a CHOICE without a tag of its own with those of all its
/// alternatives, a group of additions with those of its components (X.680 25, 29 and 31).
#[tactic(auto, using(crate::proofs::TagLaws::one_tag, std::proofs::lemmas::Grind::common_steps))]
fn begins_with_tags(
    alloc: Global,
    nodes: &[TypeNode],
    place: usize,
    tags: &[Tag],
) -> Result<bool, AllocError>
    ensures { IfOk result (λ b. b ≡ begins_with (map tag_of tags.now) (type_at nodes.now 1 place)) }
{
    match nodes.get(place) {
        None => Ok(true),
        Some(TypeNode::Group(components)) => {
            let begins = group_begins(alloc, tags, components.as_slice())?;
            Ok(begins)
        }
        Some(TypeNode::Choice(table)) => {
            let begins = choice_begins(alloc, tags, table)?;
            Ok(begins)
        }
        Some(_) => Ok(tags.len() == 1),
    }
}

/// Whether a group of these components begins with these tags.
fn group_begins(alloc: Global, tags: &[Tag], components: &[Component]) -> Result<bool, AllocError>
    ensures { IfOk result (λ b. (f : ℕ → Schema) → b ≡ begins_with (map tag_of tags.now)
        (group (components_of f components.now))) }
{
    let own = tags_of(alloc, components, &[])?;
    Ok(are_same_tags(tags, own.as_slice()))
}
