//! The alternatives of a CHOICE (X.680 29).
#![tactic(auto, using(crate::proofs::Orders::walks, std::proofs::lemmas::Grind::common_steps))]

ghost use Rattle.std.specs.Prelude.{◌≡◌, ℕ, true, ◌++◌, ◌||◌, ◌&&◌, ◌==◌, cond, length, IfOk, IfErr, OnOk, map};
ghost use Rattle.asn1_model.specs.Lawful.{are_distinct, are_ascending, tag_same, tag_less, is_empty};
ghost use Rattle.asn1_model.specs.Lawful.{begins_with};
ghost use Rattle.asn1_model.specs.Schema.{Schema, choice};
ghost use Rattle.asn1_schema_tags.specs.Tags.{tag_of};
ghost use Rattle.asn1_table_types.specs.Flaws.{are_alternatives, is_choice_table, alternatives_lack, choice_lacks};
ghost use Rattle.asn1_table_nodes.specs.Meaning.{alternatives_of, tags_among, type_at};
ghost use Rattle.asn1_table_types.specs.Orders.{same_row};
ghost use Rattle.asn1_table_types.specs.Tables.{IsDue};

use crate::faults::Refusal;
use crate::groups::is_group_at;
use crate::tags::{are_distinct_tags, are_same_tags, stands_behind};
use crate::{Alternative, AlternativeTable, Flaw, TypeNode};
use asn1_schema_tags::Tag;
use std::alloc::{AllocError, Global};

/// The alternatives are those of a lawful CHOICE (X.680 29).
pub fn check_choice(
    alloc: Global,
    nodes: &[TypeNode],
    table: &AlternativeTable,
) -> Result<(), Refusal>
    ensures sound { OnOk result (is_choice_table (alternatives_of (λ i. type_at nodes.now 1 i) table.now.root.items)
        table.now.is_extensible (alternatives_of (λ i. type_at nodes.now 1 i) table.now.additions.items) ≡ true) }
    ensures lacking { IfErr result (λ r. IsDue (λ f. choice_lacks f
        (alternatives_of (λ i. type_at nodes.now 1 i) table.now.root.items) table.now.is_extensible
        (alternatives_of (λ i. type_at nodes.now 1 i) table.now.additions.items)) r) }
{
    check_both(
        alloc,
        nodes,
        table.root.as_slice(),
        table.is_extensible,
        table.additions.as_slice(),
    )?;
    Ok(())
}

/// Root alternatives and added ones are those of a lawful CHOICE (X.680 29).
fn check_both(
    alloc: Global,
    nodes: &[TypeNode],
    root: &[Alternative],
    is_extensible: bool,
    additions: &[Alternative],
) -> Result<(), Refusal>
    ensures sound { OnOk result (is_choice_table (alternatives_of (λ i. type_at nodes.now 1 i) root.now) is_extensible
        (alternatives_of (λ i. type_at nodes.now 1 i) additions.now) ≡ true) }
    ensures lacking { IfErr result (λ r. IsDue (λ f. choice_lacks f
        (alternatives_of (λ i. type_at nodes.now 1 i) root.now) is_extensible
        (alternatives_of (λ i. type_at nodes.now 1 i) additions.now)) r) }
{
    if is_none(root) {
        return Err(Refusal::Flawed(Flaw::AlternativeMissing));
    }
    if !is_marked(is_extensible, additions) {
        return Err(Refusal::Flawed(Flaw::MarkerMissing));
    }
    if !are_in_order(root) {
        return Err(Refusal::Flawed(Flaw::TagsOutOfOrder));
    }
    let is_distinct = has_distinct_tags(alloc, root, additions)?;
    if !is_distinct {
        return Err(Refusal::Flawed(Flaw::TagTwice));
    }
    check_each(nodes, root, additions)?;
    Ok(())
}

/// Whether there is no alternative.
fn is_none(alternatives: &[Alternative]) -> bool
    ensures { result ≡ is_empty alternatives.now }
{
    alternatives.is_empty()
}

/// Whether there is an extension marker, if there are additions.
fn is_marked(is_extensible: bool, additions: &[Alternative]) -> bool
    ensures { result ≡ (is_extensible || is_empty additions.now) }
{
    is_extensible || is_none(additions)
}

/// Whether alternatives are in the order of their tags (X.680 8.6).
fn are_in_order(alternatives: &[Alternative]) -> bool
    ensures { result ≡ are_ascending tag_less (tags_among alternatives.now) }
{
    let mut last: Option<Tag> = None;
    for alternative in alternatives {
        if !stands_behind(last, alternative.tag) {
            return false;
        }
        last = Some(alternative.tag);
    }
    true
}

/// Whether no tag of root alternatives and additions occurs twice.
fn has_distinct_tags(
    alloc: Global,
    root: &[Alternative],
    additions: &[Alternative],
) -> Result<bool, AllocError>
    ensures { IfOk result (λ b. b ≡ are_distinct tag_same (tags_among root.now ++ tags_among additions.now)) }
{
    let tags = tags_of(alloc, root, additions)?;
    Ok(are_distinct_tags(tags.as_slice()))
}

/// The tags of root alternatives and additions, in turn.
fn tags_of(
    alloc: Global,
    root: &[Alternative],
    additions: &[Alternative],
) -> Result<Vec<Tag>, AllocError>
    ensures { IfOk result (λ tags. map tag_of tags.items ≡ tags_among root.now ++ tags_among additions.now) }
{
    let mut tags = Vec::new(alloc);
    append_tags(&mut tags, root)?;
    append_tags(&mut tags, additions)?;
    Ok(tags)
}

/// The tags of alternatives.
pub fn alternative_tags(alloc: Global, alternatives: &[Alternative]) -> Result<Vec<Tag>, AllocError>
    ensures { IfOk result (λ tags. map tag_of tags.items ≡ tags_among alternatives.now) }
{
    let mut tags = Vec::new(alloc);
    append_tags(&mut tags, alternatives)?;
    Ok(tags)
}

/// Appends the tags of alternatives.
fn append_tags(tags: &mut Vec<Tag>, alternatives: &[Alternative]) -> Result<(), AllocError>
    ensures { OnOk result (map tag_of tags.new.items ≡ map tag_of tags.old.items ++ tags_among alternatives.now) }
{
    for alternative in alternatives {
        tags.push(alternative.tag)?;
    }
    Ok(())
}

/// Whether a CHOICE of these alternatives may begin with these tags: one, or those of all alternatives.
pub fn choice_begins(
    alloc: Global,
    tags: &[Tag],
    table: &AlternativeTable,
) -> Result<bool, AllocError>
    ensures { IfOk result (λ b. (f : ℕ → Schema) → b ≡ begins_with (map tag_of tags.now)
        (choice (alternatives_of f table.now.root.items) table.now.is_extensible
        (alternatives_of f table.now.additions.items))) }
{
    let all = has_all_tags(
        alloc,
        tags,
        table.root.as_slice(),
        table.additions.as_slice(),
    )?;
    Ok(all)
}

/// Whether there is one tag, or these are those of all alternatives.
fn has_all_tags(
    alloc: Global,
    tags: &[Tag],
    root: &[Alternative],
    additions: &[Alternative],
) -> Result<bool, AllocError>
    ensures { IfOk result (λ b. b ≡ cond (length tags.now == 1) true (same_row (map tag_of tags.now)
        (tags_among root.now ++ tags_among additions.now))) }
{
    if tags.len() == 1 {
        return Ok(true);
    }
    let own = tags_of(alloc, root, additions)?;
    Ok(are_same_tags(tags, own.as_slice()))
}

/// No alternative is a group of additions.
fn check_each(
    nodes: &[TypeNode],
    root: &[Alternative],
    additions: &[Alternative],
) -> Result<(), Flaw>
    ensures sound { OnOk result ((are_alternatives (alternatives_of (λ i. type_at nodes.now 1 i) root.now)
        && are_alternatives (alternatives_of (λ i. type_at nodes.now 1 i) additions.now)) ≡ true) }
    ensures lacking { IfErr result (λ f. (alternatives_lack f (alternatives_of (λ i. type_at nodes.now 1 i) root.now)
        || alternatives_lack f (alternatives_of (λ i. type_at nodes.now 1 i) additions.now)) ≡ true) }
{
    check_alternatives(nodes, root)?;
    check_alternatives(nodes, additions)?;
    Ok(())
}

/// None of some alternatives is a group of additions.
fn check_alternatives(nodes: &[TypeNode], alternatives: &[Alternative]) -> Result<(), Flaw>
    ensures sound { OnOk result (are_alternatives (alternatives_of (λ i. type_at nodes.now 1 i) alternatives.now)
        ≡ true) }
    ensures lacking { IfErr result (λ f. alternatives_lack f
        (alternatives_of (λ i. type_at nodes.now 1 i) alternatives.now) ≡ true) }
{
    for alternative in alternatives {
        if is_group_at(nodes, alternative.place) {
            return Err(Flaw::GroupOutOfPlace);
        }
    }
    Ok(())
}
