//! Whether two defaults are the same value, the elements of a SET OF in any order (X.680 28).
#![tactic(auto, using(std::proofs::lemmas::Grind::common_steps))]

ghost use Rattle.std.specs.Prelude.{◌≡◌, ◌==◌, ◌&&◌, map};
ghost use Rattle.asn1_laws_values.proofs.Counts.{count};
ghost use Rattle.asn1_model.specs.Value.{same, same_bag, same_members, same_parts, same_truth, values_of};
ghost use Rattle.asn1_table_nodes.specs.Sameness.{are_among, is_among};
ghost use Rattle.asn1_table_nodes.specs.Values.{part_of, parts_of, scalar_of, value_of};

use crate::{DefaultValue, Event};
use asn1_schema_tags::Chosen;

/// Whether two defaults are the same value.
#[cycle(same)]
pub fn is_same_value(first: &DefaultValue, second: &DefaultValue) -> bool
    ensures { result ≡ same (value_of first.now) (value_of second.now) }
{
    match first {
        DefaultValue::Simple(event) => match second {
            DefaultValue::Simple(other) => is_same_event(event, other),
            _ => false,
        },
        DefaultValue::SequenceOf(elements) => match second {
            DefaultValue::SequenceOf(others) => are_same(elements.as_slice(), others.as_slice()),
            _ => false,
        },
        DefaultValue::SetOf(elements) => match second {
            DefaultValue::SetOf(others) => is_same_bag(elements.as_slice(), others.as_slice()),
            _ => false,
        },
        DefaultValue::Choice(chosen, value) => match second {
            DefaultValue::Choice(other, others) => {
                is_same_choice(*chosen, *other) && is_same_value(value, others)
            }
            _ => false,
        },
        DefaultValue::Components(root, additions) => match second {
            DefaultValue::Components(others, further) => {
                are_same_parts(root.as_slice(), others.as_slice())
                    && are_same_parts(additions.as_slice(), further.as_slice())
            }
            _ => false,
        },
    }
}

/// Whether the elements of two lists are the same, one by one.
#[cycle(same)]
fn are_same(firsts: &[DefaultValue], seconds: &[DefaultValue]) -> bool
    ensures { result ≡ same_members (values_of (map value_of firsts.now)) (values_of (map value_of seconds.now)) }
{
    if firsts.len() != seconds.len() {
        return false;
    }
    for (first, second) in firsts.iter().zip(seconds) {
        if !is_same_value(first, second) {
            return false;
        }
    }
    true
}

/// Whether two SET OF values have the same elements: of each there are as many in one as in the other.
#[cycle(same)]
fn is_same_bag(firsts: &[DefaultValue], seconds: &[DefaultValue]) -> bool
    ensures { result ≡ same_bag (values_of (map value_of firsts.now)) (values_of (map value_of seconds.now)) }
{
    for first in firsts {
        if count_same(first, firsts) != count_same(first, seconds) {
            return false;
        }
    }
    are_among(firsts, seconds)
}

/// Whether each of some values is the same as one of these.
#[cycle(same)]
fn are_among(firsts: &[DefaultValue], seconds: &[DefaultValue]) -> bool
    ensures { result ≡ are_among (values_of (map value_of firsts.now)) (values_of (map value_of seconds.now)) }
{
    for second in seconds {
        if !is_among(firsts, second) {
            return false;
        }
    }
    true
}

/// Whether a value is the same as one of these.
#[cycle(same)]
fn is_among(firsts: &[DefaultValue], second: &DefaultValue) -> bool
    ensures { result ≡ is_among (values_of (map value_of firsts.now)) (value_of second.now) }
{
    for first in firsts {
        if is_same_value(first, second) {
            return true;
        }
    }
    false
}

/// How many values are the same as this one.
#[cycle(same)]
fn count_same(value: &DefaultValue, values: &[DefaultValue]) -> usize
    ensures { result ≡ count (λ v. same (value_of value.now) v) (values_of (map value_of values.now)) }
{
    let mut count = 0;
    for other in values {
        if is_same_value(value, other) {
            count += 1;
        }
    }
    count
}

/// Whether the parts of two values are the same, present or absent in the same positions.
#[cycle(same)]
fn are_same_parts(firsts: &[Option<DefaultValue>], seconds: &[Option<DefaultValue>]) -> bool
    ensures { result ≡ same_parts (parts_of (map part_of firsts.now)) (parts_of (map part_of seconds.now)) }
{
    if firsts.len() != seconds.len() {
        return false;
    }
    for (first, second) in firsts.iter().zip(seconds) {
        let is_same = match first {
            None => second.is_none(),
            Some(value) => match second {
                None => false,
                Some(other) => is_same_value(value, other),
            },
        };
        if !is_same {
            return false;
        }
    }
    true
}

/// Whether two alternatives are the same.
fn is_same_choice(first: Chosen, second: Chosen) -> bool
    ensures { result ≡ (same_truth first.added second.added && (first.place == second.place)) }
{
    first.added == second.added && first.place == second.place
}

/// Whether two values without parts are the same.
#[tactic(auto, using(std::proofs::lemmas::Grind::common_steps), unfolding(asn1_model::specs::Value::same))]
fn is_same_event(first: &Event, second: &Event) -> bool
    ensures { result ≡ same (scalar_of first.now) (scalar_of second.now) }
{
    match first {
        Event::Truth(value) => match second {
            Event::Truth(other) => *value == *other,
            _ => false,
        },
        Event::Nothing => matches!(second, Event::Nothing),
        Event::Number(value) => match second {
            Event::Number(other) => value == other,
            _ => false,
        },
        Event::Item(value) => match second {
            Event::Item(other) => *value == *other,
            _ => false,
        },
        Event::Bits(value) => match second {
            Event::Bits(other) => value == other,
            _ => false,
        },
        Event::Octets(value) => match second {
            Event::Octets(other) => value.as_slice() == other.as_slice(),
            _ => false,
        },
        Event::Text(value) => match second {
            Event::Text(other) => value.as_slice() == other.as_slice(),
            _ => false,
        },
        Event::Arcs(value) => match second {
            Event::Arcs(other) => value == other,
            _ => false,
        },
    }
}
