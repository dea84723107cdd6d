//! Whether records are the value of a default (X.680 25).
#![tactic(auto, using(std::proofs::lemmas::Grind::common_steps))]

ghost use Rattle.std.specs.Prelude.{◌≡◌, ◌==◌, true, false, is_some, map, option_and_then, length};
ghost use Rattle.std.specs.Option.{option_copied};
ghost use lib.Pointwise.{pointwise};
ghost use Rattle.asn1_laws_values.proofs.Counts.{count};
ghost use Rattle.asn1_model.specs.Value.{same, values_of};
ghost use Rattle.asn1_table_tape.specs.Strings.{text_of};
ghost use Rattle.asn1_table_tape.specs.Values.{behind_added, behind_addition, behind_any, behind_bag, behind_each};
ghost use Rattle.asn1_table_tape.specs.Values.{behind_event, behind_members, behind_nth, behind_root, behind_value};
ghost use Rattle.asn1_table_tape.specs.Values.{count_alike, count_on, has_mark, is_scalar, past};
ghost use Rattle.asn1_table_nodes.specs.Values.{part_of, parts_of, scalar_of, value_of};

use crate::strings::CharacterString;
use crate::tape::Event;
use asn1_schema_tags::Chosen;
use asn1_table_types::{DefaultValue, Event as Scalar, is_same_value};

/// What a record says beside values without parts.
#[derive(Clone, Copy)]
pub enum Mark {
    /// A list begins.
    Opens,
    /// Whether another element follows.
    More(bool),
    /// A CHOICE begins, with this alternative.
    Picks(Chosen),
    /// A SEQUENCE, SET or group of additions begins.
    Parts,
    /// Whether a root component is there.
    Present(bool),
    /// The additions begin.
    Additions,
    /// Whether an addition is there.
    Added(bool),
    /// An addition ends.
    AddedEnds,
    /// A value with parts ends.
    Closes,
}

/// Whether records are the value of a default.
pub fn is_value(default: &DefaultValue, value: &[Event]) -> bool
    ensures { result ≡ is_some (behind_value (value_of default.now) value.now) }
{
    behind(default, value).is_some()
}

// The records after the value of a default, if they begin with it.
#[cycle(behind)]
fn behind<'a>(default: &DefaultValue, value: &'a [Event]) -> Option<&'a [Event]>
    ensures { option_copied result ≡ behind_value (value_of default.now) value.now }
{
    match default {
        DefaultValue::Simple(simple) => behind_scalar(simple, value),
        DefaultValue::SequenceOf(elements) => match behind_mark(Mark::Opens, value) {
            None => None,
            Some(rest) => behind_elements(elements.as_slice(), rest),
        },
        DefaultValue::SetOf(elements) => match behind_mark(Mark::Opens, value) {
            None => None,
            Some(rest) => behind_bag(elements.as_slice(), rest),
        },
        DefaultValue::Choice(chosen, inner) => match behind_mark(Mark::Picks(*chosen), value) {
            None => None,
            Some(rest) => behind_chosen(inner, rest),
        },
        DefaultValue::Components(root, additions) => match behind_mark(Mark::Parts, value) {
            None => None,
            Some(rest) => match behind_root(root.as_slice(), rest) {
                None => None,
                Some(rest) => {
                    behind_added(additions.as_slice(), past_mark(Mark::Additions, rest))
                }
            },
        },
    }
}

// The records after the rest of a list, with these elements.
#[cycle(behind)]
fn behind_elements<'a>(elements: &[DefaultValue], value: &'a [Event]) -> Option<&'a [Event]>
    ensures { option_copied result ≡ behind_members (values_of (map value_of elements.now)) value.now }
{
    let mut rest = value;
    for element in elements {
        let Some(inner) = behind_mark(Mark::More(true), rest) else {
            return None;
        };
        match behind(element, inner) {
            Some(others) => rest = others,
            None => return None,
        }
    }
    behind_list_end(rest)
}

// The records after the rest of a SET OF, with these elements in any order (X.680 28): of each there are as many.
#[cycle(behind)]
fn behind_bag<'a>(elements: &[DefaultValue], value: &'a [Event]) -> Option<&'a [Event]>
    ensures { option_copied result ≡ behind_bag (values_of (map value_of elements.now)) value.now }
{
    for index in 0..elements.len() {
        if count_on(elements, index, value) != count_alike(elements, index) {
            return None;
        }
    }
    behind_each(elements, value)
}

// The records after the rest of a list, with as many elements, each of which is one of these.
#[cycle(behind)]
fn behind_each<'a>(elements: &[DefaultValue], value: &'a [Event]) -> Option<&'a [Event]>
    ensures { option_copied result ≡ behind_each (length elements.now)
        (λ r. behind_any (values_of (map value_of elements.now)) r) value.now }
{
    let mut rest = value;
    for taken in 0..elements.len() {
        let Some(inner) = behind_mark(Mark::More(true), rest) else {
            return None;
        };
        match behind_any(elements, inner) {
            Some(others) => rest = others,
            None => return None,
        }
    }
    behind_list_end(rest)
}

// How many elements are the one at an index, among as many as there are, each of which is one of these.
#[cycle(behind)]
fn count_on(elements: &[DefaultValue], index: usize, value: &[Event]) -> usize
    ensures { result ≡ count_on (length elements.now) (λ r. behind_any (values_of (map value_of elements.now)) r)
        (λ r. is_some (behind_nth elements.now index r)) value.now }
{
    let mut count = 0;
    let mut rest = value;
    for taken in 0..elements.len() {
        let Some(inner) = behind_mark(Mark::More(true), rest) else {
            return count;
        };
        if behind_nth(elements, index, inner).is_some() {
            count += 1;
        }
        match behind_any(elements, inner) {
            Some(others) => rest = others,
            None => return count,
        }
    }
    count
}

// The records after the first of these values with which they begin.
#[cycle(behind)]
fn behind_any<'a>(elements: &[DefaultValue], value: &'a [Event]) -> Option<&'a [Event]>
    ensures { option_copied result ≡ behind_any (values_of (map value_of elements.now)) value.now }
{
    for element in elements {
        if let Some(rest) = behind(element, value) {
            return Some(rest);
        }
    }
    None
}

// The records after the value at an index, if they begin with it.
#[cycle(behind)]
fn behind_nth<'a>(
    elements: &[DefaultValue],
    index: usize,
    value: &'a [Event],
) -> Option<&'a [Event]>
    ensures { option_copied result ≡ behind_nth elements.now index value.now }
{
    let mut before = index;
    for element in elements {
        if before == 0 {
            return behind(element, value);
        }
        before -= 1;
    }
    None
}

// How many values are the same as the one at an index.
fn count_alike(values: &[DefaultValue], index: usize) -> usize
    ensures { result ≡ count_alike values.now index }
{
    let Some(value) = values.get(index) else {
        return 0;
    };
    let mut count = 0;
    for other in values {
        if is_same_value(value, other) {
            count += 1;
        }
    }
    count
}

// The records after this value and the end of a CHOICE.
#[cycle(behind)]
fn behind_chosen<'a>(inner: &DefaultValue, value: &'a [Event]) -> Option<&'a [Event]>
    ensures { option_copied result ≡ option_and_then (λ others. behind_event (has_mark Mark.Closes) others)
        (behind_value (value_of inner.now) value.now) }
{
    match behind(inner, value) {
        None => None,
        Some(rest) => behind_mark(Mark::Closes, rest),
    }
}

// The records after these root components.
#[cycle(behind)]
fn behind_root<'a>(parts: &[Option<DefaultValue>], value: &'a [Event]) -> Option<&'a [Event]>
    ensures { option_copied result ≡ behind_root (parts_of (map part_of parts.now)) value.now }
{
    let mut rest = value;
    for part in parts {
        let others = match part {
            None => behind_mark(Mark::Present(false), rest),
            Some(value) => behind(value, past_mark(Mark::Present(true), rest)),
        };
        match others {
            Some(others) => rest = others,
            None => return None,
        }
    }
    Some(rest)
}

// The records after these additions and the end.
#[cycle(behind)]
fn behind_added<'a>(parts: &[Option<DefaultValue>], value: &'a [Event]) -> Option<&'a [Event]>
    ensures { option_copied result ≡ behind_added (parts_of (map part_of parts.now)) value.now }
{
    let mut rest = value;
    for part in parts {
        let others = match part {
            None => behind_mark(Mark::Added(false), rest),
            Some(value) => behind_addition(value, rest),
        };
        match others {
            Some(others) => rest = others,
            None => return None,
        }
    }
    behind_mark(Mark::Closes, rest)
}

// The records after an addition with this value.
#[cycle(behind)]
fn behind_addition<'a>(addition: &DefaultValue, value: &'a [Event]) -> Option<&'a [Event]>
    ensures { option_copied result ≡ behind_addition (value_of addition.now) value.now }
{
    match behind_mark(Mark::Added(true), value) {
        None => None,
        Some(rest) => match behind(addition, rest) {
            None => None,
            Some(rest) => behind_mark(Mark::AddedEnds, rest),
        },
    }
}

// The records without the first, if that says this.
fn past_mark(mark: Mark, value: &[Event]) -> &[Event]
    ensures { result.now ≡ past (has_mark mark) value.now }
{
    match value.split_first() {
        Some((first, rest)) => { if has_mark(mark, first) { rest } else { value } }
        None => value,
    }
}

// The records after the end of a list.
fn behind_list_end(value: &[Event]) -> Option<&[Event]>
    ensures { option_copied result ≡ option_and_then (λ rest. behind_event (has_mark Mark.Closes) rest)
        (behind_event (has_mark (Mark.More false)) value.now) }
{
    match behind_mark(Mark::More(false), value) {
        None => None,
        Some(rest) => behind_mark(Mark::Closes, rest),
    }
}

// The records after the first, if that is this value without parts.
fn behind_scalar<'a>(simple: &Scalar, value: &'a [Event]) -> Option<&'a [Event]>
    ensures { option_copied result ≡ behind_event (is_scalar (scalar_of simple.now)) value.now }
{
    match value.split_first() {
        Some((first, rest)) => {
            if is_same(simple, first) {
                Some(rest)
            } else {
                None
            }
        }
        None => None,
    }
}

// The records after the first, if that says this.
fn behind_mark(mark: Mark, value: &[Event]) -> Option<&[Event]>
    ensures { option_copied result ≡ behind_event (has_mark mark) value.now }
{
    match value.split_first() {
        Some((first, rest)) => {
            if has_mark(mark, first) {
                Some(rest)
            } else {
                None
            }
        }
        None => None,
    }
}

// Whether a record says this.
fn has_mark(mark: Mark, event: &Event) -> bool
    ensures { result ≡ has_mark mark event.now }
{
    match mark {
        Mark::Opens => matches!(event, Event::ListBegins(_, _)),
        Mark::More(follows) => match event {
            Event::Further(more) => *more == follows,
            _ => false,
        },
        Mark::Picks(chosen) => match event {
            Event::ChoiceBegins(_, alternative) => {
                alternative.added == chosen.added && alternative.place == chosen.place
            }
            _ => false,
        },
        Mark::Parts => matches!(
            event,
            Event::SequenceBegins(_, _) | Event::SetBegins(_, _) | Event::GroupBegins(_)
        ),
        Mark::Present(is_present) => match event {
            Event::PresenceBit(bit) => *bit == is_present,
            _ => false,
        },
        Mark::Additions => matches!(event, Event::AdditionsBegin(_)),
        Mark::Added(is_present) => match event {
            Event::Addition(bit) => *bit == is_present,
            _ => false,
        },
        Mark::AddedEnds => matches!(event, Event::AdditionEnds),
        Mark::Closes => matches!(event, Event::Ends),
    }
}

// Whether a record is a value without parts.
#[tactic(auto, using(std::proofs::lemmas::Grind::common_steps), unfolding(asn1_model::specs::Value::same))]
fn is_same(default: &Scalar, event: &Event) -> bool
    ensures { result ≡ is_scalar (scalar_of default.now) event.now }
{
    match default {
        Scalar::Truth(value) => match event {
            Event::Flag(flag) => *flag == *value,
            _ => false,
        },
        Scalar::Nothing => matches!(event, Event::Nil),
        Scalar::Number(value) => match event {
            Event::Number(_, number) => number == value,
            _ => false,
        },
        Scalar::Item(value) => match event {
            Event::Item(_, item) => *item == *value,
            _ => false,
        },
        Scalar::Bits(value) => match event {
            Event::Bits(_, bits) => bits == value,
            _ => false,
        },
        Scalar::Octets(value) => match event {
            Event::Octets(_, octets) => octets.as_slice() == value.as_slice(),
            _ => false,
        },
        Scalar::Text(value) => match event {
            Event::Text(_, text) => has_characters(text, value.as_slice()),
            _ => false,
        },
        Scalar::Arcs(value) => match event {
            Event::Arcs(arcs) => arcs == value,
            _ => false,
        },
    }
}

// Whether a string has these characters, or octets.
fn has_characters(text: &CharacterString, characters: &[u8]) -> bool
    ensures { result ≡ pointwise ◌==◌ (text_of text.now) characters.now }
{
    match text {
        CharacterString::Numeric(text) => text.as_bytes() == characters,
        CharacterString::Printable(text) => text.as_bytes() == characters,
        CharacterString::Visible(text) => text.as_bytes() == characters,
        CharacterString::Ia5(text) => text.as_bytes() == characters,
        CharacterString::Bmp(text) => has_units(text.as_units(), characters),
        CharacterString::General(text) => text.as_bytes() == characters,
        CharacterString::Graphic(text) => text.as_bytes() == characters,
        CharacterString::Teletex(text) => text.as_bytes() == characters,
        CharacterString::Utf8(text) => text.as_bytes() == characters,
    }
}

// Whether the units of a BMPString are these characters.
fn has_units(units: &[u16], characters: &[u8]) -> bool
    ensures { result ≡ pointwise ◌==◌ units.now characters.now }
{
    let (mut left, mut right) = (units, characters);
    while let (Some((unit, further)), Some((character, rest))) = (
        left.split_first(),
        right.split_first(),
    ) {
        if *unit != u16::from(*character) {
            return false;
        }
        left = further;
        right = rest;
    }
    left.is_empty() && right.is_empty()
}
