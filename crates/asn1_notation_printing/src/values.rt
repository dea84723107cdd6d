//! Values of defaults (X.680 17.7).
use crate::constraints::{is_newline, write_character, write_quoted};
use crate::labels::Labels;
use asn1_table_json_writing::number_text;
use asn1_table_names::{Part, alternative_of, component_at, is_group};
use asn1_table_tape::elements_at;
use asn1_table_types::{DefaultValue, Event, StringKind, TypeNode};
use asn1_values_bit_strings::BitString;
use std::alloc::AllocError;
use std::str;

/// An index outside each table.
const NO_TYPE: usize = usize::MAX;

/// A list of components of a SEQUENCE or SET.
#[derive(Clone, Copy)]
enum PartList {
    /// The root components.
    Root,
    /// The additions.
    Additions,
    /// The components of the group of additions at an index.
    Group(usize),
}

impl PartList {
    /// The component at an index of the list.
    fn part(self, index: usize) -> Part {
        match self {
            PartList::Root => Part::Root(index),
            PartList::Additions => Part::Addition(index),
            PartList::Group(addition) => Part::Grouped {
                addition,
                component: index,
            },
        }
    }
}

/// The default of a component of the type at an index.
#[cycle(values)]
pub fn write_default(
    text: &mut String,
    labels: Labels<'_>,
    place: usize,
    value: &DefaultValue,
) -> Result<(), AllocError> {
    match value {
        DefaultValue::Simple(event) => write_value(text, labels, place, event),
        DefaultValue::SequenceOf(elements) => {
            write_elements(text, labels, place, elements.as_slice())
        }
        DefaultValue::SetOf(elements) => write_elements(text, labels, place, elements.as_slice()),
        DefaultValue::Choice(chosen, value) => {
            labels.write_alternative(text, place, *chosen)?;
            text.push_str(" : ")?;
            let alternative = match labels.types.node(place) {
                Some(node) => alternative_of(node, *chosen).unwrap_or(NO_TYPE),
                None => NO_TYPE,
            };
            write_default(text, labels, alternative, value)
        }
        DefaultValue::Components(root, additions) => {
            text.push('{')?;
            let begin = text.len();
            write_parts(text, labels, place, PartList::Root, root.as_slice(), begin)?;
            let list = PartList::Additions;
            write_parts(text, labels, place, list, additions.as_slice(), begin)?;
            text.push('}')
        }
    }
}

/// The elements of a value of the SEQUENCE OF or SET OF at an index, in braces (X.680 26.3 and 28.3).
#[cycle(values)]
fn write_elements(
    text: &mut String,
    labels: Labels<'_>,
    place: usize,
    elements: &[DefaultValue],
) -> Result<(), AllocError> {
    let element = elements_at(labels.types, place).unwrap_or(NO_TYPE);
    text.push('{')?;
    for index in 0..elements.len() {
        if index > 0 {
            text.push_str(", ")?;
        }
        write_default(text, labels, element, &elements[index])?;
    }
    text.push('}')
}

/// The components of a list that are there, in a value of the SEQUENCE or SET at an index (X.680 25.18 and 27). The
/// first component of the value begins at an octet of the text.
#[cycle(values)]
fn write_parts(
    text: &mut String,
    labels: Labels<'_>,
    place: usize,
    list: PartList,
    parts: &[Option<DefaultValue>],
    begin: usize,
) -> Result<(), AllocError> {
    for index in 0..parts.len() {
        if let Some(value) = &parts[index] {
            write_part(text, labels, place, list.part(index), value, begin)?;
        }
    }
    Ok(())
}

/// A component: its identifier and its value, after a comma unless it is the first; or those of a group of additions.
#[cycle(values)]
fn write_part(
    text: &mut String,
    labels: Labels<'_>,
    place: usize,
    part: Part,
    value: &DefaultValue,
    begin: usize,
) -> Result<(), AllocError> {
    let component = match component_at(labels.types, place, part) {
        Some(component) => component.place,
        None => NO_TYPE,
    };
    if let DefaultValue::Components(parts, _) = value {
        if let Some(list) = group_list(labels, part, component) {
            return write_parts(text, labels, place, list, parts.as_slice(), begin);
        }
    }
    if text.len() > begin {
        text.push_str(", ")?;
    }
    labels.write_part(text, place, part)?;
    text.push(' ')?;
    write_default(text, labels, component, value)
}

/// The components of an addition, if its type, whose index is given, is a group.
fn group_list(labels: Labels<'_>, part: Part, component: usize) -> Option<PartList> {
    match part {
        Part::Addition(addition) if is_group(labels.types, component) => {
            Some(PartList::Group(addition))
        }
        _ => None,
    }
}

/// A value without parts of the type at an index.
fn write_value(
    text: &mut String,
    labels: Labels<'_>,
    place: usize,
    event: &Event,
) -> Result<(), AllocError> {
    match event {
        Event::Truth(true) => text.push_str("TRUE"),
        Event::Truth(false) => text.push_str("FALSE"),
        Event::Nothing => text.push_str("NULL"),
        Event::Number(number) => text.push_str(number_text(labels.alloc, number)?.as_str()),
        Event::Item(item) => labels.write_item(text, place, *item),
        Event::Bits(bits) => write_bits(text, bits),
        Event::Octets(octets) => {
            text.push('\'')?;
            for octet in octets {
                write!(text, "{octet:02X}")?;
            }
            text.push_str("'H")
        }
        Event::Text(octets) => write_string(text, labels, place, octets.as_slice()),
        Event::Arcs(arcs) => {
            let mut before = '{';
            for arc in arcs.as_slice() {
                write!(text, "{before}{arc}")?;
                before = ' ';
            }
            text.push('}')
        }
    }
}

/// A bstring (X.680 12.10).
fn write_bits(text: &mut String, bits: &BitString) -> Result<(), AllocError> {
    text.push('\'')?;
    for index in 0..bits.len() {
        let is_set = bits.get(index).unwrap_or(false);
        text.push(if is_set { '1' } else { '0' })?;
    }
    text.push_str("'B")
}

/// A string of the type at an index: its characters by their numbers, or for a UTF8String its octets.
fn write_string(
    text: &mut String,
    labels: Labels<'_>,
    place: usize,
    octets: &[u8],
) -> Result<(), AllocError> {
    let is_utf8 = match labels.types.node(place) {
        Some(TypeNode::CharacterString(table)) => matches!(table.kind, StringKind::Utf8),
        _ => false,
    };
    if is_utf8 {
        if let Ok(characters) = str::from_utf8(octets) {
            let mut all: Vec<char> = Vec::new(labels.alloc);
            for character in characters.chars() {
                all.push(character)?;
            }
            return write_characters(text, all.as_slice());
        }
    }
    let mut all: Vec<char> = Vec::new(labels.alloc);
    for octet in octets {
        all.push(char::from(*octet))?;
    }
    write_characters(text, all.as_slice())
}

/// A cstring; or a list of characters, if one of them ends a line (X.680 12.14 and 41.8).
fn write_characters(text: &mut String, characters: &[char]) -> Result<(), AllocError> {
    if characters.iter().any(|character| is_newline(*character)) {
        text.push('{')?;
        for index in 0..characters.len() {
            if index > 0 {
                text.push_str(", ")?;
            }
            write_character(text, u32::from(characters[index]))?;
        }
        return text.push('}');
    }
    text.push('"')?;
    for character in characters {
        write_quoted(text, *character)?;
    }
    text.push('"')
}
