//! Tables in rows, and whether they are lawful.
use asn1_schema_constraints::{Bounded, Sizes};
use asn1_schema_tags::{Chosen, Tag};
use asn1_table_types::{
    Alternative, AlternativeTable, CharacterTable, Component, ComponentTable, DefaultValue, Event,
    Flaw, ItemTable, NumberLimits, Presence as TablePresence, StringKind, StringTable, TableError,
    TypeNode, Types,
};
use asn1_values_bit_strings::BitString;
use asn1_values_integers::Integer;
use std::alloc::{AllocError, Global};

/// Sizes of any number.
pub const ANY: Sizes = Sizes {
    root: Bounded::None,
    is_extensible: false,
};

/// Sizes of 1, and of 2.
pub const ONE: Sizes = Sizes {
    root: Bounded::Single(1),
    is_extensible: false,
};

pub const TWO: Sizes = Sizes {
    root: Bounded::Single(2),
    is_extensible: false,
};

/// Sizes out of order.
pub const WRONG: Sizes = Sizes {
    root: Bounded::Range {
        start: Some(2),
        end: Some(1),
    },
    is_extensible: false,
};

/// A value without parts.
#[derive(Clone, Copy)]
pub enum Simple {
    Truth(bool),
    Nothing,
    Number(i128),
    Item(isize),
    NoBits,
    Octets(&'static [u8]),
    Text(&'static [u8]),
}

/// A part of a default.
#[derive(Clone, Copy)]
pub enum Given {
    /// None.
    Absent,
    /// A value without parts.
    Simple(Simple),
    /// Components, the first of them this one or absent, and no additions.
    First(Option<Simple>),
    /// The same with a SET OF these BOOLEANs.
    Truths(&'static [bool]),
}

/// A default.
#[derive(Clone, Copy)]
pub enum Value {
    /// A value without parts.
    Simple(Simple),
    /// A SEQUENCE OF these.
    List(&'static [Simple]),
    /// A SEQUENCE OF one SEQUENCE OF this.
    NestedList(Simple),
    /// A SET OF these.
    Bag(&'static [Given]),
    /// A CHOICE: the index of an alternative among the root ones, or among the additions.
    Root(usize, Simple),
    Addition(usize, Simple),
    /// Root components, and additions.
    Components(&'static [Given], &'static [Given]),
}

/// Whether a component may be absent.
#[derive(Clone, Copy)]
pub enum Presence {
    Required,
    Optional,
    Default(Value),
}

/// A component: its tags, whether it may be absent, and the index of its type.
#[derive(Clone, Copy)]
pub struct Part(pub &'static [u32], pub Presence, pub usize);

/// A type. Tables have root parts, an extension marker or none, and additions.
pub enum Node {
    Boolean,
    Null,
    Integer(Option<NumberLimits>),
    Enumerated(&'static [isize], bool, &'static [isize]),
    BitString(Sizes),
    OctetString(Sizes),
    CharacterString(StringKind, Sizes, Option<&'static [u32]>),
    ObjectIdentifier,
    SequenceOf(Sizes, usize),
    SetOf(Sizes, usize),
    Sequence(&'static [Part], bool, &'static [Part]),
    Set(&'static [Part], bool, &'static [Part]),
    Group(&'static [Part]),
    /// Each alternative by its tag, and the index of its type.
    Choice(&'static [(u32, usize)], bool, &'static [(u32, usize)]),
}

/// What becomes of a table.
#[derive(Clone, Copy, PartialEq, Eq)]
pub enum Outcome {
    /// It is made.
    Made,
    /// The type at an index has a flaw.
    Unlawful(usize, Flaw),
    /// The type at an index has a default that is not in normal form.
    NotNormal(usize),
}

/// A table, and what becomes of it.
pub struct Row(pub Outcome, pub &'static [Node]);

/// A default, and what becomes of a table with it.
#[derive(Clone, Copy)]
pub struct DefaultRow(pub Outcome, pub Value);

/// Types, and defaults of a component of the last one of them, in a SEQUENCE after them.
pub struct Defaults(pub &'static [Node], pub &'static [DefaultRow]);

/// A value without parts.
fn event_of(alloc: Global, value: Simple) -> Result<Event, AllocError> {
    match value {
        Simple::Truth(value) => Ok(Event::Truth(value)),
        Simple::Nothing => Ok(Event::Nothing),
        Simple::Number(value) => Ok(Event::Number(Integer::from(value))),
        Simple::Item(value) => Ok(Event::Item(value)),
        Simple::NoBits => Ok(Event::Bits(BitString::new(alloc))),
        Simple::Octets(value) => Ok(Event::Octets(Vec::from_slice(alloc, value)?)),
        Simple::Text(value) => Ok(Event::Text(Vec::from_slice(alloc, value)?)),
    }
}

/// A default without parts.
fn simple_of(alloc: Global, value: Simple) -> Result<DefaultValue, AllocError> {
    Ok(DefaultValue::Simple(event_of(alloc, value)?))
}

/// Defaults without parts.
fn simples(alloc: Global, values: &[Simple]) -> Result<Vec<DefaultValue>, AllocError> {
    let mut all = Vec::new(alloc);
    for value in values {
        all.push(simple_of(alloc, *value)?)?;
    }
    Ok(all)
}

/// A SET OF BOOLEANs.
fn truths(alloc: Global, values: &[bool]) -> Result<DefaultValue, AllocError> {
    let mut all = Vec::new(alloc);
    for value in values {
        all.push(DefaultValue::Simple(Event::Truth(*value)))?;
    }
    Ok(DefaultValue::SetOf(all))
}

/// A value with a first component, which may be absent, and no addition.
fn first(alloc: Global, component: Option<DefaultValue>) -> Result<DefaultValue, AllocError> {
    let mut root = Vec::new(alloc);
    root.push(component)?;
    Ok(DefaultValue::Components(root, Vec::new(alloc)))
}

/// A part of a default, if it is there.
fn given_of(alloc: Global, part: Given) -> Result<Option<DefaultValue>, AllocError> {
    match part {
        Given::Absent => Ok(None),
        Given::Simple(value) => Ok(Some(simple_of(alloc, value)?)),
        Given::First(None) => Ok(Some(first(alloc, None)?)),
        Given::First(Some(value)) => Ok(Some(first(alloc, Some(simple_of(alloc, value)?))?)),
        Given::Truths(values) => Ok(Some(first(alloc, Some(truths(alloc, values)?))?)),
    }
}

/// The parts of a default.
fn all_given(alloc: Global, parts: &[Given]) -> Result<Vec<Option<DefaultValue>>, AllocError> {
    let mut all = Vec::new(alloc);
    for part in parts {
        all.push(given_of(alloc, *part)?)?;
    }
    Ok(all)
}

/// The parts of a default that are there.
fn elements(alloc: Global, parts: &[Given]) -> Result<Vec<DefaultValue>, AllocError> {
    let mut all = Vec::new(alloc);
    for part in parts {
        if let Some(element) = given_of(alloc, *part)? {
            all.push(element)?;
        }
    }
    Ok(all)
}

/// A list of one list.
fn nested_list(alloc: Global, value: Simple) -> Result<DefaultValue, AllocError> {
    let mut outer = Vec::new(alloc);
    outer.push(DefaultValue::SequenceOf(simples(alloc, &[value])?))?;
    Ok(DefaultValue::SequenceOf(outer))
}

/// A value of a CHOICE.
fn chosen(alloc: Global, chosen: Chosen, value: Simple) -> Result<DefaultValue, AllocError> {
    let value = Box::new(alloc, simple_of(alloc, value)?)?;
    Ok(DefaultValue::Choice(chosen, value))
}

/// Components that are there or not.
fn components(
    alloc: Global,
    root: &[Given],
    additions: &[Given],
) -> Result<DefaultValue, AllocError> {
    let root = all_given(alloc, root)?;
    Ok(DefaultValue::Components(root, all_given(alloc, additions)?))
}

/// A default.
fn default_of(alloc: Global, default: Value) -> Result<DefaultValue, AllocError> {
    match default {
        Value::Simple(value) => simple_of(alloc, value),
        Value::List(values) => Ok(DefaultValue::SequenceOf(simples(alloc, values)?)),
        Value::NestedList(value) => nested_list(alloc, value),
        Value::Bag(values) => Ok(DefaultValue::SetOf(elements(alloc, values)?)),
        Value::Root(index, value) => chosen(alloc, Chosen::root(index), value),
        Value::Addition(index, value) => chosen(alloc, Chosen::addition(index), value),
        Value::Components(root, additions) => components(alloc, root, additions),
    }
}

/// Whether a component may be absent.
fn presence_of(alloc: Global, presence: Presence) -> Result<TablePresence, AllocError> {
    match presence {
        Presence::Required => Ok(TablePresence::Required),
        Presence::Optional => Ok(TablePresence::Optional),
        Presence::Default(default) => Ok(TablePresence::Default(default_of(alloc, default)?)),
    }
}

/// Context-specific tags.
fn tags_of(alloc: Global, numbers: &[u32]) -> Result<Vec<Tag>, AllocError> {
    let mut tags = Vec::new(alloc);
    for number in numbers {
        tags.push(Tag::new_context(*number))?;
    }
    Ok(tags)
}

/// A component.
fn component_of(alloc: Global, part: &Part) -> Result<Component, AllocError> {
    let tags = tags_of(alloc, part.0)?;
    Ok(Component {
        tags,
        presence: presence_of(alloc, part.1)?,
        place: part.2,
    })
}

/// Components.
fn components_of(alloc: Global, parts: &[Part]) -> Result<Vec<Component>, AllocError> {
    let mut all = Vec::new(alloc);
    for part in parts {
        all.push(component_of(alloc, part)?)?;
    }
    Ok(all)
}

/// The components of a SEQUENCE or SET.
fn component_table(
    alloc: Global,
    root: &[Part],
    is_extensible: bool,
    additions: &[Part],
) -> Result<ComponentTable, AllocError> {
    let root = components_of(alloc, root)?;
    Ok(ComponentTable {
        root,
        is_extensible,
        additions: components_of(alloc, additions)?,
    })
}

/// Alternatives.
fn alternatives_of(alloc: Global, parts: &[(u32, usize)]) -> Result<Vec<Alternative>, AllocError> {
    let mut all = Vec::new(alloc);
    for (tag, place) in parts {
        all.push(Alternative {
            tag: Tag::new_context(*tag),
            place: *place,
        })?;
    }
    Ok(all)
}

/// The alternatives of a CHOICE.
fn alternative_table(
    alloc: Global,
    root: &[(u32, usize)],
    is_extensible: bool,
    additions: &[(u32, usize)],
) -> Result<AlternativeTable, AllocError> {
    let root = alternatives_of(alloc, root)?;
    Ok(AlternativeTable {
        root,
        is_extensible,
        additions: alternatives_of(alloc, additions)?,
    })
}

/// The items of an ENUMERATED.
fn item_table(
    alloc: Global,
    root: &[isize],
    is_extensible: bool,
    additions: &[isize],
) -> Result<ItemTable, AllocError> {
    let root = Vec::from_slice(alloc, root)?;
    Ok(ItemTable {
        root,
        is_extensible,
        additions: Vec::from_slice(alloc, additions)?,
    })
}

/// A character string, with an alphabet if it has one.
fn string_table(
    alloc: Global,
    kind: StringKind,
    sizes: Sizes,
    alphabet: Option<&[u32]>,
) -> Result<StringTable, AllocError> {
    let alphabet = match alphabet {
        None => None,
        Some(characters) => Some(CharacterTable {
            characters: Vec::from_slice(alloc, characters)?,
            is_extensible: false,
        }),
    };
    Ok(StringTable {
        kind,
        sizes,
        alphabet,
    })
}

/// A type.
fn node_of(alloc: Global, node: &Node) -> Result<TypeNode, AllocError> {
    match *node {
        Node::Boolean => Ok(TypeNode::Boolean),
        Node::Null => Ok(TypeNode::Null),
        Node::Integer(limits) => Ok(TypeNode::Integer(limits)),
        Node::Enumerated(root, is_extensible, additions) => {
            Ok(TypeNode::Enumerated(item_table(alloc, root, is_extensible, additions)?))
        }
        Node::BitString(sizes) => Ok(TypeNode::BitString(sizes)),
        Node::OctetString(sizes) => Ok(TypeNode::OctetString(sizes)),
        Node::CharacterString(kind, sizes, alphabet) => {
            Ok(TypeNode::CharacterString(string_table(alloc, kind, sizes, alphabet)?))
        }
        Node::ObjectIdentifier => Ok(TypeNode::ObjectIdentifier),
        Node::SequenceOf(sizes, place) => Ok(TypeNode::SequenceOf(sizes, place)),
        Node::SetOf(sizes, place) => Ok(TypeNode::SetOf(sizes, place)),
        Node::Sequence(root, is_extensible, additions) => {
            Ok(TypeNode::Sequence(component_table(alloc, root, is_extensible, additions)?))
        }
        Node::Set(root, is_extensible, additions) => {
            Ok(TypeNode::Set(component_table(alloc, root, is_extensible, additions)?))
        }
        Node::Group(parts) => Ok(TypeNode::Group(components_of(alloc, parts)?)),
        Node::Choice(root, is_extensible, additions) => {
            Ok(TypeNode::Choice(alternative_table(alloc, root, is_extensible, additions)?))
        }
    }
}

/// Types, for a table.
pub fn nodes_of(alloc: Global, nodes: &[Node]) -> Result<Vec<TypeNode>, AllocError> {
    let mut all = Vec::new(alloc);
    for node in nodes {
        all.push(node_of(alloc, node)?)?;
    }
    Ok(all)
}

/// Types, and a SEQUENCE with a component of the last one of them and this default.
fn with_default(alloc: Global, nodes: &[Node], value: Value) -> Result<Vec<TypeNode>, AllocError> {
    let part = Part(
        &[0],
        Presence::Default(value),
        nodes.len().saturating_sub(1),
    );
    let table = component_table(alloc, &[part], false, &[])?;
    let mut all = nodes_of(alloc, nodes)?;
    all.push(TypeNode::Sequence(table))?;
    Ok(all)
}

/// What becomes of a table of so many types, unless memory runs out.
fn outcome_of(
    alloc: Global,
    types: Result<Vec<TypeNode>, AllocError>,
    count: usize,
) -> Option<Outcome> {
    match Types::new(alloc, types.ok()?) {
        Ok(types) => (types.nodes().len() == count).then_some(Outcome::Made),
        Err(TableError::Unlawful { place, flaw }) => Some(Outcome::Unlawful(place, flaw)),
        Err(TableError::DefaultNotNormal { place }) => Some(Outcome::NotNormal(place)),
        Err(TableError::OutOfMemory) => None,
    }
}

/// The index of the first row that does not hold.
pub fn first_wrong(alloc: Global, rows: &[Row]) -> Option<usize> {
    rows.iter().position(|row| {
        let types = nodes_of(alloc, row.1);
        outcome_of(alloc, types, row.1.len()) != Some(row.0)
    })
}

/// The first default that is admitted or refused otherwise.
fn wrong_default(alloc: Global, defaults: &Defaults) -> Option<usize> {
    let nodes = defaults.0;
    defaults.1.iter().position(|row| {
        let types = with_default(alloc, nodes, row.1);
        outcome_of(alloc, types, nodes.len().saturating_add(1)) != Some(row.0)
    })
}

/// The index of the first types of which a default is admitted or refused otherwise, and the index of that.
pub fn first_wrong_default(alloc: Global, all: &[Defaults]) -> Option<(usize, usize)> {
    for (index, defaults) in all.iter().enumerate() {
        if let Some(wrong) = wrong_default(alloc, defaults) {
            return Some((index, wrong));
        }
    }
    None
}
