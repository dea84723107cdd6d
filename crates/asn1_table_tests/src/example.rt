//! The example of docs/TABLES.md: a table by hand, a message translated, its value walked, and a value built.
use asn1_relay_core::Codec;
use asn1_schema_constraints::{Bounded, Sizes};
use asn1_schema_tags::Tag;
use asn1_table_building::{StepError, TapeBuilder};
use asn1_table_names::{NamedEvents, Names, Part, Role, TypeNames};
use asn1_table_relay::{decode_oer, encode_oer, recode_by};
use asn1_table_tape::Event;
use asn1_table_types::{Component, ComponentTable, NumberLimits, Presence, TypeNode, Types};
use asn1_values_integers::Integer;
use oer_codec::oer::EncodingRules;
use std::alloc::{AllocError, Global};

/// A component with a context-specific tag.
fn component(
    alloc: Global,
    tag: u32,
    presence: Presence,
    place: usize,
) -> Result<Component, AllocError> {
    Ok(Component {
        tags: Vec::from_array(alloc, [Tag::new_context(tag)])?,
        presence,
        place,
    })
}

/// Record ::= SEQUENCE {a BOOLEAN, b INTEGER (-5..5) OPTIONAL, c SEQUENCE OF BOOLEAN}, at index 3.
fn nodes(alloc: Global) -> Result<Vec<TypeNode>, AllocError> {
    let limits = NumberLimits {
        root: Bounded::const_new(-5, 5),
        is_extensible: false,
    };
    let any = Sizes {
        root: Bounded::None,
        is_extensible: false,
    };
    let components = [
        component(alloc, 0, Presence::Required, 0)?,
        component(alloc, 1, Presence::Optional, 1)?,
        component(alloc, 2, Presence::Required, 2)?,
    ];
    let record = ComponentTable {
        root: Vec::from_array(alloc, components)?,
        is_extensible: false,
        additions: Vec::new(alloc),
    };
    let nodes = [
        TypeNode::Boolean,
        TypeNode::Integer(Some(limits)),
        TypeNode::SequenceOf(any, 0),
        TypeNode::Sequence(record),
    ];
    Ok(Vec::from_array(alloc, nodes)?)
}

/// The types, if they are lawful.
fn table(alloc: Global) -> Option<Types> {
    match nodes(alloc) {
        Ok(nodes) => Types::new(alloc, nodes).ok(),
        Err(_) => None,
    }
}

/// Names that are copied.
fn texts(alloc: Global, names: &[&str]) -> Result<Vec<String>, AllocError> {
    let mut texts = Vec::new(alloc);
    for name in names {
        let text = String::from_str(alloc, name)?;
        texts.push(text)?;
    }
    Ok(texts)
}

/// The names of the Record and its components.
fn naming(alloc: Global) -> Result<TypeNames, AllocError> {
    Ok(TypeNames {
        name: String::from_str(alloc, "Record")?,
        root: texts(alloc, &["a", "b", "c"])?,
        additions: Vec::new(alloc),
        numbers: Vec::new(alloc),
    })
}

/// Names beside the table.
fn names(alloc: Global) -> Result<Names, AllocError> {
    let types = [
        TypeNames::new(alloc),
        TypeNames::new(alloc),
        TypeNames::new(alloc),
        naming(alloc)?,
    ];
    Ok(Names {
        types: Vec::from_array(alloc, types)?,
    })
}

/// {a TRUE, b 3, c {TRUE}}, its components in another order.
fn built(alloc: Global, types: &Types) -> Result<Vec<Event>, StepError> {
    TapeBuilder::new(alloc, types, 3)
        .begin()?
        .component(Part::Root(2))?
        .begin()?
        .flag(true)?
        .end()?
        .component(Part::Root(0))?
        .flag(true)?
        .component(Part::Root(1))?
        .number(Integer::from(3))?
        .end()?
        .finish()
}

/// How many components of the value with which a message begins have a name.
fn count_named(alloc: Global, types: &Types, names: &Names, octets: &[u8]) -> Option<usize> {
    let (tape, _rest) = decode_oer(alloc, types, 3, octets, EncodingRules::Coer).ok()?;
    let mut count: usize = 0;
    for event in NamedEvents::new(alloc, types, names, 3, tape.as_slice()) {
        if let Role::Component(_part, Some(_name)) = event.ok()?.role {
            count = count.checked_add(1)?;
        }
    }
    Some(count)
}

/// {a TRUE, b 3, c {TRUE}} in COER (X.696 16, 10, 17) and in UPER (X.691 19, 13.2, 20).
const OCTETS: [u8; 6] = [0x80, 0xFF, 0x03, 0x01, 0x01, 0xFF];

const PACKED: [u8; 2] = [0xE0, 0x06];

/// The message in UPER.
fn translated(alloc: Global) -> Option<Vec<u8>> {
    let types = table(alloc)?;
    recode_by(alloc, &types, 3, Codec::Coer, Codec::Uper, &OCTETS).ok()
}

/// How many of the message's components have a name.
fn walked(alloc: Global) -> Option<usize> {
    let types = table(alloc)?;
    let names = names(alloc).ok()?;
    count_named(alloc, &types, &names, &OCTETS)
}

/// The octets of the value that is built.
fn written(alloc: Global) -> Option<Vec<u8>> {
    let types = table(alloc)?;
    let tape = built(alloc, &types).ok()?;
    encode_oer(alloc, &types, tape.as_slice()).ok()
}

/// Whether octets were made, and they are these.
fn are(made: Option<Vec<u8>>, octets: &[u8]) -> bool {
    match made {
        Some(made) => made.as_slice() == octets,
        None => false,
    }
}

#[test]
fn translates(rt: HostRuntime) {
    assert!(rt; are(translated(rt.alloc()), &PACKED));
}

#[test]
fn walks(rt: HostRuntime) {
    assert!(rt; walked(rt.alloc()) == Some(3));
}

#[test]
fn builds(rt: HostRuntime) {
    assert!(rt; are(written(rt.alloc()), &OCTETS));
}

/// Whether names are found, and others are not.
fn are_found(types: &Types, names: &Names) -> bool {
    names.find_type("Record") == Some(3)
        && names.find_part(types, 3, "b") == Some(Part::Root(1))
        && names.find_part(types, 3, "d").is_none()
}

/// Whether the names of the table are found.
fn found(alloc: Global) -> Option<bool> {
    let types = table(alloc)?;
    let names = names(alloc).ok()?;
    Some(are_found(&types, &names))
}

#[test]
fn finds_names(rt: HostRuntime) {
    assert!(rt; found(rt.alloc()) == Some(true));
}
