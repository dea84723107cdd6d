//! Names of numbers, which no text has, and a type outside its table.
use asn1_relay_core::Codec;
use asn1_table_building::{BuildError, build};
use asn1_table_names::{NamedNumber, Names, TypeNames};
use asn1_table_relay::recode_by;
use asn1_table_tape::Event;
use asn1_table_types::Types;
use asn1_values_integers::Integer;
use std::alloc::{AllocError, Global};

/// INTEGER {one(1)}.
fn numbers(alloc: Global) -> Result<Names, AllocError> {
    let mut integer = TypeNames::new(alloc);
    integer.numbers.push(NamedNumber {
        name: String::from_str(alloc, "one")?,
        number: Integer::from(1),
    })?;
    Ok(Names {
        types: Vec::from_array(alloc, [integer])?,
    })
}

/// Whether 1 has the name, and 2 has none.
fn are_found(names: &Names) -> bool {
    names.number_name(0, &Integer::from(1)) == Some("one")
        && names.number_name(0, &Integer::from(2)).is_none()
        && names.find_number(0, "one").is_some()
}

#[test]
fn names_of_numbers(rt: HostRuntime) {
    let are_found = match numbers(rt.alloc()) {
        Ok(names) => are_found(&names),
        Err(_) => false,
    };
    assert!(rt; are_found);
}

/// Why TRUE is no value of the type at index 9 of an empty table.
fn refused(alloc: Global) -> Option<BuildError> {
    let types = Types::new(alloc, Vec::new(alloc)).ok()?;
    build(alloc, &types, 9, &[Event::Flag(true)]).err()
}

#[test]
fn a_type_outside_its_table(rt: HostRuntime) {
    assert!(rt; refused(rt.alloc()) == Some(BuildError::OutOfPlace { index: 0 }));
}

/// Whether an octet is refused as a message of the type at index 9 of an empty table.
fn is_no_message(alloc: Global) -> bool {
    match Types::new(alloc, Vec::new(alloc)) {
        Ok(types) => recode_by(alloc, &types, 9, Codec::Coer, Codec::Uper, &[0xFF]).is_err(),
        Err(_) => false,
    }
}

#[test]
fn a_message_outside_a_table(rt: HostRuntime) {
    assert!(rt; is_no_message(rt.alloc()));
}
