//! Calls on values and on the schema that take no memory.
use asn1_relay_types::Nest;
use asn1_schema::{
    Alternatives, Bounded, Constraint, Constraints, Effective, Extensible, Field, Fields, Size,
    Tag, TagProbe, TagTree, Value, find_place, is_place_table, tagged,
};
use asn1_values::{BitReader, BitStr, Integer, IntegerType};
use std::alloc::Global;
use std::ops::DerefSlice;

/// Whether bits are read one by one, as numbers and as octets, which are borrowed.
fn is_read(alloc: Global, reader: &mut BitReader<'_>) -> bool {
    reader.len() == 24
        && reader.octets(alloc).is_ok()
        && reader.aligned_octets() == Some(&[0xBF, 0xEF, 0xF0])
        && matches!(reader.split(3), Ok(front) if front.len() == 3 && front.first_bits(3) == 5)
        && matches!(reader.split(8), Ok(octet) if octet.len() == 8)
        && matches!(reader.split(14), Err(1))
        && reader.len() == 13
}

/// Whether views of bits are counted, inspected and split.
fn are_bits(alloc: Global) -> bool {
    let octets = [0xBF, 0xEF, 0xF0];
    let bits = BitStr::from_slice(&octets);
    let mut reader = BitReader::from_octets(&octets);
    let (first, others) = bits.split_at(3);
    is_read(alloc, &mut reader)
        && BitReader::new(first).first_bit()
        && BitReader::new(bits).first_bits(3) == 5
        && BitReader::new(bits).first_u128(24) == 0xBFEFF0
        && BitReader::new(bits).bits() == bits
        && bits.get(1) == Some(false)
        && others.len() == 21
        && BitStr::new().is_empty()
        && BitStr::from_bitslice(bits) == bits
}

/// Whether numbers are borrowed as octets.
fn are_octets() -> bool {
    Integer::from(300).to_signed_bytes_be().deref() == [0x01, 0x2C].as_slice()
        && 200u8.to_signed_bytes_be().deref() == [0x00, 0xC8].as_slice()
        && 200u8.to_unsigned_bytes_be().deref() == [0xC8].as_slice()
}

const FIRST: Tag = tagged!(Context, 1);

const THIRD: Tag = tagged!(Context, 3);

const TREES: [TagTree<'static>; 2] = [TagTree::Leaf(THIRD), TagTree::Leaf(FIRST)];

/// Whether tags are made, ordered and found in a tree.
fn are_tags() -> bool {
    let tree = TagTree::Choice(&TREES);
    Tag::new_context(1) == FIRST
        && FIRST.const_less_than(THIRD)
        && FIRST.set_value(3).const_eq(&THIRD)
        && tree.smallest_tag() == FIRST
        && tree.is_unique()
        && tree.leaf_count() == Some(2)
        && tree.leaf_at(0) == Some(THIRD)
        && TagTree::tag_contains(&THIRD, &TREES)
        && TagTree::empty() != tree
}

/// Whether enumeration and choice indexes are listed, and a tag is looked up among them.
fn are_places() -> bool {
    let places = Nest::places();
    if !is_place_table(places, Nest::variants(), &[]) {
        return false;
    }
    let mut probe = TagProbe::new(places);
    let found = find_place(&mut probe, FIRST);
    found == Some(1) && probe.count() <= 2 && probe.len() == 2
}

/// Whether bounds, sizes and values are made, read and satisfied.
fn are_bounds() -> bool {
    let value = Value::new(Bounded::const_new(0, 10));
    let size = Size::fixed(5);
    Bounded::<i128>::const_new(-5, 5).range() == Some(11)
        && Bounded::<i128>::const_new(-5, 5).range_in_bytes() == (true, Some(1))
        && Bounded::<i128>::Single(3).effective_value(3) == Effective::Plain(3)
        && Bounded::<usize>::up_to(3).contains(&3)
        && value.get_range() == Some(1)
        && value.intersect(&value) == value
        && size.is_fixed()
        && size.intersect(&size) == size
}

/// Whether lists of constraints are made and joined.
fn are_constraints() -> bool {
    let value = Constraint::from(Value::new(Bounded::const_new(0, 10)));
    let size = Constraint::from(Extensible::from(Size::fixed(5)).set_extensible(true));
    let both = Constraints::new(&[value, size]);
    both.extensible()
        && both.value().is_some()
        && both.size().is_some()
        && both.permitted_alphabet().is_none()
        && both.intersect(Constraints::NONE) == both
        && Constraints::from(value).intersect(both).extensible()
}

/// Whether a table of two fields is counted and checked.
fn are_fields() -> bool {
    let fields = [
        Field::new_required(0, FIRST, TagTree::Leaf(FIRST), "first"),
        Field::new_optional_type::<bool>(1, "second"),
    ];
    let table = Fields::from_static(&fields);
    table.len() == 2
        && table.number_of_optional_and_default_fields() == 1
        && table.has_required_field()
        && !table.is_canonical()
        && table.iter().count() == 2
        && table.optional_and_default_fields().count() == 1
}

/// The first kind of values whose calls are not right, if there is one.
pub fn wrong_values(alloc: Global) -> Option<&'static str> {
    let found = [
        ("bits", are_bits(alloc)),
        ("octets", are_octets()),
        ("tags", are_tags()),
        ("places", are_places()),
        ("bounds", are_bounds()),
        ("constraints", are_constraints()),
        ("fields", are_fields()),
    ];
    for (name, is_right) in found {
        if !is_right {
            return Some(name);
        }
    }
    None
}
