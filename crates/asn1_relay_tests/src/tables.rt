//! Tables of fields, of alternatives and of items, by direct calls.
use crate::assertions::assert_same;
use asn1_relay_types::{Extra, ExtraFields, New, Set};
use asn1_schema_authored::Group;
use asn1_schema_constructed::{Alternatives, Choice, Constructed, Fields};
use asn1_schema_example::answer::Answer;
use asn1_schema_example::colour::Colour;
use asn1_schema_example::control::Control;
use asn1_schema_example::gauge::Gauge;
use asn1_schema_example::grown::Grown;
use asn1_schema_example::measure::{Measure, Zero};
use asn1_schema_example::power::Power;
use asn1_schema_tags::{Chosen, Enumerated, Tag};
use asn1_schema_types::{AsnType, DefaultOf};
use asn1_values_integers::Integer;
use std::test::Fail;

/// The name of the first field in a table.
fn first_name(fields: Fields<'_>) -> Option<&'static str> {
    fields.iter().next().map(|field| field.name)
}

/// A choice without a tag is ordered by the smallest tag of its alternatives (X.680 8.6), and additions are in the
/// order of their declaration.
#[test]
fn fields(rt: HostRuntime) -> Result<(), Fail> {
    let added = Grown::extended_fields().unwrap_or(Fields::from_static(&[]));
    let names = [
        first_name(Control::fields()),
        first_name(Gauge::fields()),
        first_name(added),
    ];
    assert_same(&rt, &names, &[Some("power"), Some("level"), Some("done")]);
    let are_canonical = [
        Control::fields().is_canonical(),
        Gauge::fields().is_canonical(),
        Set::fields().is_canonical(),
        added.is_canonical(),
    ];
    assert_same(&rt, &are_canonical, &[true, true, true, false]);
    let are_extensible = [
        Grown::is_extensible(),
        New::is_extensible(),
        Control::is_extensible(),
    ];
    assert_same(&rt, &are_extensible, &[true, true, false]);
    let grown = Grown::fields();
    let counts = [
        Set::fields().len(),
        added.len(),
        grown.number_of_optional_and_default_fields(),
    ];
    assert_same(&rt, &counts, &[3, 2, 1]);
    assert!(rt; grown.has_required_field() && !grown.is_empty());
    Ok(())
}

#[test]
fn a_number_is_the_default_if_it_is_zero(rt: HostRuntime) -> Result<(), Fail> {
    assert!(rt; Zero::is_default(&Zero::default_value(rt.alloc())?));
    assert!(rt; !Zero::is_default(&Integer::from(1_i64)));
    Ok(())
}

#[test]
fn a_group_is_empty_without_its_component(rt: HostRuntime) {
    let (absent, present) = (ExtraFields { x: None }, ExtraFields { x: Some(0) });
    assert!(rt; Extra::new(absent).is_empty() && !Extra::new(present).is_empty());
}

#[test]
fn alternatives(rt: HostRuntime) {
    let tree = Power::tag_tree();
    assert_same(&rt, &tree.smallest_tag(), &Tag::new_context(1));
    assert_same(&rt, &tree.leaf_position(&Tag::new_context(7)), &Some(1));
    let chosen = [Power::Off.chosen(), Power::On(true).chosen()];
    assert_same(&rt, &chosen, &[Chosen::root(0), Chosen::root(1)]);
    assert!(rt; Power::variants().len() == 2);
}

/// The items of the root are in the order of their values (X.680 20), and those added follow the extension marker.
#[test]
fn items(rt: HostRuntime) {
    let places = [
        Answer::Yes.item_index(),
        Answer::No.item_index(),
        Colour::Blue.item_index(),
    ];
    let wanted = [Chosen::root(1), Chosen::root(0), Chosen::addition(0)];
    assert_same(&rt, &places, &wanted);
    let counts = [Colour::variance(), Colour::extended_variance()];
    assert_same(&rt, &counts, &[2, 1]);
    let numbered = [Colour::from_discriminant(2), Colour::from_discriminant(3)];
    assert_same(&rt, &numbered, &[Some(Colour::Blue), None]);
    let named = [
        Colour::from_identifier("blue"),
        Colour::from_identifier("black"),
    ];
    assert_same(&rt, &named, &[Some(Colour::Blue), None]);
    assert!(rt; Answer::from_discriminant(-1000) == Some(Answer::No));
}
