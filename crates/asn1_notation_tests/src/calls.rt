//! Calls of the rules that no module leads to.
use asn1_notation_constraints::{
    AlphabetError, BoundsError, ConstraintError, ConstraintTerm, Limits, Visible, characters,
    effective, number_limits, size_limits,
};
use asn1_notation_intervals::Interval;
use asn1_notation_rules::{
    OrderError, TagDefault, TagNotation, Tagging, applied_tagging, canonical_order, root_numbers,
};
use asn1_schema_constraints::Bounded;
use asn1_schema_tags::Tag;
use std::alloc::{AllocError, Global};

/// Whether an ENUMERATED without items has no numbers.
fn has_no_numbers(alloc: Global) -> bool {
    match root_numbers(alloc, &[]) {
        Ok(numbers) => numbers.is_empty(),
        Err(_) => false,
    }
}

#[test]
fn no_items(rt: HostRuntime) {
    assert!(rt; has_no_numbers(rt.alloc()));
}

// Whether a tag is explicit leaves no trace in PER and OER.
#[test]
fn explicit_and_implicit(rt: HostRuntime) {
    let plain = TagNotation::Plain;
    assert!(rt; applied_tagging(TagDefault::Automatic, plain, false) == Some(Tagging::Implicit));
    assert!(rt; applied_tagging(TagDefault::Automatic, plain, true) == Some(Tagging::Explicit));
    assert!(rt; applied_tagging(TagDefault::Explicit, plain, false) == Some(Tagging::Explicit));
    let implicit = TagNotation::Implicit;
    assert!(rt; applied_tagging(TagDefault::Explicit, implicit, false) == Some(Tagging::Implicit));
    assert!(rt; applied_tagging(TagDefault::Implicit, implicit, true).is_none());
    let explicit = TagNotation::Explicit;
    assert!(rt; applied_tagging(TagDefault::Implicit, explicit, false) == Some(Tagging::Explicit));
}

/// Whether two of these tags are the same.
fn are_same(alloc: Global, tags: &[Tag], first: usize, second: usize) -> bool {
    match canonical_order(alloc, tags) {
        Ok(_) => false,
        Err(error) => error == OrderError::TagTwice { first, second },
    }
}

#[test]
fn order_of_tags(rt: HostRuntime) {
    let twice = [Tag::new_context(5), Tag::BOOL, Tag::new_context(5)];
    assert!(rt; are_same(rt.alloc(), &twice, 0, 2));
}

/// The numbers from one, or any, to another.
fn up_to(low: Option<i128>, high: i128) -> ConstraintTerm {
    ConstraintTerm::Range(Interval {
        low,
        high: Some(high),
    })
}

/// A part with an extension marker.
fn marked(root: usize) -> ConstraintTerm {
    ConstraintTerm::Extensible {
        root,
        additions: None,
    }
}

/// What is seen of constraints.
fn seen(alloc: Global, terms: &[ConstraintTerm], constraints: &[usize]) -> Option<Visible> {
    effective(alloc, terms, constraints).ok()
}

/// Whether the bounds of a constraint are 0 and 10, without an extension marker.
fn are_limits(visible: Option<Visible>) -> bool {
    let wanted = Limits {
        root: Bounded::const_new(0, 10),
        is_extensible: false,
    };
    match visible {
        Some(visible) => number_limits(&visible) == Ok(Some(wanted)),
        None => false,
    }
}

/// Whether a constraint gives no bounds.
fn are_none(visible: Option<Visible>) -> bool {
    match visible {
        Some(visible) => number_limits(&visible) == Ok(None),
        None => false,
    }
}

// A part that is not visible leaves an intersection as it is, and hides a union; EXCEPT is ignored.
#[test]
fn visibility(rt: HostRuntime) -> Result<(), AllocError> {
    let alloc = rt.alloc();
    let terms = [
        up_to(Some(0), 10),
        ConstraintTerm::Hidden,
        ConstraintTerm::Intersection(Vec::from_array(alloc, [0, 1])?),
        ConstraintTerm::Union(Vec::from_array(alloc, [0, 1])?),
        ConstraintTerm::Except(0, 1),
        ConstraintTerm::AllExcept(0),
        marked(0),
    ];
    assert!(rt; are_limits(seen(alloc, &terms, &[2])));
    assert!(rt; are_none(seen(alloc, &terms, &[3])));
    assert!(rt; are_limits(seen(alloc, &terms, &[4])));
    assert!(rt; are_none(seen(alloc, &terms, &[5])));
    assert!(rt; are_limits(seen(alloc, &terms, &[6, 1])));
    assert!(rt; are_none(seen(alloc, &terms, &[1])));
    Ok(())
}

/// Whether constraints are refused.
fn is_refused(
    alloc: Global,
    terms: &[ConstraintTerm],
    constraints: &[usize],
    wanted: ConstraintError,
) -> bool {
    match effective(alloc, terms, constraints) {
        Ok(_) => false,
        Err(error) => error == wanted,
    }
}

/// Whether a constraint admits no number.
fn is_empty(visible: Option<Visible>) -> bool {
    match visible {
        Some(visible) => number_limits(&visible) == Err(BoundsError::Empty),
        None => false,
    }
}

#[test]
fn wrong_constraints(rt: HostRuntime) {
    let alloc = rt.alloc();
    let late = ConstraintError::PartOutOfPlace(1);
    assert!(rt; is_refused(alloc, &[up_to(Some(0), 1), marked(1)], &[1], late));
    let missing = ConstraintError::PartMissing(1);
    assert!(rt; is_refused(alloc, &[up_to(Some(0), 1)], &[0, 1], missing));
    let terms = [up_to(Some(0), 4), up_to(Some(5), 9), up_to(Some(9), 5)];
    assert!(rt; is_empty(seen(alloc, &terms, &[0, 1])));
    assert!(rt; is_empty(seen(alloc, &terms, &[2])));
}

/// Whether a constraint gives no sizes.
fn are_no_sizes(alloc: Global, term: ConstraintTerm, wanted: BoundsError) -> bool {
    match effective(alloc, &[term], &[0]) {
        Ok(visible) => size_limits(alloc, &visible) == Err(wanted),
        Err(_) => false,
    }
}

#[test]
fn no_sizes(rt: HostRuntime) {
    let alloc = rt.alloc();
    assert!(rt; are_no_sizes(alloc, up_to(Some(5), 1 << 64), BoundsError::TooLarge));
    assert!(rt; are_no_sizes(alloc, up_to(None, -1), BoundsError::Empty));
}

/// Whether a constraint gives no alphabet of at most 5 characters.
fn is_no_alphabet(alloc: Global, term: ConstraintTerm, wanted: AlphabetError) -> bool {
    match effective(alloc, &[term], &[0]) {
        Ok(visible) => match characters(alloc, &visible.numbers, 5) {
            Ok(_) => false,
            Err(error) => error == wanted,
        },
        Err(_) => false,
    }
}

// ("a".."f") has six characters.
#[test]
fn no_alphabets(rt: HostRuntime) {
    let alloc = rt.alloc();
    assert!(rt; is_no_alphabet(alloc, up_to(Some(97), 102), AlphabetError::TooMany));
    assert!(rt; is_no_alphabet(alloc, up_to(None, 97), AlphabetError::NoCharacter));
}
