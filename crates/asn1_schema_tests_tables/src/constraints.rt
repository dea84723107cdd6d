//! Bounds and constraints: rows, how they are printed, and each call once.
use crate::common::{assert_none, is_told};
use asn1_schema::{
    Bounded, Constraint, ConstraintDiscriminant, Constraints, Effective, Extensible, NativeBounds,
    PermittedAlphabet, Size, Value,
};
use asn1_values_integers::Integer;
use std::alloc::Global;

/// Bounds of numbers, whether these are signed, and their fixed number of octets, if there is one.
fn widths() -> [(Bounded<i128>, bool, Option<u8>); 7] {
    [
        (Bounded::const_new(-5, 5), true, Some(1)),
        (Bounded::const_new(256, 1234567), false, Some(4)),
        (Bounded::start_from(0), false, None),
        (Bounded::up_to(5), true, None),
        (Bounded::Single(-129), true, Some(2)),
        (Bounded::const_new(0, 18446744073709551616), false, None),
        (Bounded::None, true, None),
    ]
}

/// The bounds that are not as their row says, if there are any.
fn wrong_width() -> Option<Bounded<i128>> {
    for (bounds, has_sign, octets) in widths() {
        if bounds.range_in_bytes() != (has_sign, octets) {
            return Some(bounds);
        }
    }
    None
}

/// The bounds with these ends.
fn range(start: Option<i128>, end: Option<i128>) -> Bounded<i128> {
    Bounded::Range { start, end }
}

/// Whether bounds are made from their ends.
fn are_made() -> bool {
    Bounded::const_new(-5, 5) == range(Some(-5), Some(5))
        && Bounded::start_from(0) == range(Some(0), None)
        && Bounded::up_to(5) == range(None, Some(5))
        && Bounded::<i128>::single_value(-129) == Bounded::Single(-129)
}

/// Whether numbers from -5 to 5 are within their bounds, and bounds are intersected.
fn are_numbers_within(bounds: Bounded<i128>) -> bool {
    bounds.in_bound(&5u8)
        && !bounds.contains(&6)
        && bounds.in_bound(&Integer::from_i128(-5))
        && !bounds.in_bound(&u128::MAX)
        && Bounded::<i128>::start_from(6).in_bound(&u128::MAX)
        && bounds.minimum() == -5
        && Bounded::<i128>::up_to(3).minimum() == 0
        && bounds.intersect(Bounded::start_from(6)) == None
        && bounds.intersect(Bounded::start_from(1)) == Some(Bounded::const_new(1, 5))
        && Bounded::<i128>::single_value(3).effective_value(3) == Effective::Plain(3)
        && bounds.range() == Some(11)
        && Bounded::<i128>::const_new(i128::MIN, i128::MAX).range() == None
}

/// Whether counts from 3 to 6 are within their bounds.
fn are_counts_within(bounds: Bounded<usize>) -> bool {
    bounds.contains(&6)
        && !bounds.contains(&2)
        && bounds.range() == Some(4)
        && bounds.minimum() == 3
        && bounds.intersect(Bounded::up_to(2)) == None
}

/// Whether octets from 3 to 255 are within their bounds.
fn are_octets_within(bounds: Bounded<u8>) -> bool {
    bounds.contains(&255)
        && !bounds.contains(&2)
        && bounds.range() == Some(253)
        && bounds.minimum() == 3
        && bounds.intersect(Bounded::up_to(2)) == None
        && bounds.intersect(Bounded::up_to(5)) == Some(Bounded::const_new(3, 5))
        && Bounded::<u8>::start_from(3).effective_value(7) == Effective::Offset(4)
        && Bounded::<u8>::up_to(7).effective_value(7) == Effective::Plain(7)
}

/// Whether the numbers within bounds are counted if their type holds the count.
fn are_counted() -> bool {
    Bounded::<u8>::const_new(0, 255).range() == None
        && Bounded::<i8>::const_new(-128, 127).range() == None
        && Bounded::<i8>::const_new(-64, 62).range() == Some(127)
        && Bounded::<u16>::const_new(5, 4).range() == Some(0)
        && Bounded::<u32>::const_new(5, 3).range() == None
        && Bounded::<i32>::const_new(5, 3).range() == Some(-1)
        && Bounded::<u64>::up_to(5).range() == None
        && Bounded::<u128>::const_new(1, u128::MAX).range() == Some(u128::MAX)
        && Bounded::<u128>::const_new(0, u128::MAX).range() == None
        && Bounded::<isize>::up_to(-5).minimum() == 0
}

/// Whether bounds are printed.
fn are_shown(alloc: Global) -> bool {
    is_told(alloc, &Bounded::<i128>::const_new(-5, 5), "-5..5")
        && is_told(alloc, &Bounded::<usize>::start_from(3), "3..")
        && is_told(alloc, &Bounded::<usize>::up_to(3), "..3")
        && is_told(alloc, &Bounded::<usize>::single_value(3), "3")
        && is_told(alloc, &Bounded::<usize>::None, "..")
}

#[test]
fn bounds(rt: HostRuntime) {
    assert_none(&rt, &wrong_width());
    assert!(rt; are_made() && are_numbers_within(Bounded::const_new(-5, 5)));
    assert!(rt; are_counts_within(Bounded::const_new(3, 6)) && are_shown(rt.alloc()));
    assert!(rt; are_octets_within(Bounded::const_new(3, 255)) && are_counted());
}

/// The value constraint from one number to another.
fn from_to(start: i128, end: i128) -> Value {
    Value::new(Bounded::const_new(start, end))
}

/// Whether two constraints of a kind are intersected, and the forms of numbers are right.
fn are_met() -> bool {
    let small = from_to(-5, 5);
    let large = from_to(256, 1234567);
    from_to(0, 10).intersect(&from_to(5, 20)) == from_to(5, 10)
        && Size::new(Bounded::const_new(3, 6)).intersect(&Size::fixed(5)) == Size::fixed(5)
        && small.get_sign()
        && small.get_range() == Some(1)
        && !large.get_sign()
        && large.get_range() == Some(4)
        && large.contains(&256)
}

/// Whether sizes are fixed or ranges, and are changed.
fn are_sizes() -> bool {
    let mut size = Size::fixed(5);
    let was_fixed = size.is_fixed() && !size.is_range();
    *size = Bounded::const_new(1, 3);
    was_fixed
        && Size::new(Bounded::const_new(5, 5)).is_fixed()
        && Size::new(Bounded::start_from(5)).is_range()
        && !Size::new(Bounded::None).is_range()
        && size == Size::new(Bounded::const_new(1, 3))
}

/// Whether a list of constraints has a constraint of each kind.
fn are_listed(all: Constraints<'_>) -> bool {
    matches!(all.value(), Some(value) if value.constraint == from_to(5, 10))
        && matches!(all.size(), Some(size) if size.constraint == Size::fixed(2))
        && matches!(all.permitted_alphabet(), Some(digits) if digits.constraint.as_inner().len() == 2)
        && all.extensible()
}

/// Whether lists of constraints are made.
fn lists_are_made() -> bool {
    let digits = [48, 49];
    let extensible = Extensible::from(from_to(5, 20)).set_extensible(true);
    let all = Constraints::new(&[
        Constraint::from(from_to(0, 10)),
        Constraint::from(Size::fixed(2)),
        Constraint::from(PermittedAlphabet::new(&digits)),
        Constraint::from(extensible),
    ]);
    are_listed(all)
        && !Constraints::default().extensible()
        && Constraints::new(&[Constraint::Extensible]).extensible()
}

/// Whether constraints have their kinds.
fn are_of_kinds(value: Constraint<'_>, size: Constraint<'_>, alphabet: Constraint<'_>) -> bool {
    value.kind() == ConstraintDiscriminant::Value
        && value.kind() != size.kind()
        && value.variant_as_isize() == 0
        && size.variant_as_isize() == 1
        && alphabet.variant_as_isize() == 2
        && Constraint::Extensible.variant_as_isize() == 3
        && matches!(value.as_value(), Some(found) if found.constraint == from_to(0, 10))
        && value.to_value().is_some()
        && value.to_size().is_none()
        && size.to_size().is_some()
        && matches!(alphabet.as_permitted_alphabet(), Some(found) if found.constraint.as_inner().len() == 2)
        && Constraint::Extensible.is_extensible()
        && !size.is_extensible()
}

/// Whether they have these kinds.
fn kinds_are_told() -> bool {
    let letters = [97, 98];
    let value = Constraint::from(from_to(0, 10));
    let size = Constraint::from(Extensible::from(Size::fixed(2)));
    let alphabet = Constraint::from(Extensible::from(PermittedAlphabet::new(&letters)));
    are_of_kinds(value, size, alphabet)
}

/// Whether an extension marker of either of two constraints is kept, with what follows it.
fn a_marker_stands() -> bool {
    let further = [Value::new(Bounded::single_value(20))];
    let open = Extensible::new_extensible(from_to(0, 10), &further);
    let closed = open.extensible_with_constraints(None);
    let opened = Constraints::from(Constraint::from(open));
    let shut = Constraints::from(Constraint::from(closed));
    shut.intersect(opened).extensible()
        && opened.intersect(shut).extensible()
        && !shut.intersect(shut).extensible()
        && opened.intersect(Constraints::NONE) == opened
        && matches!(opened.value(), Some(value) if matches!(value.extensible, Some(more) if more.len() == 1))
}

#[test]
fn constraints(rt: HostRuntime) {
    assert!(rt; are_met() && are_sizes() && lists_are_made());
    assert!(rt; kinds_are_told() && a_marker_stands());
}

/// Whether bounds of native numbers become bounds of integers.
fn are_native_bounds() -> bool {
    let wanted = from_to(5, 10);
    Value::from(Bounded::<u8>::const_new(5, 10)) == wanted
        && Value::from(Bounded::<u16>::const_new(5, 10)) == wanted
        && Value::from(Bounded::<u32>::const_new(5, 10)) == wanted
        && Value::from(Bounded::<i8>::const_new(5, 10)) == wanted
        && Value::from(Bounded::<i16>::const_new(5, 10)) == wanted
        && Value::from(Bounded::<i32>::const_new(5, 10)) == wanted
        && Value::from(Bounded::<isize>::const_new(5, 10)) == wanted
        && Value::from(Bounded::<i128>::const_new(5, 10)) == wanted
        && Value::from(Bounded::single_value(u64::MAX))
            == Value::new(Bounded::Single(18446744073709551615))
        && Value::from(Bounded::start_from(i64::MIN))
            == Value::new(Bounded::start_from(-9223372036854775808))
        && Value::from(Bounded::<u8>::None) == Value::new(Bounded::None)
}

/// Whether a conversion has made this value constraint.
fn is_made<E: Drop>(answer: Result<Value, E>, wanted: Bounded<i128>) -> bool {
    matches!(answer, Ok(value) if value.value == wanted)
}

/// Whether bounds of counts and of wide numbers become bounds of integers, or an error.
fn are_wide_bounds() -> bool {
    is_made(
        Value::try_from(Bounded::<usize>::up_to(usize::MAX)),
        Bounded::up_to(18446744073709551615),
    ) && is_made(
        Value::try_from(Bounded::<u128>::start_from(3)),
        Bounded::start_from(3),
    ) && is_made(
        Value::try_from(Bounded::<u128>::single_value(i128::MAX as u128)),
        Bounded::Single(i128::MAX),
    ) && Value::try_from(Bounded::<u128>::const_new(0, u128::MAX)).is_err()
        && Value::try_from(Bounded::single_value(1u128 << 127)).is_err()
}

#[test]
fn bounds_of_other_numbers(rt: HostRuntime) {
    assert!(rt; are_native_bounds() && are_wide_bounds());
}
