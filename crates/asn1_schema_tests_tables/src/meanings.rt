//! Equality by meaning, through its trait bound; and values under tags, open values, and values that validate their
//! components.
ghost use Rattle.std.specs.Prelude.{◌≡◌, ◌%◌, None, IfOk, IfErr, OnErr, codes};

use asn1_schema::tag::{self, Context};
use asn1_schema::{
    Any, CodecKind, EqualByMeaning, Explicit, Implicit, InnerSubtypeConstraint,
    InnerSubtypeConstraintError, InstanceOf, Open, SequenceOf, UniversalString,
};
use asn1_values_identifiers::ObjectIdentifier;
use asn1_values_integers::ConstrainedInteger;
use std::alloc::{AllocError, Global};
use std::borrow::{Cow, CowSlice, CowStr};
use std::marker::PhantomData;

/// Whether a value means the same as one, and not the same as another.
fn means<T: EqualByMeaning>(value: &T, same: &T, other: &T) -> bool {
    value.means_same(same) && !value.means_same(other)
}

/// Whether lists are compared.
fn are_lists_compared(alloc: Global) -> Result<bool, AllocError> {
    let one = vec![in alloc; true, false]?;
    let other = vec![in alloc; true, true]?;
    Ok(means(&one, &one, &other))
}

/// Whether values in boxes are compared.
fn are_boxes_compared(alloc: Global) -> Result<bool, AllocError> {
    let one = Box::new(alloc, 3_u8)?;
    let other = Box::new(alloc, 4_u8)?;
    Ok(means(&one, &one, &other))
}

type Small = ConstrainedInteger<-5, 5>;

/// Whether numbers within a range are compared, and copies of them.
fn are_small_compared(least: &Small, greatest: &Small) -> bool {
    match least.clone() {
        Ok(copy) => means(least, &copy, greatest),
        Err(AllocError) => false,
    }
}

/// Whether -5 and 5 are compared so.
fn are_ends_compared() -> bool {
    let Ok(least) = Small::try_from(-5_i32) else {
        return false;
    };
    match Small::try_from(5_i64) {
        Ok(greatest) => are_small_compared(&least, &greatest),
        Err(_) => false,
    }
}

/// Whether NULL, markers, arrays, and borrowed values and lists are compared.
fn are_lent_compared() -> bool {
    let marker: PhantomData<bool> = PhantomData;
    let some: &[u8] = &[1, 2];
    let more: &[u8] = &[1, 2, 3];
    marker.means_same(&PhantomData)
        && ().means_same(&())
        && means(&[1_u8, 2], &[1, 2], &[2, 1])
        && means(&&7_u8, &&7, &&8)
        && means(&"abc", &"abc", &"abd")
        && means(&some, &&more[..2], &more)
}

/// Whether values under an implicit tag, and with an explicit tag, are compared.
fn are_tagged_compared() -> bool {
    let implicit = Implicit::<Context<0>, u8>::new(3);
    let explicit = Explicit::<Context<0>, bool>::new(true);
    means(&implicit, &implicit, &Implicit::new(4))
        && means(&explicit, &explicit, &Explicit::new(false))
}

/// Whether a borrowed list is compared with an owned one.
fn are_mixed_lists_compared(alloc: Global) -> Result<bool, AllocError> {
    let octets: [u8; 2] = [1, 2];
    let held: CowSlice<'_, u8, Global> = CowSlice::Owned(vec![in alloc; 1_u8, 2]?);
    Ok(means(
        &CowSlice::Borrowed(&octets),
        &held,
        &CowSlice::Borrowed(&octets[..1]),
    ))
}

/// Whether a borrowed text is compared with an owned one.
fn are_mixed_texts_compared(alloc: Global) -> Result<bool, AllocError> {
    let held: CowStr<'_, Global> = CowStr::Owned(String::from_str(alloc, "abc")?);
    Ok(means(&CowStr::Borrowed("abc"), &held, &CowStr::Borrowed("ab")))
}

/// Whether borrowed values are compared with owned ones.
fn are_mixed_compared(alloc: Global) -> Result<bool, AllocError> {
    let are_numbers = means(&Cow::Borrowed(&7_u8), &Cow::Owned(7), &Cow::Owned(8));
    Ok(are_numbers && are_mixed_lists_compared(alloc)? && are_mixed_texts_compared(alloc)?)
}

/// These octets as an open value.
fn any_of(alloc: Global, octets: &[u8]) -> Result<Any, AllocError> {
    let octets: SequenceOf<u8> = Vec::from_slice(alloc, octets)?;
    Ok(Any::new(octets))
}

/// Whether an open value has the octets 2 and 1, and is compared with a copy and with others.
fn is_any_compared(any: &Any, other: &Any) -> Result<bool, AllocError> {
    let copy = any.clone()?;
    Ok(any.as_bytes() == [2, 1].as_slice() && copy == *any && means(any, &copy, other))
}

/// Whether open values are compared.
fn are_any_compared(alloc: Global) -> Result<bool, AllocError> {
    let any = any_of(alloc, &[2, 1])?;
    let other = any_of(alloc, &[1])?;
    is_any_compared(&any, &other)
}

/// Whether the octets taken out of an open value are those that it was made from.
fn is_any_handed_over(alloc: Global) -> Result<bool, AllocError> {
    let again = Any::from(any_of(alloc, &[2, 1])?.into_bytes());
    Ok(again.into_bytes().as_slice() == [2, 1].as_slice())
}

#[test]
fn equality_by_meaning(rt: HostRuntime) {
    let alloc = rt.alloc();
    assert!(rt; are_lists_compared(alloc) == Ok(true) && are_boxes_compared(alloc) == Ok(true));
    assert!(rt; are_ends_compared() && are_lent_compared() && are_tagged_compared());
    assert!(rt; are_mixed_compared(alloc) == Ok(true) && are_any_compared(alloc) == Ok(true));
    assert!(rt; is_any_handed_over(alloc) == Ok(true));
}

/// Whether values are under another tag, and are changed there.
fn are_under_tags() -> Result<bool, AllocError> {
    let mut one = Implicit::<tag::Context<1>, u8>::new(5);
    let was = *one;
    *one = 6;
    let mut two: Explicit<tag::BOOL, bool> = true.into();
    let was_true = *two;
    *two = false;
    let three = two.clone()?;
    Ok(
        was == 5
            && one.value == 6
            && one == Implicit::from(6)
            && one != Implicit::from(7)
            && was_true
            && two == Explicit::new(false)
            && three == two,
    )
}

/// Whether a copy of an open value is equal to it, and not to NULL.
fn is_copied(open: &Open) -> Result<bool, AllocError> {
    let copy = open.clone()?;
    Ok(copy == *open && copy != Open::Null)
}

/// Whether open values are compared by their types.
fn are_open_compared(alloc: Global) -> Result<bool, AllocError> {
    let type_id = ObjectIdentifier::new_unchecked(CowSlice::Borrowed(&[1, 2, 3321]));
    let value = Open::Bool(true);
    let instance = Open::InstanceOf(Box::new(alloc, InstanceOf { type_id, value })?);
    Ok(is_copied(&instance)? && Open::Bool(true) != Open::Bool(false))
}

/// Whether a universal string holds its text.
fn is_held(alloc: Global) -> Result<bool, AllocError> {
    let text = UniversalString::new(String::from_str(alloc, "aé")?);
    Ok(text.as_str() == "aé")
}

/// An even number.
#[derive(Clone, Copy, Debug, PartialEq, Eq)]
struct Even(u8);

impl InnerSubtypeConstraint for Even {
    ghost validates = { λ even codec answer.
        IfOk answer (λ x. (x ≡ even) × (even.0 % 2 ≡ 0) × (codec ≡ None))
        × IfErr answer (λ e. e.component.now ≡ codes "even")
        × OnErr answer (even.0 % 2 ≡ 0 → codec ≡ None → ⊥) };

    fn validate_and_decode_containing(
        self,
        codec: Option<CodecKind>,
    ) -> Result<Self, InnerSubtypeConstraintError> {
        if self.0 % 2 == 0 && codec.is_none() {
            Ok(self)
        } else {
            Err(InnerSubtypeConstraintError { component: "even" })
        }
    }
}

/// Whether components are validated.
fn are_validated() -> bool {
    let odd = InnerSubtypeConstraintError { component: "even" };
    Even(2).validate_components() == Ok(Even(2))
        && Even(3).validate_components() == Err(odd)
        && Even(2).validate_and_decode_containing(Some(CodecKind::Oer)) == Err(odd)
}

#[test]
fn values_around_others(rt: HostRuntime) {
    assert!(rt; are_under_tags() == Ok(true) && are_validated());
    assert!(rt; are_open_compared(rt.alloc()) == Ok(true) && is_held(rt.alloc()) == Ok(true));
}
