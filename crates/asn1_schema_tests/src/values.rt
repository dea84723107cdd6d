//! Values of each type, written to the encoder that keeps records, and read back.
use crate::common::{
    Wanted, decoder, encoder, found, is_kept, is_number, is_read_back_as, is_refused, is_written,
    is_written_under, read_back, write,
};
use crate::pair::Pair;
use crate::up_to_ten::UpToTen;
use asn1_schema::records::RecordDecoder;
use asn1_schema::{
    Any, AsnType, Bounded, CodecKind, Constrained, Constraints, Decode, DecodeError, Decoder,
    Encode, EncodeError, Encoder, Explicit, Extensible, Implicit, InstanceOf, Tag, Value, tag,
};
use asn1_schema_example::chain::Chain;
use asn1_values_bit_strings::FixedBitString;
use asn1_values_bits::BitStr;
use asn1_values_identifiers::{ObjectIdentifier, Oid};
use asn1_values_integers::{ConstrainedInteger, Integer};
use asn1_values_octets::FixedOctetString;
use asn1_values_strings::{BmpString, VisibleString};
use std::alloc::{AllocError, Global};
use std::borrow::{Cow, CowSlice, CowStr};
use std::marker::PhantomData;

/// Whether numbers of a type are written with the bounds of the type, and read back.
fn are_numbers<T: Encode + Decode + PartialEq + Copy + Into<Integer>>(
    alloc: Global,
    low: i128,
    high: i128,
    numbers: &[T],
) -> bool {
    for number in numbers {
        let whole: Integer = (*number).into();
        if !is_number(alloc, number, (Some(low), Some(high)), &whole)
            || !is_read_back_as::<T, T>(alloc, number, number)
        {
            return false;
        }
    }
    true
}

/// Whether numbers of the native types that no vector covers are written and read back.
fn are_native_numbers(alloc: Global) -> bool {
    let most: u128 = 0x7FFF_FFFF_FFFF_FFFF_FFFF_FFFF_FFFF_FFFF;
    let (low, high): (i128, i128) = (-9_223_372_036_854_775_808, 9_223_372_036_854_775_807);
    are_numbers::<i16>(alloc, -32768, 32767, &[i16::MIN])
        && are_numbers::<u64>(alloc, 0, 18_446_744_073_709_551_615, &[u64::MAX])
        && are_numbers::<usize>(alloc, 0, 18_446_744_073_709_551_615, &[7])
        && are_numbers::<i64>(alloc, low, high, &[i64::MIN])
        && are_numbers::<isize>(alloc, low, high, &[-7])
        && are_numbers::<i128>(alloc, i128::MIN, i128::MAX, &[i128::MIN])
        && is_number(
            alloc,
            &u128::MAX,
            (Some(0), None),
            &Integer::from(u128::MAX),
        )
        && is_read_back_as::<u128, u128>(alloc, &most, &most)
}

type Small = ConstrainedInteger<-5, 5>;

/// Whether 3 is written within a range, by its type and under further constraints: none, and one with an extension
/// marker.
fn is_small(alloc: Global, value: &Small) -> bool {
    let from_zero = Value::new(Bounded::start_from(0));
    let further = Constraints {
        value: Some(Extensible::new_extensible(from_zero, &[])),
        ..Constraints::NONE
    };
    let own = [Wanted::Integer(Some(-5), Some(5), 3)];
    **value == Integer::from(3_i64)
        && is_kept(alloc, value, &own)
        && is_written_under(alloc, value, Some(Constraints::NONE), &own)
        && is_written_under(
            alloc,
            value,
            Some(further),
            &[Wanted::Integer(Some(0), Some(5), 3)],
        )
}

/// Whether a number under its own constraints is written, and read back.
fn is_up_to_ten(alloc: Global) -> bool {
    let mut value = Constrained::<UpToTen, u8>::new(7);
    *value = 8;
    is_written(alloc, &value, &[Wanted::Integer(Some(0), Some(10), 8)])
}

/// Whether markers and numbers of any size are written and read back, and a value is not read as another type.
fn are_plain(alloc: Global) -> bool {
    let marker: PhantomData<u8> = PhantomData;
    is_kept(alloc, &marker, &[Wanted::Null])
        && is_kept(
            alloc,
            &Integer::from(-300_i64),
            &[Wanted::Integer(None, None, -300)],
        )
        && is_refused::<bool, ()>(alloc, &true, DecodeError::NotValidCanonicalEncoding)
        && is_refused::<u16, u8>(alloc, &7, DecodeError::ValueConstraintNotSatisfied)
}

/// Whether 3 is a number from -5 to 5, and is written as one.
fn is_three_small(alloc: Global) -> bool {
    match Small::try_from(3_i32) {
        Ok(value) => is_small(alloc, &value),
        Err(_) => false,
    }
}

#[test]
fn numbers_and_markers(rt: HostRuntime) {
    let alloc = rt.alloc();
    assert!(rt; are_native_numbers(alloc) && is_three_small(alloc));
    assert!(rt; is_up_to_ten(alloc) && are_plain(alloc));
}

/// The records of a list of 3 and 5, of any size or of exactly two elements.
const LISTED: [Wanted; 7] = [
    Wanted::List(0, None, 2),
    Wanted::Further(true),
    Wanted::Integer(Some(0), Some(255), 3),
    Wanted::Further(true),
    Wanted::Integer(Some(0), Some(255), 5),
    Wanted::Further(false),
    Wanted::Ends,
];

const PAIRED: [Wanted; 7] = [
    Wanted::List(2, Some(2), 2),
    Wanted::Further(true),
    Wanted::Integer(Some(0), Some(255), 3),
    Wanted::Further(true),
    Wanted::Integer(Some(0), Some(255), 5),
    Wanted::Further(false),
    Wanted::Ends,
];

const SEVEN: [Wanted; 1] = [Wanted::Integer(Some(0), Some(255), 7)];

/// Whether a list of 3 and 5 is written and read back, owned and borrowed.
fn is_list(alloc: Global, list: &Vec<u8>, lent: &CowSlice<u8, Global>) -> bool {
    is_kept(alloc, list, &LISTED)
        && is_written(alloc, lent, &LISTED)
        && is_read_back_as(alloc, list, lent)
}

/// Whether lists that are owned and borrowed are written and read back.
fn are_lists(alloc: Global) -> Result<bool, AllocError> {
    let list = Vec::from_array(alloc, [3, 5])?;
    Ok(is_list(alloc, &list, &CowSlice::Borrowed(&[3, 5])))
}

/// Whether an array is written as itself and as a list, and not read back as one of another size.
fn is_array(alloc: Global, numbers: [u8; 2]) -> bool {
    is_kept(alloc, &numbers, &PAIRED)
        && is_written(alloc, &numbers.as_slice(), &LISTED)
        && is_refused::<[u8; 2], [u8; 3]>(alloc, &numbers, DecodeError::SizeConstraintNotSatisfied)
}

/// Whether a number is read back as an owned one.
fn is_read_as_held(alloc: Global, number: u8) -> bool {
    match read_back::<u8, Cow<u8>>(alloc, &number) {
        Ok(Cow::Owned(read)) => read == number,
        _ => false,
    }
}

/// Whether 7 is written as an owned number, and as a borrowed one.
fn is_seven_lent(alloc: Global, seven: &u8) -> bool {
    is_written(alloc, &seven, &SEVEN)
        && is_written(alloc, &Cow::Borrowed(seven), &SEVEN)
        && is_written(alloc, &Cow::Owned(*seven), &SEVEN)
        && is_read_as_held(alloc, *seven)
}

/// The record of a text.
const TEXT: [Wanted; 1] = [Wanted::Text("é")];

/// Whether an owned text is written.
fn is_held_text(alloc: Global) -> Result<bool, AllocError> {
    let held = String::from_str(alloc, "é")?;
    Ok(is_written(alloc, &held, &TEXT))
}

/// Whether borrowed texts are written.
fn are_lent_texts(alloc: Global) -> bool {
    is_written(alloc, &"é", &TEXT)
        && is_written::<CowStr<Global>>(alloc, &CowStr::Borrowed("é"), &TEXT)
}

/// Whether a text is read back as an owned one.
fn is_owned_text(alloc: Global) -> Result<bool, DecodeError> {
    let owned: String = read_back(alloc, &"é")?;
    Ok(owned.as_str() == "é")
}

/// Whether a text is read back as one that may be borrowed.
fn is_text(alloc: Global) -> Result<bool, DecodeError> {
    let lent: CowStr<Global> = read_back(alloc, &"é")?;
    Ok(lent.as_str() == "é")
}

/// Whether texts are written, and read back.
fn are_texts(alloc: Global) -> Result<bool, DecodeError> {
    let are_written = is_held_text(alloc)? && are_lent_texts(alloc);
    Ok(are_written && is_owned_text(alloc)? && is_text(alloc)?)
}

type Tagged = Implicit<tag::Context<1>, u8>;

type Around = Explicit<tag::Private<2>, u8>;

/// Whether 7 under an implicit tag, and with an explicit tag, is written and read as without.
fn are_tagged(alloc: Global, tagged: &Tagged, explicit: &Around) -> bool {
    is_kept(alloc, tagged, &SEVEN)
        && is_kept(alloc, explicit, &SEVEN)
        && is_read_back_as(alloc, &7_u8, tagged)
        && is_read_back_as(alloc, &7_u8, explicit)
        && <Tagged as AsnType>::TAG == Tag::new_context(1)
        && <Around as AsnType>::TAG == Tag::new_private(2)
}

/// Whether 7 is written and read in these ways.
fn is_seven_tagged(alloc: Global) -> bool {
    are_tagged(alloc, &Implicit::new(7), &Explicit::new(7))
}

/// Whether a number in a box is read as without the box.
fn is_boxed(alloc: Global) -> Result<bool, AllocError> {
    let boxed = Box::new(alloc, 7_u8)?;
    Ok(is_read_back_as(alloc, &7_u8, &boxed))
}

/// The records of a SEQUENCE of 3 and 5.
const SEQUENCE: [Wanted; 4] = [
    Wanted::Sequence(false, 0),
    Wanted::Integer(Some(0), Some(255), 3),
    Wanted::Integer(Some(0), Some(255), 5),
    Wanted::Ends,
];

#[test]
fn lists_texts_and_values_around_others(rt: HostRuntime) {
    let alloc = rt.alloc();
    assert!(rt; are_lists(alloc) == Ok(true) && is_array(alloc, [3, 5]));
    assert!(rt; is_seven_lent(alloc, &7) && are_texts(alloc) == Ok(true));
    assert!(rt; is_seven_tagged(alloc) && is_boxed(alloc) == Ok(true));
    assert!(rt; is_kept(alloc, &Pair { a: 3, b: 5 }, &SEQUENCE));
}

/// Whether strings of these numbers of octets and bits are written and read back.
fn are_strings(alloc: Global) -> bool {
    let four = FixedBitString::<4>::new([0xAF, 0, 0, 0]);
    let three = FixedOctetString::new([1, 2, 3]);
    let lent = BitStr::front_of(&[0xA0], 4);
    is_kept(alloc, &four, &[Wanted::Bits(4, &[0xA0])])
        && is_written(alloc, &lent, &[Wanted::Bits(4, &[0xA0])])
        && is_kept(alloc, &three, &[Wanted::Octets(&[1, 2, 3])])
}

/// Whether an identifier whose arcs are borrowed is read back.
fn is_lent_identifier(alloc: Global) -> bool {
    let identifier = ObjectIdentifier::new_unchecked(CowSlice::Borrowed(&[1, 2, 3321]));
    is_kept(alloc, &identifier, &[Wanted::Identifier(&[1, 2, 3321])])
        && is_written(
            alloc,
            &identifier.as_oid(),
            &[Wanted::Identifier(&[1, 2, 3321])],
        )
}

/// Whether an identifier whose arcs are owned is read back.
fn is_held_identifier(alloc: Global) -> Result<bool, AllocError> {
    let identifier = ObjectIdentifier::from_oid(alloc, &Oid::new_unchecked(&[1, 2, 840]))?;
    Ok(is_kept(alloc, &identifier, &[Wanted::Identifier(&[1, 2, 840])]))
}

/// Whether an open value is read back.
fn is_any(alloc: Global) -> Result<bool, AllocError> {
    let any = Any::new(Vec::from_array(alloc, [2, 1, 0])?);
    Ok(is_read_back_as::<Any, Any>(alloc, &any, &any))
}

/// Whether a value with the identifier of its type is read back.
fn is_instance(alloc: Global) -> bool {
    let instance = InstanceOf {
        type_id: ObjectIdentifier::new_unchecked(CowSlice::Borrowed(&[1, 2, 3321])),
        value: 7_u8,
    };
    is_read_back_as::<InstanceOf<u8>, InstanceOf<u8>>(alloc, &instance, &instance)
}

/// Whether a string of characters outside another type's alphabet is not read as that type.
fn are_characters_refused(alloc: Global) -> bool {
    match BmpString::from_text(alloc, "€") {
        Ok(string) => is_refused::<BmpString, VisibleString>(
            alloc,
            &string,
            DecodeError::PermittedAlphabet,
        ),
        Err(_) => false,
    }
}

#[test]
fn strings_and_open_values(rt: HostRuntime) {
    let alloc = rt.alloc();
    assert!(rt; are_strings(alloc) && are_characters_refused(alloc));
    assert!(rt; is_lent_identifier(alloc) && is_held_identifier(alloc) == Ok(true));
    assert!(rt; is_any(alloc) == Ok(true) && is_instance(alloc));
}

/// Reads a number of one octet from a decoder under no constraints, and then by its type.
fn unconstrained<D: Decoder>(
    alloc: Global,
    decoder: &mut D,
) -> (Result<u8, DecodeError>, Result<u8, DecodeError>) {
    let first = u8::decode_with_constraints(alloc, decoder, &Constraints::NONE);
    (first, found(alloc, decoder))
}

/// Whether a number that the type does not hold is an error, and nothing is read after it.
fn is_too_large(alloc: Global) -> bool {
    let mut kept = encoder(alloc);
    write(&mut kept, &Integer::from(300_i64)) == Ok(())
        && unconstrained(alloc, &mut decoder(kept))
            == (
                Err(DecodeError::IntegerOverflow),
                Err(DecodeError::AlreadyFailed),
            )
}

/// A chain of 1 and 2.
fn chain(alloc: Global) -> Result<Chain, AllocError> {
    let last = Chain {
        value: Integer::from(2_i64),
        next: None,
    };
    Ok(Chain {
        value: Integer::from(1_i64),
        next: Some(Box::new(alloc, last)?),
    })
}

/// Writes a chain of 1 and 2 to an encoder.
fn write_chain<E: Encoder>(alloc: Global, encoder: &mut E) -> Result<(), EncodeError> {
    let chain = chain(alloc)?;
    write(encoder, &chain)
}

/// Whether the first number of a chain is this one.
fn begins_with(chain: &Chain, number: i64) -> bool {
    chain.value == Integer::from(number)
}

/// Whether a chain is one of 1 and 2.
fn is_of_two(chain: &Chain) -> bool {
    match &chain.next {
        Some(following) => {
            begins_with(chain, 1) && begins_with(following, 2) && following.next.is_none()
        }
        None => false,
    }
}

/// Whether a decoder returns a chain of 1 and 2.
fn is_chain<D: Decoder>(alloc: Global, decoder: &mut D) -> Result<bool, DecodeError> {
    let chain: Chain = found(alloc, decoder)?;
    Ok(is_of_two(&chain))
}

/// Whether a chain of 1 and 2 is read back within this number of levels.
fn is_read_within(alloc: Global, levels: usize) -> Result<bool, DecodeError> {
    let mut kept = encoder(alloc);
    match write_chain(alloc, &mut kept) {
        Ok(()) => is_chain(
            alloc,
            &mut RecordDecoder::with_levels(kept.into_items(), CodecKind::Coer, levels),
        ),
        Err(_) => Err(DecodeError::OutOfMemory),
    }
}

#[test]
fn large_numbers_and_chains(rt: HostRuntime) {
    let alloc = rt.alloc();
    assert!(rt; is_too_large(alloc) && is_read_within(alloc, 2) == Ok(true));
    assert!(rt; is_read_within(alloc, 1) == Err(DecodeError::ExceedsMaxParseDepth));
}
