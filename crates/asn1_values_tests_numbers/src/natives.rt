//! The native integer types, each tested by the claims of a text: its bounds, octets, sums, conversions and printed
//! form; and `Wide`. Numbers are given as octets in two's complement.
use crate::common::{Octets, assert_none, has, is_refused, is_shown, is_told};
use asn1_values::{
    Integer, IntegerBytes, IntegerError, IntegerType, NativeInteger, TryFromIntegerError, Wide,
};
use asn1_values_natives::octets::{
    bit_count, has_leading, has_padding, has_sign, last_octets, magnitude, without_leading,
    without_padding, without_sign, without_zero,
};
use std::alloc::{AllocError, Global};

fn natural(magnitude: u128) -> Wide {
    Wide {
        negative: false,
        magnitude,
    }
}

/// The negative number with this magnitude.
fn below(magnitude: u128) -> Wide {
    Wide {
        negative: true,
        magnitude,
    }
}

/// The number of octets.
fn wide(octets: &[u8]) -> Wide {
    let negative = match octets {
        [first, ..] => *first >= 128,
        [] => false,
    };
    let mut magnitude: u128 = 0;
    for octet in octets {
        let digit = if negative { !*octet } else { *octet };
        magnitude = magnitude.wrapping_mul(256) | u128::from(digit);
    }
    Wide {
        negative,
        magnitude,
    }
}

/// The number of octets given in hexadecimal digits; none for a hyphen.
fn number_of(word: &str) -> Option<Wide> {
    if word == "-" {
        None
    } else {
        Some(wide(Octets::of(word).all()))
    }
}

/// The number, if an `i128` holds it.
fn whole(number: Wide) -> Option<i128> {
    match i128::try_from(number.magnitude) {
        Ok(magnitude) if number.negative => Some(-1 - magnitude),
        Ok(magnitude) => Some(magnitude),
        Err(_) => None,
    }
}

/// Whether a type with these bounds holds a number.
fn is_between(number: Wide, (least, greatest): (Wide, Wide)) -> bool {
    if number.negative {
        least.negative && number.magnitude <= least.magnitude
    } else {
        number.magnitude <= greatest.magnitude
    }
}

/// Whether the type holds the number, as a value with that number.
fn is_held<T: NativeInteger>(number: Wide) -> bool {
    match T::from_wide(number) {
        Some(value) => value.to_wide() == number,
        None => false,
    }
}

/// Whether the type holds its bounds, and not the numbers next to them.
fn has_ends<T: NativeInteger>(least: Wide, greatest: Wide) -> bool {
    let lower = if least.negative {
        below(least.magnitude.saturating_add(1))
    } else {
        below(0)
    };
    let has_none_above = match greatest.magnitude.checked_add(1) {
        Some(above) => T::from_wide(natural(above)).is_none(),
        None => true,
    };
    is_held::<T>(least)
        && is_held::<T>(greatest)
        && T::from_wide(least) < T::from_wide(greatest)
        && T::from_wide(lower).is_none()
        && has_none_above
        && T::SIGNED == least.negative
        && T::BITS as usize == bit_count(greatest.magnitude) + usize::from(T::SIGNED)
}

/// Whether the type has this number of octets, is signed if it has negative numbers, and has zero.
fn has_width<T: NativeInteger + IntegerType>(octets: usize) -> bool {
    T::BITS as usize / 8 == octets
        && <T as IntegerType>::WIDTH == T::BITS
        && <T as IntegerType>::BYTE_WIDTH == octets
        && <T as NativeInteger>::ZERO == T::default()
        && <T as NativeInteger>::ZERO.to_wide() == natural(0)
        && !<T as IntegerType>::ZERO.is_negative()
        && <T as IntegerType>::ZERO.is_signed() == T::SIGNED
}

/// Whether a number has these octets, and the sign that the first of them indicates.
pub fn has_octets<T: IntegerType>(value: &T, octets: &[u8]) -> bool {
    let is_signed = match octets {
        [first, ..] => *first >= 128,
        [] => false,
    };
    has(&value.to_signed_bytes_be(), octets) && value.is_negative() == is_signed
}

/// Whether the octets encode a number of the type, and the same `Integer`.
fn is_kept<T: IntegerType + Drop>(alloc: Global, octets: &[u8]) -> bool {
    match T::try_from_signed_bytes(alloc, octets) {
        Ok(value) => {
            let is_same = has_octets(&value, octets);
            let whole = value.to_integer();
            is_same && has_octets(&whole, octets)
        }
        Err(_) => false,
    }
}

/// Whether no octets are an error, in each way to read a number of the type.
fn refuses_nothing<T: IntegerType + Drop>(alloc: Global) -> bool {
    is_refused(T::try_from_signed_bytes(alloc, &[]), &IntegerError::Empty)
        && is_refused(T::try_from_unsigned_bytes(alloc, &[]), &IntegerError::Empty)
        && is_refused(T::try_from_bytes(alloc, &[]), &IntegerError::Empty)
}

/// Whether this is the sum of two numbers, by each call that adds.
fn is_sum<T: NativeInteger<Unsigned = U> + IntegerType<UnsignedPair = U>, U: NativeInteger>(
    number: Wide,
    other: Wide,
    sum: Wide,
) -> bool {
    match (T::from_wide(number), U::from_wide(other)) {
        (Some(value), Some(added)) => {
            NativeInteger::wrapping_unsigned_add(value, added).to_wide() == sum
                && IntegerType::wrapping_unsigned_add(value, added).to_wide() == sum
        }
        _ => false,
    }
}

/// Whether the type holds a 128-bit number unchanged, if it should.
fn is_held_as<T: IntegerType + Drop>(number: Wide, is_held: bool) -> bool {
    match whole(number) {
        Some(number) => match T::from_i128(number) {
            Some(value) => is_held && value.to_i128() == Some(number),
            None => !is_held,
        },
        None => false,
    }
}

/// Whether a number was read, and is this one.
fn is_read<T: NativeInteger>(answer: Result<T, IntegerError>, number: Wide) -> bool {
    match answer {
        Ok(value) => value.to_wide() == number,
        Err(_) => false,
    }
}

/// Whether a number has these unsigned octets.
fn is_plain<T: NativeInteger + IntegerType>(number: Wide, octets: &[u8]) -> bool {
    match T::from_wide(number) {
        Some(value) => has(&value.to_unsigned_bytes_be(), octets),
        None => false,
    }
}

/// Whether a number other than zero is printed as this text, and is greater than the default if it is positive; and
/// whether zero is printed.
fn is_described<T: NativeInteger>(alloc: Global, number: Wide, text: &str) -> bool {
    match T::from_wide(number) {
        Some(value) => {
            is_told(alloc, &value, text)
                && is_shown(alloc, &value, text)
                && is_told(alloc, &<T as NativeInteger>::ZERO, "0")
                && (T::default() < value) != number.negative
        }
        None => false,
    }
}

/// Whether a claim, given as octets, is right for a type; of a sum, the number added is unsigned.
fn is_so<T: NativeInteger<Unsigned = U> + IntegerType<UnsignedPair = U> + Drop, U: NativeInteger>(
    alloc: Global,
    name: &str,
    [first, second, third]: [&[u8]; 3],
) -> bool {
    match name {
        "octets" => has_width::<T>(first.len()) && refuses_nothing::<T>(alloc),
        "ends" => {
            has_ends::<T>(wide(first), wide(second))
                && is_kept::<T>(alloc, first)
                && is_kept::<T>(alloc, second)
        }
        "sum" => is_sum::<T, U>(wide(first), wide(second), wide(third)),
        "holds" => is_held_as::<T>(wide(first), true),
        "lacks" => is_held_as::<T>(wide(first), false),
        "own" => is_read(T::try_from_bytes(alloc, first), wide(second)),
        "signed" => is_read(T::try_from_signed_bytes(alloc, first), wide(second)),
        "unsigned" => is_read(T::try_from_unsigned_bytes(alloc, first), wide(second)),
        "beside" => is_refused(
            T::try_from_signed_bytes(alloc, first),
            &IntegerError::Overflow,
        ),
        "above" => is_refused(
            T::try_from_unsigned_bytes(alloc, first),
            &IntegerError::Overflow,
        ),
        "plain" => is_plain::<T>(wide(first), second),
        _ => false,
    }
}

/// Whether a claim is right.
fn is_claim<
    T: NativeInteger<Unsigned = U> + IntegerType<UnsignedPair = U> + Drop,
    U: NativeInteger,
>(alloc: Global, claim: &str) -> bool {
    let (name, parts) = claim.split_once(' ').unwrap_or(("", ""));
    if name == "text" {
        let (digits, text) = parts.split_once(' ').unwrap_or(("", ""));
        return is_described::<T>(alloc, wide(Octets::of(digits).all()), text);
    }
    let (first, second, third) = words_of(parts);
    is_so::<T, U>(
        alloc,
        name,
        [
            Octets::of(first).all(),
            Octets::of(second).all(),
            Octets::of(third).all(),
        ],
    )
}

/// Whether the number, borrowed and moved, is converted to the type if the type holds it, and then back; else the
/// conversion fails, and the error returns the number.
fn is_converted<
    'a,
    T: NativeInteger
        + TryFrom<&'a Integer, Error = IntegerError>
        + TryFrom<Integer, Error = TryFromIntegerError>,
>(lent: &'a Integer, number: Wide, is_held: bool) -> bool {
    let of_lent: Result<T, IntegerError> = T::try_from(lent);
    let of_owned: Result<T, TryFromIntegerError> = T::try_from(Integer::from_wide(number));
    match (of_lent, of_owned) {
        (Ok(value), Ok(same)) => {
            is_held
                && value.to_wide() == number
                && same.to_wide() == number
                && Integer::from(value) == *lent
        }
        (Err(error), Err(refusal)) => {
            !is_held && error == IntegerError::Overflow && refusal.into_original() == *lent
        }
        _ => false,
    }
}

/// The bounds of a type, given by the first of its claims.
fn ends_of(claims: &str) -> (Wide, Wide) {
    let (ends, _) = claims.split_once('\n').unwrap_or(("", ""));
    let (_, least, greatest) = words_of(ends);
    (
        wide(Octets::of(least).all()),
        wide(Octets::of(greatest).all()),
    )
}

/// Whether all claims on a type are right.
fn are_claims<
    T: NativeInteger<Unsigned = U> + IntegerType<UnsignedPair = U> + Drop,
    U: NativeInteger,
>(alloc: Global, claims: &str) -> bool {
    for claim in claims.lines() {
        if !is_claim::<T, U>(alloc, claim) {
            return false;
        }
    }
    true
}

/// Whether a type with these bounds converts these numbers as its bounds say.
fn are_converted<
    'a,
    T: NativeInteger
        + TryFrom<&'a Integer, Error = IntegerError>
        + TryFrom<Integer, Error = TryFromIntegerError>,
>(ends: (Wide, Wide), numbers: &'a [Integer]) -> bool {
    for lent in numbers {
        match lent.to_wide() {
            Some(number) if is_converted::<T>(lent, number, is_between(number, ends)) => {}
            _ => return false,
        }
    }
    true
}

/// Whether all claims on a type are right, and it converts these numbers as its bounds say.
fn is_native<
    'a,
    T: NativeInteger<Unsigned = U>
        + IntegerType<UnsignedPair = U>
        + TryFrom<&'a Integer, Error = IntegerError>
        + TryFrom<Integer, Error = TryFromIntegerError>
        + Drop,
    U: NativeInteger,
>(alloc: Global, claims: &str, numbers: &'a [Integer]) -> bool {
    are_claims::<T, U>(alloc, claims) && are_converted::<T>(ends_of(claims), numbers)
}

const U8: &str = "\
ends 00 00FF
octets 00
beside FF
beside 0100
sum 00FF 01 00
sum 00FF 02 01
holds 00FF
lacks 0100
lacks FF
own 00C8 00C8
unsigned 80 0080
plain 00C8 C8";

const U16: &str = "\
ends 00 00FFFF
octets 0000
beside FF
beside 010000
sum 00FFFF 02 01";

const U32: &str = "\
ends 00 00FFFFFFFF
octets 00000000
beside FF
beside 0100000000
sum 00FFFFFFFF 00FFFFFFFF 00FFFFFFFE";

const U64: &str = "\
ends 00 00FFFFFFFFFFFFFFFF
octets 0000000000000000
beside FF
beside 010000000000000000
sum 00FFFFFFFFFFFFFFFF 03 02
holds 00FFFFFFFFFFFFFFFF
own 000007 07
plain 00 00";

const U128: &str = "\
ends 00 00FFFFFFFFFFFFFFFFFFFFFFFFFFFFFFFF
octets 00000000000000000000000000000000
beside FF
beside 0100000000000000000000000000000000
sum 00FFFFFFFFFFFFFFFFFFFFFFFFFFFFFFFF 05 04
sum 00FFFFFFFFFFFFFFFFFFFFFFFFFFFFFFFF 01 00
holds 7FFFFFFFFFFFFFFFFFFFFFFFFFFFFFFF
lacks FF
plain 00FFFFFFFFFFFFFFFFFFFFFFFFFFFFFFFF FFFFFFFFFFFFFFFFFFFFFFFFFFFFFFFF
text 00FFFFFFFFFFFFFFFFFFFFFFFFFFFFFFFF 340282366920938463463374607431768211455";

const USIZE: &str = "\
ends 00 00FFFFFFFFFFFFFFFF
octets 0000000000000000
beside FF
beside 010000000000000000
sum 00FFFFFFFFFFFFFFFF 01 00";

const I8: &str = "\
ends 80 7F
octets 00
beside FF7F
beside 0080
sum 7F 01 80
sum FF 01 00
sum 80 00FF 7F
sum 64 64 C8
holds 80
lacks 0080
own C8 C8
above C8
signed 80 80
text FD -3";

const I16: &str = "\
ends 8000 7FFF
octets 0000
beside FF7FFF
beside 008000
sum FF 008001 8000
unsigned C8 00C8";

const I32: &str = "\
ends 80000000 7FFFFFFF
octets 00000000
beside FF7FFFFFFF
beside 0080000000
sum 07 09 10
plain 0100 0100";

const I64: &str = "\
ends 8000000000000000 7FFFFFFFFFFFFFFF
octets 0000000000000000
beside FF7FFFFFFFFFFFFFFF
beside 008000000000000000
sum 7FFFFFFFFFFFFFFF 01 8000000000000000
sum 8000000000000000 00FFFFFFFFFFFFFFFF 7FFFFFFFFFFFFFFF";

const I128: &str = "\
ends 80000000000000000000000000000000 7FFFFFFFFFFFFFFFFFFFFFFFFFFFFFFF
octets 00000000000000000000000000000000
beside FF7FFFFFFFFFFFFFFFFFFFFFFFFFFFFFFF
beside 0080000000000000000000000000000000
sum 7FFFFFFFFFFFFFFFFFFFFFFFFFFFFFFF 01 80000000000000000000000000000000
holds 80000000000000000000000000000000";

const ISIZE: &str = "\
ends 8000000000000000 7FFFFFFFFFFFFFFF
octets 0000000000000000
beside FF7FFFFFFFFFFFFFFF
beside 008000000000000000
sum 8000000000000000 00FFFFFFFFFFFFFFFF 7FFFFFFFFFFFFFFF";

/// Numbers that are converted to each type that holds them: 255, 65536, 7, -7, the greatest 128-bit number, 9, -129,
/// the least 64-bit number, 3, 200, 256 and -1.
const NUMBERS: &str =
    "00FF 010000 07 F9 00FFFFFFFFFFFFFFFFFFFFFFFFFFFFFFFF 09 FF7F 8000000000000000 03 00C8 0100 FF";

fn numbers(alloc: Global) -> Result<Vec<Integer>, AllocError> {
    let mut all = Vec::new(alloc);
    for word in NUMBERS.split(' ') {
        all.push(Integer::from_wide(wide(Octets::of(word).all())))?;
    }
    Ok(all)
}

fn are_unsigned_types(alloc: Global, numbers: &[Integer]) -> bool {
    is_native::<u8, u8>(alloc, &U8, numbers)
        && is_native::<u16, u16>(alloc, &U16, numbers)
        && is_native::<u32, u32>(alloc, &U32, numbers)
        && is_native::<u64, u64>(alloc, &U64, numbers)
        && is_native::<u128, u128>(alloc, &U128, numbers)
        && is_native::<usize, usize>(alloc, &USIZE, numbers)
}

fn are_signed_types(alloc: Global, numbers: &[Integer]) -> bool {
    is_native::<i8, u8>(alloc, &I8, numbers)
        && is_native::<i16, u16>(alloc, &I16, numbers)
        && is_native::<i32, u32>(alloc, &I32, numbers)
        && is_native::<i64, u64>(alloc, &I64, numbers)
        && is_native::<i128, u128>(alloc, &I128, numbers)
        && is_native::<isize, usize>(alloc, &ISIZE, numbers)
}

#[test]
fn native_types(rt: HostRuntime) {
    let alloc = rt.alloc();
    match numbers(alloc) {
        Ok(numbers) => {
            assert!(rt; are_unsigned_types(alloc, &numbers) && are_signed_types(alloc, &numbers));
        }
        Err(AllocError) => assert!(rt; false),
    }
    assert!(rt; IntegerType::to_i128(&u128::MAX).is_none());
}

/// Rows of octets. `wide`: octets, and their signed and unsigned numbers, or a hyphen if they are outside the range of
/// `Wide`. `within`: a number, and its unsigned and signed value if the greatest is 7, or a hyphen if it is outside.
/// `fewest`: a number as its fewest octets, signed and unsigned. `padded`: octets, and the same without redundant
/// leading octets.
const ROWS: &str = "\
wide FFFFFFFFFFFFFFFFFFFFFFFFFFFFFFFFFF FF -
wide 00FFFFFFFFFFFFFFFFFFFFFFFFFFFFFFFF 00FFFFFFFFFFFFFFFFFFFFFFFFFFFFFFFF 00FFFFFFFFFFFFFFFFFFFFFFFFFFFFFFFF
wide FEFFFFFFFFFFFFFFFFFFFFFFFFFFFFFFFF - -
wide FF00000000000000000000000000000000 FF00000000000000000000000000000000 -
wide 0100000000000000000000000000000000 - -
wide  00 00
wide FF7F FF7F 00FF7F
within 07 07 07
within 08 - -
within FF - FF
within F8 - F8
within F7 - -
fewest 00 00
fewest 7F 7F
fewest 0080 80
fewest 0100 0100
fewest FF FF
fewest 80 80
fewest FF7F FF7F
fewest FF7FFF FF7FFF
fewest FF00000000000000000000000000000000 FF00000000000000000000000000000000
fewest 00FFFFFFFFFFFFFFFFFFFFFFFFFFFFFFFF FFFFFFFFFFFFFFFFFFFFFFFFFFFFFFFF
padded 007F 7F
padded FF80 80
padded 0080 0080
padded FF7F FF7F
padded 00 00
padded 00000080 0080
padded FFFF FF";

/// Three words of a row.
fn words_of(row: &str) -> (&str, &str, &str) {
    let mut words = row.split(' ');
    let first = words.next().unwrap_or("");
    let second = words.next().unwrap_or("");
    (first, second, words.next().unwrap_or(""))
}

/// Whether octets encode the numbers of a row.
fn are_wide(row: &str) -> bool {
    let (octets, signed, unsigned) = words_of(row);
    let octets = Octets::of(octets);
    Wide::from_signed_octets(octets.all()) == number_of(signed)
        && Wide::from_unsigned_octets(octets.all()) == number_of(unsigned)
}

/// Whether a number is within bounds as its row says.
fn are_bounded(row: &str) -> bool {
    let (number, unsigned, signed) = words_of(row);
    match number_of(number) {
        Some(number) => {
            number.to_natural(7) == number_of(unsigned).map(|found| found.magnitude)
                && number.to_whole(7) == number_of(signed).and_then(whole)
        }
        None => false,
    }
}

/// Whether a number has the octets of a row.
fn are_fewest(row: &str) -> bool {
    let (signed, unsigned, _) = words_of(row);
    let (signed, unsigned) = (Octets::of(signed), Octets::of(unsigned));
    let number = wide(signed.all());
    let octets = IntegerBytes::signed(number);
    octets.len() == signed.all().len()
        && has(&octets, signed.all())
        && has(&IntegerBytes::unsigned(number), unsigned.all())
}

/// Whether redundant leading octets are found and removed.
fn is_padding(row: &str) -> bool {
    let (padded, rest, _) = words_of(row);
    let (padded, rest) = (Octets::of(padded), Octets::of(rest));
    let (octets, fewest) = (padded.all(), rest.all());
    has_padding(octets) == (fewest.len() < octets.len()) && without_padding(octets) == fewest
}

/// Whether borrowed octets are these octets, and numbers are converted to `Wide`.
fn are_lent_and_wide() -> bool {
    let lent = IntegerBytes::lent(&[1, 2, 3]);
    lent.first() == Some(&1)
        && has(&lent, &[1, 2, 3])
        && Wide::from_i128(i128::MIN) == below(u128::MAX / 2)
        && Wide::from_natural(7, 7) == natural(7)
        && Wide::from_whole(-8, 7) == below(7)
}

/// Whether the sign is found and removed from an octet, and leading octets that hold only sign bits are found and
/// removed.
fn signs_are_found() -> bool {
    has_sign(&[0x80, 0])
        && !has_sign(&[0x7f, 0xff])
        && !has_sign(&[])
        && without_sign(true, 0x0f) == 0xf0
        && without_sign(false, 0x0f) == 0x0f
        && has_leading(true, &[0xff])
        && has_leading(false, &[0])
        && !has_leading(true, &[0])
        && without_leading(true, &[0xff, 0xff, 0xfe]) == [0xfe].as_slice()
        && without_leading(false, &[0, 0]).is_empty()
        && without_zero(&[0, 0x80]) == [0x80].as_slice()
        && without_zero(&[1, 0]) == [1, 0].as_slice()
}

/// Seventeen octets: fifteen zeros, and the two given ones.
fn ending_in(octets: [u8; 2]) -> [u8; 17] {
    let mut last = [0; 17];
    last[15] = octets[0];
    last[16] = octets[1];
    last
}

/// Whether magnitudes and their bits are computed, and their last octets are those of their numbers.
fn magnitudes_are_counted() -> bool {
    magnitude(false, &[1, 2]) == 258
        && magnitude(true, &[0xfe, 0xff]) == 256
        && bit_count(0) == 0
        && bit_count(255) == 8
        && bit_count(256) == 9
        && last_octets(false, 0x03_0102, 2) == ending_in([1, 2])
        && last_octets(true, 0x03_0102, 2) == ending_in([0xfe, 0xfd])
}

/// Whether a row is right.
fn is_row(row: &str) -> bool {
    match row.split_once(' ') {
        Some(("wide", row)) => are_wide(row),
        Some(("within", row)) => are_bounded(row),
        Some(("fewest", row)) => are_fewest(row),
        Some(("padded", row)) => is_padding(row),
        _ => false,
    }
}

/// The row that is not right, if there is one.
fn wrong_row() -> Option<&'static str> {
    for row in ROWS.lines() {
        if !is_row(row) {
            return Some(row);
        }
    }
    None
}

#[test]
fn numbers_and_octets(rt: HostRuntime) {
    assert_none(&rt, &wrong_row());
    assert!(rt; are_lent_and_wide() && signs_are_found() && magnitudes_are_counted());
}
