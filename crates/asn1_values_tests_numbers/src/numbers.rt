//! Integers of any size: their bounds, texts, sums and conversions, integers within a range, and the results of failed
//! allocations.
use crate::common::{
    Octets, assert_none, has, has_copy, hash_of, is_before, is_copied, is_refused, is_shown,
    is_told,
};
use crate::natives::has_octets;
use asn1_values::{Integer, IntegerError, IntegerType, TryFromIntegerError};
use asn1_values_integers::ConstrainedInteger;
use std::alloc::{AllocError, Global};
use std::process::Abort;

/// Rows of octets. `text`: those of a number, and its text. `plain`: those of an unsigned number, and its fewest.
/// `before`: those of two numbers, the first less than the second.
const ROWS: &str = "\
text 00 0
text 0080 128
text 80 -128
text 80000000000000000000000000000000 -170141183460469231731687303715884105728
text 7FFFFFFFFFFFFFFFFFFFFFFFFFFFFFFF 170141183460469231731687303715884105727
text 0080000000000000000000000000000000 0x0080000000000000000000000000000000
text FF7FFFFFFFFFFFFFFFFFFFFFFFFFFFFFFF 0xff7fffffffffffffffffffffffffffffff
text 00FFFFFFFFFFFFFFFFFFFFFFFFFFFFFFFF 0x00ffffffffffffffffffffffffffffffff
text 0100000000000000000000000000000000 0x0100000000000000000000000000000000
plain 0101010101010101010101010101010101010101 0101010101010101010101010101010101010101
plain 8080808080808080808080808080808080808080 8080808080808080808080808080808080808080
plain 7FFFFFFFFFFFFFFFFFFFFFFFFFFFFFFF 7FFFFFFFFFFFFFFFFFFFFFFFFFFFFFFF
plain 0100000000000000000000000000000000 0100000000000000000000000000000000
plain 00FFFFFFFFFFFFFFFFFFFFFFFFFFFFFFFF FFFFFFFFFFFFFFFFFFFFFFFFFFFFFFFF
before FE0000000000000000000000000000000000 FF7FFFFFFFFFFFFFFFFFFFFFFFFFFFFFFF
before FF7FFFFFFFFFFFFFFFFFFFFFFFFFFFFFFF 80000000000000000000000000000000
before 80000000000000000000000000000000 FF
before FF 00
before 00 7FFFFFFFFFFFFFFFFFFFFFFFFFFFFFFF
before 7FFFFFFFFFFFFFFFFFFFFFFFFFFFFFFF 0080000000000000000000000000000000
before 0080000000000000000000000000000000 00FFFFFFFFFFFFFFFFFFFFFFFFFFFFFFFF
before 00FFFFFFFFFFFFFFFFFFFFFFFFFFFFFFFF 0100000000000000000000000000000000";

/// Whether the octets of a row encode a number with its text, read in each way, and copied.
fn is_number(alloc: Global, row: &str) -> bool {
    let (digits, text) = row.split_once(' ').unwrap_or(("", ""));
    let octets = Octets::of(digits);
    match Integer::from_signed_octets(alloc, octets.all()) {
        Ok(number) => {
            has_octets(&number, octets.all()) && is_told(alloc, &number, text) && has_copy(&number)
        }
        Err(_) => false,
    }
}

/// Whether the octets of a row encode an unsigned number, which has the fewest octets of the row.
fn is_natural(alloc: Global, row: &str) -> bool {
    let (digits, fewest) = row.split_once(' ').unwrap_or(("", ""));
    let (octets, fewest) = (Octets::of(digits), Octets::of(fewest));
    is_plain(
        Integer::from_unsigned_octets(alloc, octets.all()),
        fewest.all(),
    ) && is_plain(
        Integer::try_from_unsigned_bytes(alloc, octets.all()),
        fewest.all(),
    )
}

/// Whether a number was read that has these unsigned octets.
fn is_plain(answer: Result<Integer, IntegerError>, octets: &[u8]) -> bool {
    match answer {
        Ok(number) => has(&number.to_unsigned_bytes_be(), octets),
        Err(_) => false,
    }
}

/// Whether a number was read that has these octets, and is copied.
fn is_whole(answer: Result<Integer, IntegerError>, octets: &[u8]) -> bool {
    match answer {
        Ok(number) => has_octets(&number, octets) && has_copy(&number),
        Err(_) => false,
    }
}

/// Whether the number was read, or this error was returned.
fn is_this(answer: Result<Integer, IntegerError>, wanted: &Integer) -> bool {
    match answer {
        Ok(number) => number == *wanted,
        Err(_) => false,
    }
}

/// Whether the number of the first octets of a row is less than that of the second.
fn are_ordered(alloc: Global, row: &str) -> bool {
    let (first, second) = row.split_once(' ').unwrap_or(("", ""));
    match Integer::from_signed_octets(alloc, Octets::of(first).all()) {
        Ok(less) => match Integer::from_signed_octets(alloc, Octets::of(second).all()) {
            Ok(greater) => is_before(&less, &greater),
            Err(_) => false,
        },
        Err(_) => false,
    }
}

/// Whether no octets are an error, and redundant leading octets are accepted and dropped.
fn fewest_are_kept(alloc: Global) -> bool {
    is_refused(
        Integer::from_signed_octets(alloc, &[]),
        &IntegerError::Empty,
    ) && is_this(
        Integer::from_signed_octets(alloc, &[0xff, 0xff, 0xff, 0x7f]),
        &Integer::from(-129i16),
    )
}

/// Whether the octets of numbers of twenty octets are read in each way.
fn are_read(alloc: Global, octets: &[u8]) -> bool {
    is_whole(Integer::try_from_bytes(alloc, octets), octets)
        && is_whole(Integer::try_from_signed_bytes(alloc, octets), octets)
        && is_whole(Integer::from_signed_octets(alloc, octets), octets)
}

/// Whether a row is right.
fn is_row(alloc: Global, row: &str) -> bool {
    match row.split_once(' ') {
        Some(("text", row)) => is_number(alloc, row),
        Some(("plain", row)) => is_natural(alloc, row),
        Some(("before", row)) => are_ordered(alloc, row),
        _ => false,
    }
}

/// The row that is not right, if there is one.
fn wrong_row(alloc: Global) -> Option<&'static str> {
    for row in ROWS.lines() {
        if !is_row(alloc, row) {
            return Some(row);
        }
    }
    None
}

#[test]
fn integers_of_any_size(rt: HostRuntime) {
    let alloc = rt.alloc();
    assert_none(&rt, &wrong_row(alloc));
    assert!(rt; fewest_are_kept(alloc));
    assert!(rt; are_read(alloc, &[1; 20]) && are_read(alloc, &[0x80; 20]));
}

/// The octets of 256 ^ 127 - 1.
fn long_octets(alloc: Global) -> Result<Vec<u8>, AllocError> {
    let mut octets = vec![in alloc; 0xff; 128]?;
    if let Some(first) = octets.first_mut() {
        *first = 0;
    }
    Ok(octets)
}

/// Whether that number has its octets, and is greater than each 128-bit number.
fn is_long(number: &Integer, octets: &[u8]) -> bool {
    has(&number.to_signed_bytes_be(), octets)
        && number.to_unsigned_bytes_be().len() == 127
        && number.to_i128().is_none()
        && *number > Integer::from(u128::MAX)
        && !number.is_negative()
        && number.checked_add(&Integer::ONE).is_none()
        && has_copy(number)
}

/// Whether that number is read.
fn is_long_read(alloc: Global) -> Result<bool, AllocError> {
    let octets = long_octets(alloc)?;
    match Integer::from_signed_octets(alloc, &octets) {
        Ok(number) => Ok(is_long(&number, &octets)),
        Err(_) => Ok(false),
    }
}

/// Whether a type of 8 bits rejects the number of owned octets, and the copy of the error returns the number.
fn is_given_back(alloc: Global, kept: Integer, octets: &[u8]) -> bool {
    match u8::try_from(kept) {
        Ok(_) => false,
        Err(refusal) => match refusal.clone() {
            Ok(copy) => is_this(
                Integer::from_signed_octets(alloc, octets),
                &copy.into_original(),
            ),
            Err(AllocError) => false,
        },
    }
}

/// Whether numbers of twenty owned octets are rejected in that way.
fn are_given_up(alloc: Global) -> Result<bool, AllocError> {
    let low = Integer::from_fewest_octets(vec![in alloc; 1; 20]?);
    let is_low = is_given_back(alloc, low, &[1; 20]);
    let high = Integer::from_fewest_octets(vec![in alloc; 0x80; 20]?);
    Ok(is_low && is_given_back(alloc, high, &[0x80; 20]))
}

/// Whether a number of one owned octet is that of the octet.
fn is_short(alloc: Global) -> Result<bool, AllocError> {
    let short = Integer::from_fewest_octets(vec![in alloc; 0x80; 1]?);
    Ok(short == Integer::from(-128i16))
}

/// Whether zero and one are right, by each name.
fn are_zero_and_one() -> bool {
    Integer::default() == Integer::ZERO
        && Integer::zero() == Integer::ZERO
        && Integer::one() == Integer::ONE
        && Integer::ONE > Integer::ZERO
        && Integer::ZERO.is_signed()
        && <Integer as IntegerType>::WIDTH == u32::MAX
}

/// Whether a number that is read equals the same number that is made, and has its hash.
fn is_greatest(answer: Result<Integer, IntegerError>) -> bool {
    let made = Integer::from(u128::MAX);
    match answer {
        Ok(read) => read == made && hash_of(&read) == hash_of(&made) && has_copy(&read),
        Err(_) => false,
    }
}

/// Whether the greatest 128-bit number is read, signed and unsigned, and is not a signed 128-bit number.
fn is_greatest_read(alloc: Global) -> bool {
    let octets = Octets::of("00FFFFFFFFFFFFFFFFFFFFFFFFFFFFFFFF");
    is_greatest(Integer::from_signed_octets(alloc, octets.all()))
        && is_greatest(Integer::from_unsigned_octets(alloc, octets.all()))
        && IntegerType::to_i128(&Integer::from(u128::MAX)).is_none()
        && IntegerType::to_i128(&Integer::from_i128(i128::MIN)) == Some(i128::MIN)
}

#[test]
fn long_and_short_integers(rt: HostRuntime) {
    let alloc = rt.alloc();
    assert!(rt; is_long_read(alloc) == Ok(true) && is_short(alloc) == Ok(true));
    assert!(rt; are_given_up(alloc) == Ok(true) && are_zero_and_one() && is_greatest_read(alloc));
}

/// Whether this is the sum of two numbers at 128 bits, the second of which is unsigned.
fn is_wrapped(number: Integer, other: Integer, wanted: &Integer) -> bool {
    IntegerType::wrapping_unsigned_add(number, other) == *wanted
}

fn is_minus_one(answer: Option<Integer>) -> bool {
    match answer {
        Some(number) => number == Integer::from(-1i8),
        None => false,
    }
}

/// Whether sums and differences outside 128 bits, with these bounds, are none.
fn are_ends(least: &Integer, greatest: &Integer) -> bool {
    greatest.checked_add(&Integer::ONE).is_none()
        && least.checked_sub(&Integer::ONE).is_none()
        && is_minus_one(greatest.checked_add(least))
        && is_minus_one(Integer::ZERO.checked_sub(&Integer::ONE))
}

/// Whether these two are the bounds, and the sums of them and of an unsigned number wrap.
fn have_ends() -> bool {
    let (least, greatest) = (Integer::from_i128(i128::MIN), Integer::from_i128(i128::MAX));
    let are_ends = are_ends(&least, &greatest);
    let is_least = is_wrapped(greatest, Integer::ONE, &least);
    let is_two = is_wrapped(
        Integer::from(u128::MAX),
        Integer::from(3u8),
        &Integer::from(2u8),
    );
    are_ends && is_least && is_two
}

/// Whether numbers are 64-bit numbers if they fit, and 128-bit numbers.
fn words_are_exact() -> bool {
    Integer::from(-1i8).to_i64() == Some(-1)
        && Integer::from(-1i8).to_u64().is_none()
        && Integer::from(u64::MAX).to_u64() == Some(u64::MAX)
        && Integer::from(u64::MAX).to_i64().is_none()
        && <Integer as IntegerType>::from_i128(i128::MIN) == Some(Integer::from_i128(i128::MIN))
}

/// Whether the error of converting 256 to a type of 8 bits is printed, copied and returns the number.
fn is_refusal_of_256(alloc: Global, refusal: TryFromIntegerError) -> bool {
    is_told(alloc, &refusal, "256 is outside the range of its type")
        && is_shown(
            alloc,
            &refusal,
            "TryFromIntegerError { original: Integer { kind: Primitive(256) } }",
        )
        && is_copied(&refusal) == Ok(true)
        && refusal != TryFromIntegerError::new(255)
        && refusal.into_original() == Integer::from(256u16)
}

/// Whether 256 is rejected in that way.
fn is_256_refused(alloc: Global) -> bool {
    match u8::try_from(Integer::from(256u16)) {
        Ok(_) => false,
        Err(refusal) => is_refusal_of_256(alloc, refusal),
    }
}

/// The message of each error.
const REASONS: [(IntegerError, &'static str); 3] = [
    (IntegerError::Empty, "no octets"),
    (
        IntegerError::Overflow,
        "the number is outside the range of its type",
    ),
    (IntegerError::Memory, "out of memory"),
];

/// The message that its error does not print, if there is one.
fn wrong_text(alloc: Global) -> Option<&'static str> {
    for (reason, text) in &REASONS {
        if !is_told(alloc, reason, text) {
            return Some(*text);
        }
    }
    None
}

#[test]
fn sums_and_conversions(rt: HostRuntime) {
    let alloc = rt.alloc();
    assert!(rt; have_ends() && words_are_exact() && is_256_refused(alloc));
    assert_none(&rt, &wrong_text(alloc));
    assert!(rt; is_shown(alloc, &IntegerError::Overflow, "Overflow"));
}

const LEAST: i64 = -5;

type Small = ConstrainedInteger<LEAST, 5>;

/// Whether numbers within a range are ordered and copied, and those next to it are not in it.
fn are_within(least: &Small, greatest: &Small) -> bool {
    greatest.to_i64() == Some(5)
        && is_before(least, greatest)
        && has_copy(least)
        && has_copy(greatest)
        && Small::try_from(-5i64).is_ok()
        && Small::try_from(6isize).is_err()
        && Small::try_from(-6i128).is_err()
}

#[test]
fn constrained_integers(rt: HostRuntime) {
    match (Small::try_from(-5i32), Small::try_from(5isize)) {
        (Ok(least), Ok(greatest)) => assert!(rt; are_within(&least, &greatest)),
        _ => assert!(rt; false),
    }
}

/// Whether a clone is equal. A failed allocation sets `granted` to false.
fn is_same_or_refused<T: Clone + PartialEq + Drop>(value: &T, granted: &mut bool) -> bool {
    match is_copied(value) {
        Ok(is_same) => is_same,
        Err(AllocError) => {
            *granted = false;
            true
        }
    }
}

/// Whether the error of converting the number to a type of 8 bits is copied, if there is memory for a copy.
fn is_copied_in_refusal(number: Integer, granted: &mut bool) -> bool {
    match u8::try_from(number) {
        Ok(_) => false,
        Err(refusal) => is_same_or_refused(&refusal, granted),
    }
}

/// Whether this is the number of the octets, and is copied alone and in an error, if there is memory for a copy.
fn is_number_copied(number: Integer, octets: &[u8], granted: &mut bool) -> bool {
    let is_same = is_same_or_refused(&number, granted);
    let is_read = has(&number.to_unsigned_bytes_be(), octets);
    is_copied_in_refusal(number, granted) && is_read && is_same
}

/// The number of the octets was read and copied, or memory ran out. Returns whether no allocation failed.
fn is_read_or_refused(
    rt: &impl Abort,
    answer: Result<Integer, IntegerError>,
    octets: &[u8],
) -> bool {
    let mut granted = true;
    let is_right = match answer {
        Ok(number) => is_number_copied(number, octets, &mut granted),
        Err(error) => {
            granted = false;
            error == IntegerError::Memory
        }
    };
    assert!(rt; is_right);
    granted
}

/// Reads numbers of twenty octets in each way; each is complete, or memory ran out. Returns whether no allocation
/// failed. What allocates nothing has to succeed.
pub fn requests(rt: &impl Abort, alloc: Global) -> bool {
    let octets = [1; 20];
    let own = is_read_or_refused(rt, Integer::try_from_bytes(alloc, &octets), &octets);
    let signed = is_read_or_refused(rt, Integer::try_from_signed_bytes(alloc, &octets), &octets);
    let plain = is_read_or_refused(
        rt,
        Integer::try_from_unsigned_bytes(alloc, &octets),
        &octets,
    );
    let whole = is_read_or_refused(rt, Integer::from_signed_octets(alloc, &octets), &octets);
    let octets = [0x80; 20];
    let natural = is_read_or_refused(rt, Integer::from_unsigned_octets(alloc, &octets), &octets);
    assert!(rt; is_greatest_read(alloc));
    own && signed && plain && whole && natural
}
