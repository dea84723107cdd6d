//! What strings contain, how they are compared, copied and printed, and their state after a failed allocation.
use crate::rows::lists;
use crate::{alphabets, rows};
use asn1_values::{
    BmpString, GeneralString, GraphicString, Ia5String, NumericString, OctetString,
    PermittedAlphabetError, PrintableString, RestrictedString, StaticPermittedAlphabet, TextKind,
    Visible, VisibleString,
};
use std::alloc::{AllocError, Global};
use std::cmp::Ordering;
use std::convert::AsSlice;
use std::default::MadeWith;
use std::fmt::Debug;
use std::hash::{BuildHasher, BuildHasherDefault, DefaultHasher, Hash};
use std::process::Abort;

/// A string of these characters. After a failed allocation, a character is appended again.
fn made<S: StaticPermittedAlphabet + Drop>(
    alloc: Global,
    characters: &[u32],
) -> Result<S, PermittedAlphabetError> {
    let mut string = S::empty(alloc);
    for character in characters {
        if !is_pushed(&mut string, *character) {
            return Err(PermittedAlphabetError::Other);
        }
    }
    Ok(string)
}

/// Appends a character, again after a failed allocation. Returns whether it was appended.
fn is_pushed<S: StaticPermittedAlphabet>(string: &mut S, character: u32) -> bool {
    match string.push_char(character) {
        Err(PermittedAlphabetError::Memory(_)) => string.push_char(character).is_ok(),
        pushed => pushed.is_ok(),
    }
}

/// Appends characters to an empty string; each that is permitted has to succeed. Returns whether the string then has
/// the wanted ones.
fn takes<T: Copy + Into<u32>, S: StaticPermittedAlphabet + AsSlice<T> + Drop>(
    alloc: Global,
    characters: &[(u32, bool)],
    wanted: &[u32],
) -> bool {
    let mut string = S::empty(alloc);
    for (character, is_permitted) in characters {
        if is_pushed(&mut string, *character) != *is_permitted {
            return false;
        }
    }
    lists(&string, wanted)
}

/// An empty string with room, allocated again after a failed allocation.
fn roomy<S: StaticPermittedAlphabet>(alloc: Global, count: usize) -> Result<S, AllocError> {
    match S::with_capacity(alloc, count) {
        Err(AllocError) => S::with_capacity(alloc, count),
        roomy => roomy,
    }
}

/// Whether the empty string of a type, one with room, and one made with an allocator by the trait have no characters.
fn are_made_empty<T, S: StaticPermittedAlphabet + MadeWith<Global> + PartialEq + AsSlice<T> + Drop>(
    alloc: Global,
) -> bool {
    let empty = S::empty(alloc);
    let made = S::made_with(alloc);
    let is_empty_with_room = match roomy::<S>(alloc, 4) {
        Ok(with_room) => with_room.char_count() == 0,
        Err(AllocError) => false,
    };
    empty.char_count() == 0 && empty.as_slice().is_empty() && made == empty && is_empty_with_room
}

/// Whether a new string of octets has no characters.
fn is_empty_of_octets(alloc: Global) -> bool {
    let string = GeneralString::new(alloc);
    string.is_empty() && string.chars().next() == None
}

/// Whether a new BMPString has no characters.
fn is_empty_of_pairs(alloc: Global) -> bool {
    let string = BmpString::new(alloc);
    string.is_empty()
}

#[test]
fn appended_characters(rt: HostRuntime) {
    let alloc = rt.alloc();
    let digits = [(0x31, true), (0x41, false), (0x131, false), (0x32, true)];
    assert!(rt; takes::<u8, NumericString>(alloc, &digits, &[0x31, 0x32]));
    let pairs = [(0xFFFF, true), (0x10000, false), (0, true)];
    assert!(rt; takes::<u16, BmpString>(alloc, &pairs, &[0xFFFF, 0]));
    assert!(rt; are_made_empty::<u8, GeneralString>(alloc) && is_empty_of_octets(alloc));
    assert!(rt; are_made_empty::<u16, BmpString>(alloc) && is_empty_of_pairs(alloc));
}

/// Whether the octets that a call returns are the wanted ones.
fn are_given(first: Result<Vec<u8>, AllocError>, wanted: &[u8]) -> bool {
    match first {
        Ok(octets) => octets.as_slice() == wanted,
        Err(AllocError) => false,
    }
}

/// The first results of the iterator of a string.
fn first_four(string: &PrintableString) -> [Option<u32>; 4] {
    let mut characters = string.chars();
    [
        characters.next(),
        characters.next(),
        characters.next(),
        characters.next(),
    ]
}

/// The first results of the iterator of a BMPString.
fn first_four_pairs(string: &BmpString) -> [Option<u32>; 4] {
    let mut characters = string.chars();
    [
        characters.next(),
        characters.next(),
        characters.next(),
        characters.next(),
    ]
}

/// Whether a string has the characters 65 and 98, borrowed and moved.
fn has_two_octets(alloc: Global, string: PrintableString) -> bool {
    let is_lent = string.len() == 2
        && !string.is_empty()
        && string.as_bytes() == b"Ab".as_slice()
        && first_four(&string) == [Some(65), Some(98), None, None]
        && lists(&string, &[65, 98])
        && are_given(string.to_bytes(alloc), b"Ab");
    let octets = string.into_vec();
    is_lent && octets.as_slice() == b"Ab".as_slice()
}

/// Whether a BMPString has the characters 41 and 20AC, borrowed and moved, also as octets.
fn has_two_pairs(alloc: Global, string: BmpString) -> bool {
    let is_lent = string.len() == 2
        && string.as_units() == [0x41, 0x20AC].as_slice()
        && first_four_pairs(&string) == [Some(0x41), Some(0x20AC), None, None]
        && lists(&string, &[0x41, 0x20AC])
        && are_given(string.to_bytes(alloc), &[0x00, 0x41, 0x20, 0xAC]);
    let units = string.into_vec();
    is_lent && units.as_slice() == [0x41, 0x20AC].as_slice()
}

/// Whether strings of two characters have them.
fn have_two(alloc: Global) -> Result<bool, PermittedAlphabetError> {
    Ok(
        has_two_octets(alloc, made(alloc, &[65, 98])?)
            && has_two_pairs(alloc, made(alloc, &[0x41, 0x20AC])?),
    )
}

/// Whether a string is made again from its own octets.
fn is_made_again(alloc: Global) -> Result<bool, PermittedAlphabetError> {
    let string = BmpString::from(Vec::from_slice(alloc, &[0, 1, 0x20AC, 0xFFFF])?);
    let again = BmpString::try_from(string.to_bytes(alloc)?)?;
    Ok(again == string)
}

#[test]
fn characters_of_strings(rt: HostRuntime) {
    assert!(rt; matches!(have_two(rt.alloc()), Ok(true)));
    assert!(rt; matches!(is_made_again(rt.alloc()), Ok(true)));
}

/// Whether two values are ordered in this way, by each comparison.
fn is_before<T: Ord>(first: &T, second: &T) -> bool {
    first < second && first != second && first.cmp(second) == Ordering::Less
}

/// The hash of a value.
fn hash_of<T: Hash + Drop>(value: T) -> u64 {
    BuildHasherDefault::<DefaultHasher>::new().hash_one(value)
}

/// A clone, made again after a failed allocation.
fn copied<S: Clone>(string: &S) -> Result<S, AllocError> {
    match string.clone() {
        Ok(copy) => Ok(copy),
        Err(AllocError) => Ok(string.clone()?),
    }
}

/// Whether a clone is equal to its string, and has its hash and that of the characters.
fn is_copied<T: Hash, S: Clone + Hash + PartialEq + AsSlice<T> + Drop>(string: &S) -> bool {
    match copied(string) {
        Ok(copy) => {
            copy == *string
                && hash_of(&copy) == hash_of(string)
                && hash_of(&copy) == hash_of(string.as_slice())
        }
        Err(AllocError) => false,
    }
}

/// Whether three strings are in this order, and the first is cloned.
fn are_ordered<T: Hash, S: StaticPermittedAlphabet + Ord + Clone + Hash + AsSlice<T> + Drop>(
    alloc: Global,
    [first, second, third]: [&[u32]; 3],
) -> Result<bool, PermittedAlphabetError> {
    let first = made::<S>(alloc, first)?;
    let second = made::<S>(alloc, second)?;
    let third = made::<S>(alloc, third)?;
    Ok(is_before(&first, &second) && is_before(&second, &third) && is_copied(&first))
}

/// Whether strings are ordered by the first characters in which they differ.
fn are_in_order(alloc: Global) -> Result<bool, PermittedAlphabetError> {
    Ok(
        are_ordered::<u8, GraphicString>(alloc, [&[1, 2], &[1, 3], &[2]])?
            && are_ordered::<u16, BmpString>(alloc, [&[0x41, 0xFF], &[0x41, 0x100], &[0x42]])?,
    )
}

/// The string "Jo" of a kind of ASCII characters, made again after a failed allocation.
fn jo<K: TextKind>(alloc: Global) -> Result<RestrictedString<K>, PermittedAlphabetError> {
    match RestrictedString::from_iso646_bytes(alloc, b"Jo") {
        Err(PermittedAlphabetError::Memory(_)) => {
            RestrictedString::from_iso646_bytes(alloc, b"Jo")
        }
        settled => settled,
    }
}

/// How a string is printed: as it is, in four columns, and by `Debug`.
fn shown(alloc: Global, string: &VisibleString) -> Result<String, AllocError> {
    format!(in alloc; "{string} {string:>4} {string:?}")
}

/// How a value is printed.
fn shown_value<T: Debug>(alloc: Global, value: &T) -> Result<String, AllocError> {
    format!(in alloc; "{value:?}")
}

/// Whether a call prints this text.
fn is_text(text: Result<String, AllocError>, wanted: &str) -> bool {
    match text {
        Ok(text) => text.as_str() == wanted,
        Err(AllocError) => false,
    }
}

/// Whether a string is the text "Jo", borrowed, printed and moved.
fn is_jo(alloc: Global, string: VisibleString) -> bool {
    let is_lent = string.as_str() == "Jo"
        && string.as_iso646_bytes() == b"Jo".as_slice()
        && is_text(shown(alloc, &string), "Jo   Jo VisibleString([74, 111])");
    let text = String::from(string);
    is_lent && text.as_str() == "Jo"
}

/// The octets of a string of two characters.
fn octets_of(alloc: Global) -> Result<OctetString, PermittedAlphabetError> {
    let string = Ia5String::from_iso646_bytes(alloc, b"Jo")?;
    Ok(OctetString::try_from(string)?)
}

/// Whether texts are printed, and octets returned.
fn are_texts(alloc: Global) -> Result<bool, PermittedAlphabetError> {
    let wide = made::<BmpString>(alloc, &[65])?;
    Ok(
        is_jo(alloc, jo::<Visible>(alloc)?)
            && is_text(shown_value(alloc, &wide), "BMPString([65])")
            && octets_of(alloc)?.as_slice() == b"Jo".as_slice(),
    )
}

/// Whether a text makes an IA5String with these octets.
fn is_iso646(alloc: Global, text: &str, octets: &[u8]) -> bool {
    match Ia5String::from_text(alloc, text) {
        Ok(string) => string.as_iso646_bytes() == octets,
        Err(_) => false,
    }
}

#[test]
fn orders_and_texts(rt: HostRuntime) {
    let alloc = rt.alloc();
    assert!(rt; matches!(are_in_order(alloc), Ok(true)) && matches!(are_texts(alloc), Ok(true)));
    assert!(rt; is_iso646(alloc, "Jo", b"Jo"));
}

/// Whether the allocations of a call succeeded; then its result has to be these items, and else its error is `Memory`.
fn is_whole<T: PartialEq, S: AsSlice<T> + Drop>(
    rt: &impl Abort,
    answer: Result<S, PermittedAlphabetError>,
    wanted: &[T],
) -> bool {
    let (is_granted, is_right) = match answer {
        Ok(value) => (true, value.as_slice() == wanted),
        Err(error) => (false, matches!(error, PermittedAlphabetError::Memory(_))),
    };
    assert!(rt; is_right);
    is_granted
}

/// Whether there are twenty items, all of them `wanted`.
fn are_twenty<T: PartialEq>(items: &[T], wanted: &T) -> bool {
    for item in items {
        if item != wanted {
            return false;
        }
    }
    items.len() == 20
}

/// Appends a character twenty times, which makes a string of twenty items, and clones it. After a failed allocation
/// the string has to be unchanged. Returns whether none failed.
fn appends<T: PartialEq, S: StaticPermittedAlphabet + Clone + AsSlice<T> + Drop>(
    rt: &impl Abort,
    string: &mut S,
    character: u32,
    item: &T,
) -> bool {
    let mut granted = true;
    for count in 0..20 {
        if string.push_char(character).is_err() {
            granted = false;
            assert!(rt; string.char_count() == count && string.push_char(character).is_ok());
        }
    }
    assert!(rt; are_twenty(string.as_slice(), item));
    let copied = string.clone().map_err(PermittedAlphabetError::Memory);
    granted & is_whole(rt, copied, string.as_slice())
}

/// Whether the allocations of a call succeeded; then its result has to be forty octets.
fn gives_forty(rt: &impl Abort, answer: Result<Vec<u8>, AllocError>) -> bool {
    match answer {
        Ok(octets) => {
            assert!(rt; octets.len() == 40);
            true
        }
        Err(AllocError) => false,
    }
}

/// Takes the octets of an empty string; a failed allocation has to return it. Returns whether none failed.
fn gives_no_octets(rt: &impl Abort, alloc: Global) -> bool {
    let (is_granted, is_empty) = match OctetString::try_from(Ia5String::new(alloc)) {
        Ok(octets) => (true, octets.is_empty()),
        Err(refused) => (false, refused.value.is_empty()),
    };
    assert!(rt; is_empty);
    is_granted
}

/// Appends characters, clones the strings and takes octets. Returns whether no allocation failed.
fn grows(rt: &impl Abort, alloc: Global) -> bool {
    let mut narrow = NumericString::new(alloc);
    let mut granted = appends(rt, &mut narrow, 0x31, &0x31);
    let octets = narrow
        .to_bytes(alloc)
        .map_err(PermittedAlphabetError::Memory);
    granted &= is_whole(rt, octets, narrow.as_bytes());
    let mut wide = BmpString::new(alloc);
    granted &= appends(rt, &mut wide, 0x20AC, &0x20AC);
    granted &= gives_forty(rt, wide.to_bytes(alloc));
    granted &= gives_no_octets(rt, alloc);
    granted & is_whole(rt, octets_of(alloc), b"Jo")
}

/// Makes the strings and alphabets of all rows, and grows strings. Returns whether no allocation failed.
fn requests(rt: &impl Abort, alloc: Global) -> bool {
    let rows = rows::requests(rt, alloc);
    let alphabets = alphabets::requests(rt, alloc);
    let iso646 = is_whole(rt, Ia5String::from_iso646_bytes(alloc, b"Jo"), b"Jo");
    let grown = grows(rt, alloc);
    rows && alphabets && iso646 && grown
}

#[test]
fn refused_requests(rt: HostRuntime) {
    let _granted = requests(&rt, rt.alloc());
}

#[test]
fn ample_requests(rt: HostRuntime) {
    assert!(rt; requests(&rt, rt.alloc()));
}
