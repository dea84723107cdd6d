//! Rows of strings of each kind: what they are made from, and their characters, or the error.
use crate::common::assert_none;
use asn1_values::{
    BitString, BmpString, CharacterKind, General, Graphic, Ia5, InvalidBmpString,
    InvalidGeneralString, InvalidGraphicString, InvalidIA5String, InvalidNumericString,
    InvalidPrintableString, InvalidRestrictedString, InvalidTeletexString, InvalidVisibleString,
    Numeric, OctetString, PermittedAlphabetError, Printable, RestrictedString,
    StaticPermittedAlphabet, Teletex, Visible,
};
use std::alloc::{AllocError, Global};
use std::convert::AsSlice;
use std::process::Abort;

/// A kind of string.
#[derive(Clone, Copy, Debug, PartialEq, Eq)]
pub enum Kind {
    Numeric,
    Printable,
    Visible,
    Ia5,
    General,
    Graphic,
    Teletex,
    Bmp,
}

pub const KINDS: [Kind; 8] = [
    Kind::Numeric,
    Kind::Printable,
    Kind::Visible,
    Kind::Ia5,
    Kind::General,
    Kind::Graphic,
    Kind::Teletex,
    Kind::Bmp,
];

/// The error of a kind of string for a character.
pub fn refusal(kind: Kind, character: u32) -> InvalidRestrictedString {
    match kind {
        Kind::Numeric => InvalidNumericString::from(character).into(),
        Kind::Printable => InvalidPrintableString::from(character).into(),
        Kind::Visible => InvalidVisibleString::from(character).into(),
        Kind::Ia5 => InvalidIA5String::from(character).into(),
        Kind::General => InvalidGeneralString::from(character).into(),
        Kind::Graphic => InvalidGraphicString::from(character).into(),
        Kind::Teletex => InvalidTeletexString::from(character).into(),
        Kind::Bmp => InvalidBmpString::from(character).into(),
    }
}

/// Whether a kind permits a character.
fn permits(kind: Kind, character: u32) -> bool {
    match kind {
        Kind::Numeric => Numeric::permits(character),
        Kind::Printable => Printable::permits(character),
        Kind::Visible => Visible::permits(character),
        Kind::Ia5 => Ia5::permits(character),
        Kind::General => General::permits(character),
        Kind::Graphic => Graphic::permits(character),
        Kind::Teletex => Teletex::permits(character),
        Kind::Bmp => BmpString::contains_char(character),
    }
}

/// The characters that a kind permits: these, or those from the first to the last.
enum Alphabet {
    These(&'static [u8]),
    FromTo(u32, u32),
}

impl Alphabet {
    fn has(&self, character: u32) -> bool {
        match self {
            Alphabet::These(octets) => {
                matches!(u8::try_from(character), Ok(octet) if octets.contains(&octet))
            }
            Alphabet::FromTo(first, last) => *first <= character && character <= *last,
        }
    }
}

/// The alphabets of X.680.
const ALPHABETS: [(Kind, Alphabet); 8] = [
    (Kind::Numeric, Alphabet::These(b" 0123456789")),
    (
        Kind::Printable,
        Alphabet::These(
            b" '()+,-./0123456789:=?ABCDEFGHIJKLMNOPQRSTUVWXYZabcdefghijklmnopqrstuvwxyz",
        ),
    ),
    (Kind::Visible, Alphabet::FromTo(32, 126)),
    (Kind::Ia5, Alphabet::FromTo(0, 127)),
    (Kind::General, Alphabet::FromTo(0, 255)),
    (Kind::Graphic, Alphabet::FromTo(0, 255)),
    (Kind::Teletex, Alphabet::FromTo(0, 255)),
    (Kind::Bmp, Alphabet::FromTo(0, 65535)),
];

/// Whether a kind permits exactly the characters of its alphabet.
fn permits_exactly(kind: Kind, alphabet: &Alphabet) -> bool {
    for character in 0..=0x1FFu32 {
        if permits(kind, character) != alphabet.has(character) {
            return false;
        }
    }
    permits(kind, 65535) == alphabet.has(65535)
        && permits(kind, 65536) == alphabet.has(65536)
        && permits(kind, u32::MAX) == alphabet.has(u32::MAX)
}

/// The kind that does not permit exactly its alphabet, if there is one.
fn wrong_kind() -> Option<Kind> {
    for (kind, alphabet) in &ALPHABETS {
        if !permits_exactly(*kind, alphabet) {
            return Some(*kind);
        }
    }
    None
}

#[test]
fn alphabets(rt: HostRuntime) {
    assert_none(&rt, &wrong_kind());
}

/// What a string is made from: borrowed octets, a borrowed text or a character; owned octets or an owned text; or a
/// number of zero bits.
#[derive(Clone, Copy)]
enum Source {
    Octets,
    Text,
    OwnedText,
    OctetString,
    BitString,
    Vector,
    Zeros,
    Character,
}

/// The text of a row, the octets that its digits encode, and the number that they encode.
#[derive(Drop)]
struct Parts<'a> {
    text: &'a str,
    octets: Vec<u8>,
    number: u32,
}

/// The string of an owned text.
fn of_string<S: TryFrom<String, Error = PermittedAlphabetError>>(
    alloc: Global,
    text: &str,
) -> Result<S, PermittedAlphabetError> {
    S::try_from(String::from_str(alloc, text)?)
}

/// The string of the octets of a bit string.
fn of_bits<S: TryFrom<BitString, Error = PermittedAlphabetError>>(
    alloc: Global,
    octets: &[u8],
) -> Result<S, PermittedAlphabetError> {
    S::try_from(BitString::from_slice(alloc, octets)?)
}

/// The string of the octets of a vector.
fn of_vector<S: TryFrom<Vec<u8>, Error = PermittedAlphabetError>>(
    alloc: Global,
    octets: &[u8],
) -> Result<S, PermittedAlphabetError> {
    S::try_from(Vec::from_slice(alloc, octets)?)
}

/// A bit string of `len` zero bits.
fn zeros(alloc: Global, len: usize) -> Result<BitString, AllocError> {
    let mut bits = BitString::new(alloc);
    for _ in 0..len {
        bits.push(false)?;
    }
    Ok(bits)
}

/// The string of `len` zero bits.
fn of_zeros<S: TryFrom<BitString, Error = PermittedAlphabetError>>(
    alloc: Global,
    len: usize,
) -> Result<S, PermittedAlphabetError> {
    S::try_from(zeros(alloc, len)?)
}

/// The string of one character.
fn of_character<S: StaticPermittedAlphabet + Drop>(
    alloc: Global,
    character: u32,
) -> Result<S, PermittedAlphabetError> {
    let mut string = S::empty(alloc);
    string.push_char(character)?;
    Ok(string)
}

/// The result of one call.
fn made<K: CharacterKind>(
    alloc: Global,
    source: Source,
    parts: &Parts<'_>,
) -> Result<RestrictedString<K>, PermittedAlphabetError> {
    match source {
        Source::Octets => RestrictedString::from_bytes(alloc, &parts.octets),
        Source::Text => RestrictedString::from_text(alloc, parts.text),
        Source::OwnedText => of_string(alloc, parts.text),
        Source::OctetString => RestrictedString::from_octet_string(
            alloc,
            OctetString::from_slice(alloc, &parts.octets)?,
        ),
        Source::BitString => of_bits(alloc, &parts.octets),
        Source::Vector => of_vector(alloc, &parts.octets),
        Source::Zeros => of_zeros(alloc, parts.number as usize),
        Source::Character => of_character(alloc, parts.number),
    }
}

/// The result of one call for a BMPString.
fn made_wide(
    alloc: Global,
    source: Source,
    parts: &Parts<'_>,
) -> Result<BmpString, PermittedAlphabetError> {
    match source {
        Source::Octets => BmpString::from_bytes(alloc, &parts.octets),
        Source::Text => BmpString::from_text(alloc, parts.text),
        Source::OwnedText => of_string(alloc, parts.text),
        Source::OctetString => {
            BmpString::from_octet_string(alloc, OctetString::from_slice(alloc, &parts.octets)?)
        }
        Source::BitString => of_bits(alloc, &parts.octets),
        Source::Vector => of_vector(alloc, &parts.octets),
        Source::Zeros => of_zeros(alloc, parts.number as usize),
        Source::Character => of_character(alloc, parts.number),
    }
}

/// What has to result: a string of these characters, an error for a character outside the alphabet, or an error
/// because the data are not whole characters.
#[derive(Drop)]
enum Wanted {
    Characters(Vec<u32>),
    Outside(u32),
    NoData,
}

/// The result: the right string or the right error, out of memory, or neither.
#[derive(Clone, Copy, PartialEq, Eq)]
enum Answer {
    Right,
    Memory,
    Wrong,
}

/// Whether a string has these characters, one by one and as a slice.
pub fn lists<T: Copy + Into<u32>, S: StaticPermittedAlphabet + AsSlice<T>>(
    string: &S,
    wanted: &[u32],
) -> bool {
    let characters = string.as_slice();
    for place in 0..string.char_count() {
        let is_same = match (characters.get(place), wanted.get(place)) {
            (Some(found), Some(character)) => {
                let found: u32 = (*found).into();
                found == *character && string.char_at(place) == *character
            }
            _ => false,
        };
        if !is_same {
            return false;
        }
    }
    string.char_count() == wanted.len() && characters.len() == wanted.len()
}

/// Whether the error is right.
fn judged_error(kind: Kind, error: PermittedAlphabetError, wanted: &Wanted) -> Answer {
    let is_right = match (error, wanted) {
        (PermittedAlphabetError::Memory(_), _) => return Answer::Memory,
        (PermittedAlphabetError::InvalidRestrictedString(outside), Wanted::Outside(character)) => {
            outside == refusal(kind, *character)
        }
        (PermittedAlphabetError::InvalidData, Wanted::NoData) => true,
        _ => false,
    };
    if is_right {
        Answer::Right
    } else {
        Answer::Wrong
    }
}

/// Whether the result is right if a string of these characters is wanted.
fn judged_slice<T: Copy + Into<u32>, S: StaticPermittedAlphabet + AsSlice<T> + Drop>(
    kind: Kind,
    answer: Result<S, PermittedAlphabetError>,
    wanted: &[u32],
) -> Answer {
    match answer {
        Ok(string) if lists(&string, wanted) => Answer::Right,
        Ok(_) => Answer::Wrong,
        Err(error) => judged_error(kind, error, &Wanted::NoData),
    }
}

/// Whether the result is right.
fn judged<T: Copy + Into<u32>, S: StaticPermittedAlphabet + AsSlice<T> + Drop>(
    kind: Kind,
    answer: Result<S, PermittedAlphabetError>,
    wanted: &Wanted,
) -> Answer {
    match answer {
        Ok(string) => match wanted {
            Wanted::Characters(characters) if lists(&string, characters) => Answer::Right,
            _ => Answer::Wrong,
        },
        Err(error) => judged_error(kind, error, wanted),
    }
}

/// Makes a call and says whether its result is right.
fn answer_to(
    alloc: Global,
    (kind, source): (Kind, Source),
    parts: &Parts<'_>,
    wanted: &Wanted,
) -> Answer {
    match kind {
        Kind::Numeric => judged(kind, made::<Numeric>(alloc, source, parts), wanted),
        Kind::Printable => judged(kind, made::<Printable>(alloc, source, parts), wanted),
        Kind::Visible => judged(kind, made::<Visible>(alloc, source, parts), wanted),
        Kind::Ia5 => judged(kind, made::<Ia5>(alloc, source, parts), wanted),
        Kind::General => judged(kind, made::<General>(alloc, source, parts), wanted),
        Kind::Graphic => judged(kind, made::<Graphic>(alloc, source, parts), wanted),
        Kind::Teletex => judged(kind, made::<Teletex>(alloc, source, parts), wanted),
        Kind::Bmp => judged(kind, made_wide(alloc, source, parts), wanted),
    }
}

/// The kind of this name.
fn kind_of(name: &str) -> Option<Kind> {
    match name {
        "numeric" => Some(Kind::Numeric),
        "printable" => Some(Kind::Printable),
        "visible" => Some(Kind::Visible),
        "ia5" => Some(Kind::Ia5),
        "general" => Some(Kind::General),
        "graphic" => Some(Kind::Graphic),
        "teletex" => Some(Kind::Teletex),
        "bmp" => Some(Kind::Bmp),
        _ => None,
    }
}

/// The source of this name.
fn source_of(name: &str) -> Option<Source> {
    match name {
        "octets" => Some(Source::Octets),
        "text" => Some(Source::Text),
        "owned" => Some(Source::OwnedText),
        "shared" => Some(Source::OctetString),
        "bits" => Some(Source::BitString),
        "vector" => Some(Source::Vector),
        "zeros" => Some(Source::Zeros),
        "character" => Some(Source::Character),
        _ => None,
    }
}

/// The number of hexadecimal digits; of other words 0.
pub fn number_of(digits: &str) -> u32 {
    u32::from_str_radix(digits, 16).unwrap_or(0)
}

/// The numbers of words of hexadecimal digits.
pub fn numbers_of(alloc: Global, words: &str) -> Result<Vec<u32>, AllocError> {
    let mut numbers = Vec::new(alloc);
    for word in words.split_whitespace() {
        numbers.push(number_of(word))?;
    }
    Ok(numbers)
}

/// The octets of two hexadecimal digits each, with a full stop between two of them.
fn octets_of(alloc: Global, digits: &str) -> Result<Vec<u8>, AllocError> {
    let mut octets = Vec::new(alloc);
    for word in digits.split('.') {
        octets.push(u8::from_str_radix(word, 16).unwrap_or(0))?;
    }
    Ok(octets)
}

/// What has to result, from a sign and numbers: `=` characters, `!` a character outside the alphabet, `?` not whole
/// characters.
fn wanted_of(alloc: Global, sign: &str, numbers: &str) -> Result<Wanted, AllocError> {
    Ok(match sign {
        "=" => Wanted::Characters(numbers_of(alloc, numbers)?),
        "!" => Wanted::Outside(number_of(numbers)),
        _ => Wanted::NoData,
    })
}

/// Makes the call of a row and says whether its result is right.
fn answer_to_row(
    alloc: Global,
    (kind, source, text): (&str, &str, &str),
    wanted: &Wanted,
) -> Result<Answer, AllocError> {
    let parts = Parts {
        text,
        octets: octets_of(alloc, text)?,
        number: number_of(text),
    };
    match (kind_of(kind), source_of(source)) {
        (Some(kind), Some(source)) => Ok(answer_to(alloc, (kind, source), &parts, wanted)),
        _ => Ok(Answer::Wrong),
    }
}

/// Whether the result of the call of a row is right, or memory runs out.
fn is_row(alloc: Global, row: &str) -> Result<bool, AllocError> {
    let mut words = row.splitn(5, ' ');
    let kind = words.next().unwrap_or("");
    let source = words.next().unwrap_or("");
    let text = words.next().unwrap_or("");
    let sign = words.next().unwrap_or("");
    let wanted = wanted_of(alloc, sign, words.next().unwrap_or(""))?;
    match answer_to_row(alloc, (kind, source, text), &wanted)? {
        Answer::Right => Ok(true),
        Answer::Memory => Err(AllocError),
        Answer::Wrong => Ok(false),
    }
}

/// Strings of static octets.
fn of_static_octets(alloc: Global) -> [Answer; 2] {
    let narrow = RestrictedString::<Numeric>::from_octet_string(
        alloc,
        OctetString::from_static(b"12"),
    );
    let wide = BmpString::from_octet_string(alloc, OctetString::from_static(&[0x20, 0xAC]));
    [
        judged_slice(Kind::Numeric, narrow, &[0x31, 0x32]),
        judged_slice(Kind::Bmp, wide, &[0x20AC]),
    ]
}

/// The row whose string is not made as it says, if there is one. A failed allocation sets `granted` to false.
fn wrong_row(alloc: Global, granted: &mut bool) -> Option<&'static str> {
    for row in ROWS.lines() {
        match is_row(alloc, row) {
            Ok(true) => {}
            Ok(false) => return Some(row),
            Err(AllocError) => *granted = false,
        }
    }
    None
}

/// Makes each string of the rows; the result is right, or memory ran out. Returns whether no allocation failed.
pub fn requests(rt: &impl Abort, alloc: Global) -> bool {
    let mut granted = true;
    assert_none(rt, &wrong_row(alloc, &mut granted));
    for answer in of_static_octets(alloc) {
        assert!(rt; answer != Answer::Wrong);
        granted &= answer == Answer::Right;
    }
    granted
}

/// The rows: a kind, what a string is made from, and what has to result, with hexadecimal numbers. First octets of
/// each alphabet, and octets with one outside it; then the first and the last characters of each alphabet, and those
/// next to them; borrowed texts, where E9 is one octet of a TeletexString and two of the text, and owned texts; octets
/// in each other form; and zero bits, which are whole characters or not.
const ROWS: &str = "\
numeric octets 31.32.33 = 31 32 33
printable octets 4A.6F.20.28.31.29.3F = 4A 6F 20 28 31 29 3F
visible octets 61.7E.62 = 61 7E 62
ia5 octets 00.7F = 00 7F
general octets 00.FF = 00 FF
graphic octets 00.FF = 00 FF
teletex octets 00.FF = 00 FF
numeric octets 31.32.61.33.62 ! 61
printable octets 61.2A ! 2A
visible octets 80 ! 80
ia5 octets 7F.80 ! 80
numeric octets 20.39 = 20 39
numeric character 1F ! 1F
numeric character 21 ! 21
numeric character 2F ! 2F
numeric character 3A ! 3A
printable octets 20.7A = 20 7A
printable character 1F ! 1F
printable character 21 ! 21
printable character 2A ! 2A
printable character 40 ! 40
printable character 5B ! 5B
printable character 60 ! 60
printable character 7B ! 7B
visible octets 20.7E = 20 7E
visible character 1F ! 1F
visible character 7F ! 7F
ia5 octets 00.7F = 00 7F
ia5 character 80 ! 80
general octets 00.FF = 00 FF
general character 100 ! 100
graphic octets 00.FF = 00 FF
graphic character 100 ! 100
teletex octets 00.FF = 00 FF
teletex character 100 ! 100
bmp character 10000 ! 10000
bmp character FFFFFFFF ! FFFFFFFF
ia5 text Jo = 4A 6F
teletex text \u{E9} = E9
visible text a\u{E9}b\u{FF} ! E9
general text a\u{100} ! 100
bmp text A\u{20AC} = 41 20AC
bmp text A\u{1F600}\u{1F601} ! 1F600
bmp text \u{20AC} = 20AC
printable owned Jo = 4A 6F
graphic owned a\u{E9} = 61 E9
numeric owned 1a ! 61
ia5 owned 1\u{E9} ! E9
graphic owned \u{E9}a = E9 61
graphic owned a = 61
bmp owned \u{20AC}B = 20AC 42
bmp owned \u{10000} ! 10000
bmp owned \u{20AC} = 20AC
numeric shared 34.32 = 34 32
numeric bits 34.32 = 34 32
numeric vector 34.32 = 34 32
numeric shared 34.78 ! 78
numeric bits 34.78 ! 78
numeric vector 34.78 ! 78
numeric octets 31.32 = 31 32
bmp octets 00.41.20.AC = 41 20AC
bmp octets 00.41.20 ?
bmp octets 20.AC = 20AC
bmp shared 20.AC = 20AC
bmp bits 20.AC = 20AC
bmp vector 20.AC = 20AC
bmp shared 41 ?
bmp bits 41 ?
bmp vector 41 ?
ia5 zeros 9 ?
ia5 zeros 10 = 00 00
ia5 zeros 8 = 00
bmp zeros 18 ?
bmp zeros 10 = 00";
