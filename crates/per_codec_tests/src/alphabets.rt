//! Widths and codes of characters under constraints (X.691 30.5).
use asn1_schema_constraints::{Extensible, PermittedAlphabet};
use asn1_values_strings::{BmpString, Ia5String, NumericString, PrintableString, VisibleString};
use per_codec_alphabets::EffectiveAlphabet;
use per_codec_reading::Variant;
use std::alloc::{AllocError, Global};
use std::test::Fail;

/// A type of strings.
#[derive(Clone, Copy)]
enum Kind {
    Numeric,
    Printable,
    Visible,
    Ia5,
    Bmp,
}

/// A string type, the variant, and the permitted characters, if there is a constraint, and whether it is extensible.
type Alphabet = (Kind, Variant, Option<(&'static [u32], bool)>);

/// Characters and their codes, a character without a code, and a code without a character.
type Codes = (&'static [(u32, u32)], Option<u32>, Option<u32>);

/// Alphabets, the widths of their codes in bits, and some of the codes.
const ROWS: [(Alphabet, u32, Codes); 17] = [
    (
        (Kind::Numeric, Variant::Unaligned, None),
        4,
        (
            &[(49, 2), (50, 3), (51, 4), (32, 0), (57, 10)],
            Some(65),
            Some(11),
        ),
    ),
    ((Kind::Numeric, Variant::Aligned, None), 4, NONE),
    ((Kind::Printable, Variant::Unaligned, None), 7, NONE),
    (
        (Kind::Printable, Variant::Aligned, None),
        8,
        (&[(32, 32), (65, 65), (122, 122)], Some(64), Some(64)),
    ),
    ((Kind::Visible, Variant::Unaligned, None), 7, NONE),
    ((Kind::Visible, Variant::Aligned, None), 8, NONE),
    ((Kind::Ia5, Variant::Unaligned, None), 7, NONE),
    ((Kind::Ia5, Variant::Aligned, None), 8, NONE),
    ((Kind::Bmp, Variant::Unaligned, None), 16, NONE),
    ((Kind::Bmp, Variant::Aligned, None), 16, NONE),
    (
        (Kind::Visible, Variant::Aligned, Some((&[48, 49], false))),
        1,
        (&[(48, 0), (49, 1)], None, None),
    ),
    (
        (
            Kind::Numeric,
            Variant::Aligned,
            Some((&[32, 49, 50, 51, 65, 57], false)),
        ),
        4,
        (&[(32, 0), (49, 1), (51, 3), (57, 4)], Some(65), Some(5)),
    ),
    // Codes ascend with the characters, in whatever order these are listed.
    (
        (
            Kind::Visible,
            Variant::Unaligned,
            Some((&[49, 48, 49], false)),
        ),
        1,
        (&[(48, 0), (49, 1)], Some(50), None),
    ),
    (
        (
            Kind::Visible,
            Variant::Unaligned,
            Some((&[97, 98, 65, 66, 67], false)),
        ),
        3,
        (&[(65, 0), (67, 2), (97, 3), (98, 4)], Some(68), Some(5)),
    ),
    // Nine characters, no two of them adjacent, in order and not.
    (
        (
            Kind::Visible,
            Variant::Unaligned,
            Some((&[48, 50, 52, 54, 56, 65, 67, 69, 71], false)),
        ),
        4,
        (&[(48, 0), (56, 4), (65, 5), (71, 8)], Some(49), Some(9)),
    ),
    (
        (
            Kind::Visible,
            Variant::Unaligned,
            Some((&[65, 67, 69, 71, 48, 50, 52, 54, 56], false)),
        ),
        4,
        (&[(48, 0), (56, 4), (65, 5), (71, 8)], Some(49), Some(9)),
    ),
    // A constraint with an extension marker does not count.
    (
        (Kind::Visible, Variant::Unaligned, Some((&[48, 49], true))),
        7,
        (&[(65, 65)], None, None),
    ),
];

const NONE: Codes = (&[], None, None);

/// The alphabet of a row.
fn alphabet(
    alloc: Global,
    (kind, variant, permitted): Alphabet,
) -> Result<EffectiveAlphabet, AllocError> {
    let permitted = permitted.map(|(characters, is_extensible)| {
        Extensible::new(PermittedAlphabet::new(characters)).set_extensible(is_extensible)
    });
    match kind {
        Kind::Numeric => EffectiveAlphabet::new::<NumericString>(alloc, variant, permitted),
        Kind::Printable => EffectiveAlphabet::new::<PrintableString>(alloc, variant, permitted),
        Kind::Visible => EffectiveAlphabet::new::<VisibleString>(alloc, variant, permitted),
        Kind::Ia5 => EffectiveAlphabet::new::<Ia5String>(alloc, variant, permitted),
        Kind::Bmp => EffectiveAlphabet::new::<BmpString>(alloc, variant, permitted),
    }
}

/// Whether a character, if there is one here, has no code.
fn has_no_code(alphabet: &EffectiveAlphabet, character: Option<u32>) -> bool {
    match character {
        Some(character) => alphabet.code(character).is_none(),
        None => true,
    }
}

/// Whether a code, if there is one here, has no character.
fn has_no_character(alphabet: &EffectiveAlphabet, code: Option<u32>) -> bool {
    match code {
        Some(code) => alphabet.character(code).is_none(),
        None => true,
    }
}

/// Whether a character has this code, and the code this character.
fn has_code(alphabet: &EffectiveAlphabet, character: u32, code: u32) -> bool {
    alphabet.code(character) == Some(u64::from(code)) && alphabet.character(code) == Some(character)
}

/// Whether each character has its code, and each code its character.
fn has_codes(alphabet: &EffectiveAlphabet, codes: &[(u32, u32)]) -> bool {
    for (character, code) in codes {
        if !has_code(alphabet, *character, *code) {
            return false;
        }
    }
    true
}

/// Whether an alphabet has codes of this width, these codes, and a character and a code without counterpart.
fn is_as_said(alphabet: &EffectiveAlphabet, width: u32, (codes, character, code): Codes) -> bool {
    alphabet.width() == width
        && has_codes(alphabet, codes)
        && has_no_code(alphabet, character)
        && has_no_character(alphabet, code)
}

/// Whether the alphabet of a row is as it says.
fn is_right(
    alloc: Global,
    (alphabet_of, width, codes): (Alphabet, u32, Codes),
) -> Result<bool, AllocError> {
    let alphabet = alphabet(alloc, alphabet_of)?;
    Ok(is_as_said(&alphabet, width, codes))
}

#[test]
fn codes_of_characters(rt: HostRuntime) -> Result<(), Fail> {
    for row in ROWS {
        assert!(rt; is_right(rt.alloc(), row)?);
    }
    Ok(())
}
