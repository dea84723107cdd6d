//! The shapes of fields to be read, and the fields read.
use asn1_values_alphabets::CharacterAlphabet;
use asn1_values_bit_strings::BitString;
use asn1_values_integers::Integer;

/// What kind of field is to be read.
#[derive(Clone, Copy, Debug)]
pub enum FieldShape<'a> {
    /// This number of bits.
    Bits(usize),
    /// A number of this many binary digits, at most 128, the most significant first.
    Number(u32),
    /// This number of octets.
    Octets(usize),
    /// An integer whose shortest encoding in two's complement has this number of octets (X.690 8.3).
    Whole(usize),
    /// `count` characters, by their codes in an alphabet (X.691 30.5).
    Characters {
        alphabet: &'a CharacterAlphabet,
        count: usize,
    },
}

/// A field that was read.
#[derive(Debug, PartialEq, Eq, Hash, Drop)]
pub enum FieldValue {
    /// Bits as they are.
    Bits(BitString),
    /// A number of `width` binary digits.
    Number { value: u128, width: u32 },
    /// Octets.
    Octets(Vec<u8>),
    /// An integer.
    Whole(Integer),
    /// Characters.
    Characters(Vec<u32>),
}
