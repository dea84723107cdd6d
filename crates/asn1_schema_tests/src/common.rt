//! Helpers of the tests: they write values to the encoder that keeps records, and read them back.
use asn1_schema::records::{Item, Limits, RecordDecoder, RecordEncoder, Sizes};
use asn1_schema::{
    Chosen, CodecKind, Constraints, Decode, DecodeError, Decoder, Encode, EncodeError, Encoder,
};
use asn1_values_integers::Integer;
use std::alloc::Global;

/// What a record has to be.
#[derive(Clone, Copy)]
pub enum Wanted {
    Flag(bool),
    Null,
    Integer(Option<i128>, Option<i128>, i128),
    OneOf(bool, isize),
    Bits(usize, &'static [u8]),
    Octets(&'static [u8]),
    Text(&'static str),
    Characters(&'static [u32]),
    Identifier(&'static [u32]),
    List(usize, Option<usize>, usize),
    Further(bool),
    Sequence(bool, usize),
    Set(bool, usize),
    Group(usize),
    Additions(usize),
    Addition(bool),
    AdditionEnds,
    Choice(bool, Chosen),
    Ends,
}

const ANY_SIZE: Sizes = Sizes {
    low: 0,
    high: None,
    extensible: false,
};

/// Whether bounds without an extension marker are these.
fn are_limits(limits: &Limits, low: Option<i128>, high: Option<i128>) -> bool {
    limits.low == low && limits.high == high && !limits.extensible
}

/// Whether a record of a value is the wanted one.
fn is_value(item: &Item, wanted: &Wanted) -> bool {
    match (item, wanted) {
        (Item::Flag(found), Wanted::Flag(flag)) => found == flag,
        (Item::Null, Wanted::Null) => true,
        (Item::Integer(limits, found), Wanted::Integer(low, high, number)) => {
            are_limits(limits, *low, *high) && found.to_i128() == Some(*number)
        }
        (Item::OneOf(told, found), Wanted::OneOf(is_extensible, number)) => {
            told == is_extensible && found == number
        }
        (Item::Bits(sizes, found), Wanted::Bits(len, octets)) => {
            *sizes == ANY_SIZE && found.len() == *len && found.as_bytes() == *octets
        }
        (Item::Octets(sizes, found), Wanted::Octets(octets)) => {
            *sizes == ANY_SIZE && found.as_slice() == *octets
        }
        (Item::Text(sizes, found), Wanted::Text(text)) => {
            *sizes == ANY_SIZE && found.as_str() == *text
        }
        (Item::Characters(sizes, found), Wanted::Characters(characters)) => {
            *sizes == ANY_SIZE && found.as_slice() == *characters
        }
        (Item::Identifier(found), Wanted::Identifier(arcs)) => found.as_slice() == *arcs,
        _ => false,
    }
}

/// Whether a record that begins, divides or ends a value is the wanted one.
fn is_frame(item: &Item, wanted: &Wanted) -> bool {
    match (item, wanted) {
        (Item::ListBegins(sizes, found), Wanted::List(low, high, count)) => {
            sizes.low == *low && sizes.high == *high && found == count
        }
        (Item::Further(found), Wanted::Further(more)) => found == more,
        (Item::SequenceBegins(told, found), Wanted::Sequence(is_extensible, optional)) => {
            told == is_extensible && found == optional
        }
        (Item::SetBegins(told, found), Wanted::Set(is_extensible, optional)) => {
            told == is_extensible && found == optional
        }
        (Item::GroupBegins(found), Wanted::Group(optional)) => found == optional,
        (Item::AdditionsBegin(found), Wanted::Additions(count)) => found == count,
        (Item::Addition(found), Wanted::Addition(is_there)) => found == is_there,
        (Item::AdditionEnds, Wanted::AdditionEnds) => true,
        (Item::ChoiceBegins(told, found), Wanted::Choice(is_extensible, chosen)) => {
            told == is_extensible && found == chosen
        }
        (Item::Ends, Wanted::Ends) => true,
        _ => false,
    }
}

/// Whether the records are the wanted ones.
pub fn are_records(items: &[Item], wanted: &[Wanted]) -> bool {
    for (place, item) in items.iter().enumerate() {
        match wanted.get(place) {
            Some(wanted) if is_value(item, wanted) || is_frame(item, wanted) => {}
            _ => return false,
        }
    }
    items.len() == wanted.len()
}

/// The records of a value under these constraints or by its type, if it is encoded.
fn records_of<T: Encode>(
    alloc: Global,
    value: &T,
    constraints: Option<Constraints>,
    kind: CodecKind,
) -> Option<Vec<Item>> {
    let mut encoder = RecordEncoder::new(alloc, kind);
    let answer = match constraints {
        Some(constraints) => value.encode_with_constraints(&mut encoder, &constraints),
        None => value.encode(&mut encoder),
    };
    match answer {
        Ok(()) => Some(encoder.into_items()),
        Err(_) => None,
    }
}

/// Whether a value has these records under these constraints or by its type, in COER and in UPER.
pub fn is_written_under<T: Encode>(
    alloc: Global,
    value: &T,
    constraints: Option<Constraints>,
    wanted: &[Wanted],
) -> bool {
    for kind in [CodecKind::Coer, CodecKind::Uper] {
        match records_of(alloc, value, constraints, kind) {
            Some(items) if are_records(&items, wanted) => {}
            _ => return false,
        }
    }
    true
}

/// Whether a value has these records.
pub fn is_written<T: Encode>(alloc: Global, value: &T, wanted: &[Wanted]) -> bool {
    is_written_under(alloc, value, None, wanted)
}

/// Whether a record is this number with these bounds.
fn is_integer(item: &Item, low: Option<i128>, high: Option<i128>, number: &Integer) -> bool {
    match item {
        Item::Integer(limits, found) => are_limits(limits, low, high) && found == number,
        _ => false,
    }
}

/// Whether a value has one record, which is this number with these bounds.
pub fn is_number<T: Encode>(
    alloc: Global,
    value: &T,
    (low, high): (Option<i128>, Option<i128>),
    number: &Integer,
) -> bool {
    match records_of(alloc, value, None, CodecKind::Coer) {
        Some(items) => match items.as_slice() {
            [item] => is_integer(item, low, high, number),
            _ => false,
        },
        None => false,
    }
}

/// An encoder with no records.
pub fn encoder(alloc: Global) -> RecordEncoder {
    RecordEncoder::new(alloc, CodecKind::Coer)
}

/// A decoder of the records that an encoder has kept.
pub fn decoder(encoder: RecordEncoder) -> RecordDecoder {
    RecordDecoder::new(encoder.into_items(), CodecKind::Coer)
}

/// Writes a value to an encoder, through the trait bound.
pub fn write<T: Encode, E: Encoder>(encoder: &mut E, value: &T) -> Result<(), EncodeError> {
    value.encode(encoder)
}

/// Reads a value from a decoder, through the trait bound.
pub fn found<T: Decode, D: Decoder>(alloc: Global, decoder: &mut D) -> Result<T, DecodeError> {
    T::decode(alloc, decoder)
}

/// A value read back from the records of another.
pub fn read_back<A: Encode, B: Decode>(alloc: Global, value: &A) -> Result<B, DecodeError> {
    let mut encoder = encoder(alloc);
    match write(&mut encoder, value) {
        Ok(()) => found(alloc, &mut decoder(encoder)),
        Err(EncodeError::OutOfMemory) => Err(DecodeError::OutOfMemory),
        Err(_) => Err(DecodeError::AlreadyFailed),
    }
}

/// Whether the records of a value are read as `wanted`.
pub fn is_read_back_as<A: Encode, B: Decode + PartialEq>(
    alloc: Global,
    value: &A,
    wanted: &B,
) -> bool {
    match read_back::<A, B>(alloc, value) {
        Ok(read) => read == *wanted,
        Err(_) => false,
    }
}

/// Whether a value has these records, and is read back from them.
pub fn is_kept<T: Encode + Decode + PartialEq>(
    alloc: Global,
    value: &T,
    wanted: &[Wanted],
) -> bool {
    is_written(alloc, value, wanted) && is_read_back_as::<T, T>(alloc, value, value)
}

/// Whether reading the records of a value as another type fails with this error.
pub fn is_refused<A: Encode, B: Decode>(alloc: Global, value: &A, wanted: DecodeError) -> bool {
    match read_back::<A, B>(alloc, value) {
        Ok(_) => false,
        Err(error) => error == wanted,
    }
}
