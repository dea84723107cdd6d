//! ENUMERATED by tables of numbers that are known only when the program runs.
use asn1_schema_decode::Decoder as Reading;
use asn1_schema_encode::Encoder as Writing;
use asn1_schema_errors::{DecodeError, EncodeError};
use asn1_schema_tags::{Identifier, ItemTables, Tag};
use oer_codec::coer;
use per_codec::uper;
use std::alloc::Global;

/// The numbers of ENUMERATED {a(-1), b(0), c(300), ..., d(5), e(128)}.
const ROOTS: [isize; 3] = [-1, 0, 300];

const ADDITIONS: [isize; 2] = [5, 128];

/// The number of an item, and its encodings in COER and UPER.
type Row = (isize, &'static [u8], &'static [u8]);

const ITEMS: [Row; 5] = [
    (-1, &[0x81, 0xFF], &[0x00]),
    (0, &[0x00], &[0x20]),
    (300, &[0x82, 0x01, 0x2C], &[0x40]),
    (5, &[0x05], &[0x80]),
    (128, &[0x82, 0x00, 0x80], &[0x81]),
];

/// The octets of an item in COER.
fn in_octets(alloc: Global, items: &ItemTables<'_>, number: isize) -> Result<Vec<u8>, EncodeError> {
    let mut buffer = Vec::new(alloc);
    let mut worker = Vec::new(alloc);
    let options = coer::EncoderOptions::coer();
    let mut encoder = coer::Encoder::from_buffer(alloc, options, &mut buffer, &mut worker);
    encoder.encode_item_of(Tag::ENUMERATED, items, &number, Identifier::ENUMERATED)?;
    Ok(encoder.output())
}

/// The octets of an item in UPER.
fn in_bits(alloc: Global, items: &ItemTables<'_>, number: isize) -> Result<Vec<u8>, EncodeError> {
    let mut encoder = uper::Encoder::new(alloc, uper::EncoderOptions::unaligned());
    encoder.encode_item_of(Tag::ENUMERATED, items, &number, Identifier::ENUMERATED)?;
    encoder.output()
}

/// The number of the item that COER reads.
fn of_octets(alloc: Global, items: &ItemTables<'_>, octets: &[u8]) -> Result<isize, DecodeError> {
    let mut decoder = coer::Decoder::new(alloc, octets, coer::DecoderOptions::coer());
    decoder.decode_item_of(Tag::ENUMERATED, items)
}

/// The number of the item that UPER reads.
fn of_bits(alloc: Global, items: &ItemTables<'_>, octets: &[u8]) -> Result<isize, DecodeError> {
    let mut decoder = uper::Decoder::new(alloc, octets, uper::DecoderOptions::unaligned());
    decoder.decode_item_of(Tag::ENUMERATED, items)
}

/// Whether an item is written as in its row.
fn is_written(alloc: Global, items: &ItemTables<'_>, row: &Row) -> Result<bool, EncodeError> {
    let octets = in_octets(alloc, items, row.0)?;
    let bits = in_bits(alloc, items, row.0)?;
    Ok(octets.as_slice() == row.1 && bits.as_slice() == row.2)
}

/// Whether an item is read as in its row.
fn is_read(alloc: Global, items: &ItemTables<'_>, row: &Row) -> bool {
    of_octets(alloc, items, row.1) == Ok(row.0) && of_bits(alloc, items, row.2) == Ok(row.0)
}

/// Whether each item is written and read as in its row.
fn are_kept(alloc: Global, items: &ItemTables<'_>) -> bool {
    for row in &ITEMS {
        if is_written(alloc, items, row) != Ok(true) || !is_read(alloc, items, row) {
            return false;
        }
    }
    true
}

/// Whether a number and indices of no item are refused.
fn refuses_others(alloc: Global, items: &ItemTables<'_>) -> bool {
    let unwritten = Err(EncodeError::ValueConstraintNotSatisfied);
    let unread = Err(DecodeError::DiscriminantValueNotFound);
    in_octets(alloc, items, 7) == unwritten
        && in_bits(alloc, items, 7) == unwritten
        && of_octets(alloc, items, &[0x07]) == unread
        && of_bits(alloc, items, &[0x60]) == unread
        && of_bits(alloc, items, &[0x82]) == unread
}

#[test]
fn items_of_tables(rt: HostRuntime) {
    let alloc = rt.alloc();
    match ItemTables::checked(&ROOTS, true, &ADDITIONS) {
        Some(items) => assert!(rt; are_kept(alloc, &items) && refuses_others(alloc, &items)),
        None => assert!(rt; false),
    }
    assert!(rt; ItemTables::checked(&ROOTS, true, &[5, 300]).is_none());
}
