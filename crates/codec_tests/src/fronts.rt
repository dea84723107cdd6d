//! The calls that decode a value at the start and ignore what follows, and the readers that also return the number of
//! octets of the value: each by itself.
use asn1_schema_decode::FrontReader;
use asn1_schema_errors::DecodeError;
use oer_codec::{CoerFront, OerFront, coer, oer};
use per_codec::{AperFront, UperFront, aper, uper};
use std::alloc::Global;

/// Whether PER decodes INTEGER (0..4294967295): 32 bits in UPER; in APER, octets after a length determinant of two
/// bits.
fn numbers_are_read(alloc: Global) -> bool {
    let unaligned = [0x00, 0x00, 0x00, 0x07, 0xFF];
    let aligned = [0x00, 0x07, 0xFF];
    uper::decode::<u32>(alloc, &unaligned) == Ok(7)
        && uper::decode::<u32>(alloc, &aligned) == Err(DecodeError::Incomplete)
        && aper::decode::<u32>(alloc, &aligned) == Ok(7)
        && aper::decode::<u32>(alloc, &[0xC0, 0x00]) == Err(DecodeError::Incomplete)
}

/// Whether OER reads BOOLEAN: any octet but zero is TRUE in OER, and only FF in COER.
fn truths_are_read(alloc: Global) -> bool {
    oer::decode::<bool>(alloc, &[0x05, 0x00]) == Ok(true)
        && oer::decode::<bool>(alloc, &[]) == Err(DecodeError::Incomplete)
        && coer::decode::<bool>(alloc, &[0xFF, 0x00]) == Ok(true)
        && coer::decode::<bool>(alloc, &[0x05, 0x00]) == Err(DecodeError::InvalidBool)
}

/// Whether the readers of PER find such a number, in four octets and in two.
fn numbers_are_found(alloc: Global) -> bool {
    let unaligned: Result<(u32, usize), DecodeError> = UperFront.read_front(
        alloc,
        &[0x00, 0x00, 0x00, 0x07, 0xFF],
    );
    let aligned: Result<(u32, usize), DecodeError> = AperFront.read_front(
        alloc,
        &[0x00, 0x07, 0xFF],
    );
    let short: Result<(u32, usize), DecodeError> = UperFront.read_front(alloc, &[0x00, 0x07, 0xFF]);
    unaligned == Ok((7, 4)) && aligned == Ok((7, 2)) && short == Err(DecodeError::Incomplete)
}

/// Whether those of OER and COER find TRUE in one octet, COER only in FF.
fn truths_are_found(alloc: Global) -> bool {
    let basic: Result<(bool, usize), DecodeError> = OerFront.read_front(alloc, &[0x05, 0x00]);
    let canonical: Result<(bool, usize), DecodeError> = CoerFront.read_front(alloc, &[0xFF, 0x00]);
    let refused: Result<(bool, usize), DecodeError> = CoerFront.read_front(alloc, &[0x05, 0x00]);
    basic == Ok((true, 1)) && canonical == Ok((true, 1)) && refused == Err(DecodeError::InvalidBool)
}

#[test]
fn values_in_front(rt: HostRuntime) {
    let alloc = rt.alloc();
    assert!(rt; numbers_are_read(alloc));
    assert!(rt; truths_are_read(alloc));
    assert!(rt; numbers_are_found(alloc));
    assert!(rt; truths_are_found(alloc));
}
