//! Field-lists at known positions, and field-lists that get a position later.
use per_codec_packing::{Packing, complete_in};
use std::alloc::{AllocError, Global};
use std::test::Fail;

/// Appends a bit, padding, an octet, padding, and a bit.
fn push_member(text: &mut Packing) -> Result<(), AllocError> {
    text.push(true)?;
    text.push_padding()?;
    text.push_bits(0xAB, 8)?;
    text.push_padding()?;
    text.push(true)
}

/// The same at an unknown position.
fn member(alloc: Global) -> Result<Packing, AllocError> {
    let mut text = Packing::unplaced(alloc);
    push_member(&mut text)?;
    Ok(text)
}

/// Appends a bit, and an element after it.
fn push_within(outer: &mut Packing, inner: &Packing) -> Result<(), AllocError> {
    outer.push(true)?;
    outer.append_field_list(inner.as_field_list())
}

/// The same after a bit, at an unknown position.
fn within_a_member(alloc: Global) -> Result<Packing, AllocError> {
    let inner = member(alloc)?;
    let mut outer = Packing::unplaced(alloc);
    push_within(&mut outer, &inner)?;
    Ok(outer)
}

/// Whether a field-list after a number of zero bits has these octets.
fn stands_behind(
    alloc: Global,
    zeros: usize,
    inner: &Packing,
    octets: &[u8],
) -> Result<bool, AllocError> {
    let mut text = Packing::new(alloc);
    text.resize(zeros, false)?;
    text.append_field_list(inner.as_field_list())?;
    Ok(text.as_bits().as_bytes() == octets)
}

/// The number of zero bits before it, whether the element is in another element, and the octets.
const ROWS: [(usize, bool, &[u8]); 4] = [
    (0, false, &[0x80, 0xAB, 0x80]),
    (3, false, &[0x10, 0xAB, 0x80]),
    (8, false, &[0x00, 0x80, 0xAB, 0x80]),
    (6, true, &[0x03, 0xAB, 0x80]),
];

/// Whether an element has the octets of its row.
fn is_right(alloc: Global, (zeros, is_nested, octets): (usize, bool, &[u8])) -> Result<bool, Fail> {
    let text = if is_nested {
        within_a_member(alloc)?
    } else {
        member(alloc)?
    };
    Ok(stands_behind(alloc, zeros, &text, octets)?)
}

/// Whether these octets are the complete encoding of a field-list.
fn completes(alloc: Global, text: &Packing, octets: &[u8]) -> Result<bool, AllocError> {
    let complete = complete_in(text.as_field_list(), Vec::new(alloc))?;
    Ok(complete.as_slice() == octets)
}

/// Whether the complete encodings of an element and of an empty field-list are these.
fn are_complete(alloc: Global, of_member: &[u8], of_nothing: &[u8]) -> Result<bool, Fail> {
    let text = member(alloc)?;
    let empty = Packing::unplaced(alloc);
    Ok(completes(alloc, &text, of_member)? && completes(alloc, &empty, of_nothing)?)
}

#[test]
fn padded_where_it_comes_to_stand(rt: HostRuntime) -> Result<(), Fail> {
    for row in ROWS {
        assert!(rt; is_right(rt.alloc(), row)?);
    }
    assert!(rt; are_complete(rt.alloc(), &[0x80, 0xAB, 0x80], &[0x00])?);
    Ok(())
}
