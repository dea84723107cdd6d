//! Bits: buffers, views, readers and bit strings, every alignment with every width, and the results of failed
//! allocations.
ghost use Rattle.std.specs.Prelude.{◌≡◌, ◌++◌, ◌<◌, ◌≤◌, OnOk, OnErr};
ghost use Rattle.asn1_model.specs.Numbers.{binary};

use crate::common::{has, hash_of, is_before, is_copied, is_granted, is_shown};
use asn1_values::{BitBuffer, BitReader, BitStr, BitString, FixedBitString, bits};
use std::alloc::{AllocError, Global};
use std::borrow::CowSlice;
use std::default::MadeWith;
use std::process::Abort;

/// The low `width` bits of a value.
fn low_bits(value: u128, width: u32) -> u128 {
    value & !u128::MAX.checked_shl(width).unwrap_or(0)
}

/// Appends `alignment` bits, then the low bits of a value, then three bits to a buffer.
fn put(buffer: &mut BitBuffer, alignment: u32, value: u128, width: u32) -> Result<(), AllocError>
    requires narrow { width ≤ 128 }
    requires few { alignment ≤ 8 }
{
    buffer.push_bits(0b1010_1010, alignment)?;
    buffer.push_bits(value, width)?;
    buffer.push_bits(0b101, 3)
}

/// Whether each bit of the value is where it was written.
fn holds_bits(all: BitStr<'_>, alignment: u32, value: u128, width: u32) -> bool
    requires narrow { width ≤ 128 }
    requires few { alignment ≤ 8 }
{
    for i in 0..width {
        let bit = value >> (width - 1 - i) & 1 == 1;
        if all.get((alignment + i) as usize) != Some(bit) {
            return false;
        }
    }
    true
}

/// The value that is read where it was written.
fn read_behind(mut reader: BitReader<'_>, alignment: u32, width: u32) -> Option<u128>
    requires narrow { width ≤ 128 }
{
    let _front = reader.split(alignment as usize).ok()?;
    let field = reader.split(width as usize).ok()?;
    if reader.len() != 3 || reader.first_u128(3) != 0b101 || field.len() != width as usize {
        return None;
    }
    Some(field.first_u128(width))
}

/// Whether two readers of the same bits agree on the first `width` of them.
fn say_the_same(one: &BitReader<'_>, other: &BitReader<'_>, width: u32) -> bool
    requires narrow { width ≤ 128 }
{
    if one.len() != other.len() || other.len() < width as usize {
        return false;
    }
    one.bits() == other.bits()
        && one.first_u128(width) == other.first_u128(width)
        && (width > 64 || one.first_bits(width) == other.first_bits(width))
        && (width == 0 || one.first_bit() == other.first_bit())
}

/// The number of the first bits, at most 64, which are taken off.
fn take_number(reader: &mut BitReader<'_>, width: u32) -> Option<u64>
    requires narrow { width ≤ 64 }
{
    if reader.len() < width as usize {
        return None;
    }
    let number = reader.first_bits(width);
    let _front = reader.split(width as usize).ok()?;
    Some(number)
}

/// The number that is taken off in two steps, the first of at most 64 bits.
fn taken(reader: &mut BitReader<'_>, width: u32) -> Option<u128>
    requires narrow { width ≤ 128 }
{
    let few = width.min(64);
    let high = take_number(reader, few)?;
    let low = take_number(reader, width - few)?;
    Some(u128::from(high) << (width - few) | u128::from(low))
}

/// Whether the value, and the bits after it, are taken off as numbers where they were written.
fn is_taken(all: BitStr<'_>, alignment: u32, value: u128, width: u32) -> bool
    requires narrow { width ≤ 128 }
    requires few { alignment ≤ 8 }
{
    let mut reader = BitReader::new(all);
    take_number(&mut reader, alignment).is_some()
        && taken(&mut reader, width) == Some(low_bits(value, width))
        && take_number(&mut reader, 3) == Some(0b101)
        && take_number(&mut reader, 1).is_none()
}

/// Takes `width` bits off both readers. Returns whether they agree on these, which are taken as the value, and on the
/// bits after them.
fn split_the_same(
    one: &mut BitReader<'_>,
    other: &mut BitReader<'_>,
    value: u128,
    width: u32,
) -> bool
    requires narrow { width ≤ 128 }
{
    let Ok(mut front) = one.split(width as usize) else {
        return false;
    };
    let Ok(same) = other.split(width as usize) else {
        return false;
    };
    say_the_same(&front, &same, width)
        && say_the_same(one, other, 3)
        && taken(&mut front, width) == Some(low_bits(value, width))
        && take_number(&mut front, 1).is_none()
}

/// Whether a reader that was made before the value, with its window filled there, agrees with one made at the value.
fn is_read_the_same(all: BitStr<'_>, alignment: u32, value: u128, width: u32) -> bool
    requires narrow { width ≤ 128 }
    requires few { alignment ≤ 8 }
{
    let mut one = BitReader::new(all);
    if one.split(alignment as usize).is_err() {
        return false;
    }
    let mut other = BitReader::new(one.bits());
    say_the_same(&one, &other, width) && split_the_same(&mut one, &mut other, value, width)
}

/// Whether the value is where it was written, in no more octets than it takes, and is read from there.
fn is_written_and_read(alloc: Global, alignment: u32, value: u128, width: u32) -> bool
    requires narrow { width ≤ 128 }
    requires few { alignment ≤ 8 }
{
    let mut buffer = BitBuffer::new(alloc);
    if put(&mut buffer, alignment, value, width).is_err() {
        return false;
    }
    let total = (alignment + width + 3) as usize;
    let all = buffer.as_bitslice();
    buffer.as_bytes().len() == total.div_ceil(8)
        && holds_bits(all, alignment, value, width)
        && read_behind(BitReader::new(all), alignment, width) == Some(low_bits(value, width))
        && is_taken(all, alignment, value, width)
        && is_read_the_same(all, alignment, value, width)
}

#[test]
fn every_alignment_and_width(rt: HostRuntime) {
    let value = 0xb3a1_9c5d_7e2f_8046_1d3b_5f79_8ace_0247_u128;
    for alignment in 0..9 {
        for width in 0..129 {
            assert!(rt; is_written_and_read(rt.alloc(), alignment, value, width));
        }
    }
}

/// The low thirteen bits of the first 700 squares: 9100 bits.
fn many_bits(alloc: Global) -> Result<BitBuffer, AllocError> {
    let mut bits = BitBuffer::new(alloc);
    for i in 0..700_u32 {
        bits.push_bits(u128::from(i * i), 13)?;
    }
    Ok(bits)
}

/// Appends `alignment` zero bits and the bits of a view to an empty buffer.
fn put_behind(buffer: &mut BitBuffer, view: BitStr<'_>, alignment: u32) -> Result<(), AllocError>
    requires { alignment < 8 }
{
    buffer.push_bits(0, alignment)?;
    buffer.extend_from_bitslice(view)
}

/// Whether the bits of a long view are after `alignment` zero bits.
fn is_copied_behind(alloc: Global, view: BitStr<'_>, alignment: u32) -> bool
    requires { alignment < 8 }
{
    let mut buffer = BitBuffer::new(alloc);
    if put_behind(&mut buffer, view, alignment).is_err() {
        return false;
    }
    let copied = buffer.as_bitslice();
    copied.len() > 9000 && copied.split_at(alignment as usize).1 == view
}

/// Whether long views, starting at each bit of an octet, are copied to each bit of an octet.
fn are_copied_behind(alloc: Global, all: BitStr<'_>) -> bool {
    if all.len() <= 9000 {
        return false;
    }
    for first in 0..8 {
        let (_, view) = all.split_at(first);
        for alignment in 0..8 {
            if !is_copied_behind(alloc, view, alignment) {
                return false;
            }
        }
    }
    true
}

#[test]
fn every_shift(rt: HostRuntime) {
    match many_bits(rt.alloc()) {
        Ok(bits) => assert!(rt; are_copied_behind(rt.alloc(), bits.as_bitslice())),
        Err(AllocError) => assert!(rt; false),
    }
}

/// Whether the VisibleString "John" is written, unaligned, and then fourteen bits, eight ones and 010000, after their
/// length in an octet.
fn are_rows_written(buffer: &mut BitBuffer, fourteen: BitStr<'_>) -> Result<bool, AllocError> {
    buffer.push_bits(4, 8)?;
    for character in b"John" {
        buffer.push_bits(*character as u128, 7)?;
    }
    let is_named = buffer.as_bytes() == [0x04, 0x95, 0xbf, 0x46, 0xe0].as_slice();
    buffer.clear();
    buffer.push_bits(14, 8)?;
    buffer.extend_from_bitslice(fourteen)?;
    Ok(is_named && buffer.as_bytes() == [0x0e, 0xff, 0x40].as_slice())
}

/// Whether a string is made of those fourteen bits.
fn is_of_fourteen(answer: Result<BitString, AllocError>) -> bool {
    match answer {
        Ok(string) => string.len() == 14 && string.as_bytes() == [0xff, 0x40].as_slice(),
        Err(AllocError) => false,
    }
}

/// Whether sixteen bits and one more are truncated to twelve, and eight one bits are then added to make twenty.
fn is_resized(buffer: &mut BitBuffer) -> Result<bool, AllocError> {
    let before = buffer.len();
    buffer.reserve_bytes(4)?;
    buffer.push(true)?;
    buffer.resize(12, false)?;
    let is_cut = before == 16 && buffer.as_bytes() == [0xa5, 0x00].as_slice();
    buffer.resize(20, true)?;
    Ok(is_cut && buffer.as_bytes() == [0xa5, 0x0f, 0xf0].as_slice() && buffer.len() == 20)
}

/// Clears the first and the twentieth bit. Returns whether the others are unchanged.
fn clears_two_bits(buffer: &mut BitBuffer) -> bool {
    if buffer.len() <= 19 {
        return false;
    }
    buffer.set(0, false);
    if buffer.len() <= 19 {
        return false;
    }
    buffer.set(19, false);
    buffer.as_bytes() == [0x25, 0x0f, 0xe0].as_slice()
}

/// The value that a type makes with an allocator, by the trait alone.
fn made<T: MadeWith<Global>>(alloc: Global) -> T {
    T::made_with(alloc)
}

/// Appends the bits 101 and then a buffer to another buffer.
fn put_buffer(other: &mut BitBuffer, buffer: &BitBuffer) -> Result<(), AllocError> {
    other.push_bits(0b101, 3)?;
    other.extend_from_buffer(buffer)
}

/// Whether a buffer is appended after the bits 101.
fn is_added_behind(alloc: Global, buffer: &BitBuffer) -> Result<bool, AllocError> {
    let mut other: BitBuffer = made(alloc);
    let was_empty = other.is_empty();
    put_buffer(&mut other, buffer)?;
    Ok(was_empty && has(&other.into_vec(), &[0xa4, 0xa1, 0xfc]))
}

/// Clears a buffer. Returns whether it is then empty.
fn is_cleared(buffer: &mut BitBuffer) -> bool {
    buffer.clear();
    buffer.len() == 0
}

/// Whether sixteen bits are resized, changed, added to others, and cleared.
fn are_changed(alloc: Global, buffer: &mut BitBuffer) -> Result<bool, AllocError> {
    Ok(
        is_resized(buffer)?
            && clears_two_bits(buffer)
            && is_added_behind(alloc, buffer)?
            && is_cleared(buffer),
    )
}

/// Whether these operations work on a buffer made from a vector.
fn is_vector_changed(alloc: Global) -> bool {
    match [0xa5, 0x0f].to_vec(alloc) {
        Ok(octets) => {
            let mut buffer = BitBuffer::from_vec(octets);
            are_changed(alloc, &mut buffer) == Ok(true)
        }
        Err(AllocError) => false,
    }
}

/// Whether rows are written to a new buffer.
fn is_written_to(alloc: Global, fourteen: BitStr<'_>) -> bool {
    let mut buffer = BitBuffer::new(alloc);
    are_rows_written(&mut buffer, fourteen) == Ok(true)
}

#[test]
fn buffers(rt: HostRuntime) {
    let alloc = rt.alloc();
    let octets = [0xff, 0x40];
    let (fourteen, _) = BitStr::from_slice(&octets).split_at(14);
    assert!(rt; is_written_to(alloc, fourteen) && is_vector_changed(alloc));
    assert!(rt; is_of_fourteen(BitString::from_bitslice(alloc, fourteen)));
}

/// Whether 24 bits are unread, the first is a one bit and begins an octet, and all whole octets are borrowed.
fn is_unread(alloc: Global, reader: &mut BitReader<'_>) -> Result<bool, AllocError> {
    let is_there = !reader.is_empty()
        && reader.len() > 0
        && reader.first_bit()
        && reader.aligned_octets().is_some();
    let all = reader.octets(alloc)?;
    let is_lent = matches!(all, CowSlice::Borrowed(_));
    let short = reader.split(25);
    Ok(is_there && is_lent && matches!(short, Err(1)) && reader.len() == 24)
}

/// Whether the bits 101 are taken off.
fn takes_three_bits(reader: &mut BitReader<'_>) -> bool {
    let Ok(front) = reader.split(3) else {
        return false;
    };
    front.len() > 2 && front.first_bits(3) == 0b101
}

/// Whether the 21 bits after them, which cross octet boundaries, are copied.
fn copies_octets(alloc: Global, reader: &BitReader<'_>) -> Result<bool, AllocError> {
    let are_copied = match reader.octets(alloc)? {
        CowSlice::Owned(rest) => has(&rest, &[0x25, 0x0f, 0xe0]),
        CowSlice::Borrowed(_) => false,
    };
    Ok(are_copied && reader.aligned_octets().is_none() && reader.bits().len() == 21)
}

/// Whether bits are read.
fn are_read(alloc: Global) -> Result<bool, AllocError> {
    let octets = [0xa4, 0xa1, 0xfc];
    let mut reader = BitReader::from_octets(&octets);
    Ok(
        is_unread(alloc, &mut reader)?
            && takes_three_bits(&mut reader)
            && copies_octets(alloc, &reader)?,
    )
}

/// Whether twelve bits, A5 and 1111, are compared and hashed, and the first three of them printed.
fn go_by_their_bits(alloc: Global, shifted: BitStr<'_>) -> bool {
    let (same, _) = BitStr::from_slice(&[0xa5, 0xf7]).split_at(12);
    let longer = BitStr::from_slice(&[0xa5, 0xf0]);
    if shifted.len() != 12 {
        return false;
    }
    let (three, _) = shifted.split_at(3);
    shifted == same
        && hash_of(&shifted) == hash_of(&same)
        && shifted < longer
        && hash_of(&shifted) != hash_of(&longer)
        && BitStr::default().is_empty()
        && is_shown(alloc, &three, "101")
}

/// Whether a buffer has those twelve bits, and is compared and hashed as a view of them.
fn is_same(buffer: &BitBuffer, shifted: BitStr<'_>) -> bool {
    buffer.as_bytes() == [0xa5, 0xf0].as_slice()
        && buffer.as_bitslice() == shifted
        && hash_of(&shifted) == hash_of(&buffer.as_bitslice())
        && hash_of(&shifted) == hash_of(buffer)
}

/// Puts those bits into a buffer, and these and one more into another. Returns whether the buffers were equal before.
fn put_both(
    buffer: &mut BitBuffer,
    longer: &mut BitBuffer,
    shifted: BitStr<'_>,
) -> Result<bool, AllocError> {
    buffer.extend_from_bitslice(shifted)?;
    longer.extend_from_buffer(buffer)?;
    let was_equal = *longer == *buffer;
    longer.push(false)?;
    Ok(was_equal)
}

/// Whether a buffer of those bits is less than one with one more bit, and its first three bits are printed.
fn is_before_longer(alloc: Global, buffer: &BitBuffer, longer: &mut BitBuffer) -> bool {
    let is_before = *buffer < *longer && hash_of(buffer) != hash_of(&*longer);
    longer.truncate(3);
    is_before && is_shown(alloc, &*longer, "101")
}

/// Whether buffers compare, hash and print their bits.
fn are_buffers_compared(alloc: Global, shifted: BitStr<'_>) -> bool {
    let mut buffer = BitBuffer::new(alloc);
    let mut longer = BitBuffer::new(alloc);
    put_both(&mut buffer, &mut longer, shifted) == Ok(true)
        && is_same(&buffer, shifted)
        && is_before_longer(alloc, &buffer, &mut longer)
}

/// Whether views and buffers compare, hash and print their bits, at any position.
fn are_compared(alloc: Global) -> bool {
    let octets = [0x0a, 0x5f, 0x55, 0xf0];
    let (front, _) = BitStr::front_of(&octets, 31).split_at(16);
    let (_, shifted) = front.split_at(4);
    BitStr::from_bitslice(front) == front
        && go_by_their_bits(alloc, shifted)
        && are_buffers_compared(alloc, shifted)
}

/// Whether a view borrows the octets that hold it, and the whole octets at its start.
fn lends_octets() -> bool {
    let octets = [0x12, 0x34, 0x56];
    let all = BitStr::from_slice(&octets);
    let (_, shifted) = all.split_at(4);
    let (whole, rest) = BitStr::front_of(&octets, 20).whole_octets();
    all.aligned_octets() == Some(octets.as_slice())
        && shifted.aligned_octets().is_none()
        && whole == &octets[..2]
        && rest.get(3) == Some(true)
        && rest.get(4).is_none()
}

/// Whether a view that begins within an octet is copied into octets.
fn copies_view() -> bool {
    let octets = [0x12, 0x34, 0x56];
    let (_, shifted) = BitStr::from_slice(&octets).split_at(4);
    let mut copied = [0; 2];
    shifted.copy_to(&mut copied);
    copied == [0x23, 0x45]
}

/// Whether numbers are read from octets, and written into octets.
fn numbers_are_told() -> bool {
    let mut octets = [0x80, 0x01];
    bits::or_bits(&mut octets, 6, &[0xff], 4);
    bits::range_from_len(8) == 255
        && bits::range_from_len(0) == 0
        && bits::should_be_indexed(7, &[0x30, 0x80])
        && !bits::should_be_indexed(8, &[0x30, 0x80])
        && !bits::should_be_indexed(0, &[])
        && bits::read_bits(&[0x25, 0x0f], 4, 8) == 0x50
        && bits::read_wide(&[0x25, 0x0f], 4, 8) == 0x50
        && octets == [0x83, 0xc1]
}

#[test]
fn readers_and_views(rt: HostRuntime) {
    let alloc = rt.alloc();
    assert!(rt; are_read(alloc) == Ok(true) && are_compared(alloc));
    assert!(rt; lends_octets() && copies_view() && numbers_are_told());
}

/// Appends a one bit to a string. Returns whether a copy is equal to it before, and afterwards differs from it and is
/// less.
fn is_behind_its_copy(string: &mut BitString) -> Result<bool, AllocError> {
    let copy = string.clone()?;
    let was_equal = *string == copy;
    string.push(true)?;
    Ok(was_equal && is_before(&copy, string))
}

/// Whether the ninth bit is a one bit and the last, and the string is hashed as a view of it.
fn ends_in_a_ninth_bit(string: &BitString) -> bool {
    string.get(8) == Some(true)
        && string.get(9) == None
        && !string.is_empty()
        && hash_of(string) == hash_of(&string.as_bitslice())
}

/// Whether empty strings are made, by the trait and without it.
fn are_made_empty(alloc: Global) -> bool {
    let string: BitString = made(alloc);
    string.is_empty() && string == BitString::new(alloc) && BitString::new(alloc).is_empty()
}

/// Whether a string of eight bits and a one bit is compared, hashed and printed, and converted to a buffer.
fn is_string(alloc: Global, mut string: BitString) -> bool {
    is_behind_its_copy(&mut string) == Ok(true)
        && ends_in_a_ninth_bit(&string)
        && is_shown(alloc, &string, "001011111")
        && BitString::from_buffer(string.into_buffer()).len() == 9
}

/// Whether there are three bits, the second of them zero; a view of three bits makes a string of three and none of
/// four, and a slice of one octet makes none.
fn are_three(three: FixedBitString<3>, front: BitStr<'_>) -> bool {
    three.len() == 3
        && !three.is_empty()
        && three.get(1) == Some(false)
        && three.get(3) == None
        && FixedBitString::<3>::from_slice(&[0xbf]).is_none()
        && FixedBitString::<3>::from_bitslice(front).is_some()
        && FixedBitString::<4>::from_bitslice(front).is_none()
}

/// Whether three bits, 101, are compared and hashed as such.
fn go_by_three_bits(three: FixedBitString<3>, front: BitStr<'_>) -> bool {
    let copy = three;
    three.as_bitslice() == front
        && copy == three
        && FixedBitString::from([0xa0, 0, 0]) == three
        && FixedBitString::<3>::default() < three
        && hash_of(&three) == hash_of(&front)
}

#[test]
fn strings(rt: HostRuntime) {
    match BitString::from_slice(rt.alloc(), &[0x2f]) {
        Ok(string) => assert!(rt; is_string(rt.alloc(), string)),
        Err(AllocError) => assert!(rt; false),
    }
    assert!(rt; are_made_empty(rt.alloc()));
    let three = FixedBitString::<3>::new([0xbf, 0xff, 0xff]);
    let octets = [0xa0];
    let (front, _) = BitStr::from_slice(&octets).split_at(3);
    assert!(rt; are_three(three, front) && go_by_three_bits(three, front));
}

/// One call that grows a buffer, by its number.
fn grow(buffer: &mut BitBuffer, other: &BitBuffer, step: u32) -> Result<(), AllocError> {
    match step % 7 {
        0 => buffer.push(true),
        1 => buffer.push_bits(0x1_2345_6789, 33),
        2 => buffer.extend_from_bytes(b"octets that are added whole"),
        3 => buffer.extend_from_bitslice(BitStr::from_slice(b"bits of a view")),
        4 => {
            let len = buffer.len() % 4096;
            buffer.resize(len + 70, true)
        }
        5 => buffer.extend_from_buffer(other),
        _ => buffer.reserve_bytes(3),
    }
}

/// Appends nineteen bits to an empty buffer. After a failed allocation, which sets `granted` to false, the buffer has
/// to be empty, and the call is made again. Returns whether the bits are finally there.
fn adds_nineteen_bits(buffer: &mut BitBuffer, granted: &mut bool) -> bool {
    if buffer.push_bits(0x5_A5A5, 19).is_ok() {
        return true;
    }
    *granted = false;
    buffer.is_empty() && buffer.push_bits(0x5_A5A5, 19).is_ok()
}

/// Grows a buffer by one call. After a failed allocation, which sets `granted` to false, the bits have to be
/// unchanged, and the call is made again. Returns whether the buffer is finally grown.
fn is_grown(buffer: &mut BitBuffer, other: &BitBuffer, step: u32, granted: &mut bool) -> bool {
    let len = buffer.len();
    let hash = hash_of(&*buffer);
    if grow(buffer, other, step).is_ok() {
        return true;
    }
    *granted = false;
    buffer.len() == len
        && buffer.as_bytes().len() == len.div_ceil(8)
        && hash_of(&*buffer) == hash
        && grow(buffer, other, step).is_ok()
}

/// Grows a buffer by each call in turn. Returns whether no allocation failed.
fn grows(rt: &impl Abort, alloc: Global) -> bool {
    let mut granted = true;
    let mut other = BitBuffer::new(alloc);
    assert!(rt; adds_nineteen_bits(&mut other, &mut granted));
    let mut buffer = BitBuffer::new(alloc);
    for step in 0..42 {
        assert!(rt; is_grown(&mut buffer, &other, step, &mut granted));
    }
    assert!(rt; buffer.len() == 2706);
    granted
}

/// Appends a number twice, in eight bits each, with an appender; the contract is what a caller can state.
fn append_twice(buffer: &mut BitBuffer, number: u8) -> Result<(), AllocError>
    ensures ok { OnOk result (buffer.new ≡ buffer.old ++ binary 8 number ++ binary 8 number) }
    ensures err { OnErr result (buffer.new ≡ buffer.old) }
{
    let mut appender = buffer.appender(20)?;
    appender.push(number as u128, 8);
    appender.push(number as u128, 8);
    Ok(())
}

/// Appends a number twice. After a failed allocation, which sets `granted` to false, the length has to be unchanged,
/// and the call is made again. Returns whether the buffer finally has `len` bits.
fn is_appended(buffer: &mut BitBuffer, len: usize, granted: &mut bool) -> bool {
    let before = buffer.len();
    if append_twice(buffer, 0x9c).is_err() {
        *granted = false;
        if buffer.len() != before || append_twice(buffer, 0x9c).is_err() {
            return false;
        }
    }
    buffer.len() == len
}

/// Whether there are `count` octets, all of them `wanted`.
fn are_alike(octets: &[u8], wanted: u8, count: usize) -> bool {
    for octet in octets {
        if *octet != wanted {
            return false;
        }
    }
    octets.len() == count
}

/// Appends a number many times, again after each failed allocation. Returns whether none failed.
fn appends(rt: &impl Abort, alloc: Global) -> bool {
    let mut granted = true;
    let mut buffer = BitBuffer::new(alloc);
    for count in 1..=40 {
        assert!(rt; is_appended(&mut buffer, count * 16, &mut granted));
    }
    assert!(rt; are_alike(&buffer.into_vec(), 0x9c, 80));
    granted
}

/// Appends a bit after `count` bits. After a failed allocation, which sets `granted` to false, the string has to be
/// unchanged, and the call is made again. Returns whether the bit is finally there.
fn is_pushed(string: &mut BitString, count: usize, granted: &mut bool) -> bool {
    if string.push(count % 3 == 0).is_err() {
        *granted = false;
        if string.len() != count || string.push(count % 3 == 0).is_err() {
            return false;
        }
    }
    string.get(count) == Some(count % 3 == 0)
}

/// Appends bits. Returns whether no allocation failed.
fn pushes(rt: &impl Abort, alloc: Global) -> bool {
    let mut granted = true;
    let mut string = BitString::new(alloc);
    for count in 0..200 {
        assert!(rt; is_pushed(&mut string, count, &mut granted));
    }
    granted
}

/// Whether a reader copies unaligned bits into octets.
fn are_copied(alloc: Global, bits: BitStr<'_>) -> Result<bool, AllocError> {
    let copied = BitReader::new(bits).octets(alloc)?;
    Ok(copied.as_slice() == [0x23, 0x45, 0x60].as_slice())
}

/// Whether a string of the bits of a view has them in its octets, and a copy is equal to it.
fn is_made_of_bits(alloc: Global, bits: BitStr<'_>) -> Result<bool, AllocError> {
    let string = BitString::from_bitslice(alloc, bits)?;
    Ok(string.as_bytes() == [0x23, 0x45, 0x60].as_slice() && is_copied(&string)?)
}

/// Whether a string of octets has their bits.
fn is_made_of_octets(alloc: Global, octets: &[u8]) -> Result<bool, AllocError> {
    let string = BitString::from_slice(alloc, octets)?;
    Ok(string.as_bytes() == octets)
}

/// Appends bits to an empty buffer. After a failed allocation, which sets `granted` to false, the buffer has to be
/// empty, and the call is made again. Returns whether the bits are finally there.
fn adds_bits(buffer: &mut BitBuffer, bits: BitStr<'_>, granted: &mut bool) -> bool {
    if buffer.extend_from_bitslice(bits).is_ok() {
        return true;
    }
    *granted = false;
    buffer.is_empty() && buffer.extend_from_bitslice(bits).is_ok()
}

/// Copies unaligned bits into octets, a buffer and strings; each result is complete or an error. Returns whether no
/// allocation failed.
fn copies(rt: &impl Abort, alloc: Global) -> bool {
    let octets = [0x12, 0x34, 0x56];
    let (_, bits) = BitStr::from_slice(&octets).split_at(4);
    let mut granted = is_granted(rt, are_copied(alloc, bits));
    let mut buffer = BitBuffer::new(alloc);
    assert!(rt; adds_bits(&mut buffer, bits, &mut granted));
    granted &= is_granted(rt, is_copied(&buffer));
    assert!(rt; buffer.as_bytes() == [0x23, 0x45, 0x60].as_slice());
    granted &= is_granted(rt, is_made_of_bits(alloc, bits));
    granted & is_granted(rt, is_made_of_octets(alloc, &octets))
}

/// Makes buffers and strings, and grows them. Returns whether no allocation failed.
pub fn requests(rt: &impl Abort, alloc: Global) -> bool {
    let grown = grows(rt, alloc);
    let appended = appends(rt, alloc);
    let pushed = pushes(rt, alloc);
    let copied = copies(rt, alloc);
    grown && appended && pushed && copied
}
