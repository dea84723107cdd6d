//! Reads bits as lists of fields.
ghost use Rattle.std.specs.Prelude.{◌≡◌, ℕ, ◌*◌, ◌≤◌, ◌<◌, ◌^◌, ◌⊎◌, take, drop, length, Some, IfOk, IfErr, OnErr};
ghost use Rattle.std.specs.Prelude.{IsTrue, false, ◌↔◌};
ghost use Rattle.std.specs.Cow.{cow_slice_items};
ghost use Rattle.asn1_model.specs.Numbers.{binary, octet_bits, complement, signed_octets};
ghost use Rattle.asn1_values_natives.specs.Octets.{is_padded, signed_number};
ghost use Rattle.asn1_values_fields.specs.Written.{codes_of};
ghost use Rattle.asn1_values_fields.specs.Read.{width_of, IsValueOf, IsUnreadable, AreValuesOf, IsFirstUnread};
ghost use Rattle.asn1_values_fields.specs.Read.{AreNotFewest, HasCode, IsUnknownCode, AreUnreadable};

use crate::fault::{FieldFault, FieldFaultKind};
use crate::field_shape::{FieldShape, FieldValue};
use asn1_values_alphabets::CharacterAlphabet;
use asn1_values_bit_strings::BitString;
use asn1_values_bits::BitReader;
use asn1_values_integers::Integer;
use asn1_values_natives::octets::has_padding;
use std::alloc::Global;
use std::borrow::CowSlice;

/// Takes off `count` bits. If there are fewer, the reader is unchanged.
fn take_bits<'a>(reader: &mut BitReader<'a>, count: usize) -> Result<BitReader<'a>, FieldFaultKind>
    ensures front { IfOk result (λ front. front.bits ≡ take count reader.old.bits) }
    ensures rest { IfOk result (λ _. reader.new.bits ≡ drop count reader.old.bits) }
    ensures enough { IfOk result (λ _. count ≤ length reader.old.bits) }
    ensures short { IfErr result (λ k. (k ≡ FieldFaultKind.Short) × (length reader.old.bits < count)) }
{
    match reader.split(count) {
        Ok(front) => Ok(front),
        Err(_) => Err(FieldFaultKind::Short),
    }
}

/// Reads a number of `width` binary digits.
fn read_number(reader: &mut BitReader<'_>, width: u32) -> Result<u128, FieldFaultKind>
    ensures number { IfOk result (λ n. (width ≤ 128) × (n < 2 ^ width)
        × (take width reader.old.bits ≡ binary width n)) }
    ensures rest { IfOk result (λ _. (width ≤ length reader.old.bits)
        × (reader.new.bits ≡ drop width reader.old.bits)) }
    ensures wrong { IfErr result (IsUnreadable (FieldShape.Number width) reader.old.bits) }
{
    if width > 128 {
        return Err(FieldFaultKind::DoesNotFit);
    }
    let front = take_bits(reader, width as usize)?;
    Ok(front.first_u128(width))
}

/// Reads `count` bits.
fn read_bits(
    alloc: Global,
    reader: &mut BitReader<'_>,
    count: usize,
) -> Result<BitString, FieldFaultKind>
    ensures bits { IfOk result (λ s. s ≡ take count reader.old.bits) }
    ensures rest { IfOk result (λ _. (count ≤ length reader.old.bits)
        × (reader.new.bits ≡ drop count reader.old.bits)) }
    ensures wrong { IfErr result (IsUnreadable (FieldShape.Bits count) reader.old.bits) }
{
    let front = take_bits(reader, count)?;
    match BitString::from_bitslice(alloc, front.bits()) {
        Ok(bits) => Ok(bits),
        Err(_) => Err(FieldFaultKind::Memory),
    }
}

/// Takes off `count` octets: borrowed if they begin at an octet boundary, else copied into a vector.
fn take_octets<'a>(
    alloc: Global,
    reader: &mut BitReader<'a>,
    count: usize,
) -> Result<CowSlice<'a, u8>, FieldFaultKind>
    ensures octets { IfOk result (λ octets. take (count * 8) reader.old.bits ≡ octet_bits (cow_slice_items octets)) }
    ensures count { IfOk result (λ octets. length (cow_slice_items octets) ≡ count) }
    ensures rest { IfOk result (λ _. (count * 8 ≤ length reader.old.bits)
        × (reader.new.bits ≡ drop (count * 8) reader.old.bits)) }
    ensures wrong { IfErr result (λ k. (k ≡ FieldFaultKind.Memory)
        ⊎ ((k ≡ FieldFaultKind.Short) × (length reader.old.bits < count * 8))) }
{
    if reader.len() / 8 < count {
        return Err(FieldFaultKind::Short);
    }
    let front = take_bits(reader, count * 8)?;
    match front.octets(alloc) {
        Ok(octets) => Ok(octets),
        Err(_) => Err(FieldFaultKind::Memory),
    }
}

/// Reads `count` octets.
fn read_octets(
    alloc: Global,
    reader: &mut BitReader<'_>,
    count: usize,
) -> Result<Vec<u8>, FieldFaultKind>
    ensures octets { IfOk result (λ v. take (count * 8) reader.old.bits ≡ octet_bits v.items) }
    ensures count { IfOk result (λ v. length v.items ≡ count) }
    ensures rest { IfOk result (λ _. (count * 8 ≤ length reader.old.bits)
        × (reader.new.bits ≡ drop (count * 8) reader.old.bits)) }
    ensures wrong { IfErr result (λ k. (k ≡ FieldFaultKind.Memory)
        ⊎ ((k ≡ FieldFaultKind.Short) × (length reader.old.bits < count * 8))) }
{
    let lent = match take_octets(alloc, reader, count)? {
        CowSlice::Owned(octets) => return Ok(octets),
        CowSlice::Borrowed(lent) => lent,
    };
    match Vec::from_slice(alloc, lent) {
        Ok(octets) => Ok(octets),
        Err(_) => Err(FieldFaultKind::Memory),
    }
}

/// Whether octets are the shortest encoding of an integer: there is one, and the first nine bits are not all equal
/// (X.690 8.3.2).
fn are_fewest(octets: &[u8]) -> bool
    ensures bare { IsTrue result → is_padded octets.now ≡ false }
    ensures count { IsTrue result → signed_octets (signed_number octets.now) ≡ length octets.now }
    ensures octets { IsTrue result → octets.now ≡ complement (length octets.now) (signed_number octets.now) }
    ensures longer { result ≡ false → AreNotFewest (length octets.now) (octet_bits octets.now) }
{
    if octets.is_empty() {
        return false;
    }
    !has_padding(octets)
}

/// The integer of which the octets are the shortest encoding.
fn shortest_number(alloc: Global, octets: CowSlice<'_, u8>) -> Result<Integer, FieldFaultKind>
    ensures number { IfOk result (λ z. (signed_octets z ≡ length (cow_slice_items octets.entry))
        × (cow_slice_items octets.entry ≡ complement (length (cow_slice_items octets.entry)) z)) }
    ensures wrong { IfErr result (λ k. (k ≡ FieldFaultKind.Memory)
        ⊎ ((k ≡ FieldFaultKind.NotShortest) × AreNotFewest (length (cow_slice_items octets.entry))
        (octet_bits (cow_slice_items octets.entry)))) }
{
    if !are_fewest(octets.as_slice()) {
        return Err(FieldFaultKind::NotShortest);
    }
    let lent = match octets {
        CowSlice::Owned(octets) => return Ok(Integer::from_fewest_octets(octets)),
        CowSlice::Borrowed(lent) => lent,
    };
    match Integer::from_signed_octets(alloc, lent) {
        Ok(number) => Ok(number),
        Err(_) => Err(FieldFaultKind::Memory),
    }
}

/// Reads an integer in its shortest encoding.
fn read_whole(
    alloc: Global,
    reader: &mut BitReader<'_>,
    count: usize,
) -> Result<Integer, FieldFaultKind>
    ensures number { IfOk result (λ z. (signed_octets z ≡ count)
        × (take (count * 8) reader.old.bits ≡ octet_bits (complement count z))) }
    ensures rest { IfOk result (λ _. (count * 8 ≤ length reader.old.bits)
        × (reader.new.bits ≡ drop (count * 8) reader.old.bits)) }
    ensures wrong { IfErr result (IsUnreadable (FieldShape.Whole count) reader.old.bits) }
{
    let octets = take_octets(alloc, reader, count)?;
    let number = shortest_number(alloc, octets)?;
    Ok(number)
}

/// Whether `count` units of `width` bits each are at most `bits` bits.
fn is_enough(bits: usize, count: usize, width: usize) -> bool
    ensures { IsTrue result ↔ (count * width ≤ bits) }
{
    width == 0 || count <= bits / width
}

/// Reads the code of a character.
fn read_character(
    reader: &mut BitReader<'_>,
    alphabet: &CharacterAlphabet,
) -> Result<u32, FieldFaultKind>
    requires { alphabet.now.code_bits ≤ length reader.old.bits }
    ensures character { IfOk result (λ c. HasCode alphabet.now c (take alphabet.now.code_bits reader.old.bits)) }
    ensures rest { IfOk result (λ _. reader.new.bits ≡ drop alphabet.now.code_bits reader.old.bits) }
    ensures unknown { IfErr result (λ k. (k ≡ FieldFaultKind.NoCharacter)
        × IsUnknownCode alphabet.now (take alphabet.now.code_bits reader.old.bits)) }
{
    let width = alphabet.width();
    let code = reader.first_bits(width);
    let code = small_code(code, width);
    match alphabet.decode(code) {
        Ok(character) => {
            let _ = take_bits(reader, width as usize)?;
            Ok(character)
        }
        Err(_) => Err(FieldFaultKind::NoCharacter),
    }
}

/// A code of at most 32 bits.
fn small_code(code: u64, width: u32) -> u32
    requires narrow { width ≤ 32 }
    requires fits { code < 2 ^ width }
    ensures { result ≡ code }
{
    code as u32
}

/// Reads `count` characters.
fn read_characters(
    alloc: Global,
    reader: &mut BitReader<'_>,
    alphabet: &CharacterAlphabet,
    count: usize,
) -> Result<Vec<u32>, FieldFaultKind>
    ensures characters { IfOk result (λ v. (length v.items ≡ count)
        × (codes_of alphabet.now v.items ≡ Some (take (count * alphabet.now.code_bits) reader.old.bits))) }
    ensures rest { IfOk result (λ _. (count * alphabet.now.code_bits ≤ length reader.old.bits)
        × (reader.new.bits ≡ drop (count * alphabet.now.code_bits) reader.old.bits)) }
    ensures wrong { IfErr result (AreUnreadable alphabet.now count reader.old.bits) }
{
    let width = alphabet.width() as usize;
    if !is_enough(reader.len(), count, width) {
        return Err(FieldFaultKind::Short);
    }
    let mut characters = Vec::new(alloc);
    for i in 0..count {
        let character = read_character(reader, alphabet)?;
        match characters.push(character) {
            Ok(()) => {}
            Err(_) => return Err(FieldFaultKind::Memory),
        }
    }
    Ok(characters)
}

/// Reads a field of a shape.
fn read_field(
    alloc: Global,
    reader: &mut BitReader<'_>,
    shape: &FieldShape<'_>,
) -> Result<FieldValue, FieldFaultKind>
    ensures value { IfOk result (λ v. IsValueOf shape.now v (take (width_of shape.now) reader.old.bits)) }
    ensures rest { IfOk result (λ _. (width_of shape.now ≤ length reader.old.bits)
        × (reader.new.bits ≡ drop (width_of shape.now) reader.old.bits)) }
    ensures wrong { IfErr result (IsUnreadable shape.now reader.old.bits) }
{
    match shape {
        FieldShape::Bits(count) => {
            let bits = read_bits(alloc, reader, *count)?;
            Ok(FieldValue::Bits(bits))
        }
        FieldShape::Number(width) => {
            let value = read_number(reader, *width)?;
            Ok(FieldValue::Number {
                value,
                width: *width,
            })
        }
        FieldShape::Octets(count) => {
            let octets = read_octets(alloc, reader, *count)?;
            Ok(FieldValue::Octets(octets))
        }
        FieldShape::Whole(count) => {
            let number = read_whole(alloc, reader, *count)?;
            Ok(FieldValue::Whole(number))
        }
        FieldShape::Characters { alphabet, count } => {
            let characters = read_characters(alloc, reader, alphabet, *count)?;
            Ok(FieldValue::Characters(characters))
        }
    }
}

/// Reads the fields of the shapes. After an error a part of them may have been taken off.
fn read_all(
    alloc: Global,
    reader: &mut BitReader<'_>,
    shapes: &[FieldShape<'_>],
) -> Result<Vec<FieldValue>, FieldFault>
    ensures ok { IfOk result (λ vs. AreValuesOf shapes.now vs.items reader.old.bits reader.new.bits) }
    ensures wrong { IfErr result (λ e. IsFirstUnread shapes.now reader.old.bits e.field e.kind) }
{
    let mut values = Vec::new(alloc);
    for (field, shape) in shapes.iter().enumerate() {
        let value = match read_field(alloc, reader, shape) {
            Ok(value) => value,
            Err(kind) => return Err(FieldFault { field, kind }),
        };
        match values.push(value) {
            Ok(()) => {}
            Err(_) => {
                return Err(FieldFault {
                    field,
                    kind: FieldFaultKind::Memory,
                });
            }
        }
    }
    Ok(values)
}

/// Takes the fields of the shapes off the start of the unread bits, at any bit. Succeeds exactly if the bits begin
/// with the bits of such fields, each integer in its fewest octets, and leaves the rest.
///
/// # Errors
///
/// The index of the first wrong field, and why it is wrong; the reader is then unchanged.
pub fn read_fields<'a>(
    alloc: Global,
    reader: &mut BitReader<'a>,
    shapes: &[FieldShape<'_>],
) -> Result<Vec<FieldValue>, FieldFault>
    ensures ok { IfOk result (λ vs. AreValuesOf shapes.now vs.items reader.old.bits reader.new.bits) }
    ensures err { OnErr result (reader.new ≡ reader.old) }
    ensures wrong { IfErr result (λ e. IsFirstUnread shapes.now reader.old.bits e.field e.kind) }
{
    let start = reader.bits();
    let values = read_all(alloc, reader, shapes);
    if values.is_err() {
        *reader = BitReader::new(start);
    }
    values
}
