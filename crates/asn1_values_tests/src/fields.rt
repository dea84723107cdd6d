//! Fields as bits: rows of each kind, every alignment with every width, and the results of failed allocations.
ghost use Rattle.std.specs.Prelude.{◌<◌, ◌≤◌};

use crate::common::{has, is_told};
use asn1_values::{
    BitBuffer, BitReader, BitStr, CharacterAlphabet, FieldBits, FieldFault, FieldFaultKind,
    FieldShape, FieldValue, Integer, read_fields, write_fields,
};
use std::alloc::Global;
use std::process::Abort;

const NUMERIC: [u32; 11] = [32, 48, 49, 50, 51, 52, 53, 54, 55, 56, 57];

const ROW: [u8; 3] = [0xBF, 0xEF, 0xF0];

const ROW_OF_EACH: [u8; 23] = [
    0xB6, 0x47, 0xFE, 2, 2, 2, 2, 2, 2, 2, 2, 2, 2, 2, 2, 2, 2, 2, 2, 2, 2, 2, 2,
];

/// The alphabet of digits and two integers; the second is the one in the long row.
#[derive(Drop)]
struct Parts {
    digits: CharacterAlphabet,
    minus_one: Integer,
    long: Integer,
}

/// Writes 5 in three bits, the octet FF, 0 in one bit and the integer -1.
fn write_row(buffer: &mut BitBuffer, parts: &Parts) -> Result<(), FieldFault> {
    let fields = [
        FieldBits::Number { value: 5, width: 3 },
        FieldBits::Octets(&[0xFF]),
        FieldBits::Number { value: 0, width: 1 },
        FieldBits::Whole(&parts.minus_one),
    ];
    write_fields(buffer, &fields)
}

/// Reads by the shapes of that row.
fn read_row(alloc: Global, reader: &mut BitReader<'_>) -> Result<Vec<FieldValue>, FieldFault> {
    let shapes = [
        FieldShape::Number(3),
        FieldShape::Octets(1),
        FieldShape::Number(1),
        FieldShape::Whole(1),
    ];
    read_fields(alloc, reader, &shapes)
}

/// Writes 5 in three bits, the bits 1011, the digits "12", the octet FF and the integer of twenty octets 01: 183 bits,
/// of which only the first field begins at an octet boundary.
fn write_each(buffer: &mut BitBuffer, parts: &Parts) -> Result<(), FieldFault> {
    let fields = [
        FieldBits::Number { value: 5, width: 3 },
        FieldBits::Bits(BitStr::front_of(&[0xB0], 4)),
        FieldBits::Characters {
            alphabet: &parts.digits,
            characters: &[49, 50],
        },
        FieldBits::Octets(&[0xFF]),
        FieldBits::Whole(&parts.long),
    ];
    write_fields(buffer, &fields)
}

/// Reads by the shapes of that row.
fn read_each(
    alloc: Global,
    reader: &mut BitReader<'_>,
    parts: &Parts,
) -> Result<Vec<FieldValue>, FieldFault> {
    let shapes = [
        FieldShape::Number(3),
        FieldShape::Bits(4),
        FieldShape::Characters {
            alphabet: &parts.digits,
            count: 2,
        },
        FieldShape::Octets(1),
        FieldShape::Whole(20),
    ];
    read_fields(alloc, reader, &shapes)
}

/// What a field that was read is to be.
enum Wanted {
    Number(u128, u32),
    Bits(usize, &'static [u8]),
    Characters(&'static [u32]),
    Octets(&'static [u8]),
    Whole(&'static [u8]),
}

/// Whether a field that was read is the wanted one.
fn is_value(value: &FieldValue, wanted: &Wanted) -> bool {
    match (value, wanted) {
        (FieldValue::Number { value, width }, Wanted::Number(number, bits)) => {
            value == number && width == bits
        }
        (FieldValue::Bits(bits), Wanted::Bits(len, octets)) => {
            bits.len() == *len && bits.as_bytes() == *octets
        }
        (FieldValue::Characters(found), Wanted::Characters(characters)) => has(found, characters),
        (FieldValue::Octets(found), Wanted::Octets(octets)) => has(found, octets),
        (FieldValue::Whole(number), Wanted::Whole(octets)) => {
            has(&number.to_signed_bytes_be(), octets)
        }
        _ => false,
    }
}

/// Whether the fields that were read are the wanted ones.
fn are_values(values: &[FieldValue], wanted: &[Wanted]) -> bool {
    for (place, value) in values.iter().enumerate() {
        match wanted.get(place) {
            Some(wanted) if is_value(value, wanted) => {}
            _ => return false,
        }
    }
    values.len() == wanted.len()
}

/// The fields of the short row, of the long one, and of the octets of the long one that begin at an octet boundary.
const FIELDS: [Wanted; 4] = [
    Wanted::Number(5, 3),
    Wanted::Octets(&[0xFF]),
    Wanted::Number(0, 1),
    Wanted::Whole(&[0xFF]),
];

const FIELDS_OF_EACH: [Wanted; 5] = [
    Wanted::Number(5, 3),
    Wanted::Bits(4, &[0xB0]),
    Wanted::Characters(&[49, 50]),
    Wanted::Octets(&[0xFF]),
    Wanted::Whole(&[1; 20]),
];

const FIELDS_OF_OCTETS: [Wanted; 2] = [
    Wanted::Octets(&[0xB6, 0x47, 0xFE]),
    Wanted::Whole(&[2; 20]),
];

/// The alphabet of digits. After a failed allocation, which sets `granted` to false, it is made again.
fn digits_of(alloc: Global, granted: &mut bool) -> Option<CharacterAlphabet> {
    match CharacterAlphabet::new(alloc, &NUMERIC, false) {
        Ok(digits) => Some(digits),
        Err(_) => {
            *granted = false;
            CharacterAlphabet::new(alloc, &NUMERIC, false).ok()
        }
    }
}

/// The integer of twenty octets 01. After a failed allocation, which sets `granted` to false, it is made again.
fn long_of(alloc: Global, granted: &mut bool) -> Option<Integer> {
    match Integer::from_signed_octets(alloc, &[1; 20]) {
        Ok(long) => Some(long),
        Err(_) => {
            *granted = false;
            Integer::from_signed_octets(alloc, &[1; 20]).ok()
        }
    }
}

/// The alphabet of digits and the integers of the rows.
fn parts_of(alloc: Global, granted: &mut bool) -> Option<Parts> {
    let digits = digits_of(alloc, granted)?;
    match long_of(alloc, granted) {
        Some(long) => Some(Parts {
            digits,
            minus_one: Integer::from_i128(-1),
            long,
        }),
        None => None,
    }
}

/// Whether a buffer has `len` bits in these octets. Clears the buffer.
fn is_emptied_of(buffer: &mut BitBuffer, len: usize, octets: &[u8]) -> bool {
    let is_right = buffer.len() == len && buffer.as_bytes() == octets;
    buffer.clear();
    is_right
}

/// Whether the fields of both rows are written as their octets, and the digits "123" as their codes.
fn are_written(buffer: &mut BitBuffer, parts: &Parts) -> Result<bool, FieldFault> {
    write_row(buffer, parts)?;
    let is_short = is_emptied_of(buffer, 20, &ROW);
    write_each(buffer, parts)?;
    let is_long = is_emptied_of(buffer, 183, &ROW_OF_EACH);
    let field = FieldBits::Characters {
        alphabet: &parts.digits,
        characters: &[49, 50, 51],
    };
    write_fields(buffer, &[field])?;
    Ok(is_short && is_long && buffer.as_bytes() == [0x23, 0x40].as_slice())
}

/// Whether the octets of the short row are read as its fields, and four bits are left.
fn is_row_read(alloc: Global) -> Result<bool, FieldFault> {
    let mut reader = BitReader::from_octets(&ROW);
    let values = read_row(alloc, &mut reader)?;
    Ok(are_values(&values, &FIELDS) && reader.len() == 4)
}

/// Whether octets that begin at an octet boundary are read, and none are left.
fn are_octets_read(alloc: Global) -> Result<bool, FieldFault> {
    let shapes = [FieldShape::Octets(3), FieldShape::Whole(20)];
    let mut reader = BitReader::from_octets(&ROW_OF_EACH);
    let values = read_fields(alloc, &mut reader, &shapes)?;
    Ok(are_values(&values, &FIELDS_OF_OCTETS) && reader.len() == 0)
}

/// Whether the octets of the long row are read as its fields, and one bit is left. A failed allocation, which sets
/// `granted` to false, has to be reported as Memory and leave the reader unchanged, and the call is made again.
fn is_each_read(alloc: Global, parts: &Parts, granted: &mut bool) -> Result<bool, FieldFault> {
    let mut reader = BitReader::from_octets(&ROW_OF_EACH);
    let values = match read_each(alloc, &mut reader, parts) {
        Ok(values) => values,
        Err(fault) => {
            *granted = false;
            if fault.kind != FieldFaultKind::Memory || reader.len() != 184 {
                return Ok(false);
            }
            read_each(alloc, &mut reader, parts)?
        }
    };
    Ok(are_values(&values, &FIELDS_OF_EACH) && reader.len() == 1)
}

/// Whether the values of two readings are equal, and the first and the last of one reading are not.
fn are_compared(alloc: Global) -> Result<bool, FieldFault> {
    let first = read_row(alloc, &mut BitReader::from_octets(&ROW))?;
    let again = read_row(alloc, &mut BitReader::from_octets(&ROW))?;
    Ok(first == again && first.first() != first.last())
}

/// Whether each row is written as its octets, and these are read as its fields.
fn are_rows(alloc: Global, parts: &Parts) -> Result<bool, FieldFault> {
    Ok(
        are_written(&mut BitBuffer::new(alloc), parts)?
            && is_row_read(alloc)?
            && are_octets_read(alloc)?
            && is_each_read(alloc, parts, &mut true)?
            && are_compared(alloc)?,
    )
}

/// Whether reading one field from these octets, at most eight, has this error.
fn has_fault(alloc: Global, octets: &[u8], shape: FieldShape<'_>, kind: FieldFaultKind) -> bool {
    if octets.len() > 8 {
        return false;
    }
    let mut reader = BitReader::from_octets(octets);
    match read_fields(alloc, &mut reader, &[shape]) {
        Ok(_) => false,
        Err(fault) => fault == FieldFault { field: 0, kind },
    }
}

/// Whether reading fails if the octets are not a field: a code is not known, octets are not the fewest, bits are
/// missing, or a number has more than 128 bits.
fn are_refused(alloc: Global, digits: &CharacterAlphabet) -> bool {
    let two = FieldShape::Characters {
        alphabet: digits,
        count: 2,
    };
    let rows: [(&[u8], FieldShape<'_>, FieldFaultKind); 8] = [
        (&[0x2B], two, FieldFaultKind::NoCharacter),
        (
            &[0x00, 0x7F],
            FieldShape::Whole(2),
            FieldFaultKind::NotShortest,
        ),
        (&[0x00], FieldShape::Whole(0), FieldFaultKind::NotShortest),
        (&[0x7F], FieldShape::Number(9), FieldFaultKind::Short),
        (
            &[0x7F],
            FieldShape::Octets(usize::MAX),
            FieldFaultKind::Short,
        ),
        (&[0x7F], FieldShape::Bits(9), FieldFaultKind::Short),
        (&[0x7F], FieldShape::Whole(2), FieldFaultKind::Short),
        (&[0x7F], FieldShape::Number(129), FieldFaultKind::DoesNotFit),
    ];
    for (octets, shape, kind) in rows {
        if !has_fault(alloc, octets, shape, kind) {
            return false;
        }
    }
    true
}

/// Whether a field that does not fit is reported, alone and after another, and nothing of those before it is left
/// after three bits.
fn is_left_alone(buffer: &mut BitBuffer) -> bool {
    let large = FieldBits::Number { value: 8, width: 3 };
    let alone = FieldFault {
        field: 0,
        kind: FieldFaultKind::DoesNotFit,
    };
    let behind = FieldFault {
        field: 1,
        kind: FieldFaultKind::DoesNotFit,
    };
    buffer.push_bits(5, 3).is_ok()
        && write_fields(buffer, &[large]) == Err(alone)
        && write_fields(buffer, &[FieldBits::Octets(&[0xFF]), large]) == Err(behind)
        && buffer.len() == 3
        && buffer.as_bytes() == [0xA0].as_slice()
}

/// Whether a new buffer is left unchanged in the same way.
fn is_refused_alone(alloc: Global) -> bool {
    let mut buffer = BitBuffer::new(alloc);
    is_left_alone(&mut buffer)
}

/// Whether rows are written and read, and what is not a field is an error.
fn are_parts_right(alloc: Global) -> bool {
    match parts_of(alloc, &mut true) {
        Some(parts) => are_rows(alloc, &parts) == Ok(true) && are_refused(alloc, &parts.digits),
        None => false,
    }
}

#[test]
fn fields_are_written_and_read(rt: HostRuntime) {
    let alloc = rt.alloc();
    assert!(rt; are_parts_right(alloc) && is_refused_alone(alloc));
    let fault = FieldFault {
        field: 2,
        kind: FieldFaultKind::Short,
    };
    assert!(rt; is_told(alloc, &fault, "field 2: too few bits are left"));
}

/// Whether a number of `width` ones, written after `offset` zero bits, reads back.
fn is_read_back(alloc: Global, offset: u32, width: u32) -> Result<bool, FieldFault>
    requires { width ≤ 128 }
{
    let ones = u128::MAX.checked_shr(128 - width).unwrap_or(0);
    let mut buffer = BitBuffer::new(alloc);
    let zeros = FieldBits::Number {
        value: 0,
        width: offset,
    };
    let number = FieldBits::Number { value: ones, width };
    write_fields(&mut buffer, &[zeros, number])?;
    let mut reader = BitReader::new(buffer.as_bitslice());
    let shapes = [FieldShape::Number(offset), FieldShape::Number(width)];
    let values = read_fields(alloc, &mut reader, &shapes)?;
    match values.as_slice() {
        [_, FieldValue::Number { value, width: _ }] => Ok(*value == ones),
        _ => Ok(false),
    }
}

#[test]
fn every_alignment_takes_every_width(rt: HostRuntime) {
    for offset in 0..8 {
        for width in 0..129 {
            assert!(rt; is_read_back(rt.alloc(), offset, width) == Ok(true));
        }
    }
}

/// Writes the long row after `count` copies of it. A failed allocation, which sets `granted` to false, has to be
/// reported as Memory and leave the buffer unchanged, and the call is made again. Returns whether the row is finally
/// written.
fn is_written_behind(
    buffer: &mut BitBuffer,
    parts: &Parts,
    count: usize,
    granted: &mut bool,
) -> bool
    requires { count < 8 }
{
    if let Err(fault) = write_each(buffer, parts) {
        *granted = false;
        if fault.kind != FieldFaultKind::Memory
            || buffer.len() != count * 183
            || write_each(buffer, parts).is_err()
        {
            return false;
        }
    }
    buffer.len() == count * 183 + 183
}

/// Whether the long row is written eight times in succession.
fn are_written_behind(alloc: Global, parts: &Parts, granted: &mut bool) -> bool {
    let mut buffer = BitBuffer::new(alloc);
    for count in 0..8 {
        if !is_written_behind(&mut buffer, parts, count, granted) {
            return false;
        }
    }
    buffer.as_bytes().starts_with(&ROW_OF_EACH[..22])
}

/// Writes the long row and reads it, each again after a failed allocation. Returns whether the result is finally
/// right.
fn are_right_at_last(alloc: Global, granted: &mut bool) -> bool {
    match parts_of(alloc, granted) {
        Some(parts) => {
            are_written_behind(alloc, &parts, granted)
                && is_each_read(alloc, &parts, granted) == Ok(true)
        }
        None => false,
    }
}

/// Writes and reads fields, each again after a failed allocation. Returns whether none failed.
pub fn requests(rt: &impl Abort, alloc: Global) -> bool {
    let mut granted = true;
    assert!(rt; are_right_at_last(alloc, &mut granted));
    granted
}
