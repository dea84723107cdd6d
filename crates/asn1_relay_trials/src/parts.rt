//! Calls on parts of values: fields as bits, elements of SET OF values, and object identifiers as octets.
use crate::trial::{Outcome, Trial};
use asn1_schema::SetOf;
use asn1_values::{
    BitBuffer, BitReader, FieldBits, FieldFault, FieldFaultKind, FieldShape, FieldValue,
    IdentifierError, Integer, Oid, oid_octets, read_fields, write_fields,
};
use std::alloc::{AllocError, AllocFailed, Global};

/// 5 in three bits, the octet FF, 0 in one bit, the INTEGER -1, and four bits.
const ROW: [u8; 3] = [0xBF, 0xEF, 0xF0];

/// `write_fields` of these fields and forty octets, after one octet.
#[derive(Drop)]
pub struct WritesFields {
    buffer: BitBuffer,
}

/// Writes these fields and the forty octets after them.
fn write_row(buffer: &mut BitBuffer) -> Result<(), FieldFault> {
    let fields = [
        FieldBits::Number { value: 5, width: 3 },
        FieldBits::Octets(&[0xFF]),
        FieldBits::Number { value: 0, width: 1 },
        FieldBits::Whole(&Integer::from(-1)),
        FieldBits::Number { value: 0, width: 4 },
        FieldBits::Octets(&[0x5A; 40]),
    ];
    write_fields(buffer, &fields)
}

/// Whether the octets are the first octet, the fields and the forty octets.
fn are_written(octets: &[u8]) -> bool {
    octets.len() == 44
        && octets.starts_with(&[0xAA, 0xBF, 0xEF, 0xF0])
        && octets.iter().skip(4).all(|octet| *octet == 0x5A)
}

impl Trial for WritesFields {
    type Plan = ();

    fn begin(alloc: Global, _plan: ()) -> Result<WritesFields, AllocError> {
        let octets = Vec::from_slice(alloc, &[0xAA])?;
        Ok(WritesFields {
            buffer: BitBuffer::from_vec(octets),
        })
    }

    fn call(&mut self) -> Outcome {
        let answer = write_row(&mut self.buffer);
        let octets = self.buffer.as_bytes();
        match answer {
            Ok(()) => Outcome::of(self.buffer.len() == 352 && are_written(octets)),
            Err(fault) => {
                let is_same = self.buffer.len() == 8 && octets == [0xAA].as_slice();
                Outcome::of_want(fault.kind == FieldFaultKind::Memory && is_same)
            }
        }
    }

    fn again(&mut self) -> bool {
        self.call() == Outcome::Ample
    }
}

/// `read_fields` of these fields.
#[derive(Drop)]
pub struct ReadsFields {
    alloc: Global,
    reader: BitReader<'static>,
}

/// The outcome of reading these fields.
fn row_read(answer: &Result<Vec<FieldValue>, FieldFault>) -> Outcome {
    match answer {
        Ok(values) => Outcome::of(is_row(values)),
        Err(fault) => Outcome::of_want(fault.kind == FieldFaultKind::Memory),
    }
}

/// Whether these values are those of the fields.
fn is_row(values: &[FieldValue]) -> bool {
    match values {
        [
            FieldValue::Number { value: 5, width: 3 },
            FieldValue::Octets(octets),
            FieldValue::Number { value: 0, width: 1 },
            FieldValue::Whole(whole),
        ] => octets.as_slice() == [0xFF].as_slice() && *whole == Integer::from(-1),
        _ => false,
    }
}

impl Trial for ReadsFields {
    type Plan = ();

    fn begin(alloc: Global, _plan: ()) -> Result<ReadsFields, AllocError> {
        Ok(ReadsFields {
            alloc,
            reader: BitReader::from_octets(&ROW),
        })
    }

    fn call(&mut self) -> Outcome {
        let shapes = [
            FieldShape::Number(3),
            FieldShape::Octets(1),
            FieldShape::Number(1),
            FieldShape::Whole(1),
        ];
        let outcome = row_read(&read_fields(self.alloc, &mut self.reader, &shapes));
        let left = if outcome == Outcome::Ample { 4 } else { 24 };
        if self.reader.len() == left {
            outcome
        } else {
            Outcome::Wrong
        }
    }

    fn again(&mut self) -> bool {
        self.call() == Outcome::Ample
    }
}

/// The elements of a SET OF value: as many as the smallest allocation holds, so that one more element needs another.
const MEMBERS: [u8; 24] = [3; 24];

/// The same, and one more.
const MEMBERS_AND_ONE: [u8; 25] = [
    3, 3, 3, 3, 3, 3, 3, 3, 3, 3, 3, 3, 3, 3, 3, 3, 3, 3, 3, 3, 3, 3, 3, 3, 1,
];

/// `SetOf::insert` into a SET OF value with these elements.
#[derive(Drop)]
pub struct Inserts {
    bag: SetOf<u8>,
}

impl Trial for Inserts {
    type Plan = ();

    fn begin(alloc: Global, _plan: ()) -> Result<Inserts, AllocError> {
        Ok(Inserts {
            bag: SetOf::from_vec(Vec::from_slice(alloc, &MEMBERS)?),
        })
    }

    fn call(&mut self) -> Outcome {
        match self.bag.insert(1) {
            Ok(()) => Outcome::of(self.bag.as_slice() == MEMBERS_AND_ONE.as_slice()),
            Err(AllocFailed { value, .. }) => {
                Outcome::of_want(value == 1 && self.bag.as_slice() == MEMBERS.as_slice())
            }
        }
    }

    fn again(&mut self) -> bool {
        self.call() == Outcome::Ample
    }
}

/// `oid_octets` of {2 999}.
#[derive(Drop)]
pub struct WritesIdentifier {
    alloc: Global,
}

/// The outcome of writing that object identifier.
fn identifier_written(answer: &Result<Vec<u8>, IdentifierError>) -> Outcome {
    match answer {
        Ok(octets) => Outcome::of(octets.as_slice() == [0x88, 0x37].as_slice()),
        Err(error) => Outcome::of_want(*error == IdentifierError::Memory),
    }
}

impl Trial for WritesIdentifier {
    type Plan = ();

    fn begin(alloc: Global, _plan: ()) -> Result<WritesIdentifier, AllocError> {
        Ok(WritesIdentifier { alloc })
    }

    fn call(&mut self) -> Outcome {
        identifier_written(&oid_octets(self.alloc, &Oid::new_unchecked(&[2, 999])))
    }

    fn again(&mut self) -> bool {
        self.call() == Outcome::Ample
    }
}
