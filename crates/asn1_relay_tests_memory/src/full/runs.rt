//! Runs that run out of memory from one call of their reader or writer on.
use crate::full::starving::Starving;
use asn1_relay_core::{Codec, MemorySink, MemorySource, RunFault, run};
use asn1_relay_trials::{STRING, two_strings, written};
use asn1_values::OctetString;
use std::alloc::{AllocError, Global};

/// The call of the reader or of the writer before which all memory is taken, how many strings have been written then,
/// and the result of the run.
struct Row {
    read: Option<u32>,
    write: Option<u32>,
    written: usize,
    answer: Result<(), RunFault>,
}

/// The first string is whole in the first block of 4096 octets, and the second ends in the second block. A third call
/// of the reader reports the end.
const ROWS: [Row; 6] = [
    Row {
        read: None,
        write: None,
        written: 2,
        answer: Ok(()),
    },
    Row {
        read: Some(0),
        write: None,
        written: 0,
        answer: Err(RunFault::Memory),
    },
    Row {
        read: Some(1),
        write: None,
        written: 1,
        answer: Err(RunFault::Memory),
    },
    Row {
        read: Some(2),
        write: None,
        written: 2,
        answer: Ok(()),
    },
    Row {
        read: None,
        write: Some(0),
        written: 0,
        answer: Err(RunFault::Write),
    },
    Row {
        read: None,
        write: Some(1),
        written: 1,
        answer: Err(RunFault::Write),
    },
];

/// Whether a run over these octets is as its row says.
fn is_run(alloc: Global, row: &Row, octets: Vec<u8>) -> bool {
    let source = MemorySource::new(octets, None);
    let mut reader = Starving::new(alloc, source, row.read);
    let mut writer = Starving::new(alloc, MemorySink::new(alloc, None), row.write);
    let answer = run::<OctetString, Starving<MemorySource>, Starving<MemorySink>>(
        alloc,
        &mut reader,
        &mut writer,
        Codec::Coer,
        Codec::Uper,
        STRING,
    );
    answer == row.answer && written(writer.inner.octets()) == Some(row.written)
}

/// The number of the row whose run is not right, if there is one.
fn wrong_row(alloc: Global) -> Result<Option<usize>, AllocError> {
    for (number, row) in ROWS.iter().enumerate() {
        if !is_run(alloc, row, two_strings(alloc)?) {
            return Ok(Some(number));
        }
    }
    Ok(None)
}

#[test]
fn memory_is_taken_in_mid_stream(rt: HostRuntime) {
    assert!(rt; wrong_row(rt.alloc()) == Ok(None));
}
