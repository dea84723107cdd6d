//! `run`.
use crate::trial::{Outcome, Trial};
use asn1_relay_core::{Codec, MemorySink, MemorySource, RunFault, run};
use asn1_values::OctetString;
use std::alloc::{AllocError, Global};
use std::mem;

/// `run` over two octet strings of 3000 octets; the second ends in the second block.
#[derive(Drop)]
pub struct Runs {
    alloc: Global,
    input: Vec<u8>,
}

/// The length of one of these octet strings with its length determinant, in octets.
pub const STRING: usize = 3003;

/// Two of these octet strings in COER.
pub fn two_strings(alloc: Global) -> Result<Vec<u8>, AllocError> {
    let mut octets = Vec::with_capacity(alloc, 6006)?;
    for _ in 0..2 {
        octets.extend_from_slice(&[0x82, 0x0B, 0xB8])?;
        octets.extend_from_slice(&[0x5A; 3000])?;
    }
    Ok(octets)
}

/// Whether these octets are one of the octet strings in UPER, after a length determinant of two octets.
fn is_string(octets: &[u8]) -> bool {
    octets.len() == 3002
        && octets.starts_with(&[0x8B, 0xB8])
        && octets.iter().skip(2).all(|octet| *octet == 0x5A)
}

/// How many of the octet strings were written in UPER, if nothing else was.
pub fn written(octets: &[u8]) -> Option<usize> {
    let (first, behind) = octets.split_at(octets.len().min(3002));
    match (first.is_empty(), behind.is_empty()) {
        (true, true) => Some(0),
        (false, true) if is_string(first) => Some(1),
        (false, false) if is_string(first) && is_string(behind) => Some(2),
        _ => None,
    }
}

/// The outcome of a run that must write whole octet strings only. The run reports `Write` if memory ran out in the
/// writer.
fn judged(answer: Result<(), RunFault>, octets: &[u8]) -> Outcome {
    match (answer, written(octets)) {
        (Ok(()), Some(2)) => Outcome::Ample,
        (Err(RunFault::Memory) | Err(RunFault::Write), Some(_)) => Outcome::Wanting,
        _ => Outcome::Wrong,
    }
}

/// The outcome of a run over these octets.
fn run_over(alloc: Global, octets: Vec<u8>) -> Outcome {
    let mut reader = MemorySource::new(octets, None);
    let mut writer = MemorySink::new(alloc, None);
    let answer = run::<OctetString, MemorySource, MemorySink>(
        alloc,
        &mut reader,
        &mut writer,
        Codec::Coer,
        Codec::Uper,
        STRING,
    );
    judged(answer, writer.octets())
}

impl Trial for Runs {
    type Plan = ();

    fn begin(alloc: Global, _plan: ()) -> Result<Runs, AllocError> {
        Ok(Runs {
            alloc,
            input: two_strings(alloc)?,
        })
    }

    fn call(&mut self) -> Outcome {
        let input = mem::replace(&mut self.input, Vec::new(self.alloc));
        run_over(self.alloc, input)
    }

    fn again(&mut self) -> bool {
        match two_strings(self.alloc) {
            Ok(input) => run_over(self.alloc, input) == Outcome::Ample,
            Err(AllocError) => false,
        }
    }
}
