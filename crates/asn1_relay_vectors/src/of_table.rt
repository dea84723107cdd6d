//! The calls of the library for a type of a table.
use crate::assignments::Assignments;
use crate::relays::{feed_pieces, follow_octets};
use asn1_notation_types::Table;
use asn1_relay_core::{DecodeError, MemorySink, MemorySource, MessageType};
use asn1_relay_vectors_judging::cuts::Inputs;
use asn1_relay_vectors_judging::judged::{Judged, Ran, Rules, Step, Told, Translated};
use asn1_relay_vectors_judging::judging::judge;
use asn1_relay_vectors_judging::streams::{Relayed, Way};
use asn1_relay_vectors_lines::line::{Line, Verdict};
use asn1_table_relay::{TableRelay, TableType, recode_by, run_by};
use std::alloc::{AllocError, Global};

/// A type of a table.
#[derive(Drop)]
pub struct OfTable(pub Table);

/// A relay of messages of a type.
fn relay_of(alloc: Global, of: &OfTable, way: Way) -> TableRelay<'_> {
    let limit = way.limit.octets;
    TableRelay::new(alloc, &of.0.types, of.0.place, way.from, way.to, limit)
}

impl Judged for OfTable {
    fn is_relayed(&self) -> bool {
        true
    }

    fn translate(&self, alloc: Global, rules: Rules, octets: &[u8]) -> Translated {
        recode_by(
            alloc,
            &self.0.types,
            self.0.place,
            rules.from,
            rules.to,
            octets,
        )
    }

    fn front(&self, alloc: Global, rules: Rules, octets: &[u8]) -> Result<Told, DecodeError> {
        let messages = TableType {
            types: &self.0.types,
            place: self.0.place,
        };
        match messages.read_front(alloc, rules.from, octets) {
            Ok((value, rest)) => {
                let encoded = messages.write(alloc, rules.to, &value);
                Ok(Told::new(octets, rest, encoded))
            }
            Err(refusal) => Err(refusal.error),
        }
    }

    fn follow(
        &self,
        alloc: Global,
        way: Way,
        octets: &[u8],
        ends: &[usize],
        out: &mut Vec<u8>,
    ) -> Result<Option<Vec<Step>>, AllocError> {
        let mut relay = relay_of(alloc, self, way);
        Ok(Some(follow_octets(alloc, &mut relay, octets, ends, out)?))
    }

    fn relay(
        &self,
        alloc: Global,
        way: Way,
        pieces: &[&[u8]],
        out: &mut Vec<u8>,
    ) -> Option<Relayed> {
        let mut relay = relay_of(alloc, self, way);
        Some(feed_pieces(&mut relay, pieces, out))
    }

    fn run(&self, alloc: Global, way: Way, octets: Vec<u8>) -> Option<Ran> {
        let mut source = MemorySource::new(octets, None);
        let mut sink = MemorySink::new(alloc, None);
        let limit = way.limit.octets;
        let answer = run_by(
            alloc,
            &self.0.types,
            self.0.place,
            &mut source,
            &mut sink,
            way.from,
            way.to,
            limit,
        );
        Some((answer, sink))
    }
}

/// Judges a line over the table of its type.
///
/// # Errors
///
/// Those of `Assignments::table` and of `judge`.
pub fn judge_table(inputs: &mut Inputs, types: &mut Assignments, line: &Line<'_>) -> Verdict {
    let table = types.table(line.kind, line.constraints)?;
    judge(inputs, &table, line)
}
