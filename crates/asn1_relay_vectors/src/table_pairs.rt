//! Routes between two versions of a type, of a table each.
use crate::assignments::Assignments;
use crate::of_table::OfTable;
use asn1_relay_vectors_judging::cuts::Inputs;
use asn1_relay_vectors_judging::routes::{Claim, Versions, Way, judge};
use asn1_relay_vectors_lines::line::{LineError, Verdict};
use asn1_relay_vectors_lines::route::Arrival;
use asn1_table_relay::route_by;
use std::alloc::Global;

/// An older and a newer version of a type.
#[derive(Drop)]
struct TablePair {
    older: OfTable,
    newer: OfTable,
}

impl Versions for TablePair {
    fn send(&self, alloc: Global, way: Way<'_>, octets: &[u8]) -> Result<Arrival, LineError> {
        if way.hops.is_empty() {
            return Err(LineError::Form);
        }
        let (older, newer) = (&self.older.0, &self.newer.0);
        match asn1_table_relay::Versions::new(
            alloc,
            &older.types,
            older.place,
            &newer.types,
            newer.place,
        ) {
            Ok(versions) => Ok(route_by(alloc, &versions, way.hops, way.from, octets)),
            Err(error) => Err(LineError::Otherwise(format!(in alloc; "{error}")?)),
        }
    }

    fn foretell(&self, _alloc: Global, _place: usize, _way: Way<'_>) -> Option<Arrival> {
        None
    }
}

/// Judges a line of one route over the tables of the types with the names `old-` and `new-`, each followed by that of
/// the pair.
///
/// # Errors
///
/// `NoType` if there are none, or the line is not of one route, and those of `judge`.
pub fn judge_table_pair(
    inputs: &mut Inputs,
    types: &mut Assignments,
    name: &str,
    claim: &Claim,
) -> Verdict {
    if let Claim::Every = claim {
        return Err(LineError::NoType);
    }
    let alloc = inputs.alloc();
    let older = format!(in alloc; "old-{name}")?;
    let newer = format!(in alloc; "new-{name}")?;
    let pair = TablePair {
        older: types.table(older.as_str(), "")?,
        newer: types.table(newer.as_str(), "")?,
    };
    judge(inputs, &pair, &pair.older, &pair.newer, name, claim)
}
