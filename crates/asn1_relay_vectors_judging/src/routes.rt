//! Whether messages arrive by routes, or are rejected at a hop, as a line says.
mod every;

use crate::cuts::{Front, Input, Inputs};
use crate::judged::Judged;
use asn1_relay_core::{Codec, Hop, RouteFault, RouteFaultKind, Version};
use asn1_relay_vectors_lines::line::{LineError, Verdict};
use asn1_relay_vectors_lines::octets::shown;
use asn1_relay_vectors_lines::route::{Arrival, Route};
use std::alloc::Global;
use std::fmt::Write;

/// The hops over which a message is sent, and the rules in which it is before the first of them.
#[derive(Clone, Copy)]
pub struct Way<'a> {
    /// The rules of the message.
    pub from: Codec,
    /// The hops.
    pub hops: &'a [Hop],
}

/// A pair of versions.
pub trait Versions {
    /// Sends octets over hops.
    ///
    /// # Errors
    ///
    /// `Form` if there is no hop, `Otherwise` if it is no pair of versions, and `Memory` if memory runs out.
    fn send(&self, alloc: Global, way: Way<'_>, octets: &[u8]) -> Result<Arrival, LineError>;

    /// The expected outcome of the encoding of the sample with this index, sent over hops. If there is no hop, it is
    /// this encoding. None if there is no such sample.
    fn foretell(&self, alloc: Global, place: usize, way: Way<'_>) -> Option<Arrival>;
}

/// What a line says of a pair of versions.
#[derive(Drop)]
pub enum Claim {
    /// A message arrives by a route, or is rejected.
    One(Route),
    /// For every short list of hops, messages arrive as their values predict.
    Every,
}

/// Reads a line of routes, which begins with `route` or `routes`: the name of a pair of versions, and what is said of
/// it. None if it begins with another word.
///
/// # Errors
///
/// Those of `Route::read`.
pub fn read_routes(alloc: Global, said: &str) -> Result<Option<(&str, Claim)>, LineError> {
    match said.split_once(' ') {
        Some(("route", text)) => {
            let (pair, text) = text.split_once(' ').ok_or(LineError::Form)?;
            Ok(Some((pair, Claim::One(Route::read(alloc, text)?))))
        }
        Some(("routes", pair)) => Ok(Some((pair, Claim::Every))),
        _ => Ok(None),
    }
}

/// Judges what a line says of a pair of versions, and tries its octets as of either version when truncated.
///
/// # Errors
///
/// Those of `judge_claim`.
pub fn judge(
    inputs: &mut Inputs,
    of: &dyn Versions,
    older: &dyn Judged,
    newer: &dyn Judged,
    pair: &str,
    claim: &Claim,
) -> Verdict {
    judge_claim(inputs.alloc(), of, claim)?;
    if let Claim::One(route) = claim {
        judge_cuts(inputs, older, Version::Old, pair, route)?;
        judge_cuts(inputs, newer, Version::New, pair, route)?;
    }
    Ok(())
}

/// Judges what a line says of a pair of versions.
///
/// # Errors
///
/// `Otherwise` if the library does not do what is said, `Form` if a route has no hop, and `Memory` if memory runs out.
pub fn judge_claim(alloc: Global, of: &dyn Versions, claim: &Claim) -> Verdict {
    match claim {
        Claim::One(route) => {
            let hops = route.hops.as_slice();
            for from in route.source.rules.iter() {
                let way = Way { from: *from, hops };
                arrives(
                    alloc,
                    of,
                    way,
                    route.source.octets.as_slice(),
                    &route.arrival,
                )?;
            }
            Ok(())
        }
        Claim::Every => every::judge_every(alloc, of),
    }
}

/// Tries a message when truncated, as one of a version. The line says how the first hop decodes it.
fn judge_cuts(
    inputs: &mut Inputs,
    of: &dyn Judged,
    version: Version,
    pair: &str,
    route: &Route,
) -> Verdict {
    let name = format!(in inputs.alloc(); "{pair} {version:?}")?;
    let input = Input {
        name: name.as_str(),
        octets: route.source.octets.as_slice(),
    };
    let rules = match route.hops.first() {
        Some(hop) if hop.version == version => route.source.rules.as_slice(),
        _ => &[],
    };
    inputs.judge(of, input, rules, front_of(&route.arrival))
}

/// What the first hop finds in the prefixes of a message, by the outcome of the route.
fn front_of(arrival: &Arrival) -> Front {
    match arrival {
        Err(
            RouteFault {
                hop: 0,
                kind: RouteFaultKind::Read(error),
            },
        ) => Front::Missing(*error),
        Err(
            RouteFault {
                hop: 0,
                kind: RouteFaultKind::Surplus,
            },
        ) => Front::Part,
        _ => Front::Whole,
    }
}

/// A message that is sent over hops must arrive as these octets, or be rejected at this hop and for this reason.
fn arrives(
    alloc: Global,
    of: &dyn Versions,
    way: Way<'_>,
    octets: &[u8],
    wanted: &Arrival,
) -> Verdict {
    let found = of.send(alloc, way, octets)?;
    let is_wanted = match (&found, wanted) {
        (Ok(found), Ok(wanted)) => found.as_slice() == wanted.as_slice(),
        (Err(found), Err(wanted)) => *found == *wanted,
        _ => false,
    };
    if is_wanted {
        return Ok(());
    }
    let found = match &found {
        Ok(octets) => shown(alloc, octets.as_slice())?,
        Err(fault) => format!(in alloc; "{fault:?}")?,
    };
    let route = route_shown(alloc, way, octets)?;
    let found = format!(in alloc; "{route} gives {found}")?;
    Err(LineError::Otherwise(found))
}

/// A message and its route, in the form of a line.
fn route_shown(alloc: Global, way: Way<'_>, octets: &[u8]) -> Result<String, LineError> {
    let octets = shown(alloc, octets)?;
    let mut text = format!(in alloc; "{:?} {octets}", way.from)?;
    for hop in way.hops {
        write!(text, " {:?}:{:?}", hop.version, hop.to)?;
    }
    Ok(text)
}
