//! What a line says about a route.
use crate::line::{LineError, READING_ERRORS, Spelled, WRITING_ERRORS, named, read_rules};
use crate::octets::push_octets;
use asn1_relay_core::{Hop, RouteFault, RouteFaultKind, Version};
use std::alloc::{AllocError, Global};

/// The outcome for a message.
pub type Arrival = Result<Vec<u8>, RouteFault>;

/// A message, its hops, and what arrives, or the hop that rejects it and why.
#[derive(Drop)]
pub struct Route {
    /// The message.
    pub source: Spelled,
    /// The hops.
    pub hops: Vec<Hop>,
    /// The outcome.
    pub arrival: Arrival,
}

impl Route {
    /// Reads the text after the name of a pair of versions.
    ///
    /// # Errors
    ///
    /// `Form`, `Rules`, `Octets` or `NoError` if it does not have the form of a line, and `Memory` if memory runs out.
    pub fn read(alloc: Global, text: &str) -> Result<Route, LineError> {
        let (sent, arrival) = text.split_once("->").ok_or(LineError::Form)?;
        let (source, hops) = read_sent(alloc, sent)?;
        let arrival = read_arrival(alloc, arrival.trim())?;
        Ok(Route {
            source,
            hops,
            arrival,
        })
    }
}

/// Reads rules, octets and hops.
fn read_sent(alloc: Global, text: &str) -> Result<(Spelled, Vec<Hop>), LineError> {
    let mut words = text.split_whitespace();
    let rules = read_rules(alloc, words.next().ok_or(LineError::Form)?)?;
    let mut octets = Vec::new(alloc);
    let mut hops = Vec::new(alloc);
    for word in words {
        match word.split_once(':') {
            Some((version, to)) => {
                let hop = read_hop(alloc, version, to)?;
                hops.push(hop).map_err(AllocError::from)?;
            }
            None if hops.is_empty() => push_octets(&mut octets, word)?,
            None => return Err(LineError::Form),
        }
    }
    let readers = Vec::from_slice(alloc, rules.as_slice())?;
    let source = Spelled {
        rules,
        readers,
        octets,
    };
    Ok((source, hops))
}

/// Reads a hop: a version and a set of rules.
fn read_hop(alloc: Global, version: &str, to: &str) -> Result<Hop, LineError> {
    let version = match version {
        "old" => Version::Old,
        "new" => Version::New,
        _ => return Err(LineError::Form),
    };
    match read_rules(alloc, to)?.as_slice() {
        [to] => Ok(Hop { version, to: *to }),
        _ => Err(LineError::Rules),
    }
}

/// Reads what arrives, or the hop that rejects the message and why.
fn read_arrival(alloc: Global, text: &str) -> Result<Arrival, LineError> {
    if let Some(fault) = text.strip_prefix("hop ") {
        return Ok(Err(read_fault(alloc, fault)?));
    }
    let mut octets = Vec::new(alloc);
    for word in text.split_whitespace() {
        push_octets(&mut octets, word)?;
    }
    Ok(Ok(octets))
}

/// Reads the number of a hop, and why it rejects the message.
fn read_fault(alloc: Global, text: &str) -> Result<RouteFault, LineError> {
    let (hop, reason) = text.split_once(' ').ok_or(LineError::Form)?;
    let kind = match reason.split_once(' ') {
        Some(("NoTarget", error)) => {
            RouteFaultKind::NoTarget(named(alloc, error, &WRITING_ERRORS)?)
        }
        Some(_) => return Err(LineError::Form),
        None if reason == "Surplus" => RouteFaultKind::Surplus,
        None => RouteFaultKind::Read(named(alloc, reason, &READING_ERRORS)?),
    };
    Ok(RouteFault {
        hop: hop.parse::<usize>().map_err(|_| LineError::Form)?,
        kind,
    })
}
